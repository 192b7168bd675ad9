//! Counting semaphores with direct hand-over on real threads (kernel/locking/semaphore.c): a permit that is given back
//! goes to the first who waits, and is counted only where nobody does. A semaphore is a completion's cell, and its
//! count the done count, which is 0 at first.
#![tactic(auto)]

pub mod down_calls;
pub mod downs;
pub mod laws;
pub mod leaves;
pub mod passes;
pub mod ups;

pub use down_calls::{SemEnd, begin_down, down};
pub use leaves::{down_until, leave_down};
pub use ups::{SemFull, try_down, up};
