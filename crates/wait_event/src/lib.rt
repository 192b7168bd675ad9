//! Waits for plain conditions and variables on real threads, and the calls of the wakers of plain conditions. A call
//! that waits goes on in stretches.
#![tactic(auto)]

pub mod conds;
pub mod entries;
pub mod laws;
pub mod prepares;
pub mod wait_events;
pub mod wait_leaves;
pub mod waits;
pub mod woken_waits;

pub use conds::{set_and_wake, take_cond};
pub use entries::{add_entry, remove_entry};
pub use prepares::{Prepared, finish_wait, prepare_event, prepare_exclusive, prepare_to_wait};
pub use wait_events::{WaitEnd, begin_wait, wait_event};
pub use wait_leaves::{WaitUntil, leave_wait, wait_event_until};
pub use woken_waits::wait_woken;
