//! Bits that tasks take as locks and give back, on real threads (include/linux/wait_bit.h, kernel/sched/wait_bit.c).
#![tactic(auto)]

pub mod clears;
pub mod laws;
pub mod lock_calls;
pub mod lock_leaves;
pub mod lock_runs;
pub mod lock_waits;
pub mod tries;
pub mod wait_calls;
pub mod wait_leaves;
pub mod waits;

pub use clears::clear_and_wake_bit;
pub use lock_calls::wait_on_bit_lock;
pub use lock_leaves::{end_lock_until, leave_lock, wait_on_bit_lock_until};
pub use tries::test_and_set;
pub use wait_calls::{BitEnd, wait_on_bit};
pub use wait_leaves::{end_bit_until, leave_bit, wait_on_bit_until};
