//! Waits for variables on real threads (include/linux/wait_bit.h, `wait_var_event`; kernel/sched/wait_bit.c,
//! `wake_up_var`): a wait ends when the variable has another value than the one that its task has seen.
#![tactic(auto)]

pub mod laws;
pub mod publishes;
pub mod waits;

pub use publishes::publish_var_and_wake;
pub use waits::{begin_var, end_of_var, until_of_var, wait_var, wait_var_until};
