//! Completions on real threads (kernel/sched/completion.c): counts that tasks raise, and that others wait for and take.
#![tactic(auto)]

pub mod asks;
pub mod await_calls;
pub mod awaits;
pub mod cell_turns;
pub mod completes;
pub mod laws;
pub mod leaves;

pub use asks::{is_done, reinit, try_wait};
pub use await_calls::{begin_await, wait_for};
pub use completes::{complete, complete_all};
pub use leaves::wait_for_until;
