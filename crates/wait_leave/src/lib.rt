//! Waits that their own task leaves: where they go on that were asked to, from each of their stages. In the kernel the
//! parts of a wait are that way out (`prepare_to_wait`, `finish_wait`, kernel/sched/wait.c).
#![tactic(auto)]

pub mod exits;
pub mod leavable;
pub mod leaves;

pub use exits::{Exit, Until};
pub use leavable::{Leavable, Parting};
pub use leaves::{ask, leave, run_asked, stretch_out};
