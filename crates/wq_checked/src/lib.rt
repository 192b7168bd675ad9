//! The calls of the library for who proves nothing: a task with what is kept of it at run time. Each call is tested
//! against that, and is made, or is refused with a reason, and then nothing has changed. No public call has a
//! `requires`. A call that waits, or that wakes, is begun, and goes on by `CheckedTask::advance`, stretch by stretch,
//! so that no call waits for anybody.
#![tactic(auto)]

mod admission;
mod advances;
mod at_once;
pub mod beginnings;
pub mod calls;
pub mod kept_bits;
mod kinds;
mod locks;
pub mod owners;
pub mod reasons;
mod stretches;
pub mod tasks;
mod wakings;

pub use calls::{Answer, Awaited, Call, Progress};
pub use reasons::Refused;
pub use tasks::CheckedTask;
