//! Simple wait queues on real threads (kernel/sched/swait.c): waits for the plain conditions whose heads are simple
//! ones, and wakes that select the first entry or all.
#![tactic(auto)]

pub mod laws;
pub mod swake_turns;
pub mod waits;
pub mod wakes;

pub use swake_turns::{SwakeRun, SwakeStage, SwakeTurn, swake_stretch};
pub use waits::{begin_swait, swait_event, swait_event_until};
pub use wakes::{swake_all, swake_all_locked, swake_locked, swake_one};
