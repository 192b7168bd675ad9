//! Waits for two conditions that go on by stretches, for who may not wait: an executor, or a caller from another
//! language.
#![tactic(auto)]

mod asking;
mod entries;
pub mod laws;
pub mod stages;
pub mod stretches;
mod taking;
mod tickets;

pub use poll_wait::turns::Poll;
pub use stages::{PollStage, PollTurn, PollUntil};
pub use stretches::{
    begin_poll, end_poll, end_poll_until, stretch_poll, stretch_poll_out, woke_poll,
};
