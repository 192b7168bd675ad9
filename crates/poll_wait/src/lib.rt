//! Waits for two conditions at once, with an entry queued for each.
#![tactic(auto)]

pub mod laws;
pub mod polls;
pub mod seconds;
pub mod turns;

pub use polls::poll_two;
pub use turns::{PollEnd, Ready};
