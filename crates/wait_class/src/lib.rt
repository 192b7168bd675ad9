//! Calls that wait, as machines of small stages over tables: what all of them share.
#![tactic(auto)]

pub mod events;
pub mod frame_stages;
pub mod frames;
pub mod machines;
pub mod queueing;
pub mod runs;
pub mod stages;
