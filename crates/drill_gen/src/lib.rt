//! Large valid scripts from a number: calls of sixteen tasks on four conditions, drawn from a seed.
#![tactic(auto)]

mod draw;
mod lines;

pub use lines::{MOST_CALLS, drill};
