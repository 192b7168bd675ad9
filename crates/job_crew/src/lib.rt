//! Four or five jobs at once, each in a thread of its own, or none of them.
#![tactic(auto)]

pub mod crew;

pub use crew::{Job, all_at_once, five_at_once};
