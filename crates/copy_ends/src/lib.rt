//! What the tasks of a copy did from their beginnings to their ends, and what that makes of the copy: the definitions and
//! their theorems, and the tasks given out and taken in. It knows nothing of how a page is locked.
#![tactic(auto)]

pub mod tasks;

pub use tasks::{control_stop, fork_five, fork_four, join_five, join_four};
