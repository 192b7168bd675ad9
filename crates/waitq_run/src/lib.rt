//! What the program `waitq` does with its words: it replays scripts, drills, copies files, and merges two.
#![tactic(auto)]

mod copy;
mod merge;
pub mod run;
