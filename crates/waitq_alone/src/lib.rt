//! What the program `waitq` does without a handle: its words, its statuses with their lines, and the commands `replay` and
//! `drill`. It knows nothing of threads, and of a copy and a merge only the words.
#![tactic(auto)]

pub mod alone;
pub mod command;
mod drill;
mod events;
pub mod fault;
mod play;
mod replay;
pub mod report;
mod silent;
pub mod words;
