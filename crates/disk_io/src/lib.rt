//! The outside of `edge_io` as the system has it: files by their names, and the standard streams. Each failure is counted,
//! and no bytes are told. With them the words that a program is given.
#![tactic(auto)]

pub mod files;
mod given;
pub mod streams;

pub use files::Disk;
pub use given::words;
pub use streams::{Reading, Writing};
