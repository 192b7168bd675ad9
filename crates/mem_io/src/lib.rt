//! The outside in memory, for tests: `MemSource`, `MemSink` and `MemFolder` are what `edge_io` says of sources, sinks and
//! folders, and fail where they are told to.
#![tactic(auto)]

mod fails;
mod mem_folder;
mod memory;

pub use mem_folder::MemFolder;
pub use memory::{MemSink, MemSource};
