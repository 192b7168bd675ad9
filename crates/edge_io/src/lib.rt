//! The outside of the program as traits: where bytes come from, where they go, and files by their names.
//!
//! `Source` and `Sink` say what a read and a write do with bytes that are known, and what a fault
//! leaves as it was. `Folder` opens a file as a source, and stores what a sink holds as a file.
//! Each object counts its faults, and only a counted fault may be answered as one.
//! `read_all` and `write_all` go on to the end, and `Buffer` gathers small texts on their way to a sink.
#![tactic(auto)]

mod buffer;
mod folder;
mod sink;
mod source;
mod whole;

pub use buffer::{BUFFER_ROOM, Buffer};
pub use folder::{Folder, OpenFault};
pub use sink::{Sink, SinkFault, write_all};
pub use source::{Failed, Source};
pub use whole::{ReadFault, read_all};
