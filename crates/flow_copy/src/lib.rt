//! A copy through two bounded pipes by four tasks in threads of their own: a reader puts the bytes of a source into the
//! first pipe, a relay passes them on into the second, a writer puts them into a sink, and a controller waits for all
//! three. Each counts the bytes that it passed on in the tally of one page, which they lock in turn.
#![tactic(auto)]

pub mod controller;
pub mod copy;
pub mod jobs;
pub mod laws;
pub mod parts;
pub mod reader;
pub mod relay;
pub mod workers;
pub mod writer;

pub use controller::controller_task;
pub use copy::{CopyEnd, Unstarted, copy_all};
pub use reader::reader_task;
pub use relay::relay_task;
pub use writer::writer_task;
