//! Two sources merged into one sink, whichever has bytes first, by tasks in threads of their own: a reader for each
//! source, a merger that waits for both of their pipes at once, a writer, and a controller that waits for these four.
//! The readers, the writer and the controller are those of a copy (`flow_copy`).
#![tactic(auto)]

pub mod merge;
pub mod merger;
pub mod sides;
pub mod workers;

pub use merge::{MergeEnd, Unmerged, merge_all};
pub use merger::merger_task;

/// The pipe from the reader of the first source to the merger.
pub const LEFT_PIPE: u8 = 0;

/// The pipe from the reader of the second source to the merger.
pub const RIGHT_PIPE: u8 = 1;

/// The pipe from the merger to the writer.
pub const MERGED_PIPE: u8 = 2;
