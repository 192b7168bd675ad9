//! Runs of the program over streams and a folder in memory, as rows of tables, and what plays them. A test plays a
//! table, since the proof of a test takes as long as it has calls and branches, and that of a table as long as its text.

mod bytes;
mod plays;

pub(crate) use crate::cases::bytes::{Bytes, Like};
pub(crate) use crate::cases::plays::{play_all, play_under, play_words, plays_script, wants};

/// What can fail: a read of the file `a`, a write of a new file, a call of the folder, a read of the input, and a write of
/// the output or of the error stream.
#[derive(Clone, Copy, PartialEq, Eq)]
pub(crate) enum Outside {
    Read,
    Write,
    Folder,
    In,
    Out,
    Err,
}

/// What a file is to hold after a run.
#[derive(Clone, Copy)]
pub(crate) enum Held {
    /// What it held before; and there is none where there was none.
    Kept,
    /// Bytes that are like those of the file `a`.
    Such(Like),
    /// The bytes of the files `a` and `b`, those of each in their order.
    Merged,
    /// A front of those of each.
    MergedFronts,
    /// Whatever the run has left.
    Any,
}

/// A run of the program: its words with the events after them, its input, the files `a` and `b`, and what fails, by the
/// numbers of its calls; and what it is to answer, to write and to leave in one file. It keeps the others.
#[derive(Clone, Copy)]
pub(crate) struct Case {
    pub(crate) name: &'static str,
    pub(crate) words: &'static [&'static str],
    pub(crate) events: &'static [&'static str],
    pub(crate) input: Bytes,
    pub(crate) a: Option<Bytes>,
    pub(crate) b: Option<Bytes>,
    pub(crate) fails: &'static [(Outside, u64)],
    pub(crate) status: u8,
    pub(crate) like: Like,
    pub(crate) text: Bytes,
    pub(crate) line: &'static str,
    pub(crate) into: &'static str,
    pub(crate) left: Held,
}

/// A run with no words, no input and no files, in which nothing fails.
pub(crate) const RUN: Case = Case {
    name: "",
    words: &[],
    events: &[],
    input: Bytes::Just(""),
    a: None,
    b: None,
    fails: &[],
    status: 0,
    like: Like::All,
    text: Bytes::Just(""),
    line: "",
    into: "b",
    left: Held::Kept,
};

pub(crate) const REPLAY: Case = Case {
    words: &["replay"],
    ..RUN
};

/// What other words are refused with.
pub(crate) const USAGE: &str =
    "waitq: usage: waitq replay | waitq copy SRC DST [EVENT]... | waitq drill SEED COUNT \
    | waitq merge A B DST\n";

pub(crate) const READ_FAILED: &str = "waitq: read failed\n";

pub(crate) const WRITE_FAILED: &str = "waitq: write failed\n";
