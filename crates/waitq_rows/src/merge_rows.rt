//! Merges through `run`, over a folder in memory.

use crate::cases::{
    Bytes, Case, Held, Outside, READ_FAILED, RUN, USAGE, WRITE_FAILED, play_all, play_words,
};
use std::test::Fail;

/// A merge of `a` and `b` into `c`. The reads that fail are those of `a`.
const MERGE: Case = Case {
    words: &["merge", "a", "b", "c"],
    into: "c",
    left: Held::Merged,
    ..RUN
};

const MERGES: &[Case] = &[
    Case {
        name: "an_empty_file_and_another",
        a: Some(Bytes::Just("")),
        b: Some(Bytes::Just("hello")),
        text: Bytes::Just("merged 5 bytes\nmoved 15\n"),
        ..MERGE
    },
    Case {
        name: "two_files_that_fill_no_pipe",
        a: Some(Bytes::Lines("", "a", 7_000)),
        b: Some(Bytes::Lines("", "b", 7_000)),
        text: Bytes::Merged(14_000),
        ..MERGE
    },
];

/// How many bytes the two files have of each merge that is made for their sizes, and both together.
const SIZES: &[(usize, usize, u64)] = &[
    (0, 0, 0),
    (1, 0, 1),
    (4_096, 4_097, 8_193),
    (7_168, 7_169, 14_337),
    (20_000, 1, 20_001),
    (3, 50_000, 50_003),
];

#[test]
fn merges_of_several_sizes(rt: HostRuntime) -> Result<(), Fail> {
    play_all(&rt, rt.alloc(), MERGES)?;
    for (first, second, both) in SIZES {
        let case = Case {
            name: "merges_of_several_sizes",
            a: Some(Bytes::Letters(b'A', *first)),
            b: Some(Bytes::Letters(b'a', *second)),
            text: Bytes::Merged(*both),
            ..MERGE
        };
        play_all(&rt, rt.alloc(), &[case])?;
    }
    Ok(())
}

/// Words that are no merge command, over two files of one byte.
const OTHER: Case = Case {
    name: "words_that_are_no_merge_command",
    a: Some(Bytes::Just("x")),
    b: Some(Bytes::Just("y")),
    status: 2,
    line: USAGE,
    ..RUN
};

const OTHERS: &[&[&str]] = &[
    &["merge"],
    &["merge", "a"],
    &["merge", "a", "b"],
    &["merge", "a", "b", "c", "d"],
    &["merge", "a", "a", "c"],
    &["merge", "a", "b", "a"],
    &["merge", "a", "b", "b"],
    &["merge", "", "b", "c"],
    &["merge", "a", "", "c"],
    &["merge", "a", "b", ""],
    &["merge", "-a", "b", "c"],
    &["merge", "a", "-b", "c"],
    &["merge", "a", "b", "-c"],
    &["Merge", "a", "b", "c"],
];

#[test]
fn words_that_are_no_merge_command(rt: HostRuntime) -> Result<(), Fail> {
    play_words(&rt, rt.alloc(), OTHER, OTHERS)
}

/// A merge of two files of one byte that makes no file.
const UNMADE: Case = Case {
    a: Some(Bytes::Just("x")),
    b: Some(Bytes::Just("y")),
    left: Held::Kept,
    ..MERGE
};

/// Merges where there is no file `b`, and the lines that tell the first file that is missing.
const MISSING: &[(&[&str], &str)] = &[
    (&["merge", "a", "b", "c"], "waitq: no file b\n"),
    (&["merge", "b", "a", "c"], "waitq: no file b\n"),
    (&["merge", "d", "e", "c"], "waitq: no file d\n"),
];

// The calls of the folder, in their order: both files are opened, `c` is made, and then it is stored.
const UNMADES: &[(&str, &[(Outside, u64)], u8, &str)] = &[
    ("the first open", &[(Outside::Folder, 1)], 4, READ_FAILED),
    ("the second open", &[(Outside::Folder, 2)], 4, READ_FAILED),
    ("the create", &[(Outside::Folder, 3)], 5, WRITE_FAILED),
    ("the store", &[(Outside::Folder, 4)], 5, WRITE_FAILED),
];

#[test]
fn faults_of_the_folder_leave_it(rt: HostRuntime) -> Result<(), Fail> {
    for (words, line) in MISSING {
        let case = Case {
            name: "the_first_missing_file_is_told",
            words: *words,
            b: None,
            status: 4,
            line: *line,
            ..UNMADE
        };
        play_all(&rt, rt.alloc(), &[case])?;
    }
    for (name, fails, status, line) in UNMADES {
        let case = Case {
            name: *name,
            fails: *fails,
            status: *status,
            line: *line,
            ..UNMADE
        };
        play_all(&rt, rt.alloc(), &[case])?;
    }
    Ok(())
}

/// A merge of capital and of small letters, of which fronts arrive; a fault of a read stops it, or one of a write.
const UNREAD: Case = Case {
    a: Some(Bytes::Letters(b'A', 20_000)),
    b: Some(Bytes::Letters(b'a', 20_000)),
    status: 4,
    line: READ_FAILED,
    left: Held::MergedFronts,
    ..MERGE
};

const UNWRITTEN: Case = Case {
    status: 5,
    line: WRITE_FAILED,
    ..UNREAD
};

/// What fails, with the merge that it stops.
const FAULTS: &[(&str, Case, &[(Outside, u64)])] = &[
    ("the first read", UNREAD, &[(Outside::Read, 1)]),
    ("the third read", UNREAD, &[(Outside::Read, 3)]),
    ("the first write", UNWRITTEN, &[(Outside::Write, 1)]),
    ("the fourth write", UNWRITTEN, &[(Outside::Write, 4)]),
];

const OTHER_FAULTS: &[Case] = &[
    Case {
        name: "neither the second write nor the line",
        fails: &[(Outside::Write, 2), (Outside::Err, 1)],
        line: "",
        ..UNWRITTEN
    },
    Case {
        name: "a_text_that_is_not_written_leaves_the_whole_file",
        a: Some(Bytes::Letters(b'A', 5_000)),
        b: Some(Bytes::Letters(b'a', 9_000)),
        fails: &[(Outside::Out, 1)],
        left: Held::Merged,
        ..UNWRITTEN
    },
];

#[test]
fn faults_in_the_midst_leave_fronts(rt: HostRuntime) -> Result<(), Fail> {
    for (name, stopped, fails) in FAULTS {
        let case = Case {
            name: *name,
            fails: *fails,
            ..*stopped
        };
        play_all(&rt, rt.alloc(), &[case])?;
    }
    play_all(&rt, rt.alloc(), OTHER_FAULTS)
}
