//! Copies through `run`, over a folder in memory.

use crate::cases::{
    Bytes, Case, Held, Like, Outside, READ_FAILED, RUN, USAGE, WRITE_FAILED, play_all, play_words,
};
use std::test::Fail;

/// The bytes of the file `a` of most copies.
const BYTES: Bytes = Bytes::Hundreds(20_000);

/// A file with all of them, with the first piece of them, and with any front.
const WHOLE: Held = Held::Such(Like::All);

const PIECE: Held = Held::Such(Like::Front(4_096));

const FRONT: Held = Held::Such(Like::AtMost(20_000));

const EMPTY: Held = Held::Such(Like::Front(0));

/// A copy of them, in which nothing fails.
const COPY: Case = Case {
    words: &["copy", "a", "b"],
    a: Some(BYTES),
    text: Bytes::Just("copied 20000 bytes\nmoved 60000\nwatch 0 20000\nwatch 1 200\nsignals 0\n"),
    left: WHOLE,
    ..RUN
};

/// One that says nothing, but in its line why.
const STOPPED: Case = Case {
    text: Bytes::Just(""),
    ..COPY
};

/// How many bytes each copy has that is made for its size.
const SIZES: [u32; 4] = [0, 1, 7_168, 7_169];

#[test]
fn copies_of_several_sizes(rt: HostRuntime) -> Result<(), Fail> {
    let kept = Case {
        name: "a_copy_writes_its_text_and_the_file",
        ..COPY
    };
    play_all(&rt, rt.alloc(), &[kept])?;
    for size in SIZES {
        let case = Case {
            name: "copies_of_several_sizes",
            a: Some(Bytes::Lines("", "x", size)),
            text: Bytes::Copied(u64::from(size)),
            ..COPY
        };
        play_all(&rt, rt.alloc(), &[case])?;
    }
    Ok(())
}

const SIGNALS: &[Case] = &[
    Case {
        name: "planned_signals_are_sent: two at one worker",
        events: &["signal:relay@4096", "signal:relay@4096"],
        like: Like::Ends,
        text: Bytes::Just("signals 2\n"),
        ..COPY
    },
    Case {
        name: "planned_signals_are_sent: a kill beyond the end is not",
        events: &["kill:writer@20001"],
        like: Like::Ends,
        text: Bytes::Just("signals 0\n"),
        ..COPY
    },
    Case {
        name: "planned_signals_are_sent: 16",
        events: &["signal:writer@0"; 16],
        like: Like::Ends,
        text: Bytes::Just("signals 16\n"),
        ..COPY
    },
    Case {
        name: "at_most_16_signals_are_planned: 16",
        events: &["signal:reader@0"; 16],
        a: Some(Bytes::Just("x")),
        like: Like::Begins,
        text: Bytes::Just(""),
        left: Held::Any,
        ..COPY
    },
    Case {
        name: "at_most_16_signals_are_planned: 17",
        events: &["signal:reader@0"; 17],
        a: Some(Bytes::Just("x")),
        status: 2,
        text: Bytes::Just(""),
        line: USAGE,
        left: Held::Kept,
        ..COPY
    },
];

#[test]
fn planned_signals_are_sent(rt: HostRuntime) -> Result<(), Fail> {
    play_all(&rt, rt.alloc(), SIGNALS)
}

/// A copy that a kill stops.
const KILLED: Case = Case {
    status: 6,
    line: "waitq: killed\n",
    ..STOPPED
};

// A kill that is sent before the first read stops its own worker at the beginning of its next turn: of what went on
// through this one no more has arrived than the piece of one turn.
const KILLS: &[(&[&str], Held)] = &[
    (&["kill:writer@4096"], FRONT),
    (&["kill:reader@0"], EMPTY),
    (&["kill:relay@20000"], FRONT),
    (&["kill:relay@0"], Held::Such(Like::AtMost(4_096))),
    (&["kill:writer@0"], Held::Such(Like::AtMost(4_096))),
];

#[test]
fn a_kill_that_was_sent_ends_with_its_status(rt: HostRuntime) -> Result<(), Fail> {
    for (events, left) in KILLS {
        let case = Case {
            name: events[0],
            events: *events,
            left: *left,
            ..KILLED
        };
        play_all(&rt, rt.alloc(), &[case])?;
    }
    Ok(())
}

/// A copy that a fault of a read stops, and one that a fault of a write does.
const UNREAD: Case = Case {
    status: 4,
    line: READ_FAILED,
    ..STOPPED
};

const UNWRITTEN: Case = Case {
    status: 5,
    line: WRITE_FAILED,
    ..STOPPED
};

/// What fails, with the copy that it stops, and what that leaves.
const FAULTS: &[(&str, Case, &[(Outside, u64)], Held)] = &[
    ("the first read", UNREAD, &[(Outside::Read, 1)], EMPTY),
    ("the second read", UNREAD, &[(Outside::Read, 2)], PIECE),
    ("no open", UNREAD, &[(Outside::Folder, 1)], Held::Kept),
    (
        "no new file",
        UNWRITTEN,
        &[(Outside::Folder, 2)],
        Held::Kept,
    ),
    ("no store", UNWRITTEN, &[(Outside::Folder, 3)], Held::Kept),
    ("no text", UNWRITTEN, &[(Outside::Out, 1)], WHOLE),
    ("the second write", UNWRITTEN, &[(Outside::Write, 2)], FRONT),
];

const OTHER_FAULTS: &[Case] = &[
    Case {
        name: "a_missing_file_ends_with_its_name",
        words: &["copy", "c", "b"],
        a: Some(Bytes::Just("x")),
        line: "waitq: no file c\n",
        left: Held::Kept,
        ..UNREAD
    },
    Case {
        name: "neither the second read nor the line",
        fails: &[(Outside::Read, 2), (Outside::Err, 1)],
        line: "",
        left: PIECE,
        ..UNREAD
    },
    Case {
        name: "a read that fails is told, though a kill was planned",
        events: &["kill:writer@0"],
        fails: &[(Outside::Read, 1)],
        left: Held::Any,
        ..UNREAD
    },
];

#[test]
fn faults_of_the_outside_end_with_their_statuses(rt: HostRuntime) -> Result<(), Fail> {
    for (name, stopped, fails, left) in FAULTS {
        let case = Case {
            name: *name,
            fails: *fails,
            left: *left,
            ..*stopped
        };
        play_all(&rt, rt.alloc(), &[case])?;
    }
    play_all(&rt, rt.alloc(), OTHER_FAULTS)
}

/// Words that are no copy command.
const OTHER: Case = Case {
    name: "words_that_are_no_copy_command",
    a: Some(Bytes::Just("x")),
    status: 2,
    line: USAGE,
    ..RUN
};

const OTHERS: &[&[&str]] = &[
    &["copy"],
    &["copy", "a"],
    &["copy", "a", "a"],
    &["copy", "a", ""],
    &["copy", "-a", "b"],
    &["copy", "a", "-"],
    &["copy", "a", "b", "signal:main@1"],
    &["copy", "a", "b", "signal:relay@01"],
    &["copy", "a", "b", "signal:relay@+1"],
    &["copy", "a", "b", "signal:relay@"],
    &["copy", "a", "b", "kill:relay@1099511627777"],
    &["copy", "a", "b", "stop:relay@1"],
    &["copy", "a", "b", ""],
    &["help"],
    &[],
];

/// The greatest offset, and words of another command.
const LEGAL: &[Case] = &[
    Case {
        words: &["copy", "a", "b", "kill:relay@1099511627776"],
        status: 0,
        like: Like::Begins,
        line: "",
        left: Held::Any,
        ..OTHER
    },
    Case {
        name: "other_words_leave_the_folder",
        words: &["drill", "7", "0"],
        status: 0,
        text: Bytes::Just("drill 7 0\nevents 0\nrefused 0\nasleep 0\nend\n"),
        line: "",
        ..OTHER
    },
];

#[test]
fn words_that_are_no_copy_command(rt: HostRuntime) -> Result<(), Fail> {
    play_words(&rt, rt.alloc(), OTHER, OTHERS)?;
    play_all(&rt, rt.alloc(), LEGAL)
}
