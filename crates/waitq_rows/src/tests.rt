//! Worked scripts, refusals and faults through `run`.

use crate::cases::{
    Bytes, Case, Like, Outside, READ_FAILED, REPLAY, RUN, USAGE, WRITE_FAILED, play_all, play_words,
};
use crate::rows::{NOTHING, ORDERS, OTHER_WAITS, PAGES, REFUSED, WAIT_SET_WAKE, WAKES};
use std::test::Fail;

#[test]
fn worked_scripts_have_their_texts(rt: HostRuntime) -> Result<(), Fail> {
    for rows in [REFUSED, WAKES, ORDERS, OTHER_WAITS, PAGES] {
        play_all(&rt, rt.alloc(), rows)?;
    }
    Ok(())
}

/// Scripts that are bad, each behind its name, and the lines that they are refused with.
const BAD: &[(&str, &str, &str)] = &[
    ("no_header", "", "waitq: line 1: no header\n"),
    ("cut_line", "waitq 1\nstep 1", "waitq: line 2: cut line\n"),
    (
        "long_line",
        "waitq 1\n\
xxxxxxxxxxxxxxxxxxxxxxxxxxxxxxxxxxxxxxxxxxxxxxxxxxxxxxxxxxxxxxxxxxxxxxxxxxxxxxxxxxxxxxxxxxxxxxxxxxxx\
xxxxxxxxxxxxxxxxxxxxxxxxxxxxxxxxxxxxxxxxxxxxxxxxxxxxxxxxxxxxxxxxxxxxxxxxxxxxxxxxxxxxxxxxxxxxxxxxxxxxx\n",
        "waitq: line 2: long line\n",
    ),
    (
        "unknown_word",
        "waitq 1\ncall 1 hop c0\n",
        "waitq: line 2: unknown word\n",
    ),
    (
        "simple_wake_on_a_full_queue",
        "waitq 1\ncall 1 swake c47 one\n",
        BAD_CONDITION,
    ),
    (
        "bad_number",
        "waitq 1\nstep 200 1\n",
        "waitq: line 2: bad number\n",
    ),
    (
        "bad_condition",
        "waitq 1\ncall 1 wait c50 plain\n",
        BAD_CONDITION,
    ),
    (
        "page_call_in_version_1",
        "waitq 1\ncall 1 lockpage b0 int\n",
        "waitq: line 2: unknown word\n",
    ),
];

const BAD_CONDITION: &str = "waitq: line 2: bad condition\n";

/// A script that is too long.
const TOO_LONG: Case = Case {
    name: "too_many_events",
    input: Bytes::Just("waitq 1\nstep 1 1000000\nstep 1 1\n"),
    status: 8,
    line: "waitq: input too long\n",
    ..REPLAY
};

const LONG_INPUT: Case = Case {
    name: "an_input_above_one_mebibyte_is_too_long",
    input: Bytes::Lines("", " ", 1_048_577),
    ..TOO_LONG
};

#[test]
fn bad_scripts_have_their_lines(rt: HostRuntime) -> Result<(), Fail> {
    for (name, input, line) in BAD {
        let case = Case {
            name: *name,
            input: Bytes::Just(*input),
            status: 3,
            line: *line,
            ..REPLAY
        };
        play_all(&rt, rt.alloc(), &[case])?;
    }
    play_all(&rt, rt.alloc(), &[TOO_LONG, LONG_INPUT])
}

/// Words that are no command, beside a script that has no fault.
const OTHER: Case = Case {
    name: "other_words_are_refused_with_the_usage",
    status: 2,
    text: Bytes::Just(""),
    line: USAGE,
    ..NOTHING
};

const OTHERS: &[&[&str]] = &[
    &[],
    &["replay", "x"],
    &["Replay"],
    &[""],
    &["-x"],
    &["drill", "7"],
    &["drill", "01", "5"],
    &["drill", "7", "20001"],
    &["drill", "18446744073709551616", "5"],
    &["drill", "-1", ""],
];

#[test]
fn other_words_are_refused_with_the_usage(rt: HostRuntime) -> Result<(), Fail> {
    play_words(&rt, rt.alloc(), OTHER, OTHERS)
}

/// A script whose text is written by two calls.
const LONG: Case = Case {
    name: "a_write_that_fails_in_mid_stream_leaves_the_lines_before_it",
    input: Bytes::Lines("waitq 1\n", "step 1 1\n", 7_000),
    text: Bytes::Lines("", "t1 nocall\n", 7_000),
    ..REPLAY
};

const FAULTS: &[Case] = &[
    // the first call reads the script, and the second would find the end
    Case {
        name: "a_read_that_fails_ends_with_its_status: the first",
        fails: &[(Outside::In, 1)],
        status: 4,
        text: Bytes::Just(""),
        line: READ_FAILED,
        ..WAIT_SET_WAKE
    },
    Case {
        name: "a_read_that_fails_ends_with_its_status: the second",
        fails: &[(Outside::In, 2)],
        status: 4,
        text: Bytes::Just(""),
        line: READ_FAILED,
        ..WAIT_SET_WAKE
    },
    // the first call writes the lines of the steps, and the second the end lines
    Case {
        name: "a_write_that_fails_leaves_a_front_of_the_text: the first",
        fails: &[(Outside::Out, 1)],
        status: 5,
        like: Like::Cut(0),
        line: WRITE_FAILED,
        ..WAIT_SET_WAKE
    },
    Case {
        name: "a_write_that_fails_leaves_a_front_of_the_text: the second",
        fails: &[(Outside::Out, 2)],
        status: 5,
        like: Like::Cut(0),
        line: WRITE_FAILED,
        ..WAIT_SET_WAKE
    },
    Case {
        like: Like::Begins,
        ..LONG
    },
    Case {
        fails: &[(Outside::Out, 2)],
        status: 5,
        like: Like::Cut(1),
        line: WRITE_FAILED,
        ..LONG
    },
    Case {
        name: "a_fault_of_the_error_stream_changes_no_status",
        fails: &[(Outside::Err, 1)],
        status: 3,
        ..REPLAY
    },
];

#[test]
fn faults_of_the_streams_end_with_their_statuses(rt: HostRuntime) -> Result<(), Fail> {
    play_all(&rt, rt.alloc(), FAULTS)
}

/// A long drill.
const DRILL: Case = Case {
    name: "a_long_drill_says_the_same_each_time",
    words: &["drill", "7", "20000"],
    text: Bytes::Just("drill 7 20000\nevents 5511\nrefused 18639\nasleep 16\nend\n"),
    ..RUN
};

const DRILLS: &[Case] = &[
    // a drill reads no input
    Case {
        name: "drills_have_their_summaries: one call",
        words: &["drill", "0", "1"],
        fails: &[(Outside::In, 1)],
        text: Bytes::Just("drill 0 1\nevents 8\nrefused 0\nasleep 1\nend\n"),
        ..RUN
    },
    Case {
        name: "drills_have_their_summaries: none",
        words: &["drill", "7", "0"],
        fails: &[(Outside::In, 1)],
        text: Bytes::Just("drill 7 0\nevents 0\nrefused 0\nasleep 0\nend\n"),
        ..RUN
    },
    DRILL,
    DRILL,
    Case {
        name: "a_summary_that_cannot_be_written_ends_with_its_status",
        words: &["drill", "0", "1"],
        fails: &[(Outside::Out, 1)],
        status: 5,
        line: WRITE_FAILED,
        ..RUN
    },
];

#[test]
fn drills_have_their_summaries(rt: HostRuntime) -> Result<(), Fail> {
    play_all(&rt, rt.alloc(), DRILLS)
}
