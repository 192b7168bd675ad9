use crate::tests::lines::{BAD_LINES, BAD_LINES_OF_VERSION_2, CALLS, GREATER, PAGES};
use crate::tests::steps::{has_refusal, has_text, wants as wants_step};
use std::alloc::{AllocError, Global};
use std::process::Abort;
use std::test::Fail;
use wait_core::{StartFault, Stepped};
use wait_model::calls::{Answer, Call, Event};
use wait_model::queues::{End, Form, Walked};
use wait_model::tasks::{How, Sleep, SleepState, Taken};
use wait_model::watches::Mode;
use wait_script::{Line, ReadScript, Reason, Version, asked, read_script};

/// Whether a script is bad at this line for the first reason of this number; or, of line 0, is read and has so many
/// lines.
fn reads_so(alloc: Global, bytes: &[u8], wanted: u32, number: usize) -> bool {
    if bytes.len() > 1_048_576 {
        return false;
    }
    match read_script(alloc, bytes) {
        Ok(script) => wanted == 0 && script.lines.len() == number,
        Err(ReadScript::Bad { line, why }) => {
            line == wanted && usize::from(why.number()) == number
        }
        Err(ReadScript::OutOfMemory) => false,
    }
}

/// Wants what was seen of this text, in the test or the row of this name, to be so.
fn wants(rt: &impl Abort, name: &str, text: &str, is_so: bool) {
    assert!(rt; is_so, "{name}: {text}");
}

/// A script that is bad: a text, so many bytes x and what comes after them; its first bad line, and the first reason
/// that stands there.
#[derive(Clone, Copy)]
struct Bad {
    name: &'static str,
    text: &'static [u8],
    many: usize,
    after: &'static [u8],
    line: u32,
    why: Reason,
}

/// A short script, and one with 200 bytes on a line, before what comes after them. The byte 7, which no line may have,
/// is the 201st.
const SHORT: Bad = Bad {
    name: "the_first_bad_line_and_its_first_reason",
    text: b"",
    many: 0,
    after: b"",
    line: 1,
    why: Reason::NoHeader,
};

const LONG: Bad = Bad {
    name: "a_line_has_at_most_200_bytes",
    many: 200,
    ..SHORT
};

const BAD: &[Bad] = &[
    Bad {
        text: b"",
        line: 1,
        why: Reason::NoHeader,
        ..SHORT
    },
    Bad {
        text: b"\n",
        line: 1,
        why: Reason::NoHeader,
        ..SHORT
    },
    Bad {
        text: b"waitq 1",
        line: 1,
        why: Reason::CutLine,
        ..SHORT
    },
    Bad {
        text: b"waitq 2",
        line: 1,
        why: Reason::CutLine,
        ..SHORT
    },
    Bad {
        text: b"waitq 2\nstep 1",
        line: 2,
        why: Reason::CutLine,
        ..SHORT
    },
    Bad {
        text: b"waitq 3\nstep 1",
        line: 1,
        why: Reason::NoHeader,
        ..SHORT
    },
    Bad {
        text: b"waitq 12\n",
        line: 1,
        why: Reason::NoHeader,
        ..SHORT
    },
    Bad {
        text: b"waitq 1 \n",
        line: 1,
        why: Reason::NoHeader,
        ..SHORT
    },
    Bad {
        text: b"waitq\t1\n",
        line: 1,
        why: Reason::BadByte,
        ..SHORT
    },
    Bad {
        text: b"waitq 1\nstep 1 1",
        line: 2,
        why: Reason::CutLine,
        ..SHORT
    },
    Bad {
        text: b"waitq 1\nhop",
        line: 2,
        why: Reason::CutLine,
        ..SHORT
    },
    Bad {
        text: b"waitq 1\nhop\nstep 1 1",
        line: 2,
        why: Reason::UnknownWord,
        ..SHORT
    },
    Bad {
        text: b"waitq 1\nstep 1 1\nhop\n",
        line: 3,
        why: Reason::UnknownWord,
        ..SHORT
    },
    Bad {
        text: b"waitq 1\nstep 1 1\n\nhop\n",
        line: 3,
        why: Reason::UnknownWord,
        ..SHORT
    },
    Bad {
        text: b"waitq 1\n",
        after: b"\n",
        line: 2,
        why: Reason::UnknownWord,
        ..LONG
    },
    Bad {
        text: b"waitq 2\n",
        after: b"\x07\n",
        line: 2,
        why: Reason::LongLine,
        ..LONG
    },
    Bad {
        text: b"",
        after: b"\x07",
        line: 1,
        why: Reason::CutLine,
        ..LONG
    },
    Bad {
        text: b"",
        after: b"\x07\n",
        line: 1,
        why: Reason::LongLine,
        ..LONG
    },
];

/// Whether a bad script is bad as it says.
fn is_bad(alloc: Global, bad: &Bad) -> Result<bool, AllocError> {
    let mut bytes = Vec::new(alloc);
    bytes.extend_from_slice(bad.text)?;
    for _ in 0..bad.many {
        bytes.push(b'x')?;
    }
    bytes.extend_from_slice(bad.after)?;
    let number = usize::from(bad.why.number());
    Ok(reads_so(alloc, &bytes, bad.line, number))
}

#[test]
fn the_first_bad_line_and_its_first_reason(rt: HostRuntime) -> Result<(), Fail> {
    let mut row: u64 = 0;
    for bad in BAD {
        row = row.saturating_add(1);
        let is_so = is_bad(rt.alloc(), bad)?;
        wants_step(&rt, bad.name, row, is_so);
    }
    Ok(())
}

/// Whether a line is read after a header, where the number is 0, and else is bad for the first reason of that number.
fn is_read(alloc: Global, header: &[u8], line: &str, number: usize) -> Result<bool, AllocError> {
    let mut bytes = Vec::new(alloc);
    bytes.extend_from_slice(header)?;
    bytes.extend_from_slice(line.as_bytes())?;
    bytes.push(b'\n')?;
    let (bad, number) = if number == 0 { (0, 1) } else { (2, number) };
    Ok(reads_so(alloc, &bytes, bad, number))
}

/// The number before the first space of a row, and the line behind it.
fn numbered(row: &str) -> Option<(usize, &str)> {
    let (number, line) = row.split_once(' ')?;
    Some((number.parse().ok()?, line))
}

/// Wants each row to be bad after a header, for the reason whose number stands before it.
fn are_bad(rt: &impl Abort, alloc: Global, header: &[u8], rows: &str) -> Result<(), Fail> {
    for row in rows.split('\n') {
        let is_so = match numbered(row) {
            Some((number, line)) => number > 0 && is_read(alloc, header, line, number)?,
            None => false,
        };
        wants(rt, "bad", row, is_so);
    }
    Ok(())
}

/// Lines, and the number of the reason for which each is bad in version 1, or 0.
#[derive(Clone, Copy)]
struct Lines {
    name: &'static str,
    lines: &'static str,
    number: usize,
}

const LINES: &[Lines] = &[
    Lines {
        name: "each_call_is_read_in_both_versions",
        lines: CALLS,
        number: 0,
    },
    Lines {
        name: "pages_are_locked_in_version_2_alone",
        lines: PAGES,
        number: 5,
    },
    Lines {
        name: "greater_numbers_are_read_in_version_2_alone",
        lines: GREATER,
        number: 7,
    },
];

/// Wants each line to be read after a header, or to be bad for the first reason of a number.
fn are_read(
    rt: &impl Abort,
    alloc: Global,
    header: &[u8],
    lines: &Lines,
    number: usize,
) -> Result<(), Fail> {
    for line in lines.lines.split('\n') {
        let is_so = is_read(alloc, header, line, number)?;
        wants(rt, lines.name, line, is_so);
    }
    Ok(())
}

const ONE: &[u8] = b"waitq 1\n";

const TWO: &[u8] = b"waitq 2\n";

#[test]
fn each_line_is_bad_for_its_first_reason(rt: HostRuntime) -> Result<(), Fail> {
    are_bad(&rt, rt.alloc(), ONE, BAD_LINES)?;
    are_bad(&rt, rt.alloc(), TWO, BAD_LINES_OF_VERSION_2)
}

#[test]
fn lines_are_read_in_their_versions(rt: HostRuntime) -> Result<(), Fail> {
    for lines in LINES {
        are_read(&rt, rt.alloc(), ONE, lines, lines.number)?;
        are_read(&rt, rt.alloc(), TWO, lines, 0)?;
    }
    Ok(())
}

/// Whether these are a killable and exclusive wait of task 63 for condition 47, an interruptible wake of 127 by task 5, of
/// condition 0, and a killable lock of bit 2 of word 1 by task 127, with steps behind the first and the last.
fn are_lines(lines: &[Line]) -> bool {
    matches!(
        lines,
        [
            Line::Call {
                task: 63,
                call: Call::Wait {
                    cond: 47,
                    how: How {
                        state: SleepState::Killable,
                        exclusive: true
                    }
                }
            },
            Line::Step {
                task: 63,
                count: 1_000_000
            },
            Line::Call {
                task: 5,
                call: Call::Wake {
                    cond: 0,
                    mode: Mode::Interruptible,
                    count: 127
                }
            },
            Line::Call {
                task: 127,
                call: Call::LockBit {
                    word: 1,
                    bit: 2,
                    state: SleepState::Killable
                }
            },
            Line::Step { task: 0, count: 1 }
        ]
    )
}

#[test]
fn a_script_is_its_lines(rt: HostRuntime) -> Result<(), Fail> {
    let bytes = b"waitq 1\n\
        call 63 wait c47 kill-ex\n\
        step 63 1000000\n\
        call 5 wake c0 int 127\n\
        call 127 lockbit b1.2 kill\n\
        step 0 1\n";
    let script = read_script(rt.alloc(), bytes)?;
    let is_so = script.version == Version::One && asked(&script) == 1_000_001;
    wants(&rt, "version 1", "lines", is_so && are_lines(&script.lines));
    Ok(())
}

#[test]
fn a_greater_number_is_that_of_a_task(rt: HostRuntime) -> Result<(), Fail> {
    let script = read_script(rt.alloc(), b"waitq 2\nstep 255 7\n")?;
    let is_line = matches!(
        script.lines.as_slice(),
        [Line::Step {
            task: 255,
            count: 7
        }]
    );
    let is_so = script.version == Version::Two && is_line;
    wants(&rt, "version 2", "a line", is_so);
    Ok(())
}

/// Events that end no call, and their texts.
const EVENTS: &[(Stepped, &str)] = &[
    (
        Stepped::Made {
            event: Event::State { state: 0 },
            ended: None,
        },
        "t7 state run\n",
    ),
    (
        Stepped::Made {
            event: Event::State { state: 1 },
            ended: None,
        },
        "t7 state int\n",
    ),
    (
        Stepped::Made {
            event: Event::State { state: 2 },
            ended: None,
        },
        "t7 state unint\n",
    ),
    (
        Stepped::Made {
            event: Event::State { state: 0x102 },
            ended: None,
        },
        "t7 state kill\n",
    ),
    (
        Stepped::Made {
            event: Event::Sleep {
                sleep: Sleep::Signal,
            },
            ended: None,
        },
        "t7 sleep signal\n",
    ),
    (
        Stepped::Made {
            event: Event::Wake { who: 63, yes: true },
            ended: None,
        },
        "t7 wake t63 yes\n",
    ),
    (
        Stepped::Made {
            event: Event::Lock { head: 0 },
            ended: None,
        },
        "t7 lock h0\n",
    ),
    (
        Stepped::Made {
            event: Event::Unlock {
                head: 303,
                spent: true,
            },
            ended: None,
        },
        "t7 unlock h303 spent\n",
    ),
    (
        Stepped::Made {
            event: Event::Unlock {
                head: 303,
                spent: false,
            },
            ended: None,
        },
        "t7 unlock h303\n",
    ),
    (
        Stepped::Made {
            event: Event::Queue {
                head: 256,
                form: Form::Tail,
            },
            ended: None,
        },
        "t7 queue h256 tail\n",
    ),
    (
        Stepped::Made {
            event: Event::Queue {
                head: 256,
                form: Form::Priority,
            },
            ended: None,
        },
        "t7 queue h256 prio\n",
    ),
    (
        Stepped::Made {
            event: Event::Load {
                cond: 127,
                value: 3,
            },
            ended: None,
        },
        "t7 load d63 3\n",
    ),
    (
        Stepped::Made {
            event: Event::Set {
                cond: 255,
                value: 0,
            },
            ended: None,
        },
        "t7 set b127 0\n",
    ),
    (
        Stepped::Made {
            event: Event::Signal {
                who: 127,
                fatal: false,
            },
            ended: None,
        },
        "t7 signal t127 plain\n",
    ),
    (
        Stepped::Made {
            event: Event::Mark { head: 303 },
            ended: None,
        },
        "t7 mark h303\n",
    ),
    (
        Stepped::Made {
            event: Event::Unmark { head: 0 },
            ended: None,
        },
        "t7 unmark h0\n",
    ),
    (
        Stepped::Made {
            event: Event::Active { head: 9, yes: true },
            ended: None,
        },
        "t7 active h9 yes\n",
    ),
    (
        Stepped::Made {
            event: Event::Active {
                head: 9,
                yes: false,
            },
            ended: None,
        },
        "t7 active h9 no\n",
    ),
    (
        Stepped::Made {
            event: Event::Tas {
                word: 127,
                bit: 63,
                found: 1,
            },
            ended: None,
        },
        "t7 tas b127.63 1\n",
    ),
    (
        Stepped::Made {
            event: Event::TasFor {
                word: 127,
                who: 255,
                found: 1,
            },
            ended: None,
        },
        "t7 tas b127.0 1 t255\n",
    ),
    (
        Stepped::Made {
            event: Event::Handed { who: 255 },
            ended: None,
        },
        "t7 handed t255\n",
    ),
    (
        Stepped::Made {
            event: Event::Clear { word: 0, bit: 5 },
            ended: None,
        },
        "t7 clear b0.5\n",
    ),
    (
        Stepped::Made {
            event: Event::Signal {
                who: 0,
                fatal: true,
            },
            ended: None,
        },
        "t7 signal t0 fatal\n",
    ),
    (
        Stepped::Made {
            event: Event::Accept {
                taken: Taken::Nothing,
            },
            ended: None,
        },
        "t7 accept none\n",
    ),
    (
        Stepped::Made {
            event: Event::Accept {
                taken: Taken::Plain,
            },
            ended: None,
        },
        "t7 accept plain\n",
    ),
    (
        Stepped::Made {
            event: Event::Accept {
                taken: Taken::Fatal,
            },
            ended: None,
        },
        "t7 accept fatal\n",
    ),
    (
        Stepped::Made {
            event: Event::Look { yes: true },
            ended: None,
        },
        "t7 look yes\n",
    ),
    (
        Stepped::Made {
            event: Event::Look { yes: false },
            ended: None,
        },
        "t7 look no\n",
    ),
    (
        Stepped::Made {
            event: Event::Take {
                cond: 63,
                found: u64::MAX,
            },
            ended: None,
        },
        "t7 take c63 18446744073709551615\n",
    ),
    (
        Stepped::Made {
            event: Event::Woken { who: 63 },
            ended: None,
        },
        "t7 woken t63\n",
    ),
    (
        Stepped::Made {
            event: Event::Flag { yes: true },
            ended: None,
        },
        "t7 flag yes\n",
    ),
    (
        Stepped::Made {
            event: Event::Flag { yes: false },
            ended: None,
        },
        "t7 flag no\n",
    ),
    (
        Stepped::Made {
            event: Event::Unflag,
            ended: None,
        },
        "t7 unflag\n",
    ),
];

/// The longest lines of a step: a load and a walk's answer, each with the greatest numbers.
const LONGEST: Stepped = Stepped::Made {
    event: Event::Load {
        cond: 383,
        value: u64::MAX,
    },
    ended: Some(Answer::Walk(Walked {
        selected: u32::MAX,
        woken: u32::MAX,
        holds: u32::MAX,
        end: End::Stopped,
    })),
};

const ENDED: Stepped = Stepped::Made {
    event: Event::Queued { yes: false },
    ended: Some(Answer::Number(-512)),
};

const WORN: Stepped = Stepped::Made {
    event: Event::Unlock {
        head: 256,
        spent: false,
    },
    ended: Some(Answer::Worn),
};

/// Steps that are no such events, and their texts.
const STEPS: &[(Stepped, &str)] = &[
    (ENDED, "t7 queued no\nt7 = -512\n"),
    (WORN, "t7 unlock h256\nt7 = worn\n"),
    (
        LONGEST,
        "t7 load v127 18446744073709551615\n\
            t7 = woken 4294967295 selected 4294967295 holds 4294967295 stopped\n",
    ),
    (Stepped::Asleep, "t7 asleep\n"),
    (Stepped::Busy { head: 256 }, "t7 busy h256\n"),
    (Stepped::Full, ""),
];

/// Wants each step of task 7 to have its text.
fn have_texts(rt: &impl Abort, alloc: Global, rows: &[(Stepped, &str)]) -> Result<(), Fail> {
    for (stepped, text) in rows {
        let is_so = has_text(alloc, 7, stepped, text)?;
        wants(rt, "text", text, is_so);
    }
    Ok(())
}

#[test]
fn each_event_and_answer_has_its_text(rt: HostRuntime) -> Result<(), Fail> {
    have_texts(&rt, rt.alloc(), EVENTS)?;
    have_texts(&rt, rt.alloc(), STEPS)
}

/// Calls that are refused, and their texts.
const REFUSED: &[(u8, StartFault, &str)] = &[
    (7, StartFault::CallOpen, "t7 refused 2\n"),
    (0, StartFault::NoSuchCond, "t0 refused 3\n"),
    (2, StartFault::NotHeld, "t2 refused 4\n"),
    (63, StartFault::EntryQueued, "t63 refused 5\n"),
    (255, StartFault::NoEntry, "t255 refused 6\n"),
];

#[test]
fn a_refused_call_has_its_number(rt: HostRuntime) -> Result<(), Fail> {
    for (task, fault, text) in REFUSED {
        let is_so = has_refusal(rt.alloc(), *task, *fault, text)?;
        wants(&rt, "text", text, is_so);
    }
    Ok(())
}
