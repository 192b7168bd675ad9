//! Scripts in which many tasks add an entry each before one task walks them, and their texts. The texts were
//! written from the rules, not by this program.

use crate::cases::{plays_script, wants};
use std::alloc::{AllocError, Global};
use std::process::Abort;
use std::sync::Wait;
use std::test::Fail;
use std::thread::Threads;

/// A part of the text of a walk.
#[derive(Clone, Copy)]
enum Part {
    /// The walk wakes the tasks from one number down to another, each of which is awake.
    Wakes(u8, u8),
    /// Lines of a task, each behind its name.
    Lines(u8, &'static [&'static str]),
}

/// Tasks 0 to `adders` - 1 add an entry each at the front of condition 0, in a script of this version, and then task
/// `waker` wakes all, by the lines given. What its text has after all adds and the walk's lock; how many holds the walk
/// has, how many lines of the text are the walk's, and how many events there are; and whether task 0 has moved to the
/// front.
#[derive(Clone, Copy)]
struct Walk {
    name: &'static str,
    version: u8,
    adders: u8,
    waker: u8,
    lines: &'static str,
    parts: &'static [Part],
    holds: u8,
    own: usize,
    events: u32,
    moved: bool,
}

/// The lines in which task 100 breaks its walk and goes on, and those of task 200.
const BREAK: &[&str] = &["mark h256", "unlock h256", "lock h256", "unmark h256"];

const WALKS: &[Walk] = &[
    Walk {
        name: "walk_65",
        version: 1,
        adders: 65,
        waker: 100,
        lines: "step 100 999\n",
        parts: &[Part::Wakes(64, 0)],
        holds: 1,
        own: 67 + 1,
        events: 262,
        moved: false,
    },
    Walk {
        name: "walk_66_breaks",
        version: 1,
        adders: 66,
        waker: 100,
        lines: "step 100 999\n",
        parts: &[
            Part::Wakes(65, 1),
            Part::Lines(100, BREAK),
            Part::Wakes(0, 0),
        ],
        holds: 2,
        own: 72 + 1,
        events: 270,
        moved: false,
    },
    Walk {
        name: "walk_break_and_move",
        version: 1,
        adders: 66,
        waker: 100,
        lines: "step 100 68\ncall 0 remove\nstep 0 99\ncall 0 add c0 default front\nstep 0 99\n\
            step 100 999\n",
        parts: &[
            Part::Wakes(65, 1),
            Part::Lines(100, &["mark h256", "unlock h256"]),
            Part::Lines(0, &["lock h256", "unqueue t0", "unlock h256", "= 0"]),
            Part::Lines(0, ADD),
            Part::Lines(100, &["lock h256", "unmark h256"]),
        ],
        holds: 2,
        own: 71 + 1,
        events: 275,
        moved: true,
    },
    Walk {
        name: "walk_131_breaks_twice",
        version: 2,
        adders: 131,
        waker: 200,
        lines: "step 200 999\n",
        parts: &[
            Part::Wakes(130, 66),
            Part::Lines(200, BREAK),
            Part::Wakes(65, 1),
            Part::Lines(200, BREAK),
            Part::Wakes(0, 0),
        ],
        holds: 3,
        own: 141 + 1,
        events: 534,
        moved: false,
    },
];

/// The lines of an add.
const ADD: &[&str] = &["lock h256", "queue h256 front", "unlock h256", "= 0"];

/// Adds a text with a number in it.
fn push(
    alloc: Global,
    text: &mut String,
    before: &str,
    number: u32,
    after: &str,
) -> Result<(), AllocError> {
    let line = format!(in alloc; "{before}{number}{after}")?;
    text.push_str(line.as_str())
}

/// Adds lines of a task, each behind its name.
fn push_lines(
    alloc: Global,
    text: &mut String,
    task: u8,
    lines: &[&str],
) -> Result<(), AllocError> {
    for line in lines {
        push(alloc, text, "t", u32::from(task), " ")?;
        text.push_str(line)?;
        text.push_str("\n")?;
    }
    Ok(())
}

/// The script of a walk.
fn script_of(alloc: Global, walk: &Walk) -> Result<String, AllocError> {
    let mut script = String::new(alloc);
    push(alloc, &mut script, "waitq ", u32::from(walk.version), "\n")?;
    for task in 0..walk.adders {
        push(
            alloc,
            &mut script,
            "call ",
            u32::from(task),
            " add c0 default front\n",
        )?;
        push(alloc, &mut script, "step ", u32::from(task), " 99\n")?;
    }
    push(
        alloc,
        &mut script,
        "call ",
        u32::from(walk.waker),
        " wake c0 normal 0\n",
    )?;
    script.push_str(walk.lines)?;
    Ok(script)
}

/// Adds the lines of a part.
fn push_part(alloc: Global, text: &mut String, waker: u8, part: Part) -> Result<(), AllocError> {
    match part {
        Part::Wakes(from, to) => {
            for task in (to..=from).rev() {
                push(alloc, text, "t", u32::from(waker), "")?;
                push(alloc, text, " wake t", u32::from(task), " no\n")?;
            }
            Ok(())
        }
        Part::Lines(task, lines) => push_lines(alloc, text, task, lines),
    }
}

/// Adds the lines of all adds, of the walk's lock and of its parts, and of its last unlock and its answer: it woke
/// nobody.
fn push_events(alloc: Global, text: &mut String, walk: &Walk) -> Result<(), AllocError> {
    for task in 0..walk.adders {
        push_lines(alloc, text, task, ADD)?;
    }
    push_lines(alloc, text, walk.waker, &["lock h256"])?;
    for part in walk.parts {
        push_part(alloc, text, walk.waker, *part)?;
    }
    push_lines(alloc, text, walk.waker, &["unlock h256"])?;
    push(
        alloc,
        text,
        "t",
        u32::from(walk.waker),
        " = woken 0 selected 0",
    )?;
    push(alloc, text, " holds ", u32::from(walk.holds), " end\n")
}

/// Adds the members of the head, of which task 0 stands first where it moved, and else last.
fn push_members(alloc: Global, text: &mut String, walk: &Walk) -> Result<(), AllocError> {
    text.push_str("head h256")?;
    if walk.moved {
        text.push_str(" t0")?;
    }
    for task in (1..walk.adders).rev() {
        push(alloc, text, " t", u32::from(task), "")?;
    }
    if !walk.moved {
        text.push_str(" t0")?;
    }
    text.push_str("\n")
}

/// Adds the end lines: so many events, the tasks, and the head's members.
fn push_end(alloc: Global, text: &mut String, walk: &Walk) -> Result<(), AllocError> {
    push(alloc, text, "events ", walk.events, "\n")?;
    for task in 0..walk.adders {
        push(alloc, text, "task ", u32::from(task), " run none idle\n")?;
    }
    push(
        alloc,
        text,
        "task ",
        u32::from(walk.waker),
        " run none idle\n",
    )?;
    push_members(alloc, text, walk)?;
    text.push_str("end\n")
}

/// The text of a walk.
fn text_of(alloc: Global, walk: &Walk) -> Result<String, AllocError> {
    let mut text = String::new(alloc);
    push_events(alloc, &mut text, walk)?;
    push_end(alloc, &mut text, walk)?;
    Ok(text)
}

/// How many lines of a text are a task's.
fn lines_of(alloc: Global, text: &str, task: u8) -> Result<usize, AllocError> {
    let name = format!(in alloc; "t{task} ")?;
    let mut count: usize = 0;
    for line in text.split('\n') {
        if line.starts_with(name.as_str()) {
            count = count.saturating_add(1);
        }
    }
    Ok(count)
}

/// Replays a walk, and compares its text.
fn walks<R: Abort + Threads + Wait + Sync>(rt: &R, alloc: Global, walk: &Walk) -> Result<(), Fail> {
    let text = text_of(alloc, walk)?;
    let own = lines_of(alloc, text.as_str(), walk.waker)?;
    wants(rt, 1, walk.name, "lines", own == walk.own);
    let script = script_of(alloc, walk)?;
    plays_script(rt, alloc, walk.name, script.as_bytes(), text.as_bytes())
}

#[test]
fn walks_break_behind_64(rt: HostRuntime) -> Result<(), Fail> {
    for walk in WALKS {
        walks(&rt, rt.alloc(), walk)?;
    }
    Ok(())
}
