//! The rows of a program, played, and the lines that are written of them.

use crate::events::alone::{Set, WaitFor};
use crate::events::calls::Means;
use crate::events::crowds::time_wake;
use crate::events::trips::{Pair, time_trips};
use crate::futexes::monitors::time_hands;
use crate::futexes::mutexes::{LockOnce, WakeOne};
use crate::heads::{Hold, Look, UnlockedLook, time_walks};
use crate::pages::locks::AddOne;
use crate::pages::report_comings;
use crate::rows::{Part, Row, Timed, threads_of};
use crate::steps::{time_naps, time_steps};
use crate::timing::{Times, only, time_alone, time_both, time_crowd, time_four, time_two};
use std::alloc::Global;
use std::io;
use std::sync::Wait;
use std::thread::Threads;
use std::time::{Clock, Duration};
use wait_rule::running::LOOKS;

/// Times what a row says, with so many calls of each thread.
fn time<R: Clock + Threads + Wait + Sync>(
    rt: &R,
    alloc: Global,
    timed: &Timed,
    n: u64,
) -> io::Result<Times> {
    match timed {
        Timed::Steps => time_steps(rt, alloc, n),
        Timed::Naps(looks, retry) => only(time_naps(rt, alloc, *looks, *retry, n)),
        Timed::Holds => only(time_alone(rt, alloc, Hold, n)),
        Timed::HoldsOfTwo => only(time_two(rt, alloc, LOOKS, (Hold, Hold), n)),
        Timed::HoldsOfFour => only(time_four(rt, alloc, Hold, n)),
        Timed::Looks => time_both(rt, alloc, (Look, UnlockedLook), n),
        Timed::Walks(entries) => only(time_walks(rt, alloc, *entries, n)),
        Timed::Trips(looks) => only(time_trips(rt, alloc, *looks, Means::Condition, n)),
        Timed::Permits(looks) => only(time_trips(rt, alloc, *looks, Means::Completion, n)),
        Timed::Downs(looks) => only(time_trips(rt, alloc, *looks, Means::Semaphore, n)),
        Timed::Crowd(sleepers) => time_wake(rt, alloc, *sleepers),
        Timed::Calls => time_both(rt, alloc, (Set, WaitFor), n),
        Timed::Pairs => only(time_alone(rt, alloc, Pair, n)),
        Timed::Mutex(threads) => only(time_crowd(rt, alloc, *threads, LockOnce, n)),
        Timed::Page(threads) => only(time_crowd(rt, alloc, *threads, AddOne, n)),
        Timed::Hands(looks) => only(time_hands(rt, alloc, *looks, n)),
        Timed::FutexWakes => only(time_alone(rt, alloc, WakeOne, n)),
    }
}

/// Writes the line of a time that was asked for and found: `NAME COUNT NANOSECONDS`.
fn report<R: Print>(
    rt: &R,
    asked: bool,
    name: &str,
    count: u64,
    time: Option<Duration>,
) -> io::Result<()> {
    match time {
        Some(time) if asked => println!(rt; "{name} {count} {}", time.as_nanos()),
        _ => Ok(()),
    }
}

/// Plays a row.
fn play<R: Clock + Print + Threads + Wait + Sync>(
    rt: &R,
    alloc: Global,
    row: &Row,
    asked: bool,
) -> io::Result<()> {
    let n = if asked { row.3.0 } else { row.3.1 };
    let count = n.saturating_mul(threads_of(&row.2));
    let times = time(rt, alloc, &row.2, n)?;
    report(rt, asked, row.0, count, times.0)?;
    report(rt, asked, row.1, count, times.1)
}

/// Rounds of all rows.
fn play_rounds<R: Clock + Print + Threads + Wait + Sync>(
    rt: &R,
    alloc: Global,
    rounds: u32,
    rows: &[Row],
    asked: bool,
) -> io::Result<()> {
    for _ in 0..rounds {
        for row in rows {
            play(rt, alloc, row, asked)?;
        }
    }
    Ok(())
}

/// Plays the parts of a program, or a few calls of each row where no times are asked for.
pub(crate) fn play_parts<R: Clock + Print + Threads + Wait + Sync>(
    rt: &R,
    alloc: Global,
    parts: &[Part],
    asked: bool,
) -> io::Result<()> {
    for part in parts {
        match part {
            Part::Rounds(rounds, rows) => {
                play_rounds(rt, alloc, if asked { *rounds } else { 1 }, rows, asked)?;
            }
            Part::Comings(threads) => report_comings(rt, alloc, asked, *threads)?,
        }
    }
    Ok(())
}
