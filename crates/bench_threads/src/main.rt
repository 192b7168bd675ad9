//! How fast the calls of threads are: six programs, of which the first word chooses one.
//!
//! | Word | What is timed |
//! |---|---|
//! | `steps` | the steps of a Domain |
//! | `heads` | the lock of a head; with a second word `idle` two tasks wait for a second, and nothing is timed |
//! | `events` | conditions that are set and waited for, and completions; with a second word `trips` round trips alone |
//! | `pages` | a page that threads take in turn |
//! | `futexes` | a mutex and a condition variable of futexes, and wakes of a futex |
//! | `sems` | permits of semaphores that are given back and taken |
//!
//! Each makes many calls of each kind, and writes how many nanoseconds each kind took in all, as
//! `NAME COUNT NANOSECONDS`, and at the end `done`. Without words all make a few calls, and `done` alone is written.
#![tactic(auto)]

mod events;
mod futexes;
mod heads;
mod pages;
mod report;
mod rows;
mod steps;
mod tasks;
mod timing;

use crate::heads::wait_idly;
use crate::report::play_parts;
use crate::rows::{ALL, EVENTS, FUTEXES, HEADS, PAGES, SEMS, STEPS, TRIPS};
use std::alloc::Global;
use std::io::ErrorKind;
use std::sync::Wait;
use std::thread::Threads;
use std::time::Clock;
use std::{env, io};

/// A few calls of each kind.
fn try_all<R: Clock + Print + Threads + Wait + Sync>(rt: &R, alloc: Global) -> io::Result<()> {
    for parts in ALL {
        play_parts(rt, alloc, parts, false)?;
    }
    Ok(())
}

/// The program that the words choose, or `InvalidInput` for another word.
fn time_chosen<R: Clock + Print + Threads + Wait + Sync>(
    rt: &R,
    alloc: Global,
    program: &str,
    part: &str,
) -> io::Result<()> {
    let parts = match program {
        "steps" => STEPS,
        "heads" if part == "idle" => return wait_idly(rt, alloc),
        "heads" => HEADS,
        "events" if part == "trips" => TRIPS,
        "events" => EVENTS,
        "pages" => PAGES,
        "futexes" => FUTEXES,
        "sems" => SEMS,
        _ => return Err(io::Error::from(ErrorKind::InvalidInput)),
    };
    play_parts(rt, alloc, parts, true)
}

fn main(rt: HostRuntime) -> io::Result<()> {
    let words: Vec<String> = env::args(&rt)?.skip(1).collect(rt.alloc())?;
    let alloc = rt.alloc();
    match words.first() {
        None => try_all(&rt, alloc)?,
        Some(program) => {
            let part = words.get(1).map_or("", |word| word.as_str());
            time_chosen(&rt, alloc, program.as_str(), part)?;
        }
    }
    println!(rt; "done")?;
    Ok(())
}
