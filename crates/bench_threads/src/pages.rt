//! Pages that threads lock: for each lock of a round, how many were made before it and when its thread came for the page, in
//! nanoseconds since the round began, as `came NAME BEFORE AT`.

pub(crate) mod locks;

use crate::pages::locks::{Came, came_for};
use std::alloc::Global;
use std::io;
use std::sync::Wait;
use std::thread::Threads;
use std::time::Clock;

/// How often each thread locks the page in a round of a measurement, and where nothing is measured.
const ROUNDS: u64 = 20_000;

const FEW: u64 = 10;

/// When each lock of a round of so many threads was asked for; nothing is written where nothing is measured.
pub(crate) fn report_comings<R: Clock + Print + Threads + Wait + Sync>(
    rt: &R,
    alloc: Global,
    asked: bool,
    threads: u8,
) -> io::Result<()> {
    let n = if asked { ROUNDS } else { FEW };
    let Some(all) = came_for(rt, alloc, threads, n)? else {
        return Ok(());
    };
    if asked {
        for one in &all {
            report_one(rt, threads, one)?;
        }
    }
    Ok(())
}

fn report_one<R: Print>(rt: &R, threads: u8, one: &[Came]) -> io::Result<()> {
    for came in one {
        println!(rt;
            "came lock_{threads} {} {}",
            came.before,
            came.at.as_nanos()
        )?;
    }
    Ok(())
}
