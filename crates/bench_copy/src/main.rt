//! How fast a copy goes, from memory to a sink that counts. Without words it copies two pieces and writes how many
//! bytes arrived. With the word `times` it makes five copies of 64 MiB for each of some numbers of looks that a sleeper
//! makes before its thread parks, and writes for each how many nanoseconds it took, as `copy_LOOKS BYTES NANOSECONDS`.
#![tactic(auto)]

mod ends;

use crate::ends::{Blocks, Count, fill};
use copy_plan::{OpenGate, PIECE, Stop};
use flow_copy::{CopyEnd, copy_all};
use func_head::NoWatchers;
use std::alloc::Global;
use std::sync::Wait;
use std::thread::Threads;
use std::time::{Clock, Instant};
use std::{env, io};
use wait_rule::Domain;

/// How many pieces are copied in a measurement, and where nothing is measured.
const PIECES: u64 = 16_384;

const FEW: u64 = 2;

/// How many copies are made for each number of looks.
const REPEATS: u32 = 5;

/// The numbers of looks; the one in the middle is that of a Domain that is made without a number of its own.
const LOOKS: [u32; 3] = [0, 400, 2_000];

/// A copy of so many pieces; None where there is no memory for a Domain, or for a thread.
fn copy<'a, R: Threads + Wait + Sync>(
    rt: &R,
    alloc: Global,
    looks: u32,
    block: &'a [u8],
    pieces: u64,
) -> Option<CopyEnd<Blocks<'a>, Count, NoWatchers>> {
    let Ok((domain, mut task)) = Domain::with_looks(alloc, looks) else {
        return None;
    };
    copy_all(
        rt,
        &domain,
        &mut task,
        Blocks::new(block, pieces),
        Count::new(),
        NoWatchers,
        &[],
        &OpenGate,
    )
    .ok()
}

/// A copy, and how long it took.
fn report<R: Clock + Print + Threads + Wait + Sync>(
    rt: &R,
    alloc: Global,
    looks: u32,
    block: &[u8],
) -> io::Result<()> {
    let start = Instant::now(rt)?;
    let Some(end) = copy(rt, alloc, looks, block, PIECES) else {
        return Ok(());
    };
    let time = start.elapsed(rt)?;
    if end.stop == Stop::Finished {
        println!(rt; "copy_{looks} {} {}", end.sink.bytes(), time.as_nanos())?;
    }
    Ok(())
}

fn main(rt: HostRuntime) -> io::Result<()> {
    let words: Vec<String> = env::args(&rt)?.skip(1).collect(rt.alloc())?;
    let alloc = rt.alloc();
    let mut block = [0; PIECE];
    fill(&mut block);
    if words.first().is_some_and(|word| word.as_str() == "times") {
        for looks in LOOKS {
            for _ in 0..REPEATS {
                report(&rt, alloc, looks, &block)?;
            }
        }
        return Ok(());
    }
    if let Some(end) = copy(&rt, alloc, LOOKS[1], &block, FEW) {
        println!(rt; "{} bytes, counted {}", end.sink.bytes(), end.moved)?;
    }
    Ok(())
}
