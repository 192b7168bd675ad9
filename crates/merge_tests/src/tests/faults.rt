//! Merges whose sources or sink fail.

use crate::tests::merges::{Given, merge, of_sizes, parts_of};
use crate::tests::wants::wants;
use copy_plan::Stop;
use std::alloc::Global;
use std::process::Abort;
use std::sync::Wait;
use std::test::Fail;
use std::thread::Threads;

const SIZE: usize = 20_000;

/// How often each merge is made: the workers meet in other ways each time.
const ROUNDS: u32 = 30;

/// Whether the bytes of each source are in their order, and there are so many of the first, or else of the second.
fn has_part(bytes: &[u8], of_first: bool, size: usize) -> bool {
    match parts_of(bytes) {
        Some((first, second)) => size == if of_first { first } else { second },
        None => false,
    }
}

/// Merges two sources of which the first or the second fails at a read, and compares how that stopped, and how much had
/// arrived of the one that fails; of the other a front has.
fn fails<R: Abort + Threads + Wait + Sync>(
    rt: &R,
    alloc: Global,
    (given, arrived): (Given, usize),
) -> Result<(), Fail> {
    let end = merge(rt, alloc, given)?;
    let is_first = given.first_fails > 0;
    let stop = if is_first {
        end.left.stop
    } else {
        end.right.stop
    };
    let has_stopped = end.stop == Stop::ReadFault && stop == Stop::ReadFault;
    let is_there = has_part(end.sink.bytes(), is_first, arrived);
    wants(rt, arrived, "how it stopped", has_stopped);
    wants(rt, arrived, "how much arrived", is_there);
    Ok(())
}

/// Sources of which the first or the second fails at a read.
fn first_fails(read: u64) -> Given {
    Given {
        first_fails: read,
        ..of_sizes(SIZE, SIZE)
    }
}

fn second_fails(read: u64) -> Given {
    Given {
        second_fails: read,
        ..of_sizes(SIZE, SIZE)
    }
}

/// A source that fails at its first or second read: what it gave before has arrived, and of the other a front.
#[test]
fn sources_fail(rt: HostRuntime) -> Result<(), Fail> {
    for _ in 0..ROUNDS {
        fails(&rt, rt.alloc(), (first_fails(1), 0))?;
        fails(&rt, rt.alloc(), (second_fails(1), 0))?;
        fails(&rt, rt.alloc(), (first_fails(2), 4_096))?;
        fails(&rt, rt.alloc(), (second_fails(2), 4_096))?;
    }
    Ok(())
}

/// Merges into a sink that fails at a write, and compares how that stopped, and that fronts have arrived.
fn breaks<R: Abort + Threads + Wait + Sync>(rt: &R, alloc: Global, write: u64) -> Result<(), Fail> {
    let given = Given {
        writes_fail: write,
        ..of_sizes(SIZE, SIZE)
    };
    let end = merge(rt, alloc, given)?;
    let has_stopped = end.stop == Stop::WriteFault && end.writer.stop == Stop::WriteFault;
    let bytes = end.sink.bytes();
    let are_fronts = parts_of(bytes).is_some() && bytes.len() <= 8_192;
    wants(rt, 0, "how it stopped", has_stopped);
    wants(rt, 0, "fronts", are_fronts);
    Ok(())
}

/// A sink that fails at its first or third write: fronts have arrived, and no source was waited for.
#[test]
fn sink_fails(rt: HostRuntime) -> Result<(), Fail> {
    for _ in 0..ROUNDS {
        breaks(&rt, rt.alloc(), 1)?;
        breaks(&rt, rt.alloc(), 3)?;
    }
    Ok(())
}
