//! Merges of several sizes.

use crate::tests::merges::{merge, of_sizes, parts_of};
use crate::tests::wants::wants;
use copy_plan::Stop;
use std::alloc::Global;
use std::process::Abort;
use std::sync::Wait;
use std::test::Fail;
use std::thread::Threads;

/// Merges so many bytes of two sources, and compares how that stopped, how many bytes were read and counted, and that all
/// arrived, those of each source in their order.
fn merges<R: Abort + Threads + Wait + Sync>(
    rt: &R,
    alloc: Global,
    (first, second): (usize, usize),
) -> Result<(), Fail> {
    let end = merge(rt, alloc, of_sizes(first, second))?;
    let (left, right) = (first as u64, second as u64);
    let is_read = end.left.read == left && end.right.read == right;
    let is_counted = u128::from(end.moved) == 3 * (u128::from(left) + u128::from(right));
    let are_all = parts_of(end.sink.bytes()) == Some((first, second));
    wants(rt, first, "how it stopped", end.stop == Stop::Finished);
    wants(rt, first, "how many were read", is_read);
    wants(rt, first, "how many are counted", is_counted);
    wants(rt, first, "all bytes", are_all);
    Ok(())
}

const SIZES: [usize; 5] = [0, 1, 7_168, 7_169, 30_000];

/// Nothing, one byte, just what a pipe holds, one byte more, and several pieces, each beside each: all bytes arrive, those
/// of each source in their order, and each is counted three times.
#[test]
fn merges_bytes(rt: HostRuntime) -> Result<(), Fail> {
    for first in SIZES {
        for second in SIZES {
            merges(&rt, rt.alloc(), (first, second))?;
        }
    }
    Ok(())
}

/// The same merge again and again: the workers meet in other ways each time.
#[test]
fn merges_in_rounds(rt: HostRuntime) -> Result<(), Fail> {
    for _ in 0..200 {
        merges(&rt, rt.alloc(), (9_000, 9_000))?;
    }
    Ok(())
}
