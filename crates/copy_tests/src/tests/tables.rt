//! Copies of several sizes.

use crate::tests::wants::wants;
use copy_plan::{OpenGate, Stop};
use flow_copy::copy_all;
use func_head::NoWatchers;
use mem_io::{MemSink, MemSource};
use std::alloc::{AllocError, Global};
use std::process::Abort;
use std::sync::Wait;
use std::test::Fail;
use std::thread::Threads;
use wait_rule::Domain;

/// How many bytes are copied, and how many are counted.
const SIZES: &[(usize, u64)] = &[
    (0, 0),
    (1, 3),
    (7_168, 21_504),
    (7_169, 21_507),
    (30_000, 90_000),
];

/// So many bytes.
fn bytes_of(alloc: Global, size: usize) -> Result<Vec<u8>, AllocError> {
    let mut bytes = Vec::new(alloc);
    for i in 0..size {
        bytes.push((i % 251) as u8)?;
    }
    Ok(bytes)
}

/// Copies these, and compares how the copy stopped, how many bytes are counted, and that all arrived.
fn copies<R: Abort + Threads + Wait + Sync>(
    rt: &R,
    alloc: Global,
    bytes: &[u8],
    moved: u64,
) -> Result<(), Fail> {
    let (domain, mut task) = Domain::new(alloc)?;
    let source = MemSource::new(alloc, bytes, &[])?;
    let sink = MemSink::new(alloc, &[])?;
    let Ok(end) = copy_all(
        rt,
        &domain,
        &mut task,
        source,
        sink,
        NoWatchers,
        &[],
        &OpenGate,
    ) else {
        return Err(AllocError)?;
    };
    wants(rt, moved, "how it stopped", end.stop == Stop::Finished);
    wants(rt, moved, "how many are counted", end.moved == moved);
    wants(rt, moved, "all bytes", end.sink.bytes() == bytes);
    Ok(())
}

/// Nothing, one byte, just what a pipe holds, one byte more, and several pieces: all bytes arrive, and each is counted
/// three times.
#[test]
fn copies_bytes(rt: HostRuntime) -> Result<(), Fail> {
    for (size, moved) in SIZES {
        let bytes = bytes_of(rt.alloc(), *size)?;
        copies(&rt, rt.alloc(), &bytes, *moved)?;
    }
    Ok(())
}
