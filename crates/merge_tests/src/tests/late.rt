//! A source that gives nothing until the bytes of the other have arrived.

ghost use Rattle.std.specs.Prelude.{Some};

use crate::tests::merges::{SECOND, bytes_of, parts_of};
use crate::tests::wants::wants;
use copy_plan::{OpenGate, Stop};
use edge_io::{Failed, Sink, SinkFault, Source};
use flow_merge::merge_all;
use mem_io::{MemSink, MemSource};
use std::alloc::{AllocError, Global};
use std::process::Abort;
use std::sync::Wait;
use std::sync::atomic::{AtomicU64, Ordering};
use std::test::Fail;
use std::thread::Threads;
use wait_rule::Domain;

/// How often a late source looks whether the other's bytes have arrived.
const LOOKS: u32 = 1_000_000_000;

const SIZE: usize = 20_000;

/// How many bytes have arrived in a sink, and how many late sources gave up.
#[derive(Drop)]
struct Arrived {
    bytes: AtomicU64,
    gave_up: AtomicU64,
}

/// A source that gives its first byte once so many have arrived in the sink.
#[derive(Drop)]
struct Late<'a> {
    source: MemSource,
    arrived: &'a Arrived,
    after: u64,
}

impl Source for Late<'_> {
    ghost left = { λ late. Some late.source.left };

    ghost faults = { λ late. late.source.reads.faults };

    fn read(&mut self, buf: &mut [u8]) -> Result<usize, Failed> {
        hold_up(self.arrived, self.after);
        self.source.read(buf)
    }
}

/// Waits until so many bytes have arrived, or gives up, and says so.
fn hold_up(arrived: &Arrived, after: u64) {
    for _ in 0..LOOKS {
        if arrived.bytes.load(Ordering::SeqCst) >= after {
            return;
        }
    }
    arrived.gave_up.fetch_add(1, Ordering::SeqCst);
}

/// A sink that counts what it takes.
#[derive(Drop)]
struct Counting<'a> {
    sink: MemSink,
    arrived: &'a Arrived,
}

impl Sink for Counting<'_> {
    ghost held = { λ s. Some s.sink.held };

    ghost faults = { λ s. s.sink.writes.faults };

    ghost wants = { λ s. s.sink.wants };

    fn write(&mut self, piece: &[u8]) -> Result<usize, SinkFault> {
        let written = self.sink.write(piece)?;
        self.arrived
            .bytes
            .fetch_add(written as u64, Ordering::SeqCst);
        Ok(written)
    }
}

/// Merges two sources that each wait for so many bytes in the sink, and compares how that stopped, how many bytes are
/// counted, that all arrived, and that no source gave up.
fn merges_late<R: Abort + Threads + Wait + Sync>(
    rt: &R,
    alloc: Global,
    (first_after, second_after): (u64, u64),
) -> Result<(), Fail> {
    let arrived = Arrived {
        bytes: AtomicU64::new(0),
        gave_up: AtomicU64::new(0),
    };
    let (domain, mut task) = Domain::with_looks(alloc, 0)?;
    let first = bytes_of(alloc, SIZE, 0)?;
    let second = bytes_of(alloc, SIZE, SECOND)?;
    let first = Late {
        source: MemSource::new(alloc, &first, &[])?,
        arrived: &arrived,
        after: first_after,
    };
    let second = Late {
        source: MemSource::new(alloc, &second, &[])?,
        arrived: &arrived,
        after: second_after,
    };
    let sink = Counting {
        sink: MemSink::new(alloc, &[])?,
        arrived: &arrived,
    };
    let Ok(end) = merge_all(rt, &domain, &mut task, first, second, sink, &OpenGate) else {
        return Err(AllocError)?;
    };
    let is_whole = end.stop == Stop::Finished && end.moved == 120_000;
    let are_all = parts_of(end.sink.sink.bytes()) == Some((SIZE, SIZE));
    let is_patient = arrived.gave_up.load(Ordering::SeqCst) == 0;
    wants(rt, 0, "how it stopped, and how many are counted", is_whole);
    wants(rt, 0, "all bytes", are_all);
    wants(rt, 0, "patience", is_patient);
    Ok(())
}

/// All of one source arrives while the other gives nothing, whichever it is: so none is waited for alone.
#[test]
fn whichever_has_bytes_first(rt: HostRuntime) -> Result<(), Fail> {
    merges_late(&rt, rt.alloc(), (0, SIZE as u64))?;
    merges_late(&rt, rt.alloc(), (SIZE as u64, 0))
}
