//! Copies whose source or sink fails, and copies whose workers are signalled.

ghost use Rattle.std.specs.Prelude.{◌≤◌, length};
ghost use Rattle.copy_plan.specs.declared.TheConstants.{SIGNALS};

use crate::tests::wants::wants;
use copy_plan::{OpenGate, Planned, Stop, Who};
use flow_copy::{CopyEnd, copy_all};
use func_head::NoWatchers;
use mem_io::{MemSink, MemSource};
use std::alloc::{AllocError, Global};
use std::process::Abort;
use std::sync::Wait;
use std::test::Fail;
use std::thread::Threads;
use wait_rule::Domain;

const SIZE: usize = 20_000;

/// Offsets at the beginning, at the end of the first piece, and past the end.
const OFFSETS: [u64; 3] = [0, 4_096, 20_001];

/// How often each copy is made: the workers meet in other ways each time.
const ROUNDS: u32 = 30;

/// Plain signals, one for each worker at each offset.
const PLAIN: [Planned; 15] = [
    Planned {
        who: Who::Reader,
        offset: 0,
        fatal: false,
    },
    Planned {
        who: Who::Reader,
        offset: 1,
        fatal: false,
    },
    Planned {
        who: Who::Reader,
        offset: 4_096,
        fatal: false,
    },
    Planned {
        who: Who::Reader,
        offset: 8_192,
        fatal: false,
    },
    Planned {
        who: Who::Reader,
        offset: 20_000,
        fatal: false,
    },
    Planned {
        who: Who::Relay,
        offset: 0,
        fatal: false,
    },
    Planned {
        who: Who::Relay,
        offset: 1,
        fatal: false,
    },
    Planned {
        who: Who::Relay,
        offset: 4_096,
        fatal: false,
    },
    Planned {
        who: Who::Relay,
        offset: 8_192,
        fatal: false,
    },
    Planned {
        who: Who::Relay,
        offset: 20_000,
        fatal: false,
    },
    Planned {
        who: Who::Writer,
        offset: 0,
        fatal: false,
    },
    Planned {
        who: Who::Writer,
        offset: 1,
        fatal: false,
    },
    Planned {
        who: Who::Writer,
        offset: 4_096,
        fatal: false,
    },
    Planned {
        who: Who::Writer,
        offset: 8_192,
        fatal: false,
    },
    Planned {
        who: Who::Writer,
        offset: 20_000,
        fatal: false,
    },
];

fn bytes_of(alloc: Global) -> Result<Vec<u8>, AllocError> {
    let mut bytes = Vec::new(alloc);
    for i in 0..SIZE {
        bytes.push((i % 251) as u8)?;
    }
    Ok(bytes)
}

/// A copy of `SIZE` bytes in a Domain whose sleepers park at once.
fn copy<R: Threads + Wait + Sync>(
    rt: &R,
    alloc: Global,
    reads: &[u64],
    writes: &[u64],
    plan: &[Planned],
) -> Result<CopyEnd<MemSource, MemSink, NoWatchers>, AllocError>
    requires few { length plan.now ≤ SIGNALS }
{
    let (domain, mut task) = Domain::with_looks(alloc, 0)?;
    let bytes = bytes_of(alloc)?;
    let source = MemSource::new(alloc, &bytes, reads)?;
    let sink = MemSink::new(alloc, writes)?;
    match copy_all(
        rt, &domain, &mut task, source, sink, NoWatchers, plan, &OpenGate,
    ) {
        Ok(end) => Ok(end),
        Err(_) => Err(AllocError),
    }
}

/// What a copy in memory ended with.
type Ended = CopyEnd<MemSource, MemSink, NoWatchers>;

/// Whether the sink holds a front of the source's bytes.
fn holds_front(end: &Ended) -> bool {
    let mut next: usize = 0;
    for byte in end.sink.bytes() {
        if *byte != (next % 251) as u8 {
            return false;
        }
        next = next.saturating_add(1);
    }
    true
}

/// Makes a copy in rounds, whose read or write of that number fails, and compares how it stopped, that a front of the
/// source's bytes has arrived, and how many are in it.
fn stops<R: Abort + Threads + Wait + Sync>(
    rt: &R,
    alloc: Global,
    fails: (&[u64], &[u64]),
    stop: Stop,
    least: usize,
    most: usize,
) -> Result<(), Fail> {
    for round in 0..ROUNDS {
        let end = copy(rt, alloc, fails.0, fails.1, &[])?;
        let size = end.sink.bytes().len();
        let round = u64::from(round);
        wants(rt, round, "how it stopped", end.stop == stop);
        wants(rt, round, "how much arrived", least <= size && size <= most);
        wants(rt, round, "a front", holds_front(&end));
    }
    Ok(())
}

/// A source that fails at its first or second read: what it gave before has arrived.
#[test]
fn source_fails(rt: HostRuntime) -> Result<(), Fail> {
    let alloc = rt.alloc();
    stops(&rt, alloc, (&[1], &[]), Stop::ReadFault, 0, 0)?;
    stops(&rt, alloc, (&[2], &[]), Stop::ReadFault, 4_096, 4_096)
}

/// A sink that fails at its second write: a front has arrived, and the source was not waited for.
#[test]
fn sink_fails(rt: HostRuntime) -> Result<(), Fail> {
    stops(&rt, rt.alloc(), (&[], &[2]), Stop::WriteFault, 0, 4_096)
}

/// How a worker stopped.
fn stop_of(end: &Ended, who: Who) -> Stop {
    match who {
        Who::Reader => end.reader.stop,
        Who::Relay => end.relay.stop,
        Who::Writer => end.writer.stop,
    }
}

/// Whether a copy was killed exactly where the kill was sent, and the worker stopped to which one was sent before the first
/// read.
fn is_killed(end: &Ended, who: Who, offset: u64) -> bool {
    let sent = end.reader.read >= offset;
    let stop = if sent { Stop::Killed } else { Stop::Finished };
    end.stop == stop
        && end.reader.kills == u8::from(sent)
        && (offset != 0 || stop_of(end, who) == Stop::Killed)
}

/// Makes a copy in rounds, in which a worker is killed at an offset.
fn kills<R: Abort + Threads + Wait + Sync>(
    rt: &R,
    alloc: Global,
    who: Who,
    offset: u64,
) -> Result<(), Fail> {
    let plan = [Planned {
        who,
        offset,
        fatal: true,
    }];
    for _ in 0..ROUNDS / 3 {
        let end = copy(rt, alloc, &[], &[], &plan)?;
        wants(
            rt,
            offset,
            "killed where the kill was sent",
            is_killed(&end, who, offset),
        );
        wants(rt, offset, "a front", holds_front(&end));
    }
    Ok(())
}

/// A kill for each worker: what arrived is a front, and the copy says that it was killed exactly where the kill was
/// sent. One that was sent before the first read has stopped its own worker.
#[test]
fn workers_are_killed(rt: HostRuntime) -> Result<(), Fail> {
    for offset in OFFSETS {
        kills(&rt, rt.alloc(), Who::Reader, offset)?;
        kills(&rt, rt.alloc(), Who::Relay, offset)?;
        kills(&rt, rt.alloc(), Who::Writer, offset)?;
    }
    Ok(())
}

/// Whether all bytes arrived, the controller has waited for all that the workers counted, and fifteen signals were sent.
fn is_whole(end: &Ended) -> bool {
    end.stop == Stop::Finished
        && end.reader.sent == 15
        && end.moved == 60_000
        && matches!(end.total, Ok(60_000))
        && end.sink.bytes().len() == SIZE
        && holds_front(end)
}

/// All bytes arrive though each worker is signalled at each offset, and the controller has waited for all that they
/// counted.
#[test]
fn plain_signals_change_nothing(rt: HostRuntime) -> Result<(), Fail> {
    for round in 0..ROUNDS {
        let end = copy(&rt, rt.alloc(), &[], &[], &PLAIN)?;
        wants(&rt, u64::from(round), "whole", is_whole(&end));
    }
    Ok(())
}
