//! One task alone does the work of all four, one after the other: ten bytes fit into the pipes.

ghost use Rattle.std.specs.Prelude.{◌≡◌};
ghost use Rattle.copy_ends.specs.Did.{IsIdler};

use crate::tests::wants::all_so;
use copy_plan::{OpenGate, ReaderEnd, SINK_PIPE, SOURCE_PIPE, Stop, WorkerEnd};
use flow_copy::{controller_task, reader_task, relay_task, writer_task};
use func_head::NoWatchers;
use mem_io::{MemSink, MemSource};
use std::sync::Wait;
use std::test::Fail;
use wait_rule::{Domain, Task};

/// One task does the work of a reader, of a relay and of a writer: how each ended.
fn work_alone<R: Wait>(
    rt: &R,
    domain: &Domain,
    task: &mut Task,
    source: &mut MemSource,
    sink: &mut MemSink,
) -> (ReaderEnd, WorkerEnd, WorkerEnd)
    requires of { task.old.domain ≡ domain.now }
    requires idler { IsIdler task.old }
    ensures of { task.new.domain ≡ domain.now }
    ensures idler { IsIdler task.new }
{
    let reader = reader_task(
        rt,
        domain,
        task,
        SOURCE_PIPE,
        source,
        &[],
        [0, 0, 0],
        &OpenGate,
    );
    let relay = relay_task(rt, domain, task, &OpenGate);
    let writer = writer_task(
        rt,
        domain,
        task,
        SINK_PIPE,
        sink,
        &mut NoWatchers,
        &OpenGate,
    );
    (reader, relay, writer)
}

/// Whether all finished, and each counted ten bytes.
fn are_ten(ends: &(ReaderEnd, WorkerEnd, WorkerEnd)) -> bool {
    let ten = WorkerEnd {
        stop: Stop::Finished,
        moved: 10,
    };
    let reader = ReaderEnd {
        stop: Stop::Finished,
        read: 10,
        sent: 0,
        kills: 0,
    };
    *ends == (reader, ten, ten)
}

/// All workers finish, and each counts ten bytes.
#[test]
fn one_task_does_all(rt: HostRuntime) -> Result<(), Fail> {
    let (domain, mut task) = Domain::new(rt.alloc())?;
    let mut source = MemSource::new(rt.alloc(), b"ten bytes.", &[])?;
    let mut sink = MemSink::new(rt.alloc(), &[])?;
    let ends = work_alone(&rt, &domain, &mut task, &mut source, &mut sink);
    let is_counted = matches!(controller_task(&rt, &domain, &mut task, 3), Ok(30));
    let is_there = sink.bytes() == b"ten bytes.".as_slice();
    all_so(&rt, &[are_ten(&ends), is_counted, is_there]);
    Ok(())
}

/// Whether all stopped at once, and the reader has read nothing.
fn are_taken(ends: &(ReaderEnd, WorkerEnd, WorkerEnd)) -> bool {
    ends.0.stop == Stop::Taken
        && ends.0.read == 0
        && ends.1.stop == Stop::Taken
        && ends.2.stop == Stop::Taken
}

/// An end is opened once: a second reader, relay or writer of the Domain stops at once, and has done nothing.
#[test]
fn second_workers_stop_as_taken(rt: HostRuntime) -> Result<(), Fail> {
    let (domain, mut task) = Domain::new(rt.alloc())?;
    let mut source = MemSource::new(rt.alloc(), b"abc", &[])?;
    let mut more = MemSource::new(rt.alloc(), b"def", &[])?;
    let mut sink = MemSink::new(rt.alloc(), &[])?;
    work_alone(&rt, &domain, &mut task, &mut source, &mut sink);
    let ends = work_alone(&rt, &domain, &mut task, &mut more, &mut sink);
    let is_first = sink.bytes() == b"abc".as_slice();
    all_so(&rt, &[are_taken(&ends), is_first]);
    Ok(())
}
