//! The program that replays scripts, drills, copies files, and merges two.
#![tactic(auto)]

use copy_plan::OpenGate;
use disk_io::{Disk, Reading, Writing, words};
use edge_io::{Folder, Sink, Source};
use func_head::FuncHead;
use std::alloc::{AllocError, Global};
use std::process::ExitCode;
use std::sync::Wait;
use std::thread::Threads;
use wait_rule::Domain;
use waitq_alone::alone::finish;
use waitq_alone::fault::Fault;
use waitq_copy::watchers::{Lengths, Lines};
use waitq_run::run::run;

/// Does what the words say, with a Domain of its own. It names no folder, source or sink, so that what `run` says of
/// theirs stays as it is.
fn run_over<R: Threads + Wait + Sync, F: Folder, I: Source, O: Sink, E: Sink>(
    rt: &R,
    alloc: Global,
    words: &[String],
    folder: &mut F,
    input: &mut I,
    out: &mut O,
    err: &mut E,
    watch: FuncHead,
) -> Result<u8, AllocError> {
    let (domain, mut task) = Domain::new(alloc)?;
    let status = run(
        rt, alloc, words, folder, input, out, err, &domain, &mut task, watch, &OpenGate,
    );
    Ok(status)
}

/// Does what the words say, over the files and the streams of the system.
fn run_on<R: Threads + Wait + Sync>(
    rt: &R,
    host: &HostRuntime,
    words: &[String],
    watch: FuncHead,
) -> Result<u8, AllocError> {
    run_over(
        rt,
        host.alloc(),
        words,
        &mut Disk::new(host),
        &mut Reading::new(host.stdin()),
        &mut Writing::new(host.stdout()),
        &mut Writing::new(host.stderr()),
        watch,
    )
}

/// Does what the words say, with two watchers for a copy: one adds up the lengths of its pieces, and one counts the ends
/// of lines.
fn start<R: Threads + Wait + Sync>(
    rt: &R,
    host: &HostRuntime,
    words: &[String],
) -> Result<u8, AllocError> {
    let alloc = host.alloc();
    let mut watch = FuncHead::new(alloc);
    let lengths = Box::new(alloc, Lengths { bytes: 0 })?;
    let lines = Box::new(alloc, Lines { ends: 0 })?;
    if watch.add_exclusive(lengths).is_err() || watch.add_exclusive(lines).is_err() {
        return Err(AllocError);
    }
    run_on(rt, host, words, watch)
}

fn main(rt: HostRuntime) -> ExitCode {
    let status = match words(&rt) {
        Ok(words) => start(&rt, &rt, &words),
        Err(AllocError) => Err(AllocError),
    };
    match status {
        Ok(status) => ExitCode::from(status),
        Err(AllocError) => {
            ExitCode::from(finish(&mut Writing::new(rt.stderr()), Err(Fault::Memory)))
        }
    }
}
