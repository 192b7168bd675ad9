//! The program that replays scripts and drills, for who needs no files: it stands on a third of the crates of `waitq`, which
//! does the same and copies and merges files too, so it is sooner proved and built.
#![tactic(auto)]

use disk_io::{Reading, Writing, words};
use std::alloc::AllocError;
use std::process::ExitCode;
use waitq_alone::alone::finish;
use waitq_alone::fault::Fault;
use waitq_alone::words::run_words;

/// Does what the words say that the system gives, over the streams of the system.
fn run_host(rt: &HostRuntime) -> Result<u8, AllocError> {
    let words = words(rt)?;
    let status = run_words(
        rt.alloc(),
        &words,
        &mut Reading::new(rt.stdin()),
        &mut Writing::new(rt.stdout()),
        &mut Writing::new(rt.stderr()),
    );
    Ok(status)
}

fn main(rt: HostRuntime) -> ExitCode {
    match run_host(&rt) {
        Ok(status) => ExitCode::from(status),
        Err(AllocError) => {
            ExitCode::from(finish(&mut Writing::new(rt.stderr()), Err(Fault::Memory)))
        }
    }
}
