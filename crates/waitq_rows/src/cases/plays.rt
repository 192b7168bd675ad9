//! Plays the rows.

use crate::cases::bytes::{Bytes, are_like, least_of, made, parts};
use crate::cases::{Case, Held, Outside, REPLAY};
use copy_plan::OpenGate;
use edge_io::{Folder, Sink, Source};
use func_head::FuncHead;
use mem_io::{MemFolder, MemSink, MemSource};
use std::alloc::{AllocError, Global};
use std::process::Abort;
use std::sync::Wait;
use std::test::Fail;
use std::thread::Threads;
use wait_rule::Domain;
use waitq_copy::watchers::{Lengths, Lines};
use waitq_run::run::run;

/// What a run answered, wrote and left.
#[derive(Drop)]
struct Left {
    status: u8,
    folder: MemFolder,
    out: MemSink,
    err: MemSink,
}

/// The watchers of the program: the bytes of the pieces, and the ends of their lines.
fn watchers_of(alloc: Global) -> Result<FuncHead, Fail> {
    let mut watch = FuncHead::new(alloc);
    let lengths = Box::new(alloc, Lengths { bytes: 0 })?;
    let lines = Box::new(alloc, Lines { ends: 0 })?;
    if watch.add_exclusive(lengths).is_err() || watch.add_exclusive(lines).is_err() {
        return Err(AllocError)?;
    }
    Ok(watch)
}

/// The status of words over a folder, with these watchers. It names no folder, source or sink, so that what `run` says
/// of theirs stays as it is.
fn status_under<R: Threads + Wait + Sync, F: Folder, I: Source, O: Sink, E: Sink>(
    rt: &R,
    alloc: Global,
    words: &[String],
    folder: &mut F,
    input: &mut I,
    out: &mut O,
    err: &mut E,
    watch: FuncHead,
) -> Result<u8, Fail> {
    let (domain, mut task) = Domain::with_looks(alloc, 0)?;
    let status = run(
        rt, alloc, words, folder, input, out, err, &domain, &mut task, watch, &OpenGate,
    );
    Ok(status)
}

/// Adds words as the program gets them.
fn push_words(alloc: Global, list: &mut Vec<String>, words: &[&str]) -> Result<(), AllocError> {
    for word in words {
        list.push(String::from_str(alloc, word)?)?;
    }
    Ok(())
}

/// The words of a case.
fn words_of(alloc: Global, case: &Case) -> Result<Vec<String>, AllocError> {
    let mut list = Vec::new(alloc);
    push_words(alloc, &mut list, case.words)?;
    push_words(alloc, &mut list, case.events)?;
    Ok(list)
}

/// The numbers of the calls that fail there.
fn fails_of(alloc: Global, case: &Case, outside: Outside) -> Result<Vec<u64>, AllocError> {
    let mut numbers = Vec::new(alloc);
    for (failing, number) in case.fails {
        if *failing == outside {
            numbers.push(*number)?;
        }
    }
    Ok(numbers)
}

/// Adds a file, where the case has one.
fn add_file(
    alloc: Global,
    folder: &mut MemFolder,
    name: &str,
    bytes: Option<Bytes>,
    reads: &[u64],
) -> Result<(), AllocError> {
    match bytes {
        Some(bytes) => {
            let bytes = made(alloc, bytes)?;
            folder.add(name, &bytes, reads)
        }
        None => Ok(()),
    }
}

/// The folder of a case.
fn folder_of(alloc: Global, case: &Case) -> Result<MemFolder, AllocError> {
    let mut folder = MemFolder::new(alloc);
    add_file(
        alloc,
        &mut folder,
        "a",
        case.a,
        &fails_of(alloc, case, Outside::Read)?,
    )?;
    add_file(alloc, &mut folder, "b", case.b, &[])?;
    folder.fail_writes(&fails_of(alloc, case, Outside::Write)?)?;
    folder.fail_calls(&fails_of(alloc, case, Outside::Folder)?)?;
    Ok(folder)
}

/// The folder and the sinks of a case, before its run.
fn begun(alloc: Global, case: &Case) -> Result<Left, AllocError> {
    Ok(Left {
        status: 0,
        folder: folder_of(alloc, case)?,
        out: MemSink::new(alloc, &fails_of(alloc, case, Outside::Out)?)?,
        err: MemSink::new(alloc, &fails_of(alloc, case, Outside::Err)?)?,
    })
}

/// Runs a case on an input, with these watchers.
fn runs<R: Threads + Wait + Sync>(
    rt: &R,
    alloc: Global,
    case: &Case,
    input: &[u8],
    left: &mut Left,
    watch: FuncHead,
) -> Result<(), Fail> {
    let list = words_of(alloc, case)?;
    let mut input = MemSource::new(alloc, input, &fails_of(alloc, case, Outside::In)?)?;
    left.status = status_under(
        rt,
        alloc,
        &list,
        &mut left.folder,
        &mut input,
        &mut left.out,
        &mut left.err,
        watch,
    )?;
    Ok(())
}

/// Whether a file is as it was before.
fn is_kept(alloc: Global, before: Option<Bytes>, found: Option<&[u8]>) -> Result<bool, AllocError> {
    match (before, found) {
        (Some(before), Some(found)) => Ok(found == made(alloc, before)?.as_slice()),
        (None, None) => Ok(true),
        _ => Ok(false),
    }
}

/// Whether the file that a case writes is there, and as it is to be.
fn is_held(alloc: Global, case: &Case, found: Option<&[u8]>) -> Result<bool, AllocError> {
    let Some(found) = found else {
        return Ok(false);
    };
    let first = case.a.unwrap_or(Bytes::Just(""));
    let second = case.b.unwrap_or(Bytes::Just(""));
    match case.left {
        Held::Such(like) => Ok(are_like(found, like, &made(alloc, first)?)),
        Held::Merged => is_merged(alloc, found, first, second, true),
        Held::MergedFronts => is_merged(alloc, found, first, second, false),
        _ => Ok(false),
    }
}

/// Whether a file of this name is as it is to be.
fn is_left(
    alloc: Global,
    case: &Case,
    name: &str,
    before: Option<Bytes>,
    found: Option<&[u8]>,
) -> Result<bool, AllocError> {
    match case.left {
        Held::Any if name == case.into => Ok(true),
        Held::Such(_) | Held::Merged | Held::MergedFronts if name == case.into => {
            is_held(alloc, case, found)
        }
        _ => is_kept(alloc, before, found),
    }
}

/// Whether these are bytes of both files in their order, all of them where they are to be.
fn is_merged(
    alloc: Global,
    found: &[u8],
    first: Bytes,
    second: Bytes,
    all: bool,
) -> Result<bool, AllocError> {
    let least = least_of(second);
    let first = made(alloc, first)?;
    let second = made(alloc, second)?;
    Ok(match parts(found, &first, &second, least) {
        Some(sizes) => !all || sizes == (first.len(), second.len()),
        None => false,
    })
}

/// Wants what was seen of a case to be so. The rows of a table are counted from 1.
pub(crate) fn wants(rt: &impl Abort, row: u64, name: &str, what: &str, is_so: bool) {
    assert!(rt; is_so, "row {row}, {name}: {what}");
}

/// Compares what a run answered, wrote and left with what it was to.
fn compares(
    rt: &impl Abort,
    alloc: Global,
    row: u64,
    case: &Case,
    left: &Left,
) -> Result<(), Fail> {
    let name = case.name;
    wants(rt, row, name, "status", left.status == case.status);
    let text = made(alloc, case.text)?;
    let is_text = are_like(left.out.bytes(), case.like, &text);
    wants(rt, row, name, "text", is_text);
    let is_line = left.err.bytes() == case.line.as_bytes();
    wants(rt, row, name, "line", is_line);
    for (file, before) in [("a", case.a), ("b", case.b), ("c", None)] {
        let is_so = is_left(alloc, case, file, before, left.folder.bytes_of(file))?;
        wants(rt, row, name, file, is_so);
    }
    Ok(())
}

/// Plays a row of a table with these watchers.
pub(crate) fn play_under<R: Abort + Threads + Wait + Sync>(
    rt: &R,
    alloc: Global,
    row: u64,
    case: &Case,
    watch: FuncHead,
) -> Result<(), Fail> {
    let mut left = begun(alloc, case)?;
    let input = made(alloc, case.input)?;
    runs(rt, alloc, case, &input, &mut left, watch)?;
    compares(rt, alloc, row, case, &left)
}

/// Plays each case of a table, with the watchers of the program.
pub(crate) fn play_all<R: Abort + Threads + Wait + Sync>(
    rt: &R,
    alloc: Global,
    cases: &[Case],
) -> Result<(), Fail> {
    let mut row: u64 = 0;
    for case in cases {
        row = row.saturating_add(1);
        let watch = watchers_of(alloc)?;
        play_under(rt, alloc, row, case, watch)?;
    }
    Ok(())
}

/// Plays a case with the words of each row.
pub(crate) fn play_words<R: Abort + Threads + Wait + Sync>(
    rt: &R,
    alloc: Global,
    case: Case,
    rows: &[&'static [&'static str]],
) -> Result<(), Fail> {
    for words in rows {
        play_all(
            rt,
            alloc,
            &[Case {
                words: *words,
                ..case
            }],
        )?;
    }
    Ok(())
}

/// Replays a script, in which nothing fails, and compares its text.
pub(crate) fn plays_script<R: Abort + Threads + Wait + Sync>(
    rt: &R,
    alloc: Global,
    name: &str,
    script: &[u8],
    text: &[u8],
) -> Result<(), Fail> {
    let mut left = begun(alloc, &REPLAY)?;
    let watch = watchers_of(alloc)?;
    runs(rt, alloc, &REPLAY, script, &mut left, watch)?;
    wants(rt, 1, name, "status", left.status == 0);
    wants(rt, 1, name, "text", left.out.bytes() == text);
    Ok(())
}
