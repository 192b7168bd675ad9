//! Lines: a call of a task is opened, or a task makes steps.

ghost use Rattle.std.specs.Prelude.{◌≡◌, map, IfOk, IsTrue};
ghost use Rattle.std.specs.List.{list_all};
ghost use Rattle.wait_script.specs.Lines.{step_at, call_at, words_at, is_printable, version_at, header_at, line_at};

use crate::fields::{count, task};
use crate::forms::{last_of, named};
use crate::reason::Reason;
use crate::version::Version;
use crate::words::{both, split};
use std::alloc::AllocError;
use wait_model::calls::Call;
use wait_model::layout::{EVENTS, LINE_BYTES};

/// A line of a script after its header.
#[derive(Clone, Copy)]
pub enum Line {
    /// A call of a task is opened.
    Call { task: u8, call: Call },
    /// A task makes up to so many steps, 1 to `EVENTS`.
    Step { task: u8, count: u32 },
}

/// `step TASK COUNT`, by the words after the first.
fn step(version: Version, words: &[&[u8]]) -> Result<Line, Reason>
    ensures { result ≡ step_at version (map (λ w. w.now) words.now) }
{
    let [who, number] = words else {
        return Err(Reason::WordCount);
    };
    let (task, count) = both(task(who, version.last_task()), count(number, 1, EVENTS))?;
    Ok(Line::Step { task, count })
}

/// `call TASK NAME ..`, by the words after the first.
fn call(version: Version, words: &[&[u8]]) -> Result<Line, Reason>
    ensures { result ≡ call_at version (map (λ w. w.now) words.now) }
{
    let [who, name, rest @ ..] = words else {
        return Err(Reason::WordCount);
    };
    let (task, call) = both(
        task(who, last_of(version, name, rest)),
        named(version, name, rest),
    )?;
    Ok(Line::Call { task, call })
}

/// A line by its words.
fn by_words(version: Version, words: &[&[u8]]) -> Result<Line, Reason>
    ensures { result ≡ words_at version (map (λ w. w.now) words.now) }
{
    let [verb, rest @ ..] = words else {
        return Err(Reason::UnknownWord);
    };
    if *verb == b"call".as_slice() {
        call(version, rest)
    } else if *verb == b"step".as_slice() {
        step(version, rest)
    } else {
        Err(Reason::UnknownWord)
    }
}

/// Whether the line has no byte but those of plain text.
fn is_printable_line(line: &[u8]) -> bool
    ensures { result ≡ list_all is_printable line.now }
{
    line.iter().all(|b| 0x20 <= *b && *b <= 0x7E)
}

/// The version whose first line this is, or that it is none.
fn version_named(line: &[u8]) -> Result<Version, Reason>
    ensures { result ≡ version_at line.now }
{
    if line == b"waitq 1".as_slice() {
        Ok(Version::One)
    } else if line == b"waitq 2".as_slice() {
        Ok(Version::Two)
    } else {
        Err(Reason::NoHeader)
    }
}

/// The version that line 1 says, or the first reason why it is bad.
pub fn read_header(line: &[u8]) -> Result<Version, Reason>
    ensures { result ≡ header_at line.now }
{
    if line.len() > LINE_BYTES {
        Err(Reason::LongLine)
    } else if !is_printable_line(line) {
        Err(Reason::BadByte)
    } else {
        version_named(line)
    }
}

/// What a line after the header says, or the first reason why it is bad. `words` is room for its words.
pub fn read_line<'a>(
    version: Version,
    words: &mut Vec<&'a [u8]>,
    line: &'a [u8],
) -> Result<Result<Line, Reason>, AllocError>
    ensures { IfOk result (λ r. r ≡ line_at version line.now) }
{
    if line.len() > LINE_BYTES {
        return Ok(Err(Reason::LongLine));
    }
    if !split(words, line)? {
        return Ok(Err(Reason::BadByte));
    }
    Ok(by_words(version, words))
}
