//! Bytes that a run is given or is to leave.

use std::alloc::{AllocError, Global};

#[derive(Clone, Copy)]
pub(crate) enum Bytes {
    /// These.
    Just(&'static str),
    /// These, where `; ` stands for a newline.
    Folded(&'static str),
    /// What a copy of so many bytes with no newline writes, and what a merge of so many does.
    Copied(u64),
    Merged(u64),
    /// These, and a line after them so often.
    Lines(&'static str, &'static str, u32),
    /// So many, of which each 100th is a newline, from the 100th on.
    Hundreds(usize),
    /// So many: a letter and the 22 after it, which come again and again in their order.
    Letters(u8, usize),
}

/// How bytes are like those that are wanted.
#[derive(Clone, Copy)]
pub(crate) enum Like {
    /// All of them.
    All,
    /// They begin with them.
    Begins,
    /// They end with them.
    Ends,
    /// A front of them that has so many bytes at least, and is not all of them.
    Cut(usize),
    /// A front of them that has so many bytes at most.
    AtMost(usize),
    /// A front of them that has so many bytes.
    Front(usize),
}

/// Whether bytes are like those that are wanted.
pub(crate) fn are_like(found: &[u8], like: Like, wanted: &[u8]) -> bool {
    match like {
        Like::All => found == wanted,
        Like::Begins => found.starts_with(wanted),
        Like::Ends => found.ends_with(wanted),
        Like::Cut(least) => {
            wanted.starts_with(found) && found.len() >= least && found.len() < wanted.len()
        }
        Like::AtMost(most) => wanted.starts_with(found) && found.len() <= most,
        Like::Front(size) => wanted.starts_with(found) && found.len() == size,
    }
}

/// A byte of those of which each 100th is a newline.
fn hundredth(at: usize) -> u8 {
    if at % 100 == 99 {
        b'\n'
    } else {
        b'a' + (at % 23) as u8
    }
}

/// Adds a text with a newline for each `; ` of it.
fn unfold(made: &mut Vec<u8>, text: &str) -> Result<(), AllocError> {
    let mut is_behind = false;
    for byte in text.as_bytes() {
        match *byte {
            b';' => made.push(b'\n')?,
            b' ' if is_behind => {}
            other => made.push(other)?,
        }
        is_behind = *byte == b';';
    }
    Ok(())
}

/// Adds a text.
fn push_text(made: &mut Vec<u8>, text: &str) -> Result<(), AllocError> {
    made.extend_from_slice(text.as_bytes())
}

/// The text of a copy of so many bytes, none of which is a newline. Each is moved three times.
fn text_of_copy(alloc: Global, size: u64) -> Result<String, AllocError> {
    let moved = size.saturating_mul(3);
    format!(in alloc; "copied {size} bytes\nmoved {moved}\nwatch 0 {size}\nwatch 1 0\nsignals 0\n")
}

/// And that of a merge.
fn text_of_merge(alloc: Global, size: u64) -> Result<String, AllocError> {
    let moved = size.saturating_mul(3);
    format!(in alloc; "merged {size} bytes\nmoved {moved}\n")
}

/// The bytes.
pub(crate) fn made(alloc: Global, bytes: Bytes) -> Result<Vec<u8>, AllocError> {
    let mut made = Vec::new(alloc);
    match bytes {
        Bytes::Just(text) => push_text(&mut made, text)?,
        Bytes::Folded(text) => unfold(&mut made, text)?,
        Bytes::Copied(size) => push_text(&mut made, text_of_copy(alloc, size)?.as_str())?,
        Bytes::Merged(size) => push_text(&mut made, text_of_merge(alloc, size)?.as_str())?,
        Bytes::Lines(text, line, times) => {
            push_text(&mut made, text)?;
            for _ in 0..times {
                push_text(&mut made, line)?;
            }
        }
        Bytes::Hundreds(size) => {
            for at in 0..size {
                made.push(hundredth(at))?;
            }
        }
        Bytes::Letters(first, size) => {
            for at in 0..size {
                made.push(first.saturating_add((at % 23) as u8))?;
            }
        }
    }
    Ok(made)
}

/// The least of the bytes that letters, or a line of one letter again and again, can have.
pub(crate) fn least_of(bytes: Bytes) -> u8 {
    match bytes {
        Bytes::Letters(first, _) => first,
        Bytes::Lines(_, line, _) => line.as_bytes().first().copied().unwrap_or(0),
        _ => 0,
    }
}

/// How many bytes of each of two there are in these, if they are fronts of both; those from `least` on are of the
/// second.
pub(crate) fn parts(all: &[u8], first: &[u8], second: &[u8], least: u8) -> Option<(usize, usize)> {
    let (mut one, mut two) = (0usize, 0usize);
    for byte in all {
        let (from, place) = if *byte < least {
            (first, &mut one)
        } else {
            (second, &mut two)
        };
        if from.get(*place) != Some(byte) {
            return None;
        }
        *place = place.saturating_add(1);
    }
    Some((one, two))
}
