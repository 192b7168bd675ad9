//! Two sources that can be told apart, and what of each is in a sink.

use copy_plan::OpenGate;
use flow_merge::{MergeEnd, merge_all};
use mem_io::{MemSink, MemSource};
use std::alloc::{AllocError, Global};
use std::sync::Wait;
use std::thread::Threads;
use wait_rule::Domain;

/// The bytes of the second source have this bit, and those of the first have not.
pub const SECOND: u8 = 128;

/// So many bytes of a source.
pub fn bytes_of(alloc: Global, size: usize, mark: u8) -> Result<Vec<u8>, AllocError> {
    let mut bytes = Vec::new(alloc);
    for i in 0..size {
        bytes.push((i % 127) as u8 | mark)?;
    }
    Ok(bytes)
}

/// What is merged: how many bytes each source has, and which read of each and which write fails; 0 is none of them.
#[derive(Clone, Copy)]
pub struct Given {
    pub sizes: (usize, usize),
    pub first_fails: u64,
    pub second_fails: u64,
    pub writes_fail: u64,
}

/// Sources of these sizes, and nothing fails.
pub fn of_sizes(first: usize, second: usize) -> Given {
    Given {
        sizes: (first, second),
        first_fails: 0,
        second_fails: 0,
        writes_fail: 0,
    }
}

/// Merges them in a Domain whose sleepers park at once.
pub fn merge<R: Threads + Wait + Sync>(
    rt: &R,
    alloc: Global,
    given: Given,
) -> Result<MergeEnd<MemSource, MemSink>, AllocError> {
    let (domain, mut task) = Domain::with_looks(alloc, 0)?;
    let first = bytes_of(alloc, given.sizes.0, 0)?;
    let second = bytes_of(alloc, given.sizes.1, SECOND)?;
    let first = MemSource::new(alloc, &first, &[given.first_fails])?;
    let second = MemSource::new(alloc, &second, &[given.second_fails])?;
    let sink = MemSink::new(alloc, &[given.writes_fail])?;
    match merge_all(rt, &domain, &mut task, first, second, sink, &OpenGate) {
        Ok(end) => Ok(end),
        Err(_) => Err(AllocError),
    }
}

/// How many bytes of each source are in a sink, if those of each are in their order.
pub fn parts_of(bytes: &[u8]) -> Option<(usize, usize)> {
    let (mut first, mut second) = (0usize, 0usize);
    for byte in bytes {
        let place = if *byte < SECOND {
            &mut first
        } else {
            &mut second
        };
        if usize::from(*byte % SECOND) != *place % 127 {
            return None;
        }
        *place = place.saturating_add(1);
    }
    Some((first, second))
}
