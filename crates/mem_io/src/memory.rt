ghost use Rattle.std.specs.Prelude.{◌≡◌, ◌<◌, ◌≤◌, ◌+◌, ◌^◌, ◌-◌, ◌↔◌, ◌++◌, [], length, drop, take, min};
ghost use Rattle.std.specs.Prelude.{Some, IfOk, IsErr, IsErrOf, IsTrue, OnErr};
ghost use Rattle.edge_io.specs.Faults.{HasRisen, CountsFailed, CountsWanted};
ghost use Rattle.mem_io.specs.Fails.{FailsNext, CountsCall, IsFresh};
ghost use Rattle.mem_io.specs.Memory.{SourceState, SinkState};

use crate::fails::Fails;
use edge_io::{Failed, Sink, SinkFault, Source};
use std::alloc::{AllocError, Global};
use std::marker::Model;

/// A source over bytes in memory, of which chosen reads fail.
///
/// Contracts see the bytes that are left and its reads so far. It tells all its bytes.
#[derive(Drop)]
pub struct MemSource {
    bytes: Vec<u8>,
    next: usize,
    fails: Fails,
}

impl Model for MemSource {
    ghost Value = { SourceState };

    ghost view = { λ s. record { left = drop s.next s.bytes.items; reads = s.fails } };

    ghost invariant = { λ s. s.next ≤ length s.bytes.items };
}

impl MemSource {
    /// A source with a copy of the bytes left. The reads whose numbers, from 1, are in `fails` fail.
    ///
    /// AllocError where there is no memory for the copies.
    pub fn new(alloc: Global, bytes: &[u8], fails: &[u64]) -> Result<MemSource, AllocError>
        ensures bytes { IfOk result (λ s. s.left ≡ bytes.now) }
        ensures fails { IfOk result (λ s. IsFresh s.reads fails.now) }
    {
        let fails = Fails::new(alloc, fails)?;
        Ok(MemSource {
            bytes: bytes.to_vec(alloc)?,
            next: 0,
            fails,
        })
    }

    // Whether a read has failed.
    pub(crate) fn has_failed(&self) -> bool
        ensures { IsTrue result ↔ 0 < self.now.reads.faults }
    {
        self.fails.has_failed()
    }
}

impl Source for MemSource {
    ghost left = { λ s. Some s.left };

    ghost faults = { λ s. s.reads.faults };

    /// Hands out all that is left and fits into `buf`. Failed at just the numbers of its list.
    fn read(&mut self, buf: &mut [u8]) -> Result<usize, Failed>
        ensures fits { IfOk result (λ n. n ≤ length buf.old) }
        ensures bytes { IfOk result (λ n. self.old.left ≡ take n buf.new ++ self.new.left) }
        ensures end { IfOk result (λ n. n ≡ 0 → 0 < length buf.old → self.old.left ≡ []) }
        ensures nothing { OnErr result (self.new.left ≡ self.old.left) }
        ensures cause { OnErr result (HasRisen self.old.reads.faults self.new.reads.faults) }
        ensures later { self.old.reads.faults ≤ self.new.reads.faults }
        ensures exact { IsErr result ↔ FailsNext self.old.reads }
        ensures most { IfOk result (λ n. n ≡ min (length self.old.left) (length buf.old)) }
        ensures calls { CountsCall self.old.reads self.new.reads }
    {
        if self.fails.next() {
            return Err(Failed);
        }
        let count = hand_out(&self.bytes[self.next..], buf);
        self.next += count;
        Ok(count)
    }
}

// Copies the front of what is left, as much as there is room for, and answers how many bytes.
fn hand_out(left: &[u8], buf: &mut [u8]) -> usize
    ensures count { result ≡ min (length left.now) (length buf.old) }
    ensures bytes { take result buf.new ≡ take result left.now }
{
    let count = left.len().min(buf.len());
    buf[..count].copy_from_slice(&left[..count]);
    count
}

/// A sink in memory, of which chosen writes fail.
///
/// Contracts see the bytes that it holds and its writes so far. It tells all its bytes.
#[derive(Drop)]
pub struct MemSink {
    bytes: Vec<u8>,
    fails: Fails,
    wants: u64,
}

impl Model for MemSink {
    ghost Value = { SinkState };

    ghost view = { λ s. record { held = s.bytes.items; writes = s.fails; wants = s.wants } };
}

impl MemSink {
    /// A sink that holds nothing. The writes whose numbers, from 1, are in `fails` fail.
    ///
    /// AllocError where there is no memory for the numbers.
    pub fn new(alloc: Global, fails: &[u64]) -> Result<MemSink, AllocError>
        ensures bytes { IfOk result (λ s. s.held ≡ []) }
        ensures fails { IfOk result (λ s. IsFresh s.writes fails.now) }
    {
        Ok(MemSink {
            bytes: Vec::new(alloc),
            fails: Fails::new(alloc, fails)?,
            wants: 0,
        })
    }

    /// The bytes that it holds, in the order in which they were written.
    pub fn bytes(&self) -> &[u8]
        ensures { result.now ≡ self.now.held }
    {
        &self.bytes
    }

    // Whether a write has failed.
    pub(crate) fn has_failed(&self) -> bool
        ensures { IsTrue result ↔ 0 < self.now.writes.faults }
    {
        self.fails.has_failed()
    }

    // The bytes that it holds, with their memory.
    pub(crate) fn into_bytes(self) -> Vec<u8>
        ensures { result.items ≡ self.held }
    {
        self.bytes
    }
}

impl Sink for MemSink {
    ghost held = { λ s. Some s.held };

    ghost faults = { λ s. s.writes.faults };

    ghost wants = { λ s. s.wants };

    /// Takes the piece whole. Failed at just the numbers of its list, and OutOfMemory where the bytes
    /// can't be kept.
    fn write(&mut self, piece: &[u8]) -> Result<usize, SinkFault>
        ensures fits { IfOk result (λ n. n ≤ length piece.now) }
        ensures progress { IfOk result (λ n. 0 < length piece.now → 0 < n) }
        ensures bytes { IfOk result (λ n. self.new.held ≡ self.old.held ++ take n piece.now) }
        ensures nothing { OnErr result (self.new.held ≡ self.old.held) }
        ensures cause { IsErrOf result SinkFault.Failed
            → HasRisen self.old.writes.faults self.new.writes.faults }
        ensures later { self.old.writes.faults ≤ self.new.writes.faults }
        ensures failed { CountsFailed self.old.writes.faults self.new.writes.faults result }
        ensures wanted { CountsWanted self.old.wants self.new.wants result }
        ensures exact { IsErrOf result SinkFault.Failed ↔ FailsNext self.old.writes }
        ensures whole { IfOk result (λ n. n ≡ length piece.now) }
        ensures calls { CountsCall self.old.writes self.new.writes }
    {
        if self.fails.next() {
            return Err(SinkFault::Failed);
        }
        match self.bytes.extend_from_slice(piece) {
            Ok(()) => Ok(piece.len()),
            Err(_) => {
                self.wants = self.wants.saturating_add(1);
                Err(SinkFault::OutOfMemory)
            }
        }
    }
}
