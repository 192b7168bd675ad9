//! The ends of the copies that are timed.

ghost use Rattle.std.specs.Prelude.{◌≡◌, ◌<◌, ◌≤◌, ℕ, List, Option, None, IfOk, IfSome, IsErrOf, OnErr};
ghost use Rattle.std.specs.Prelude.{length, take, []};
ghost use Rattle.std.specs.Io.KnownBytes.{append_known, prepend_known};
ghost use Rattle.edge_io.specs.Faults.{CountsFailed, CountsWanted, HasRisen};

use edge_io::{Failed, Sink, SinkFault, Source};

/// Fills a piece that a source is to give.
pub fn fill(block: &mut [u8]) {
    for (i, byte) in block.iter_mut().enumerate() {
        *byte = (i % 251) as u8;
    }
}

/// A source that gives one piece again and again. It borrows it: the threads of a copy hand their source on by value.
#[derive(Drop)]
pub struct Blocks<'a> {
    block: &'a [u8],
    left: u64,
}

impl<'a> Blocks<'a> {
    /// So many times this piece.
    pub fn new(block: &'a [u8], pieces: u64) -> Blocks<'a> {
        Blocks {
            block,
            left: pieces,
        }
    }
}

impl Source for Blocks<'_> {
    ghost left = { λ _. None };

    ghost faults = { λ _. 0 };

    fn read(&mut self, buf: &mut [u8]) -> Result<usize, Failed> {
        if self.left == 0 {
            return Ok(0);
        }
        let taken = buf.len().min(self.block.len());
        buf[..taken].copy_from_slice(&self.block[..taken]);
        self.left -= 1;
        Ok(taken)
    }
}

/// A sink that counts its bytes and mixes the first of each piece into a sum.
#[derive(Drop)]
pub struct Count {
    bytes: u64,
    sum: u64,
}

impl Count {
    /// One that has got nothing.
    pub fn new() -> Count {
        Count { bytes: 0, sum: 0 }
    }

    /// How many bytes it got, modulo 2^64.
    pub fn bytes(&self) -> u64 {
        self.bytes
    }
}

impl Sink for Count {
    ghost held = { λ _. None };

    ghost faults = { λ _. 0 };

    ghost wants = { λ _. 0 };

    fn write(&mut self, piece: &[u8]) -> Result<usize, SinkFault> {
        self.bytes = self.bytes.wrapping_add(piece.len() as u64);
        if let Some(first) = piece.first() {
            self.sum = self.sum.wrapping_mul(31).wrapping_add(u64::from(*first));
        }
        Ok(piece.len())
    }
}
