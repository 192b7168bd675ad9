//! The standard streams as a source and sinks: each failure is counted, and no bytes are told.
ghost use Rattle.std.specs.Prelude.{◌≡◌, ◌<◌, ◌≤◌, None, IfOk, OnErr, IsErrOf, length};
ghost use Rattle.std.specs.Io.KnownBytes.{ReadConsumes, WriteAppends};
ghost use Rattle.edge_io.specs.Faults.{HasRisen, CountsFailed, CountsWanted};

use edge_io::{Failed, Sink, SinkFault, Source};
use std::io::{Read, Write};

#[derive(Drop)]
pub struct Reading<R: Read> {
    pub reader: R,
    pub faults: u64,
}

impl<R: Read> Reading<R> {
    pub fn new(reader: R) -> Self
        ensures { result.faults ≡ 0 }
    {
        Reading { reader, faults: 0 }
    }
}

impl<R: Read> Source for Reading<R> {
    ghost left = { λ _. None };

    ghost faults = { λ s. s.faults };

    fn read(&mut self, buf: &mut [u8]) -> Result<usize, Failed>
        ensures fits { IfOk result (λ n. n ≤ length buf.old) }
        ensures cause { OnErr result (HasRisen self.old.faults self.new.faults) }
        ensures later { self.old.faults ≤ self.new.faults }

        // What the reader gives is handed on.
        ensures handed { ReadConsumes (R.remaining self.old.reader) (R.remaining self.new.reader) result buf.new }
    {
        match self.reader.read(buf) {
            Ok(n) => Ok(n),
            Err(_) => {
                self.faults = self.faults.saturating_add(1);
                Err(Failed)
            }
        }
    }
}

#[derive(Drop)]
pub struct Writing<W: Write> {
    pub writer: W,
    pub faults: u64,
}

impl<W: Write> Writing<W> {
    pub fn new(writer: W) -> Self
        ensures { result.faults ≡ 0 }
    {
        Writing { writer, faults: 0 }
    }
}

impl<W: Write> Sink for Writing<W> {
    ghost held = { λ _. None };

    ghost faults = { λ s. s.faults };

    ghost wants = { λ _. 0 };

    fn write(&mut self, piece: &[u8]) -> Result<usize, SinkFault>
        ensures fits { IfOk result (λ n. n ≤ length piece.now) }
        ensures progress { IfOk result (λ n. 0 < length piece.now → 0 < n) }
        ensures cause { IsErrOf result SinkFault.Failed → HasRisen self.old.faults self.new.faults }
        ensures later { self.old.faults ≤ self.new.faults }
        ensures failed { CountsFailed self.old.faults self.new.faults result }
        ensures wanted { CountsWanted 0 0 result }

        // The writer gets what is written.
        ensures handed { WriteAppends (W.contents self.old.writer) (W.contents self.new.writer) result piece.now }
    {
        match self.writer.write(piece) {
            Ok(n) if 0 < n || piece.is_empty() => Ok(n),
            _ => {
                self.faults = self.faults.saturating_add(1);
                Err(SinkFault::Failed)
            }
        }
    }
}
