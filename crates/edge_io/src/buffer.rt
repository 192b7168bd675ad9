ghost use Rattle.std.specs.Prelude.{◌≡◌, ◌+◌, ◌-◌, ◌^◌, ◌<◌, ◌≤◌, [], ◌++◌, Some, Ok, Err, length, take, drop};
ghost use Rattle.std.specs.Prelude.{IfOk, OnOk, OnErr, IsErrOf, vec_len, vec_capacity};
ghost use Rattle.edge_io.specs.Faults.{HasRisen, CountsFailed, CountsWanted};
ghost use Rattle.edge_io.specs.Text.{Midway};

use crate::sink::write_front;
use crate::{Sink, SinkFault};
use std::alloc::{AllocError, Global};
use std::marker::Model;

/// The most bytes that a buffer holds: 64 KiB.
pub const BUFFER_ROOM: usize = 65_536;

/// Bytes on their way to a sink, in memory that is taken once.
///
/// A buffer is a sink, so that texts are written into it as into any other. Where they go from there is
/// named at each call that sends them on: what the sink behind it got and what is still here can then
/// be told apart. Contracts see a buffer as the list of its bytes. To drop it is to lose the bytes that
/// weren't sent.
#[derive(Drop)]
pub struct Buffer {
    bytes: Vec<u8>,
}

impl Model for Buffer {
    ghost use Rattle.std.specs.Prelude.{ℕ, ◌≤◌, List, vec_len, vec_capacity};
    ghost use Rattle.edge_io.specs.declared.buffer.TheConstants.{BUFFER_ROOM};

    ghost Value = { List ℕ };

    ghost view = { λ b. b.bytes.items };

    ghost invariant = { λ b. (vec_len b.bytes ≤ BUFFER_ROOM) × (BUFFER_ROOM ≤ vec_capacity b.bytes) };
}

impl Buffer {
    /// An empty buffer. AllocError where its room can't be had.
    ///
    /// No other call of a buffer takes memory.
    pub fn new(alloc: Global) -> Result<Buffer, AllocError>
        ensures { IfOk result (λ b. b ≡ []) }
    {
        Ok(Buffer {
            bytes: Vec::with_capacity(alloc, BUFFER_ROOM)?,
        })
    }

    /// The bytes that are still to be sent.
    pub fn bytes(&self) -> &[u8]
        ensures { result.now ≡ self.now }
    {
        &self.bytes
    }

    /// Sends all bytes on to `out`.
    ///
    /// After a fault a front of the bytes is in `out` and the rest is still here: none is lost, and none
    /// is sent twice. The fault is that of the last write to `out`: of all these writes that one alone was
    /// counted, by the count of its kind.
    pub fn flush<K: Sink>(&mut self, out: &mut K) -> Result<(), SinkFault>
        ensures sent { Midway (K.held out.old) (K.held out.new) self.new self.old }
        ensures empty { OnOk result (self.new ≡ []) }
        ensures cause { IsErrOf result SinkFault.Failed → HasRisen (K.faults out.old) (K.faults out.new) }
        ensures later { K.faults out.old ≤ K.faults out.new }
        ensures failed { CountsFailed (K.faults out.old) (K.faults out.new) result }
        ensures wanted { CountsWanted (K.wants out.old) (K.wants out.new) result }
    {
        let (sent, result) = write_front(out, &self.bytes);
        remove_front(&mut self.bytes, sent);
        result
    }

    /// Sends all bytes on to `out` where fewer than `room` more fit, so that `room` bytes do fit after
    /// it.
    ///
    /// Where they fit already, nothing is written. A fault is as in `flush`.
    pub fn make_room<K: Sink>(&mut self, out: &mut K, room: usize) -> Result<(), SinkFault>
        requires { room ≤ BUFFER_ROOM }
        ensures sent { Midway (K.held out.old) (K.held out.new) self.new self.old }
        ensures room { OnOk result (length self.new + room ≤ BUFFER_ROOM) }
        ensures spares { length self.old + room ≤ BUFFER_ROOM → self.new ≡ self.old }
        ensures cause { IsErrOf result SinkFault.Failed → HasRisen (K.faults out.old) (K.faults out.new) }
        ensures later { K.faults out.old ≤ K.faults out.new }
        ensures failed { CountsFailed (K.faults out.old) (K.faults out.new) result }
        ensures wanted { CountsWanted (K.wants out.old) (K.wants out.new) result }
    {
        if room <= BUFFER_ROOM - self.bytes.len() {
            return Ok(());
        }
        self.flush(out)
    }
}

impl Sink for Buffer {
    ghost held = { λ b. Some b };

    ghost faults = { λ _. 0 };

    ghost wants = { λ _. 2 ^ 64 - 1 };

    /// Takes the piece whole where it fits, and else nothing: OutOfMemory. It never answers Failed.
    fn write(&mut self, piece: &[u8]) -> Result<usize, SinkFault>
        ensures fits { IfOk result (λ n. n ≤ length piece.now) }
        ensures progress { IfOk result (λ n. 0 < length piece.now → 0 < n) }
        ensures bytes { IfOk result (λ n. self.new ≡ self.old ++ take n piece.now) }
        ensures nothing { OnErr result (self.new ≡ self.old) }
        ensures cause { IsErrOf result SinkFault.Failed → HasRisen 0 0 }
        ensures later { 0 ≤ 0 }
        ensures failed { CountsFailed 0 0 result }
        ensures wanted { CountsWanted (2 ^ 64 - 1) (2 ^ 64 - 1) result }
        ensures whole { length self.old + length piece.now ≤ BUFFER_ROOM → result ≡ Ok (length piece.now) }
        ensures full { BUFFER_ROOM < length self.old + length piece.now → result ≡ Err SinkFault.OutOfMemory }
    {
        if piece.len() > BUFFER_ROOM - self.bytes.len() {
            return Err(SinkFault::OutOfMemory);
        }
        match self.bytes.extend_from_slice(piece) {
            Ok(()) => Ok(piece.len()),
            Err(_) => Err(SinkFault::OutOfMemory),
        }
    }
}

// Removes `count` bytes from the front.
fn remove_front(bytes: &mut Vec<u8>, count: usize)
    requires { count ≤ vec_len bytes.old }
    ensures items { bytes.new.items ≡ drop count bytes.old.items }
    ensures len { vec_len bytes.new ≡ vec_len bytes.old - count }
    ensures capacity { vec_capacity bytes.new ≡ vec_capacity bytes.old }
{
    let len = bytes.len();
    bytes.as_mut_slice().copy_within(count..len, 0);
    bytes.truncate(len - count);
}
