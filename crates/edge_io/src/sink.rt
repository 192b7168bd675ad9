ghost use Rattle.std.specs.Prelude.{◌≡◌, ℕ, ◌<◌, ◌≤◌, List, length, take, IfOk, OnErr, OnOk, IsErrOf, Option};
ghost use Rattle.std.specs.Io.KnownBytes.{append_known};
ghost use Rattle.edge_io.specs.Faults.{HasRisen, CountsFailed, CountsWanted};
ghost use Rattle.edge_io.specs.Text.{WritesText};

use thiserror::Error;

/// Why a sink didn't take a piece.
#[derive(Clone, Copy, Debug, PartialEq, Eq, Error)]
pub enum SinkFault {
    /// The outside failed.
    #[error("a write failed")]
    Failed = 1,
    /// There is no memory, or no room, for the bytes.
    #[error("there is no memory for the bytes of a write")]
    OutOfMemory = 2,
}

/// Where bytes go.
///
/// A sink may tell which bytes it holds, as one in memory does; a file or a pipe doesn't.
pub trait Sink {
    /// The bytes that it holds, in order, where the sink tells them.
    ghost held: { Self → Option (List ℕ) };
    /// How many of its writes failed. Counted in 64 bits, up to 2^64 - 1.
    ghost faults: { Self → ℕ };
    /// How many of its writes wanted memory or room. Counted in 64 bits; a sink that doesn't count them
    /// stands at 2^64 - 1.
    ghost wants: { Self → ℕ };

    /// Takes bytes from the front of the piece and answers how many: from 1 to the length of the piece,
    /// or 0 where it is empty.
    ///
    /// Each fault comes only with the count of its kind, which counts nothing else. Neither takes a byte.
    fn write(&mut self, piece: &[u8]) -> Result<usize, SinkFault>
        ensures fits { IfOk result (λ n. n ≤ length piece.now) }
        ensures progress { IfOk result (λ n. 0 < length piece.now → 0 < n) }
        ensures bytes { IfOk result (λ n. held self.new ≡ append_known (held self.old) (take n piece.now)) }
        ensures nothing { OnErr result (held self.new ≡ held self.old) }
        ensures cause { IsErrOf result SinkFault.Failed → HasRisen (faults self.old) (faults self.new) }
        ensures later { faults self.old ≤ faults self.new }
        ensures failed { CountsFailed (faults self.old) (faults self.new) result }
        ensures wanted { CountsWanted (wants self.old) (wants self.new) result };
}

// Writes the text up to its end or to a fault, and answers how many bytes were taken.
pub(crate) fn write_front<K: Sink>(out: &mut K, text: &[u8]) -> (usize, Result<(), SinkFault>)
    ensures fits { result.0 ≤ length text.now }
    ensures all { OnOk result.1 (result.0 ≡ length text.now) }
    ensures bytes { K.held out.new ≡ append_known (K.held out.old) (take result.0 text.now) }
    ensures cause { IsErrOf result.1 SinkFault.Failed → HasRisen (K.faults out.old) (K.faults out.new) }
    ensures later { K.faults out.old ≤ K.faults out.new }
    ensures failed { CountsFailed (K.faults out.old) (K.faults out.new) result.1 }
    ensures wanted { CountsWanted (K.wants out.old) (K.wants out.new) result.1 }
{
    let mut done = 0;
    while done < text.len() {
        match out.write(&text[done..]) {
            Ok(taken) => done += taken,
            Err(fault) => return (done, Err(fault)),
        }
    }
    (done, Ok(()))
}

/// Writes the whole text, in as many writes as the sink needs.
///
/// After a fault the sink has taken a front of the text and nothing else. The fault is that of the sink's
/// last write: of all its writes that one alone was counted, by the count of its kind.
pub fn write_all<K: Sink>(out: &mut K, text: &[u8]) -> Result<(), SinkFault>
    ensures text { WritesText (K.held out.old) (K.held out.new) text.now result }
    ensures cause { IsErrOf result SinkFault.Failed → HasRisen (K.faults out.old) (K.faults out.new) }
    ensures later { K.faults out.old ≤ K.faults out.new }
    ensures failed { CountsFailed (K.faults out.old) (K.faults out.new) result }
    ensures wanted { CountsWanted (K.wants out.old) (K.wants out.new) result }
{
    write_front(out, text).1
}
