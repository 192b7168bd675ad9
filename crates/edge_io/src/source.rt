ghost use Rattle.std.specs.Prelude.{◌≡◌, ℕ, ◌<◌, ◌≤◌, List, [], length, take, IfOk, IfSome, OnErr, Option};
ghost use Rattle.std.specs.Io.KnownBytes.{prepend_known};
ghost use Rattle.edge_io.specs.Faults.{HasRisen};

use thiserror::Error;

/// A fault of the outside, of which nothing more is known.
#[derive(Clone, Copy, Debug, PartialEq, Eq, Error)]
#[error("a read failed")]
pub struct Failed;

/// Where bytes come from.
///
/// A source may tell which bytes are left, as one in memory does; a file or a pipe doesn't.
pub trait Source {
    /// The bytes that are left, in order, where the source tells them.
    ghost left: { Self → Option (List ℕ) };
    /// How many of its reads failed. Counted in 64 bits, up to 2^64 - 1.
    ghost faults: { Self → ℕ };

    /// Puts the next bytes at the front of `buf` and answers how many, from 0 to the length of `buf`.
    ///
    /// 0 for a `buf` with room says that nothing is left. What stands in `buf` after the bytes that
    /// were handed out isn't told. Failed comes only with a fault that is counted, and leaves all bytes
    /// where they were.
    fn read(&mut self, buf: &mut [u8]) -> Result<usize, Failed>
        ensures fits { IfOk result (λ n. n ≤ length buf.old) }
        ensures bytes { IfOk result (λ n. left self.old ≡ prepend_known (take n buf.new) (left self.new)) }
        ensures end { IfOk result (λ n.
            n ≡ 0 → 0 < length buf.old → IfSome (left self.old) (λ bytes. bytes ≡ [])) }
        ensures nothing { OnErr result (left self.new ≡ left self.old) }
        ensures cause { OnErr result (HasRisen (faults self.old) (faults self.new)) }
        ensures later { faults self.old ≤ faults self.new };
}
