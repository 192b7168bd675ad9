//! What is told of a merge at its end.

ghost use Rattle.std.specs.Prelude.{◌≡◌, ◌≤◌, IsErrOf};
ghost use Rattle.edge_io.specs.{Faults.HasRisen, Text.WritesText};
ghost use Rattle.waitq_merge.specs.Merging.{merge_text};

use edge_io::{Sink, SinkFault};
use waitq_copy::told::write_number;

/// Writes what is told of a merge: how many bytes were read of both sources, and how many were counted.
pub fn write_merged<O: Sink>(out: &mut O, read: u64, moved: u64) -> Result<(), SinkFault>
    ensures text { WritesText (O.held out.old) (O.held out.new) (merge_text read moved) result }
    ensures cause { IsErrOf result SinkFault.Failed → HasRisen (O.faults out.old) (O.faults out.new) }
    ensures later { O.faults out.old ≤ O.faults out.new }
{
    write_number(out, b"merged ", read, b" bytes\n")?;
    write_number(out, b"moved ", moved, b"\n")
}
