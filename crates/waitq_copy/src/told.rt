//! What is told of a copy at its end.

ghost use Rattle.std.specs.Prelude.{◌≡◌, ◌+◌, ◌≤◌, ◌++◌, IsErrOf, decimal, length};
ghost use Rattle.edge_io.specs.{Faults.HasRisen, Text.WritesText};
ghost use Rattle.wait_model.specs.declared.layout.TheConstants.{TEXT_BYTES};
ghost use Rattle.waitq_copy.specs.Copying.{copy_text, told_pieces, watch_line, watch_lines};

use crate::watching::Tellers;
use copy_plan::ReaderEnd;
use edge_io::{Sink, SinkFault, write_all};
use wait_script::{LineText, push_number, push_text};

/// Writes a line of a name, a number and what stands behind it.
pub fn write_number<O: Sink>(
    out: &mut O,
    name: &[u8],
    number: u64,
    behind: &[u8],
) -> Result<(), SinkFault>
    requires { length name.now + 20 + length behind.now ≤ TEXT_BYTES }
    ensures text { WritesText (O.held out.old) (O.held out.new) (name.now ++ decimal number ++ behind.now) result }
    ensures cause { IsErrOf result SinkFault.Failed → HasRisen (O.faults out.old) (O.faults out.new) }
    ensures later { O.faults out.old ≤ O.faults out.new }
{
    let mut line = LineText::new();
    push_text(&mut line, name);
    push_number(&mut line, number);
    push_text(&mut line, behind);
    write_all(out, line.as_slice())
}

/// Writes the line of a watcher: its place and what it tells.
fn write_watcher<O: Sink>(out: &mut O, place: u64, told: u64) -> Result<(), SinkFault>
    ensures text { WritesText (O.held out.old) (O.held out.new) (watch_line place told) result }
    ensures cause { IsErrOf result SinkFault.Failed → HasRisen (O.faults out.old) (O.faults out.new) }
    ensures later { O.faults out.old ≤ O.faults out.new }
{
    let mut line = LineText::new();
    push_text(&mut line, b"watch ");
    push_number(&mut line, place);
    push_text(&mut line, b" ");
    push_number(&mut line, told);
    push_text(&mut line, b"\n");
    write_all(out, line.as_slice())
}

/// Writes a line for each watcher.
fn write_watchers<O: Sink, W: Tellers>(out: &mut O, watch: &W) -> Result<(), SinkFault>
    ensures text { WritesText (O.held out.old) (O.held out.new) (watch_lines 0
        (told_pieces (W.entries watch.now))) result }
    ensures cause { IsErrOf result SinkFault.Failed → HasRisen (O.faults out.old) (O.faults out.new) }
    ensures later { O.faults out.old ≤ O.faults out.new }
{
    for place in 0..watch.count() {
        write_watcher(out, place as u64, watch.told_at(place))?;
    }
    Ok(())
}

/// Writes what is told of a copy: how many bytes were read and how many were counted, what each watcher tells, and
/// how many signals were sent.
pub fn write_told<O: Sink, W: Tellers>(
    out: &mut O,
    watch: &W,
    reader: &ReaderEnd,
    moved: u64,
) -> Result<(), SinkFault>
    ensures text { WritesText (O.held out.old) (O.held out.new) (copy_text reader.now.read moved
        (told_pieces (W.entries watch.now)) reader.now.sent) result }
    ensures cause { IsErrOf result SinkFault.Failed → HasRisen (O.faults out.old) (O.faults out.new) }
    ensures later { O.faults out.old ≤ O.faults out.new }
{
    write_number(out, b"copied ", reader.read, b" bytes\n")?;
    write_number(out, b"moved ", moved, b"\n")?;
    write_watchers(out, watch)?;
    write_number(out, b"signals ", u64::from(reader.sent), b"\n")
}
