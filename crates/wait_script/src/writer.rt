//! Texts on their way to a sink. A whole text is made first, so that of what a fault breaks off a front was written.

ghost use Rattle.std.specs.Prelude.{◌≤◌, IsErrOf};
ghost use Rattle.edge_io.specs.{Faults.HasRisen, Text.WritesText};
ghost use Rattle.wait_script.specs.Text.{step_text, refused_text};

use crate::pieces::LineText;
use crate::text::{push_refused, push_step};
use edge_io::{Sink, SinkFault, write_all};
use wait_core::{StartFault, Stepped};

/// Writes the lines of a task's step: its event or why there was none, and the answer of a call that ended.
/// Nothing is written for a full run.
pub fn write_step<K: Sink>(out: &mut K, task: u8, stepped: &Stepped) -> Result<(), SinkFault>
    ensures text { WritesText (K.held out.old) (K.held out.new) (step_text task stepped.now) result }
    ensures cause { IsErrOf result SinkFault.Failed → HasRisen (K.faults out.old) (K.faults out.new) }
    ensures later { K.faults out.old ≤ K.faults out.new }
{
    let mut line = LineText::new();
    push_step(&mut line, task, stepped);
    write_all(out, line.as_slice())
}

/// Writes the line of a call that isn't opened.
pub fn write_refused<K: Sink>(out: &mut K, task: u8, fault: StartFault) -> Result<(), SinkFault>
    ensures text { WritesText (K.held out.old) (K.held out.new) (refused_text task fault) result }
    ensures cause { IsErrOf result SinkFault.Failed → HasRisen (K.faults out.old) (K.faults out.new) }
    ensures later { K.faults out.old ≤ K.faults out.new }
{
    let mut line = LineText::new();
    push_refused(&mut line, task, fault);
    write_all(out, line.as_slice())
}
