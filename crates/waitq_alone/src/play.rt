//! The replay of a script's lines: each call is opened, each step is made, and what they print goes by a buffer to
//! the output.

ghost use Rattle.std.specs.Prelude.{◌≡◌, ◌≤◌, ◌++◌, OnOk, IsErrOf, All};
ghost use Rattle.edge_io.specs.{Faults.HasRisen, Text.WritesText, Text.BuffersText};
ghost use Rattle.wait_model.specs.Admission.{IsListed};
ghost use Rattle.wait_script.specs.{Spelling.IsPlayable, Text.step_text, Text.refused_text, Ending.ending_text};
ghost use Rattle.wait_script.specs.Replay.{stops, played_steps, opening_of, replay_line, replay_from};

use edge_io::{Buffer, Sink, SinkFault};
use wait_core::{Core, StartFault, Stepped};
use wait_model::calls::{Call, Event};
use wait_model::layout::TEXT_BYTES;
use wait_model::tasks::Sleep;
use wait_script::{Line, write_end, write_refused, write_step};

/// Whether a `step` line ends early.
pub fn stops(stepped: &Stepped) -> bool
    ensures { result ≡ stops stepped.now }
{
    match stepped {
        Stepped::Made { ended: Some(_), .. } => true,
        Stepped::Made { event, ended: None } => matches!(
            event,
            Event::Sleep {
                sleep: Sleep::Asleep
            }
        ),
        Stepped::NoCall | Stepped::Asleep | Stepped::Busy { .. } | Stepped::Full => true,
    }
}

/// Puts the lines of a step into the buffer, after room was made for them.
fn print_step<K: Sink>(
    out: &mut K,
    buffer: &mut Buffer,
    task: u8,
    stepped: &Stepped,
) -> Result<(), SinkFault>
    ensures text { BuffersText (K.held out.old) buffer.old (K.held out.new) buffer.new
        (step_text task stepped.now) result }
    ensures cause { IsErrOf result SinkFault.Failed → HasRisen (K.faults out.old) (K.faults out.new) }
    ensures later { K.faults out.old ≤ K.faults out.new }
{
    buffer.make_room(out, TEXT_BYTES)?;
    write_step(buffer, task, stepped)
}

/// Puts the line of a refused opening into the buffer, after room was made for it.
fn print_refused<K: Sink>(
    out: &mut K,
    buffer: &mut Buffer,
    task: u8,
    fault: StartFault,
) -> Result<(), SinkFault>
    ensures text { BuffersText (K.held out.old) buffer.old (K.held out.new) buffer.new
        (refused_text task fault) result }
    ensures cause { IsErrOf result SinkFault.Failed → HasRisen (K.faults out.old) (K.faults out.new) }
    ensures later { K.faults out.old ≤ K.faults out.new }
{
    buffer.make_room(out, TEXT_BYTES)?;
    write_refused(buffer, task, fault)
}

/// Makes up to `count` events of a task.
fn play_steps<K: Sink>(
    core: &mut Core,
    out: &mut K,
    buffer: &mut Buffer,
    task: u8,
    count: u32,
) -> Result<(), SinkFault>
    ensures text { BuffersText (K.held out.old) buffer.old (K.held out.new) buffer.new
        (played_steps count core.old task).0 result }
    ensures run { OnOk result (core.new ≡ (played_steps count core.old task).1) }
    ensures cause { IsErrOf result SinkFault.Failed → HasRisen (K.faults out.old) (K.faults out.new) }
    ensures later { K.faults out.old ≤ K.faults out.new }
{
    for _i in 0..count {
        let stepped = core.step(task);
        print_step(out, buffer, task, &stepped)?;
        if stops(&stepped) {
            return Ok(());
        }
    }
    Ok(())
}

/// Opens a call of a task.
fn play_call<K: Sink>(
    core: &mut Core,
    out: &mut K,
    buffer: &mut Buffer,
    task: u8,
    call: Call,
) -> Result<(), SinkFault>
    requires { IsListed call }
    ensures text { BuffersText (K.held out.old) buffer.old (K.held out.new) buffer.new
        (opening_of core.old task call).0 result }
    ensures run { core.new ≡ (opening_of core.old task call).1 }
    ensures cause { IsErrOf result SinkFault.Failed → HasRisen (K.faults out.old) (K.faults out.new) }
    ensures later { K.faults out.old ≤ K.faults out.new }
{
    match core.start(task, call) {
        Ok(()) => Ok(()),
        Err(fault) => print_refused(out, buffer, task, fault),
    }
}

/// Plays one line.
fn play_line<K: Sink>(
    core: &mut Core,
    out: &mut K,
    buffer: &mut Buffer,
    line: Line,
) -> Result<(), SinkFault>
    requires { IsPlayable line }
    ensures text { BuffersText (K.held out.old) buffer.old (K.held out.new) buffer.new
        (replay_line core.old line).0 result }
    ensures run { OnOk result (core.new ≡ (replay_line core.old line).1) }
    ensures cause { IsErrOf result SinkFault.Failed → HasRisen (K.faults out.old) (K.faults out.new) }
    ensures later { K.faults out.old ≤ K.faults out.new }
{
    match line {
        Line::Call { task, call } => play_call(core, out, buffer, task, call),
        Line::Step { task, count } => play_steps(core, out, buffer, task, count),
    }
}

/// Puts the end lines into the buffer, after it was emptied: they always fit into an empty one.
fn print_end<K: Sink>(core: &Core, out: &mut K, buffer: &mut Buffer) -> Result<(), SinkFault>
    ensures text { BuffersText (K.held out.old) buffer.old (K.held out.new) buffer.new (ending_text core.now) result }
    ensures cause { IsErrOf result SinkFault.Failed → HasRisen (K.faults out.old) (K.faults out.new) }
    ensures later { K.faults out.old ≤ K.faults out.new }
{
    buffer.flush(out)?;
    write_end(buffer, core)
}

/// Plays the lines and writes their texts, after what is in the buffer, and then the end lines.
pub fn play<K: Sink>(
    core: &mut Core,
    out: &mut K,
    buffer: &mut Buffer,
    lines: &[Line],
) -> Result<(), SinkFault>
    requires { All IsPlayable lines.now }
    ensures text { WritesText (K.held out.old) (K.held out.new) (buffer.old ++ replay_from core.old lines.now) result }
    ensures cause { IsErrOf result SinkFault.Failed → HasRisen (K.faults out.old) (K.faults out.new) }
    ensures later { K.faults out.old ≤ K.faults out.new }
{
    for line in lines {
        play_line(core, out, buffer, *line)?;
    }
    print_end(core, out, buffer)?;
    buffer.flush(out)
}
