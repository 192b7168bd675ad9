//! The end lines of a text.

ghost use Rattle.std.specs.Prelude.{◌≤◌, ◌<◌, ◌++◌, IsErrOf, codes, decimal};
ghost use Rattle.edge_io.specs.{Faults.HasRisen, Text.WritesText};
ghost use Rattle.wait_model.specs.Runs.{state_of};
ghost use Rattle.wait_script.specs.Ending.{events_text, member_text, tasks_text, heads_text, words_text, ending_text};
ghost use Rattle.wait_script.specs.Ending.{line_of_task, line_of_head, line_of_word};

use crate::pieces::LineText;
use crate::summary::{push_events, push_head_front, push_member, push_task_end, push_word};
use edge_io::{Sink, SinkFault, write_all};
use wait_core::Core;
use wait_model::layout::{CONDITION_AT, CONDITIONS, HEADS, TASKS};
use wait_model::queues::Member;

/// Writes the line of the number of events.
fn write_events<K: Sink>(out: &mut K, events: u32) -> Result<(), SinkFault>
    ensures text { WritesText (K.held out.old) (K.held out.new) (events_text events) result }
    ensures cause { IsErrOf result SinkFault.Failed → HasRisen (K.faults out.old) (K.faults out.new) }
    ensures later { K.faults out.old ≤ K.faults out.new }
{
    let mut line = LineText::new();
    push_events(&mut line, events);
    write_all(out, line.as_slice())
}

/// Writes the line of a task that ever had a call opened.
fn write_task<K: Sink>(out: &mut K, core: &Core, task: u8) -> Result<(), SinkFault>
    ensures text { WritesText (K.held out.old) (K.held out.new) (line_of_task (state_of core.now) task) result }
    ensures cause { IsErrOf result SinkFault.Failed → HasRisen (K.faults out.old) (K.faults out.new) }
    ensures later { K.faults out.old ≤ K.faults out.new }
{
    let Some(is_open) = core.call_of(task) else {
        return Ok(());
    };
    let mut line = LineText::new();
    push_task_end(&mut line, task, is_open, &core.task_of(task));
    write_all(out, line.as_slice())
}

/// Writes the lines of the tasks.
fn write_tasks<K: Sink>(out: &mut K, core: &Core) -> Result<(), SinkFault>
    ensures text { WritesText (K.held out.old) (K.held out.new) (tasks_text (state_of core.now)) result }
    ensures cause { IsErrOf result SinkFault.Failed → HasRisen (K.faults out.old) (K.faults out.new) }
    ensures later { K.faults out.old ≤ K.faults out.new }
{
    for task in 0..TASKS {
        write_task(out, core, task as u8)?;
    }
    Ok(())
}

/// Writes the front of a head's line.
fn write_head_front<K: Sink>(out: &mut K, head: u16) -> Result<(), SinkFault>
    ensures text { WritesText (K.held out.old) (K.held out.new) (codes "head h" ++ decimal head) result }
    ensures cause { IsErrOf result SinkFault.Failed → HasRisen (K.faults out.old) (K.faults out.new) }
    ensures later { K.faults out.old ≤ K.faults out.new }
{
    let mut line = LineText::new();
    push_head_front(&mut line, head);
    write_all(out, line.as_slice())
}

/// Writes a member of a head's line.
fn write_member<K: Sink>(out: &mut K, member: &Member) -> Result<(), SinkFault>
    ensures text { WritesText (K.held out.old) (K.held out.new) (member_text member.now) result }
    ensures cause { IsErrOf result SinkFault.Failed → HasRisen (K.faults out.old) (K.faults out.new) }
    ensures later { K.faults out.old ≤ K.faults out.new }
{
    let mut line = LineText::new();
    push_member(&mut line, member);
    write_all(out, line.as_slice())
}

/// Writes the line of a head that has members: piece by piece, since it may be long.
fn write_head<K: Sink>(out: &mut K, core: &Core, head: u16) -> Result<(), SinkFault>
    ensures text { WritesText (K.held out.old) (K.held out.new) (line_of_head (state_of core.now) head) result }
    ensures cause { IsErrOf result SinkFault.Failed → HasRisen (K.faults out.old) (K.faults out.new) }
    ensures later { K.faults out.old ≤ K.faults out.new }
{
    let mut next = core.member_from(head, 0);
    if next.is_none() {
        return Ok(());
    }
    write_head_front(out, head)?;
    'members: while let Some(member) = next {
        write_member(out, &member)?;
        next = core.member_from(head, member.rank() + 1);
    }
    write_all(out, b"\n")
}

/// Writes the lines of the heads.
fn write_heads<K: Sink>(out: &mut K, core: &Core) -> Result<(), SinkFault>
    ensures text { WritesText (K.held out.old) (K.held out.new) (heads_text (state_of core.now)) result }
    ensures cause { IsErrOf result SinkFault.Failed → HasRisen (K.faults out.old) (K.faults out.new) }
    ensures later { K.faults out.old ≤ K.faults out.new }
{
    for head in 0..HEADS {
        write_head(out, core, head)?;
    }
    Ok(())
}

/// Writes the line of a condition word that is not 0.
#[tactic(auto, using(crate::proofs::EndLines::word_value))]
fn write_word<K: Sink>(out: &mut K, core: &Core, cond: u16) -> Result<(), SinkFault>
    requires { cond < CONDITIONS }
    ensures text { WritesText (K.held out.old) (K.held out.new) (line_of_word (state_of core.now) cond) result }
    ensures cause { IsErrOf result SinkFault.Failed → HasRisen (K.faults out.old) (K.faults out.new) }
    ensures later { K.faults out.old ≤ K.faults out.new }
{
    let value = core.word_at(CONDITION_AT + u32::from(cond));
    let mut line = LineText::new();
    push_word(&mut line, cond, value);
    write_all(out, line.as_slice())
}

/// Writes the lines of the condition words.
fn write_words<K: Sink>(out: &mut K, core: &Core) -> Result<(), SinkFault>
    ensures text { WritesText (K.held out.old) (K.held out.new) (words_text (state_of core.now)) result }
    ensures cause { IsErrOf result SinkFault.Failed → HasRisen (K.faults out.old) (K.faults out.new) }
    ensures later { K.faults out.old ≤ K.faults out.new }
{
    for cond in 0..CONDITIONS {
        write_word(out, core, cond)?;
    }
    Ok(())
}

/// Writes the end lines: the number of events, each task that ever had a call opened, each head that has
/// members, and each condition word that is not 0, each kind by rising number.
pub fn write_end<K: Sink>(out: &mut K, core: &Core) -> Result<(), SinkFault>
    ensures text { WritesText (K.held out.old) (K.held out.new) (ending_text core.now) result }
    ensures cause { IsErrOf result SinkFault.Failed → HasRisen (K.faults out.old) (K.faults out.new) }
    ensures later { K.faults out.old ≤ K.faults out.new }
{
    write_events(out, core.made())?;
    write_tasks(out, core)?;
    write_heads(out, core)?;
    write_words(out, core)?;
    write_all(out, b"end\n")
}
