//! The texts of end lines.

ghost use Rattle.std.specs.Prelude.{◌≡◌, ◌+◌, ◌≤◌, ◌<◌, ◌^◌, ◌++◌, codes, decimal};
ghost use Rattle.std.specs.declared.option.Option.TheVariants as option;
ghost use Rattle.arrayvec.specs.ArrayVec.{array_vec_len};
ghost use Rattle.wait_script.specs.Ending.{events_text, signal_text, act_text, task_text, member_text, word_text};

use crate::pieces::{LineText, push_counted, push_text};
use crate::text::{push_cond, push_named, push_state};
use wait_model::layout::{ENTRIES, TEXT_BYTES};
use wait_model::queues::Member;
use wait_model::tasks::TaskRecord;

/// Puts the line of the number of events after a text.
pub fn push_events(line: &mut LineText, events: u32)
    requires { array_vec_len line.old + 28 ≤ TEXT_BYTES }
    ensures text { line.new.items ≡ line.old.items ++ events_text events }
    ensures len { array_vec_len line.new ≤ array_vec_len line.old + 28 }
{
    push_counted(line, b"events ", events.into());
    push_text(line, b"\n");
}

/// Puts the signal that a task has pending after a text.
fn push_signal(line: &mut LineText, shown: &TaskRecord)
    requires { array_vec_len line.old + 5 ≤ TEXT_BYTES }
    ensures text { line.new.items ≡ line.old.items ++ signal_text shown.now }
    ensures len { array_vec_len line.new ≤ array_vec_len line.old + 5 }
{
    if shown.fatal {
        push_text(line, b"fatal");
    } else if shown.signal {
        push_text(line, b"plain");
    } else {
        push_text(line, b"none");
    }
}

/// Puts after a text what a task does: its call is ended, or open while it sleeps or can run.
fn push_act(line: &mut LineText, is_open: bool, runnable: bool)
    requires { array_vec_len line.old + 6 ≤ TEXT_BYTES }
    ensures text { line.new.items ≡ line.old.items ++ act_text is_open runnable }
    ensures len { array_vec_len line.new ≤ array_vec_len line.old + 6 }
{
    match (is_open, runnable) {
        (true, true) => push_text(line, b"open"),
        (true, false) => push_text(line, b"asleep"),
        (false, _) => push_text(line, b"idle"),
    }
}

/// Puts the end line of a task that had a call opened after a text.
pub fn push_task_end(line: &mut LineText, task: u8, is_open: bool, shown: &TaskRecord)
    requires { array_vec_len line.old + 30 ≤ TEXT_BYTES }
    ensures text { line.new.items ≡ line.old.items ++ task_text task (option.Some is_open) shown.now }
    ensures len { array_vec_len line.new ≤ array_vec_len line.old + 30 }
{
    push_named(line, b"task ", task.into());
    push_text(line, b" ");
    push_state(line, shown.state);
    push_text(line, b" ");
    push_signal(line, shown);
    push_text(line, b" ");
    push_act(line, is_open, shown.runnable);
    push_text(line, b"\n");
}

/// Puts the front of a head's line after a text.
pub fn push_head_front(line: &mut LineText, head: u16)
    requires { array_vec_len line.old + 11 ≤ TEXT_BYTES }
    ensures text { line.new.items ≡ line.old.items ++ codes "head h" ++ decimal head }
    ensures len { array_vec_len line.new ≤ array_vec_len line.old + 11 }
{
    push_named(line, b"head h", head);
}

/// Puts a member of a head's line after a text: an entry by the task whose it is, a bookmark by its task after
/// a star.
pub fn push_member(line: &mut LineText, member: &Member)
    requires { array_vec_len line.old + 8 ≤ TEXT_BYTES }
    ensures text { line.new.items ≡ line.old.items ++ member_text member.now }
    ensures len { array_vec_len line.new ≤ array_vec_len line.old + 8 }
{
    if member.at < ENTRIES {
        push_named(line, b" t", member.owner().into());
    } else {
        push_named(line, b" *t", member.at - ENTRIES);
    }
}

/// Puts the line of a condition word after a text, or nothing where the word is 0.
pub fn push_word(line: &mut LineText, cond: u16, value: u64)
    requires { array_vec_len line.old + 33 ≤ TEXT_BYTES }
    ensures text { line.new.items ≡ line.old.items ++ word_text cond value }
    ensures len { array_vec_len line.new ≤ array_vec_len line.old + 33 }
{
    if value == 0 {
        return;
    }
    push_text(line, b"word ");
    push_cond(line, cond);
    push_counted(line, b" ", value);
    push_text(line, b"\n");
}
