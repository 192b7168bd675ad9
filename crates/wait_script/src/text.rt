//! The texts of answers and of steps, and of what stands in several lines.

ghost use Rattle.std.specs.Prelude.{◌≡◌, ◌+◌, ◌≤◌, ◌++◌, codes, decimal, length};
ghost use Rattle.arrayvec.specs.ArrayVec.{array_vec_len};
ghost use Rattle.wait_script.specs.Text as spec;

use crate::events::push_event;
use crate::pieces::{LineText, push_counted, push_number, push_short, push_signed, push_text};
use wait_core::{StartFault, Stepped};
use wait_model::calls::{Answer, Event};
use wait_model::layout::{
    FIRST_BIT_WORD, FIRST_DONE, FIRST_VARIABLE, INTERRUPTIBLE, RUNNING, TEXT_BYTES, UNINTERRUPTIBLE,
};
use wait_model::queues::{End, Walked};

/// Puts the name of a state after a text.
pub fn push_state(line: &mut LineText, state: u32)
    requires { array_vec_len line.old + 5 ≤ TEXT_BYTES }
    ensures text { line.new.items ≡ line.old.items ++ spec.state_text state }
    ensures len { array_vec_len line.new ≤ array_vec_len line.old + 5 }
{
    match state {
        RUNNING => push_text(line, b"run"),
        INTERRUPTIBLE => push_text(line, b"int"),
        UNINTERRUPTIBLE => push_text(line, b"unint"),
        _ => push_text(line, b"kill"),
    }
}

/// Puts a name and a number after a text.
#[inline(always)]
pub fn push_named(line: &mut LineText, name: &[u8], number: u16)
    requires { array_vec_len line.old + length name.now + 5 ≤ TEXT_BYTES }
    ensures text { line.new.items ≡ line.old.items ++ name.now ++ decimal number }
    ensures len { array_vec_len line.new ≤ array_vec_len line.old + length name.now + 5 }
{
    push_text(line, name);
    push_short(line, number);
}

/// Puts the name of a condition word, by its number, after a text.
pub fn push_cond(line: &mut LineText, cond: u16)
    requires { array_vec_len line.old + 6 ≤ TEXT_BYTES }
    ensures text { line.new.items ≡ line.old.items ++ spec.cond_text cond }
    ensures len { array_vec_len line.new ≤ array_vec_len line.old + 6 }
{
    match cond {
        0..FIRST_DONE => push_named(line, b"c", cond),
        FIRST_DONE..FIRST_BIT_WORD => push_named(line, b"d", cond - FIRST_DONE),
        FIRST_BIT_WORD..FIRST_VARIABLE => push_named(line, b"b", cond - FIRST_BIT_WORD),
        _ => push_named(line, b"v", cond - FIRST_VARIABLE),
    }
}

/// Puts a space and how a walk ended after a text.
fn push_end(line: &mut LineText, end: End)
    requires { array_vec_len line.old + 8 ≤ TEXT_BYTES }
    ensures text { line.new.items ≡ line.old.items ++ codes " " ++ spec.end_text end }
    ensures len { array_vec_len line.new ≤ array_vec_len line.old + 8 }
{
    match end {
        End::End => push_text(line, b" end"),
        End::Spent => push_text(line, b" spent"),
        End::Stopped => push_text(line, b" stopped"),
    }
}

/// Puts the answer of a walk after a text.
fn push_walk(line: &mut LineText, walk: &Walked)
    requires { array_vec_len line.old + 91 ≤ TEXT_BYTES }
    ensures text { line.new.items ≡ line.old.items ++ spec.answer_text (Answer.Walk walk.now) }
    ensures len { array_vec_len line.new ≤ array_vec_len line.old + 91 }
{
    push_counted(line, b"woken ", walk.woken.into());
    push_counted(line, b" selected ", walk.selected.into());
    push_counted(line, b" holds ", walk.holds.into());
    push_end(line, walk.end);
}

/// Puts the answer of a call after a text.
fn push_answer(line: &mut LineText, answer: &Answer)
    requires { array_vec_len line.old + 91 ≤ TEXT_BYTES }
    ensures text { line.new.items ≡ line.old.items ++ spec.answer_text answer.now }
    ensures len { array_vec_len line.new ≤ array_vec_len line.old + 91 }
{
    match answer {
        Answer::Number(n) => push_signed(line, *n),
        Answer::Value(n) => push_number(line, *n),
        Answer::Walk(walk) => push_walk(line, walk),
        Answer::Worn => push_text(line, b"worn"),
    }
}

/// Puts the task that a line is of after a text.
#[inline]
fn push_task(line: &mut LineText, task: u8)
    requires { array_vec_len line.old + 6 ≤ TEXT_BYTES }
    ensures text { line.new.items ≡ line.old.items ++ codes "t" ++ decimal task }
    ensures len { array_vec_len line.new ≤ array_vec_len line.old + 6 }
{
    push_named(line, b"t", task.into());
}

/// Puts the line of an event after a text.
fn push_event_line(line: &mut LineText, task: u8, event: &Event)
    requires { array_vec_len line.old + 40 ≤ TEXT_BYTES }
    ensures text { line.new.items ≡ line.old.items ++ spec.task_line task (spec.event_text event.now) }
    ensures len { array_vec_len line.new ≤ array_vec_len line.old + 40 }
{
    push_task(line, task);
    push_event(line, event);
    push_text(line, b"\n");
}

/// Puts the line of an answer, if there is one, after a text.
fn push_answer_line(line: &mut LineText, task: u8, ended: &Option<Answer>)
    requires { array_vec_len line.old + 101 ≤ TEXT_BYTES }
    ensures text { line.new.items ≡ line.old.items ++ spec.answer_lines task ended.now }
    ensures len { array_vec_len line.new ≤ array_vec_len line.old + 101 }
{
    if let Some(answer) = ended {
        push_task(line, task);
        push_text(line, b" = ");
        push_answer(line, answer);
        push_text(line, b"\n");
    }
}

/// Puts the lines of a step of a task after a text.
pub fn push_step(line: &mut LineText, task: u8, stepped: &Stepped)
    requires { array_vec_len line.old + 141 ≤ TEXT_BYTES }
    ensures text { line.new.items ≡ line.old.items ++ spec.step_text task stepped.now }
    ensures len { array_vec_len line.new ≤ array_vec_len line.old + 141 }
{
    match stepped {
        Stepped::Made { event, ended } => {
            push_event_line(line, task, event);
            push_answer_line(line, task, ended);
        }
        Stepped::NoCall => {
            push_task(line, task);
            push_text(line, b" nocall\n");
        }
        Stepped::Asleep => {
            push_task(line, task);
            push_text(line, b" asleep\n");
        }
        Stepped::Busy { head } => {
            push_task(line, task);
            push_named(line, b" busy h", *head);
            push_text(line, b"\n");
        }
        Stepped::Full => (),
    }
}

/// Puts the line of a call that isn't opened after a text.
pub fn push_refused(line: &mut LineText, task: u8, fault: StartFault)
    requires { array_vec_len line.old + 25 ≤ TEXT_BYTES }
    ensures text { line.new.items ≡ line.old.items ++ spec.refused_text task fault }
    ensures len { array_vec_len line.new ≤ array_vec_len line.old + 25 }
{
    push_task(line, task);
    push_named(line, b" refused ", u16::from(fault as u8));
    push_text(line, b"\n");
}
