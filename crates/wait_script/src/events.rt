//! The texts of events.

ghost use Rattle.std.specs.Prelude.{◌≡◌, ◌+◌, ◌≤◌, ◌++◌, codes, decimal, length};
ghost use Rattle.arrayvec.specs.ArrayVec.{array_vec_len};
ghost use Rattle.wait_script.specs.Text as spec;

use crate::pieces::{LineText, push_counted, push_text};
use crate::text::{push_cond, push_named, push_state};
use wait_model::calls::Event;
use wait_model::layout::TEXT_BYTES;
use wait_model::queues::Form;
use wait_model::tasks::{Sleep, Taken};

/// Puts the event of a store of the own state after a text.
#[inline(always)]
fn push_stored(line: &mut LineText, state: u32)
    requires { array_vec_len line.old + 12 ≤ TEXT_BYTES }
    ensures text { line.new.items ≡ line.old.items ++ codes " state " ++ spec.state_text state }
    ensures len { array_vec_len line.new ≤ array_vec_len line.old + 12 }
{
    push_text(line, b" state ");
    push_state(line, state);
}

/// Puts how a sleep ended, and what the event is, after a text.
fn push_sleep(line: &mut LineText, sleep: Sleep)
    requires { array_vec_len line.old + 13 ≤ TEXT_BYTES }
    ensures text { line.new.items ≡ line.old.items ++ codes " sleep " ++ spec.sleep_text sleep }
    ensures len { array_vec_len line.new ≤ array_vec_len line.old + 13 }
{
    match sleep {
        Sleep::Stay => push_text(line, b" sleep stay"),
        Sleep::Signal => push_text(line, b" sleep signal"),
        Sleep::Asleep => push_text(line, b" sleep asleep"),
    }
}

/// Puts what an `accept` took, and what the event is, after a text.
fn push_taken(line: &mut LineText, taken: Taken)
    requires { array_vec_len line.old + 13 ≤ TEXT_BYTES }
    ensures text { line.new.items ≡ line.old.items ++ codes " accept " ++ spec.taken_text taken }
    ensures len { array_vec_len line.new ≤ array_vec_len line.old + 13 }
{
    match taken {
        Taken::Nothing => push_text(line, b" accept none"),
        Taken::Plain => push_text(line, b" accept plain"),
        Taken::Fatal => push_text(line, b" accept fatal"),
    }
}

/// Puts a space and the form of an entry after a text.
fn push_form(line: &mut LineText, form: Form)
    requires { array_vec_len line.old + 6 ≤ TEXT_BYTES }
    ensures text { line.new.items ≡ line.old.items ++ codes " " ++ spec.form_text form }
    ensures len { array_vec_len line.new ≤ array_vec_len line.old + 6 }
{
    match form {
        Form::Front => push_text(line, b" front"),
        Form::Tail => push_text(line, b" tail"),
        Form::Priority => push_text(line, b" prio"),
    }
}

/// Puts a space and yes or no after a text.
fn push_yes(line: &mut LineText, yes: bool)
    requires { array_vec_len line.old + 4 ≤ TEXT_BYTES }
    ensures text { line.new.items ≡ line.old.items ++ codes " " ++ spec.yes_text yes }
    ensures len { array_vec_len line.new ≤ array_vec_len line.old + 4 }
{
    if yes {
        push_text(line, b" yes");
    } else {
        push_text(line, b" no");
    }
}

/// Puts a name, a space, and yes or no after a text.
#[inline(always)]
fn push_told(line: &mut LineText, name: &[u8], yes: bool)
    requires { array_vec_len line.old + length name.now + 4 ≤ TEXT_BYTES }
    ensures text { line.new.items ≡ line.old.items ++ name.now ++ codes " " ++ spec.yes_text yes }
    ensures len { array_vec_len line.new ≤ array_vec_len line.old + length name.now + 4 }
{
    push_text(line, name);
    push_yes(line, yes);
}

/// Puts a name, a number, a space, and yes or no after a text.
#[inline(always)]
fn push_told_of(line: &mut LineText, name: &[u8], number: u16, yes: bool)
    requires { array_vec_len line.old + length name.now + 9 ≤ TEXT_BYTES }
    ensures text { line.new.items ≡ line.old.items ++ name.now ++ decimal number ++ codes " " ++ spec.yes_text yes }
    ensures len { array_vec_len line.new ≤ array_vec_len line.old + length name.now + 9 }
{
    push_named(line, name, number);
    push_yes(line, yes);
}

/// Puts the event of a signal after a text.
#[inline(always)]
fn push_signal(line: &mut LineText, who: u8, fatal: bool)
    requires { array_vec_len line.old + 20 ≤ TEXT_BYTES }
    ensures text { line.new.items ≡ line.old.items ++ codes " " ++ spec.event_text (Event.Signal who fatal) }
    ensures len { array_vec_len line.new ≤ array_vec_len line.old + 20 }
{
    push_named(line, b" signal t", who.into());
    if fatal {
        push_text(line, b" fatal");
    } else {
        push_text(line, b" plain");
    }
}

/// Puts the event of an unlock after a text.
#[inline(always)]
fn push_unlock(line: &mut LineText, head: u16, spent: bool)
    requires { array_vec_len line.old + 20 ≤ TEXT_BYTES }
    ensures text { line.new.items ≡ line.old.items ++ codes " " ++ spec.event_text (Event.Unlock head spent) }
    ensures len { array_vec_len line.new ≤ array_vec_len line.old + 20 }
{
    push_named(line, b" unlock h", head);
    if spent {
        push_text(line, b" spent");
    }
}

/// Puts the event of an add after a text.
#[inline(always)]
fn push_queue(line: &mut LineText, head: u16, form: Form)
    requires { array_vec_len line.old + 19 ≤ TEXT_BYTES }
    ensures text { line.new.items ≡ line.old.items ++ codes " " ++ spec.event_text (Event.Queue head form) }
    ensures len { array_vec_len line.new ≤ array_vec_len line.old + 19 }
{
    push_named(line, b" queue h", head);
    push_form(line, form);
}

/// Puts a name, a condition word and what it holds after a text.
#[inline(always)]
fn push_value(line: &mut LineText, name: &[u8], cond: u16, value: u64)
    requires { array_vec_len line.old + length name.now + 27 ≤ TEXT_BYTES }
    ensures text { line.new.items ≡ line.old.items ++ name.now ++ spec.cond_text cond ++ codes " " ++ decimal value }
    ensures len { array_vec_len line.new ≤ array_vec_len line.old + length name.now + 27 }
{
    push_text(line, name);
    push_cond(line, cond);
    push_counted(line, b" ", value);
}

/// Puts the event of an exchange of a plain condition after a text.
#[inline(always)]
fn push_take(line: &mut LineText, cond: u8, found: u64)
    requires { array_vec_len line.old + 33 ≤ TEXT_BYTES }
    ensures text { line.new.items ≡ line.old.items ++ codes " " ++ spec.event_text (Event.Take cond found) }
    ensures len { array_vec_len line.new ≤ array_vec_len line.old + 33 }
{
    push_named(line, b" take c", cond.into());
    push_counted(line, b" ", found);
}

/// Puts the event of a test-and-set of a bit after a text.
#[inline(always)]
fn push_tas(line: &mut LineText, word: u8, bit: u8, found: u8)
    requires { array_vec_len line.old + 23 ≤ TEXT_BYTES }
    ensures text { line.new.items ≡ line.old.items ++ codes " " ++ spec.event_text (Event.Tas word bit found) }
    ensures len { array_vec_len line.new ≤ array_vec_len line.old + 23 }
{
    push_text(line, b" tas ");
    push_bit(line, word, bit);
    push_named(line, b" ", found.into());
}

/// Puts the event of a test-and-set of a page for the task of an entry after a text.
#[inline(always)]
fn push_tas_for(line: &mut LineText, word: u8, who: u8, found: u8)
    requires { array_vec_len line.old + 30 ≤ TEXT_BYTES }
    ensures text { line.new.items ≡ line.old.items ++ codes " " ++ spec.event_text (Event.TasFor word who found) }
    ensures len { array_vec_len line.new ≤ array_vec_len line.old + 30 }
{
    push_tas(line, word, 0, found);
    push_named(line, b" t", who.into());
}

/// Puts the event of a bit that is cleared after a text.
#[inline(always)]
fn push_clear(line: &mut LineText, word: u8, bit: u8)
    requires { array_vec_len line.old + 19 ≤ TEXT_BYTES }
    ensures text { line.new.items ≡ line.old.items ++ codes " clear " ++ spec.bit_text word bit }
    ensures len { array_vec_len line.new ≤ array_vec_len line.old + 19 }
{
    push_text(line, b" clear ");
    push_bit(line, word, bit);
}

/// Puts a bit of a word after a text.
fn push_bit(line: &mut LineText, word: u8, bit: u8)
    requires { array_vec_len line.old + 12 ≤ TEXT_BYTES }
    ensures text { line.new.items ≡ line.old.items ++ spec.bit_text word bit }
    ensures len { array_vec_len line.new ≤ array_vec_len line.old + 12 }
{
    push_named(line, b"b", word.into());
    push_named(line, b".", bit.into());
}

/// Puts a space and what an event is after a text.
pub fn push_event(line: &mut LineText, event: &Event)
    requires { array_vec_len line.old + 33 ≤ TEXT_BYTES }
    ensures text { line.new.items ≡ line.old.items ++ codes " " ++ spec.event_text event.now }
    ensures len { array_vec_len line.new ≤ array_vec_len line.old + 33 }
{
    match *event {
        Event::State { state } => push_stored(line, state),
        Event::Sleep { sleep } => push_sleep(line, sleep),
        Event::Wake { who, yes } => push_told_of(line, b" wake t", who.into(), yes),
        Event::Signal { who, fatal } => push_signal(line, who, fatal),
        Event::Accept { taken } => push_taken(line, taken),
        Event::Look { yes } => push_told(line, b" look", yes),
        Event::Lock { head } => push_named(line, b" lock h", head),
        Event::Unlock { head, spent } => push_unlock(line, head, spent),
        Event::Queue { head, form } => push_queue(line, head, form),
        Event::Unqueue { who } => push_named(line, b" unqueue t", who.into()),
        Event::Mark { head } => push_named(line, b" mark h", head),
        Event::Unmark { head } => push_named(line, b" unmark h", head),
        Event::Queued { yes } => push_told(line, b" queued", yes),
        Event::Active { head, yes } => push_told_of(line, b" active h", head, yes),
        Event::Load { cond, value } => push_value(line, b" load ", cond, value),
        Event::Set { cond, value } => push_value(line, b" set ", cond, value),
        Event::Take { cond, found } => push_take(line, cond, found),
        Event::Tas { word, bit, found } => push_tas(line, word, bit, found),
        Event::TasFor { word, who, found } => push_tas_for(line, word, who, found),
        Event::Handed { who } => push_named(line, b" handed t", who.into()),
        Event::Clear { word, bit } => push_clear(line, word, bit),
        Event::Woken { who } => push_named(line, b" woken t", who.into()),
        Event::Flag { yes } => push_told(line, b" flag", yes),
        Event::Unflag => push_text(line, b" unflag"),
    }
}
