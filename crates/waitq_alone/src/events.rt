//! The signals that a copy is told to send, by the words that name them.

ghost use Rattle.std.specs.Prelude.{◌≡◌, ◌≤◌, option_map, map, IfSome, length};
ghost use Rattle.wait_script.specs.Number.{numeral_value};
ghost use Rattle.waitq_alone.specs.Events.{planned_at, target_at, event_of, plan_of};

use arrayvec::ArrayVec;
use copy_plan::{LONGEST, Planned, SIGNALS, Who};
use wait_script::read_number;

/// The signals that a copy is told to send, in their order.
pub type Plan = ArrayVec<Planned, SIGNALS>;

/// A signal for a worker at the offset that digits spell.
fn planned_at(who: Who, fatal: bool, offset: &[u8]) -> Option<Planned>
    ensures { result ≡ planned_at who fatal (numeral_value offset.now) }
{
    let offset = read_number(offset)?;
    if offset > LONGEST {
        return None;
    }
    Some(Planned { who, offset, fatal })
}

/// A signal by its worker and its offset, as `relay@4096`.
fn target_at(fatal: bool, word: &[u8]) -> Option<Planned>
    ensures { result ≡ target_at fatal word.now }
{
    if word.starts_with(b"reader@") {
        return planned_at(Who::Reader, fatal, &word[7..]);
    }
    if word.starts_with(b"relay@") {
        return planned_at(Who::Relay, fatal, &word[6..]);
    }
    if word.starts_with(b"writer@") {
        return planned_at(Who::Writer, fatal, &word[7..]);
    }
    None
}

/// The signal that a word names, as `signal:relay@4096` or `kill:writer@0`.
fn read_event(word: &[u8]) -> Option<Planned>
    ensures { result ≡ event_of word.now }
{
    if word.starts_with(b"signal:") {
        return target_at(false, &word[7..]);
    }
    if word.starts_with(b"kill:") {
        return target_at(true, &word[5..]);
    }
    None
}

/// The signals that words name, of which there are at most `SIGNALS`.
pub fn read_plan(events: &[&str]) -> Option<Plan>
    ensures plan { option_map (λ plan. plan.items) result ≡ plan_of (map (λ s. s.now) events.now) }
    ensures few { IfSome result (λ plan. length plan.items ≤ SIGNALS) }
{
    if events.len() > SIGNALS {
        return None;
    }
    let mut plan = Plan::new();
    for event in events {
        plan.push(read_event(event.as_bytes())?);
    }
    Some(plan)
}
