//! How an event changes its word.

ghost use Rattle.std.specs.Prelude.{◌≡◌, ℕ, ◌+◌, ◌*◌, ◌<◌, ◌≤◌, ◌^◌, IfSome, length, slice_index, slice_set};
ghost use Rattle.wait_model.specs.{Queues.place_for, Shown.IsInRange, Words.entry_word, Points.given_at};
ghost use Rattle.wait_model.specs.declared.layout.TheConstants.{TASKS, WORDS, PLACES};
ghost use Rattle.wait_model.specs.Runs.{State, after_event, found_by, left_of, entry_for};
ghost use Rattle.wait_model.specs.Locations.{Shows, position_of, location_of};
ghost use Rattle.wait_model.specs.Reached.{IsSound, Allows, Joins};
ghost use Rattle.wait_core.specs.{Scan.shown_stand, Arrivals.IsMarkedBy};
ghost use Rattle.wait_core.specs.Index.{IsIndex, IsClass, class_of};

use crate::arrivals::{Arrived, place_before};
use crate::index::{Class, RankedMember};
use crate::scan::place_at;
use wait_model::calls::{Call, Event};
use wait_model::layout::{HANDED, SLOTS};
use wait_model::points::{Point, kind_at, mask_at};
use wait_model::queues::{Form, Mark};
use wait_model::tasks::{TaskRecord, accepted, raised, slept, task_of, woken, word_of};
use wait_model::watches::Entry;
use wait_model::words::{
    entry_word_of, flag_word_of, head_word_of, mark_word_of, position, raised_spent, spent_of,
    with_bit, without_bit,
};

/// The word of the entry that an add queues.
#[inline(always)]
fn added_word_at(
    words: &[u64],
    index: &[RankedMember],
    call: Call,
    point: Point,
    head: u16,
    form: Form,
) -> u64
    requires count { length words.now ≡ WORDS }
    requires index { IsIndex (shown_stand words.now) index.now }
    ensures { (s : State) (n : ℕ) → Shows words.now s.table → IsSound s n
        → result ≡ entry_word (Some (entry_for (given_at call point) form (place_for form (s.queue head)))) }
{
    let kind = kind_at(call, point);
    entry_word_of(Entry {
        watch: call.watch().bare(),
        place: place_at(words, index, head, form),
        exclusive: form.is_exclusive() && !kind.is_simple(),
        priority: form.is_priority(),
        kind,
    })
}

/// A task in another state.
fn in_state(task: TaskRecord, state: u32) -> TaskRecord
    ensures { result ≡ record task { state = state } }
{
    TaskRecord {
        state,
        runnable: task.runnable,
        signal: task.signal,
        fatal: task.fatal,
    }
}

/// The word that an event of a call leaves, by the word that it found and by where the walk of the call went on.
#[tactic(auto, using(crate::proofs::FoundMembers::cond_found, crate::proofs::FoundMembers::entry_word_is, crate::proofs::FoundMembers::task_found, crate::proofs::FoundMembers::task_word_is, crate::proofs::FoundMembers::spent_found, crate::proofs::FoundMembers::flag_is))]
#[inline(always)]
pub fn left_by(
    words: &[u64],
    index: &[RankedMember],
    call: Call,
    point: Point,
    event: Event,
    found: u64,
    walk: Arrived,
) -> u64
    requires count { length words.now ≡ WORDS }
    requires index { IsIndex (shown_stand words.now) index.now }
    requires event { IsInRange event }
    requires member { IfSome walk.member (λ m. m.place < PLACES) }
    ensures { (s : State) (n me : ℕ) → me < TASKS → found ≡ slice_index words.now (position_of (location_of me event))
        → Shows words.now s.table → IsSound s n → Allows s me event → Joins (given_at call point) event
        → IsMarkedBy s call point event walk → result ≡ left_of s me (given_at call point) event }
{
    match event {
        Event::State { state } => word_of(in_state(task_of(found), state)),
        Event::Sleep { .. } => word_of(slept(task_of(found)).0),
        Event::Wake { .. } => word_of(woken(task_of(found), mask_at(call, point)).0),
        Event::Signal { fatal, .. } => word_of(raised(task_of(found), fatal)),
        Event::Accept { .. } => word_of(accepted(task_of(found)).0),
        Event::Lock { .. } => head_word_of(true, spent_of(found)),
        Event::Unlock { spent, .. } => head_word_of(false, raised_spent(spent, spent_of(found))),
        Event::Queue { head, form } => added_word_at(words, index, call, point, head, form),
        Event::Mark { head } => mark_word_of(Mark {
            head,
            place: place_before(walk.member),
        }),
        Event::Set { value, .. } => value,
        Event::Tas { bit, .. } => with_bit(found, bit),
        Event::Clear { bit, .. } => without_bit(found, bit),
        Event::TasFor { .. } => with_bit(found, 0),
        Event::Handed { .. } => HANDED,
        Event::Woken { .. } => flag_word_of(true),
        Event::Unflag => flag_word_of(false),
        Event::Unqueue { .. } => 0,
        Event::Unmark { .. } => 0,
        Event::Active { .. } | Event::Take { .. } => 0,
        Event::Look { .. } | Event::Queued { .. } | Event::Load { .. } | Event::Flag { .. } =>
            found,
    }
}

/// The class of the word of an event.
#[tactic(auto, using(crate::proofs::IndexChanges::cond_class))]
#[inline(always)]
pub fn class_at(me: u8, event: Event) -> Class
    requires event { IsInRange event }
    ensures class { result ≡ class_of (location_of me event) }
    ensures fits { IsClass result }
{
    match event {
        Event::Queue { .. } | Event::Queued { .. } => Class::Entry {
            at: SLOTS * u16::from(me),
        },
        Event::Unqueue { who } => Class::Entry {
            at: SLOTS * u16::from(who),
        },
        Event::Mark { .. } | Event::Unmark { .. } => Class::Bookmark { task: me },
        _ => Class::Other,
    }
}

/// The word that an event changes.
#[derive(Clone, Copy)]
pub struct Change {
    pub at: usize,
    pub found: u64,
    pub left: u64,
}

/// How an event of a call changes its word, by where the walk of the call went on.
#[inline(always)]
pub fn change_by(
    words: &[u64],
    index: &[RankedMember],
    me: u8,
    call: Call,
    point: Point,
    event: Event,
    walk: Arrived,
) -> Change
    requires count { length words.now ≡ WORDS }
    requires index { IsIndex (shown_stand words.now) index.now }
    requires event { IsInRange event }
    requires member { IfSome walk.member (λ m. m.place < PLACES) }
    ensures at { (result.at < WORDS) × (result.at ≡ position_of (location_of me event)) }
    ensures found { (s : State) → Shows words.now s.table → Allows s me event → result.found ≡ found_by s me event }
    ensures shown { (s : State) (n : ℕ) → Shows words.now s.table → IsSound s n → Allows s me event
        → Joins (given_at call point) event → IsMarkedBy s call point event walk
        → Shows (slice_set words.now result.at result.left) (after_event s me (given_at call point) event).table }
{
    let at = position(me, event);
    let found = words[at];
    Change {
        at,
        found,
        left: left_by(words, index, call, point, event, found, walk),
    }
}
