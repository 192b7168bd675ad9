//! What a task finds in the words, and the event that it makes next.

ghost use Rattle.std.specs.Prelude.{◌≡◌, ℕ, ◌+◌, ◌*◌, ◌<◌, ◌≤◌, ◌^◌, ◌-◌, IfSome, length, false};
ghost use Rattle.wait_core.specs.{Arrivals.arrived, Index.IsIndex, Scan.shown_stand};
ghost use Rattle.wait_model.specs.{Locations.Shows, Programs.IsFitting, Reached.IsSound, Shown.IsInRange};
ghost use Rattle.wait_model.specs.{Tables.value_of, Watches.IsThere};
ghost use Rattle.wait_model.specs.Points.{call_watch, call_head, IsReachable};
ghost use Rattle.wait_model.specs.Runs.{State, seen_by, arrives_at, walk_member, members_at, called_by, busy_head, own};
ghost use Rattle.wait_model.specs.declared.layout.TheConstants.{TASKS, ENTRIES, HEADS, WORDS, PLACES};

use crate::arrivals::{Arrived, arrive};
use crate::index::RankedMember;
use crate::scan::{entry_in, entry_ranked, mark_in, member_ranked};
use wait_model::calls::{Call, Event};
use wait_model::layout::SLOTS;
use wait_model::points::{Point, Seen, SelectPoint, WalkPoint, about};
use wait_model::positions;
use wait_model::queues::{CalledEntry, Mark, Member};
use wait_model::tasks::{TaskRecord, task_of};
use wait_model::watches::{Entry, Watch};
use wait_model::words::{flag_of, held_of};

/// What a task finds at its next event, and where its walk goes on.
#[derive(Clone, Copy)]
pub struct Found {
    pub seen: Seen,
    pub walk: Arrived,
}

/// A task's record.
pub fn read_task(words: &[u64], who: u8) -> TaskRecord
    requires count { length words.now ≡ WORDS }
    ensures { (s : State) (n : ℕ) → Shows words.now s.table → IsSound s n → result ≡ s.table.task who }
{
    task_of(words[positions::task_at(who) as usize])
}

/// A task's entry.
#[tactic(auto, using(crate::proofs::FoundMembers::entry_shown_is))]
pub fn read_entry(words: &[u64], who: u8) -> Option<Entry>
    requires count { length words.now ≡ WORDS }
    ensures { (s : State) (n : ℕ) → Shows words.now s.table → IsSound s n → result ≡ s.table.entry (own who) }
{
    entry_in(words, SLOTS * u16::from(who))
}

/// Whether the flag of a task's entry is set.
#[tactic(auto, using(crate::proofs::FoundMembers::flag_word_is))]
pub fn read_flag(words: &[u64], who: u8) -> bool
    requires count { length words.now ≡ WORDS }
    ensures { (s : State) → Shows words.now s.table → result ≡ s.table.flag (own who) }
{
    flag_of(words[positions::flag_at(who, 0) as usize])
}

/// The value of a condition's word.
#[tactic(auto, using(crate::proofs::FoundMembers::value_is, crate::proofs::FoundMembers::number_small))]
pub fn value_at(words: &[u64], watch: Watch) -> u64
    requires count { length words.now ≡ WORDS }
    requires watch { IsThere watch }
    ensures { (s : State) → Shows words.now s.table → result ≡ value_of s.table.words watch }
{
    words[positions::cond_at(watch) as usize]
}

/// Whether a head's lock is held.
#[tactic(auto, using(crate::proofs::FoundMembers::held_word_is))]
pub fn is_held(words: &[u64], head: u16) -> bool
    requires count { length words.now ≡ WORDS }
    requires head { head < HEADS }
    ensures { (s : State) → Shows words.now s.table → result ≡ s.table.holder head }
{
    held_of(words[positions::head_at(head) as usize])
}

/// Where the walk of a call goes on.
#[inline(always)]
pub fn arrived_at(words: &[u64], index: &[RankedMember], call: Call, point: Point) -> Arrived
    requires count { length words.now ≡ WORDS }
    requires index { IsIndex (shown_stand words.now) index.now }
    requires point { IsFitting point }
    ensures arrived { (s : State) (n : ℕ) → Shows words.now s.table → IsSound s n
        → result ≡ arrived (arrives_at s.table.entry call point (s.queue (call_head call))) }
    ensures member { IfSome result.member (λ m. m.place < PLACES) }
    ensures entry { result.breaks ≡ false → IfSome result.member (λ m. m.at < ENTRIES) }
    ensures calls { result.calls < 2 ^ 32 - 1 }
{
    match point {
        Point::Walk(WalkPoint::Call(walk)) => arrive(
            words,
            index,
            call.head(),
            call.watch(),
            walk.place,
            walk.calls,
        ),
        _ => Arrived {
            calls: 0,
            member: None,
            breaks: false,
        },
    }
}

/// The member that a walk calls next, or that a selection takes.
#[inline(always)]
fn walk_at(
    words: &[u64],
    index: &[RankedMember],
    call: Call,
    point: Point,
    walk: Arrived,
) -> Option<Member>
    requires count { length words.now ≡ WORDS }
    requires index { IsIndex (shown_stand words.now) index.now }
    requires entry { walk.breaks ≡ false → IfSome walk.member (λ m. m.at < ENTRIES) }
    ensures member { (s : State) (n : ℕ) → Shows words.now s.table → IsSound s n
        → walk ≡ arrived (arrives_at s.table.entry call point (s.queue (call_head call)))
        → result ≡ walk_member s.table.entry call point (s.queue (call_head call)) }
    ensures fits { IfSome result (λ m. m.at < ENTRIES) }
{
    match point {
        Point::Walk(WalkPoint::Call(_)) => if walk.breaks { None } else { walk.member },
        Point::Select(SelectPoint::Next(_)) => entry_ranked(words, index, call.head(), 0),
        _ => None,
    }
}

/// Whether the head of a call has members, where the call looks for them.
#[inline(always)]
fn has_members(words: &[u64], index: &[RankedMember], call: Call, point: Point) -> bool
    requires count { length words.now ≡ WORDS }
    requires index { IsIndex (shown_stand words.now) index.now }
    ensures { (s : State) (n : ℕ) → Shows words.now s.table → IsSound s n
        → result ≡ members_at point (s.queue (call_head call)) }
{
    match point {
        Point::Active => member_ranked(words, index, call.head(), 0).is_some(),
        _ => false,
    }
}

/// A task's bookmark.
#[tactic(auto, using(crate::proofs::FoundMembers::mark_shown_is))]
fn read_mark(words: &[u64], who: u8) -> Option<Mark>
    requires count { length words.now ≡ WORDS }
    ensures { (s : State) (n : ℕ) → Shows words.now s.table → IsSound s n → result ≡ s.table.mark who }
{
    mark_in(words, who)
}

/// The entry of a member, and whose it is.
#[tactic(auto, using(crate::proofs::FoundMembers::entry_shown_is))]
#[inline(always)]
fn called_in(words: &[u64], member: Option<Member>) -> Option<CalledEntry>
    requires count { length words.now ≡ WORDS }
    requires member { IfSome member (λ m. m.at < ENTRIES) }
    ensures called { (s : State) (n : ℕ) → Shows words.now s.table → IsSound s n
        → result ≡ called_by s.table.entry member }
    ensures fits { IfSome result (λ c. (c.who < TASKS) × (c.place < PLACES)) }
{
    match member {
        None => None,
        Some(member) => match entry_in(words, member.at) {
            None => None,
            Some(entry) => Some(CalledEntry {
                place: entry.place,
                who: member.owner(),
                exclusive: entry.exclusive,
                kind: entry.kind,
            }),
        },
    }
}

/// What a task finds at its next event, by where its walk goes on.
#[inline(always)]
pub fn seen_at(
    words: &[u64],
    index: &[RankedMember],
    me: u8,
    call: Call,
    point: Point,
    walk: Arrived,
) -> Seen
    requires count { length words.now ≡ WORDS }
    requires index { IsIndex (shown_stand words.now) index.now }
    requires call { IsThere (call_watch call) }
    requires point { IsReachable call point × IsFitting point }
    requires entry { walk.breaks ≡ false → IfSome walk.member (λ m. m.at < ENTRIES) }
    requires calls { walk.calls < 2 ^ 32 - 1 }
    ensures seen { (s : State) (n : ℕ) → Shows words.now s.table → IsSound s n
        → walk ≡ arrived (arrives_at s.table.entry call point (s.queue (call_head call)))
        → result ≡ seen_by s me call point }
    ensures called { IfSome result.called (λ c. c.place < PLACES) }
    ensures calls { result.calls < 2 ^ 32 - 1 }
{
    let called = called_in(words, walk_at(words, index, call, point, walk));
    Seen {
        own: read_task(words, me),
        entry: read_entry(words, me),
        flag: read_flag(words, me),
        value: value_at(words, call.watch()),
        called,
        breaks: walk.breaks,
        calls: walk.calls,
        members: has_members(words, index, call, point),
        worn: false,
        mark: read_mark(words, me),
        other: read_task(words, about(call, point, called)),
    }
}

/// The head whose lock the event would take while it is held.
pub fn held_head(words: &[u64], event: Event) -> Option<u16>
    requires count { length words.now ≡ WORDS }
    requires head { IsInRange event }
    ensures { (s : State) → Shows words.now s.table → result ≡ busy_head s event }
{
    match event {
        Event::Lock { head } => {
            if is_held(words, head) {
                Some(head)
            } else {
                None
            }
        }
        _ => None,
    }
}
