//! What the words show of a queue: its members by their places.

ghost use Rattle.std.specs.Prelude.{◌≡◌, ℕ, ◌+◌, ◌*◌, ◌<◌, ◌≤◌, ◌^◌, ◌-◌, ◌⊎◌, IfSome, Option, length, true, false};
ghost use Rattle.wait_model.specs.{Runs.State, Locations.Shows, Reached.IsSound, declared.queues.Mark.Mark};
ghost use Rattle.wait_model.specs.declared.layout.TheConstants.{ENTRIES, MEMBERS, WORDS, PLACES};
ghost use Rattle.wait_model.specs.Queues.{member_from, entry_from, entries_of, last_within, rank, rank_at, place_for};
ghost use Rattle.wait_model.specs.Queues as queue;
ghost use Rattle.wait_core.specs.Scan.{IsPicked, found_place, entry_in_words, shown_mark, shown_stand};
ghost use Rattle.wait_core.specs.Index.{IsSorted, IsIndex};

use crate::index::{RANKS, RankedMember, below};
use wait_model::layout::{
    ENTRIES, FIRST_PLACE, FIRST_PRIORITY, INDEXES, MEMBERS, MIDDLE, PLACES, SLOTS,
};
use wait_model::places::{front_place, priority_place, tail_place};
use wait_model::positions;
use wait_model::queues::{Form, Mark, Member};
use wait_model::watches::Entry;
use wait_model::words::{entry_of, mark_of};

/// Which member a scan looks for: one of this head, at a rank from `low` on and below `high`, the first or
/// the last of these.
#[derive(Clone, Copy)]
pub struct Span {
    pub head: u16,
    pub low: u64,
    pub high: u64,
    pub last: bool,
}

/// The entry that a word shows.
#[tactic(auto, using(crate::proofs::FoundMembers::entry_small))]
pub fn entry_in(words: &[u64], at: u16) -> Option<Entry>
    requires count { length words.now ≡ WORDS }
    requires at { at < ENTRIES }
    ensures entry { result ≡ entry_in_words words.now at }
    ensures fits { IfSome result (λ e. e.place < PLACES) }
{
    let position = positions::entry_at((at / SLOTS) as u8, (at % SLOTS) as u8);
    entry_of(words[position as usize])
}

/// The bookmark that a task's word shows.
#[tactic(auto, using(crate::proofs::FoundMembers::mark_small))]
pub fn mark_in(words: &[u64], task: u8) -> Option<Mark>
    requires count { length words.now ≡ WORDS }
    ensures mark { result ≡ shown_mark words.now task }
    ensures fits { IfSome result (λ k. k.place < PLACES) }
{
    mark_of(words[positions::mark_at(task) as usize])
}

/// The first member that a look finds among those below a number.
fn first_in(index: &[RankedMember], span: Span, count: u16) -> Option<Member>
    requires index { IsSorted index.now }
    requires first { span.last ≡ false }
    requires count { count ≤ MEMBERS }
    ensures picked { (f : ℕ → Option Mark) → IsIndex f index.now → IsPicked f count span result }
    ensures fits { IfSome result (λ m. (m.at < count) × (span.low ≤ rank m) × (rank m < span.high)
        × (m.place < PLACES)) }
{
    let mut at = below(index, span.head, span.low.min(RANKS));
    while at < index.len() {
        let standing = index[at];
        if standing.head != span.head {
            return None;
        }
        if standing.rank >= span.high {
            return None;
        }
        let member = standing.member();
        if member.at < count {
            return Some(member);
        }
        at += 1;
    }
    None
}

/// The last member that a look finds among those below a number.
fn last_in(index: &[RankedMember], span: Span, count: u16) -> Option<Member>
    requires index { IsSorted index.now }
    requires last { span.last ≡ true }
    requires count { count ≤ MEMBERS }
    ensures picked { (f : ℕ → Option Mark) → IsIndex f index.now → IsPicked f count span result }
    ensures fits { IfSome result (λ m. (m.at < count) × (span.low ≤ rank m) × (rank m < span.high)
        × (m.place < PLACES)) }
{
    let mut end = below(index, span.head, span.high.min(RANKS));
    while end > 0 {
        let standing = index[end - 1];
        if standing.head != span.head {
            return None;
        }
        if standing.rank < span.low {
            return None;
        }
        let member = standing.member();
        if member.at < count {
            return Some(member);
        }
        end -= 1;
    }
    None
}

/// The member that a look finds among the entries, or among the entries and the bookmarks.
fn member_in(words: &[u64], index: &[RankedMember], span: Span, count: u16) -> Option<Member>
    requires index { IsIndex (shown_stand words.now) index.now }
    requires count { count ≤ MEMBERS }
    ensures picked { IsPicked (shown_stand words.now) count span result }
    ensures fits { IfSome result (λ m. (m.at < count) × (span.low ≤ rank m) × (rank m < span.high)
        × (m.place < PLACES)) }
{
    let _ = words;
    if span.last {
        last_in(index, span, count)
    } else {
        first_in(index, span, count)
    }
}

/// The ranks of a head from one on.
fn ranks_from(head: u16, least: u64) -> Span
    ensures { result ≡ record { head = head; low = least; high = rank_at PLACES; last = false } }
{
    Span {
        head,
        low: least,
        high: INDEXES * PLACES,
        last: false,
    }
}

/// The first member of a queue from a rank on.
#[tactic(auto, using(crate::proofs::FoundMembers::first_found))]
pub fn member_ranked(words: &[u64], index: &[RankedMember], head: u16, least: u64) -> Option<Member>
    requires count { length words.now ≡ WORDS }
    requires index { IsIndex (shown_stand words.now) index.now }
    ensures member { (s : State) (n : ℕ) → Shows words.now s.table → IsSound s n
        → result ≡ member_from least (s.queue head) }
    ensures fits { IfSome result (λ m. (m.at < MEMBERS) × (least ≤ rank m) × (m.place < PLACES)) }
{
    member_in(words, index, ranks_from(head, least), MEMBERS)
}

/// The first member of a queue from a place on.
#[tactic(auto, using(crate::proofs::FoundMembers::member_placed))]
pub fn member_at(words: &[u64], index: &[RankedMember], head: u16, place: u64) -> Option<Member>
    requires count { length words.now ≡ WORDS }
    requires index { IsIndex (shown_stand words.now) index.now }
    ensures member { (s : State) (n : ℕ) → Shows words.now s.table → IsSound s n
        → result ≡ member_from (rank_at place) (s.queue head) }
    ensures fits { IfSome result (λ m. (m.at < MEMBERS) × (place ≤ m.place) × (m.place < PLACES)) }
{
    let least = INDEXES * place.min(PLACES);
    member_in(words, index, ranks_from(head, least), MEMBERS)
}

/// The first entry of a queue from a rank on.
#[tactic(auto, using(crate::proofs::FoundMembers::entry_found))]
pub fn entry_ranked(words: &[u64], index: &[RankedMember], head: u16, least: u64) -> Option<Member>
    requires count { length words.now ≡ WORDS }
    requires index { IsIndex (shown_stand words.now) index.now }
    ensures member { (s : State) (n : ℕ) → Shows words.now s.table → IsSound s n
        → result ≡ entry_from least (s.queue head) }
    ensures fits { IfSome result (λ m. (m.at < ENTRIES) × (m.place < PLACES)) }
{
    member_in(words, index, ranks_from(head, least), ENTRIES)
}

/// The last member of a queue from a place on and below another.
#[tactic(auto, using(crate::proofs::FoundMembers::last_found))]
fn last_at(words: &[u64], index: &[RankedMember], head: u16, low: u64, high: u64) -> Option<Member>
    requires words { length words.now ≡ WORDS }
    requires index { IsIndex (shown_stand words.now) index.now }
    requires places { (low ≤ PLACES) × (high ≤ PLACES) }
    ensures member { (s : State) (n : ℕ) → Shows words.now s.table → IsSound s n
        → result ≡ last_within low high (s.queue head) }
    ensures fits { IfSome result (λ m. (low ≤ m.place) × (m.place < PLACES)) }
{
    let span = Span {
        head,
        low: INDEXES * low,
        high: INDEXES * high,
        last: true,
    };
    member_in(words, index, span, MEMBERS)
}

/// The last entry of a queue from a place on and below another.
#[tactic(auto, using(crate::proofs::FoundMembers::last_entry_found))]
fn last_entry_at(
    words: &[u64],
    index: &[RankedMember],
    head: u16,
    low: u64,
    high: u64,
) -> Option<Member>
    requires words { length words.now ≡ WORDS }
    requires index { IsIndex (shown_stand words.now) index.now }
    requires places { (low ≤ PLACES) × (high ≤ PLACES) }
    ensures member { (s : State) (n : ℕ) → Shows words.now s.table → IsSound s n
        → result ≡ last_within low high (entries_of (s.queue head)) }
    ensures fits { IfSome result (λ m. m.place < high) }
{
    let span = Span {
        head,
        low: INDEXES * low,
        high: INDEXES * high,
        last: true,
    };
    member_in(words, index, span, ENTRIES)
}

/// The place of a member.
fn place_of(member: Option<Member>) -> Option<u64>
    ensures { result ≡ found_place member }
{
    match member {
        None => None,
        Some(member) => Some(member.place),
    }
}

/// The place that an add at the front takes. A million adds leave one.
#[tactic(auto, using(crate::proofs::FoundMembers::front_left))]
fn front_place_at(words: &[u64], index: &[RankedMember], head: u16) -> u64
    requires count { length words.now ≡ WORDS }
    requires index { IsIndex (shown_stand words.now) index.now }
    ensures place { (s : State) (n : ℕ) → Shows words.now s.table → IsSound s n
        → result ≡ queue.front_place (s.queue head) }
    ensures fits { result < PLACES }
{
    let lowest = place_of(member_at(words, index, head, MIDDLE));
    front_place(lowest).unwrap_or(FIRST_PLACE)
}

/// The place that an add at the tail takes. A million adds leave one.
#[tactic(auto, using(crate::proofs::FoundMembers::tail_left))]
fn tail_place_at(words: &[u64], index: &[RankedMember], head: u16) -> u64
    requires count { length words.now ≡ WORDS }
    requires index { IsIndex (shown_stand words.now) index.now }
    ensures place { (s : State) (n : ℕ) → Shows words.now s.table → IsSound s n
        → result ≡ queue.tail_place (s.queue head) }
    ensures fits { result < PLACES }
{
    let highest = place_of(last_at(words, index, head, MIDDLE, PLACES));
    tail_place(highest).unwrap_or(FIRST_PLACE)
}

/// The place that an add with priority takes: behind the last entry with priority. No bookmark counts. A million adds
/// leave one.
#[tactic(auto, using(crate::proofs::FoundMembers::priority_left))]
fn priority_place_at(words: &[u64], index: &[RankedMember], head: u16) -> u64
    requires count { length words.now ≡ WORDS }
    requires index { IsIndex (shown_stand words.now) index.now }
    ensures place { (s : State) (n : ℕ) → Shows words.now s.table → IsSound s n
        → result ≡ queue.priority_place (s.queue head) }
    ensures fits { result < PLACES }
{
    let highest = place_of(last_entry_at(words, index, head, 0, MIDDLE));
    priority_place(highest).unwrap_or(FIRST_PRIORITY)
}

/// The place that an add takes.
pub fn place_at(words: &[u64], index: &[RankedMember], head: u16, form: Form) -> u64
    requires count { length words.now ≡ WORDS }
    requires index { IsIndex (shown_stand words.now) index.now }
    ensures place { (s : State) (n : ℕ) → Shows words.now s.table → IsSound s n
        → result ≡ place_for form (s.queue head) }
    ensures fits { result < PLACES }
{
    match form {
        Form::Front => front_place_at(words, index, head),
        Form::Tail => tail_place_at(words, index, head),
        Form::Priority => priority_place_at(words, index, head),
    }
}
