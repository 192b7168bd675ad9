//! Where a walk goes on: behind the entries of other watches, or at the member before which it breaks.

ghost use Rattle.std.specs.Prelude.{◌≡◌, ℕ, ◌+◌, ◌*◌, ◌<◌, ◌≤◌, ◌^◌, ◌-◌, IfSome, length, false};
ghost use Rattle.wait_core.specs.{Arrivals.arrived, Index.IsIndex, Scan.shown_stand};
ghost use Rattle.wait_model.specs.{Locations.Shows, Reached.IsSound, Runs.State, Runs.arrives_from, Watches.same};
ghost use Rattle.wait_model.specs.Watches.{is_for};
ghost use Rattle.wait_model.specs.declared.layout.TheConstants.{ENTRIES, WORDS, PLACES};
ghost use Rattle.wait_model.specs.Queues as queue;

use crate::index::RankedMember;
use crate::scan::{entry_in, entry_ranked, member_ranked};
use wait_model::layout::{BREAK, ENTRIES, FIRST_PLACE, INDEXES, PLACES};
use wait_model::queues::Member;
use wait_model::watches::Watch;

/// Where a walk goes on: the member before which it breaks, or the entry that it calls, or none; and how many
/// entries its hold has called by then.
#[derive(Clone, Copy)]
pub struct Arrived {
    pub calls: u32,
    pub member: Option<Member>,
    pub breaks: bool,
}

/// Whether one wake wakes the waiters of both.
fn is_same(watch: Watch, other: Watch) -> bool
    ensures { result ≡ same watch other }
{
    match (watch, other) {
        (Watch::Plain { cond }, Watch::Plain { cond: second }) => cond == second,
        (Watch::Done { cell }, Watch::Done { cell: second }) => cell == second,
        (
            Watch::Bit { word, bit },
            Watch::Bit {
                word: second,
                bit: third,
            },
        ) => { word == second && bit == third }
        (Watch::Var { var, .. }, Watch::Var { var: second, .. }) => var == second,
        _ => false,
    }
}

/// Whether a wake for the watch calls the function of an entry.
#[tactic(auto, using(crate::proofs::FoundMembers::entry_shown_is))]
fn is_called(words: &[u64], watch: Watch, at: u16) -> bool
    requires count { length words.now ≡ WORDS }
    requires at { at < ENTRIES }
    ensures { (s : State) (n : ℕ) → Shows words.now s.table → IsSound s n → result ≡ is_for watch (s.table.entry at) }
{
    match entry_in(words, at) {
        None => false,
        Some(entry) => is_same(entry.watch, watch),
    }
}

/// Where a walk for a watch goes on from a place, in a hold that has called so many entries.
#[inline(always)]
pub fn arrive(
    words: &[u64],
    index: &[RankedMember],
    head: u16,
    watch: Watch,
    place: u64,
    called: u32,
) -> Arrived
    requires count { length words.now ≡ WORDS }
    requires index { IsIndex (shown_stand words.now) index.now }
    ensures arrived { (s : State) (n : ℕ) → Shows words.now s.table → IsSound s n
        → result ≡ arrived (arrives_from s.table.entry watch place called (s.queue head)) }
    ensures member { IfSome result.member (λ m. m.place < PLACES) }
    ensures entry { result.breaks ≡ false → IfSome result.member (λ m. m.at < ENTRIES) }
    ensures calls { called < 2 ^ 32 - 1 → result.calls < 2 ^ 32 - 1 }
{
    let mut least = INDEXES * place.min(PLACES);
    let mut calls = called;
    while calls <= BREAK {
        let Some(member) = entry_ranked(words, index, head, least) else {
            return Arrived {
                calls,
                member: None,
                breaks: false,
            };
        };
        if is_called(words, watch, member.at) {
            return Arrived {
                calls,
                member: Some(member),
                breaks: false,
            };
        }
        calls += 1;
        least = member.rank() + 1;
    }
    let member = member_ranked(words, index, head, least);
    Arrived {
        calls,
        member,
        breaks: member.is_some(),
    }
}

/// The place of a bookmark before a member: below an entry, or that of another bookmark.
pub fn place_before(member: Option<Member>) -> u64
    requires { IfSome member (λ m. m.place < PLACES) }
    ensures place { result ≡ queue.mark_place member }
    ensures fits { result < PLACES }
{
    match member {
        None => FIRST_PLACE,
        Some(member) => {
            if member.at < ENTRIES && member.place > 0 {
                member.place - 1
            } else {
                member.place
            }
        }
    }
}
