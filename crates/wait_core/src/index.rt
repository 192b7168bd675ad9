//! The members that stand, in one list by rising head and rank, so that a look at a queue is a search in it.

ghost use Rattle.std.specs.Prelude.{◌≡◌, ℕ, ◌+◌, ◌*◌, ◌<◌, ◌≤◌, ◌^◌, IfSome, length, nat_lt, slice_index_or, slice_set};
ghost use Rattle.std.specs.Prelude.{vec_capacity, Option, None};
ghost use Rattle.wait_model.specs.{Queues.stand_by, Functions.put, declared.queues.Mark.Mark};
ghost use Rattle.wait_model.specs.declared.layout.TheConstants.{MEMBERS, WORDS, PLACES, INDEXES};
ghost use Rattle.wait_model.specs.Locations.{Location, IsLocation, position_of};
ghost use Rattle.wait_core.specs.{declared.index.TheConstants.RANKS, Scan.shown_stand};
ghost use Rattle.wait_core.specs.Index.{IsSorted, IsIndex, IsClass, class_of, key, key_at};
ghost use Rattle.wait_model.specs.Words as words_of;
ghost use Rattle.wait_model.specs.Tables as tables;

use crate::scan::{entry_in, mark_in};
use wait_model::heads::head_of;
use wait_model::layout::{ENTRIES, INDEXES, PLACES};
use wait_model::queues::{Mark, Member};
use wait_model::watches::Entry;
use wait_model::words::{entry_of, mark_of};

/// How many ranks there are.
pub const RANKS: u64 = INDEXES * PLACES;

/// The class of a word, as far as the list of members goes: an entry word by the entry's index, the bookmark word of a
/// task, or another word.
#[derive(Clone, Copy)]
pub enum Class {
    Entry { at: u16 },
    Bookmark { task: u8 },
    Other,
}

/// A member that stands: its head and its rank.
#[derive(Clone, Copy)]
pub struct RankedMember {
    pub head: u16,
    pub rank: u64,
}

impl RankedMember {
    /// The member that stands there.
    pub fn member(self) -> Member
        requires { self.rank < RANKS }
        ensures at { self.rank ≡ INDEXES * result.place + result.at }
        ensures number { result.at < INDEXES }
        ensures place { result.place < PLACES }
    {
        Member {
            at: (self.rank % INDEXES) as u16,
            place: self.rank / INDEXES,
        }
    }

    /// Whether it stands before a rank of a head.
    fn is_below(self, head: u16, rank: u64) -> bool
        requires own { self.rank < RANKS }
        requires rank { rank ≤ RANKS }
        ensures { result ≡ nat_lt (key self) (key_at head rank) }
    {
        self.head < head || (self.head == head && self.rank < rank)
    }
}

/// How many members stand before a rank of a head.
pub fn below(index: &[RankedMember], head: u16, rank: u64) -> usize
    requires index { IsSorted index.now }
    requires rank { rank ≤ RANKS }
    ensures within { result ≤ length index.now }
    ensures before { (i : ℕ) (d : RankedMember) → i < result → key (slice_index_or index.now i d) < key_at head rank }
    ensures behind { (i : ℕ) (d : RankedMember) → result ≤ i → i < length index.now
        → key_at head rank ≤ key (slice_index_or index.now i d) }
{
    let mut low = 0;
    let mut high = index.len();
    while low < high {
        let middle = low + (high - low) / 2;
        if index[middle].is_below(head, rank) {
            low = middle + 1;
        } else {
            high = middle;
        }
    }
    low
}

/// Takes a member out of the list, where one stood.
fn take_out(index: &mut Vec<RankedMember>, number: u16, stand: Option<Mark>)
    requires index { IsSorted index.old.items }
    requires number { number < MEMBERS }
    requires fits { IfSome stand (λ k. k.place < PLACES) }
    ensures index { (f : ℕ → Option Mark) → IsIndex f index.old.items → f number ≡ stand
        → IsIndex (put f number None) index.new.items }
    ensures capacity { vec_capacity index.old ≤ vec_capacity index.new }
{
    if let Some(stand) = stand {
        let rank = INDEXES * stand.place + u64::from(number);
        let at = below(index, stand.head, rank);
        if at < index.len() {
            index.remove(at);
        }
    }
}

/// Puts a member into the list, where one stands now.
fn put_in(index: &mut Vec<RankedMember>, number: u16, stand: Option<Mark>)
    requires index { IsSorted index.old.items }
    requires number { number < MEMBERS }
    requires fits { IfSome stand (λ k. k.place < PLACES) }
    requires room { MEMBERS ≤ vec_capacity index.old }
    ensures index { (f : ℕ → Option Mark) → IsIndex f index.old.items → f number ≡ None
        → IsIndex (put f number stand) index.new.items }
    ensures capacity { vec_capacity index.old ≤ vec_capacity index.new }
{
    if let Some(stand) = stand {
        let rank = INDEXES * stand.place + u64::from(number);
        let head = stand.head;
        let at = below(index, head, rank);
        let _ = index.insert(at, RankedMember { head, rank });
    }
}

/// Where an entry stands.
fn entry_stand(entry: Option<Entry>) -> Option<Mark>
    requires { IfSome entry (λ e. e.place < PLACES) }
    ensures stand { result ≡ stand_by entry }
    ensures fits { IfSome result (λ k. k.place < PLACES) }
{
    match entry {
        None => None,
        Some(entry) => Some(Mark {
            head: head_of(entry.watch),
            place: entry.place,
        }),
    }
}

/// The entry that a word shows.
#[tactic(auto, using(crate::proofs::FoundMembers::entry_small))]
fn entry_by(word: u64) -> Option<Entry>
    ensures entry { result ≡ words_of.entry_of word }
    ensures fits { IfSome result (λ e. e.place < PLACES) }
{
    entry_of(word)
}

/// The bookmark that a word shows.
#[tactic(auto, using(crate::proofs::FoundMembers::mark_small))]
fn mark_by(word: u64) -> Option<Mark>
    ensures mark { result ≡ tables.mark_of word }
    ensures fits { IfSome result (λ k. k.place < PLACES) }
{
    mark_of(word)
}

/// Brings the list along with a word of a class that is about to change.
#[inline(always)]
pub fn reindex(index: &mut Vec<RankedMember>, words: &[u64], class: Class, left: u64)
    requires count { length words.now ≡ WORDS }
    requires class { IsClass class }
    requires index { IsIndex (shown_stand words.now) index.old.items }
    requires room { MEMBERS ≤ vec_capacity index.old }
    ensures index { (l : Location) → IsLocation l → class_of l ≡ class
        → IsIndex (shown_stand (slice_set words.now (position_of l) left)) index.new.items }
    ensures room { MEMBERS ≤ vec_capacity index.new }
{
    match class {
        Class::Entry { at } => {
            take_out(index, at, entry_stand(entry_in(words, at)));
            put_in(index, at, entry_stand(entry_by(left)));
        }
        Class::Bookmark { task } => {
            let number = ENTRIES + u16::from(task);
            take_out(index, number, mark_in(words, task));
            put_in(index, number, mark_by(left));
        }
        Class::Other => {}
    }
}
