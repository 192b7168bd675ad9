//! The list of a head's members, in the order of its queue.

ghost use Rattle.std.specs.Prelude.{◌≡◌, ◌<◌, ◌+◌, ◌++◌, ◌∷◌, [], length, map, set, slice_index, slice_index_or};
ghost use Rattle.std.specs.List.Sorted.{IsPermutation};
ghost use Rattle.wait_model.specs.declared.layout.TheConstants.{MEMBERS, PLACES};
ghost use Rattle.wait_model.specs.Tables.{mark_of};
ghost use Rattle.wq_head.specs.Members.{member_of, place_marked};
ghost use Rattle.wq_head.specs.Lists.{members_in, stand_in, place_by_word, rank_by, IsByRank};

use crate::looks::ShownMember;
use arrayvec::ArrayVec;
use wait_model::entry_words::EntryWord;
use wait_model::layout::{ENTRIES, INDEXES, MEMBERS, PLACES, SLOTS, TASKS};
use wait_model::words::mark_of;

/// How many members a list has room for: all that there are.
const ROOM: usize = MEMBERS as usize;

/// The members of a head in the order of its queue, as a hold has seen them: the number of each, entries by their
/// index and the bookmark of task t by `ENTRIES + t`; and by these numbers, what their words showed.
#[derive(Drop)]
pub struct Members {
    order: ArrayVec<u16, ROOM>,
    words: [u64; ROOM],
}

/// A member of a head: an entry with its word, by its task and its slot, or the bookmark of a task with its word.
#[derive(Clone, Copy)]
pub enum Member {
    Entry { task: u8, slot: u8, word: EntryWord },
    Mark { task: u8, word: u64 },
}

impl Members {
    /// A list of none. It takes no memory but its own.
    pub fn new() -> Members
        ensures { members_in result ≡ [] }
    {
        Members {
            order: ArrayVec::new(),
            words: [0; ROOM],
        }
    }

    /// The member at a position in the order of the queue, below the number that `members` answered.
    pub fn at(&self, index: usize) -> Member
        requires { index < length (members_in self.now) }
        ensures { result ≡ slice_index_or (members_in self.now) index result }
    {
        let number = self.order[index];
        let word = word_at(&self.words, number);
        if number < ENTRIES {
            Member::Entry {
                task: (number / SLOTS) as u8,
                slot: (number % SLOTS) as u8,
                word: EntryWord(word),
            }
        } else {
            Member::Mark {
                task: ((number - ENTRIES) % TASKS) as u8,
                word,
            }
        }
    }

    /// How many there are.
    pub(crate) fn len(&self) -> usize
        ensures { result ≡ length (members_in self.now) }
    {
        self.order.len()
    }

    /// The number and the place of the one at a position.
    pub(crate) fn stand(&self, index: usize) -> ShownMember
        requires { index < length (members_in self.now) }
        ensures { member_of result ≡ slice_index_or (map stand_in (members_in self.now)) index (member_of result) }
    {
        match self.at(index) {
            Member::Entry { task, slot, word } => ShownMember {
                place: word.place(),
                member: SLOTS * u16::from(task) + u16::from(slot),
            },
            Member::Mark { task, word } => ShownMember {
                place: marked_place(word),
                member: ENTRIES + u16::from(task),
            },
        }
    }

    /// Takes all out.
    pub(crate) fn clear(&mut self)
        ensures none { self.new.order.items ≡ [] }
        ensures words { self.new.words ≡ self.old.words }
    {
        self.order.clear();
    }

    /// Puts one more after the last, with its word.
    pub(crate) fn push(&mut self, m: u16, word: u64)
        requires member { m < MEMBERS }
        requires room { length self.old.order.items < MEMBERS }
        ensures order { self.new.order.items ≡ self.old.order.items ++ m ∷ [] }
        ensures words { self.new.words ≡ set self.old.words m word }
    {
        self.order.push(m);
        self.words[m as usize] = word;
    }
}

/// The place of the bookmark in a word, and 0 for none.
fn marked_place(word: u64) -> u64
    ensures { result ≡ place_marked (mark_of word) }
{
    match mark_of(word) {
        None => 0,
        Some(mark) => mark.place,
    }
}

/// Puts the members of a list in the order of their ranks.
pub(crate) fn sort(list: &mut Members)
    ensures same { list.new.words ≡ list.old.words }
    ensures moved { IsPermutation list.old.order.items list.new.order.items }
    ensures sorted { IsByRank list.new }
{
    let Members { order, words } = list;
    order
        .as_mut_slice()
        .sort_unstable_by_key(|m| rank_by(words, *m));
}

/// The rank of a member by the words of all: by place, and by number those of one place.
fn rank_by(words: &[u64; ROOM], m: u16) -> u64
    ensures { result ≡ rank_by words.now m }
{
    INDEXES * place_by_word(word_at(words, m)) + u64::from(m)
}

/// The word of a number, and 0 for a number that no member has.
fn word_at(words: &[u64; ROOM], m: u16) -> u64
    ensures { result ≡ slice_index words.now m }
{
    match words.get(m as usize) {
        None => 0,
        Some(word) => *word,
    }
}

/// The place in the word of an entry or a bookmark.
fn place_by_word(word: u64) -> u64
    ensures place { result ≡ place_by_word word }
    ensures low { result < PLACES }
{
    word % PLACES
}
