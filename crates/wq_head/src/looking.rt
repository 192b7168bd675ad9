//! How a hold finds the members of its head: by the words by which the head knows them, one set bit after another.

ghost use Rattle.std.specs.Prelude.{◌≡◌, ◌+◌, ◌<◌, ◌≤◌, ◌*◌, ◌/◌, ℕ, true, false};
ghost use Rattle.wait_model.specs.declared.layout.TheConstants.{MEMBERS, MEMBER_WORDS, WORD_BITS};
ghost use Rattle.wait_model.specs.Words.{bit_at};
ghost use Rattle.wait_rule.specs.Says.{IsUp};
ghost use Rattle.wq_head.specs.{Holds.IsHolding, Looks.Looks};
ghost use Rattle.wq_head.specs.Looking.{AreByBits, IsLookingBy, IsNextSet, HasLoaded};

use wait_model::layout::{MEMBERS, WORD_BITS};
use wait_rule::queues::held_member_load;
use wait_rule::{Domain, Task};

/// How far a look at the members of a head has come: the index from which it goes on, and the word of that index,
/// once it is loaded.
#[derive(Clone, Copy)]
pub(crate) struct Looking {
    word: u64,
    next: u16,
}

impl Looking {
    /// One that begins at the first index.
    pub(crate) fn new() -> Looking
        ensures { result ≡ record { word = 0; next = 0 } }
    {
        Looking { word: 0, next: 0 }
    }

    /// One that begins behind so many words.
    pub(crate) fn behind(words: u16) -> Looking
        requires { words ≤ MEMBER_WORDS }
        ensures { result ≡ record { word = 0; next = WORD_BITS * words } }
    {
        Looking {
            word: 0,
            next: WORD_BITS * words,
        }
    }
}

/// The next index whose bit is set, or None after the last. It loads each word of the head's members that it comes
/// to, each by one look. By its bit each index is seen: it is a member where the bit is set, and none where it is
/// clear.
#[inline(always)]
pub(crate) fn next_set(domain: &Domain, task: &mut Task, looking: &mut Looking) -> Option<u16>
    requires of { task.old.domain ≡ domain.now }
    requires up { IsUp task.old }
    requires held { IsHolding task.old }
    requires looked { IsLookingBy task.old looking.old }
    ensures looks { Looks task.old task.new }
    ensures next { IsNextSet task.new looking.old.next looking.new result }
    ensures within { looking.new.next ≤ MEMBERS }
    ensures loaded { HasLoaded task.old task.new looking.old.next looking.new.next }
{
    while looking.next < MEMBERS {
        load_first(domain, task, looking);
        let bit = next_bit(looking.word, looking.next % WORD_BITS);
        let index = looking.next / WORD_BITS * WORD_BITS + bit;
        if bit < WORD_BITS {
            looking.next = index + 1;
            return Some(index);
        }
        looking.next = index;
    }
    None
}

/// Loads the word of the index from which the look goes on, where that is the first one of its word.
#[inline(always)]
fn load_first(domain: &Domain, task: &mut Task, looking: &mut Looking)
    requires of { task.old.domain ≡ domain.now }
    requires up { IsUp task.old }
    requires held { IsHolding task.old }
    requires looked { IsLookingBy task.old looking.old }
    requires further { looking.old.next < MEMBERS }
    ensures looks { Looks task.old task.new }
    ensures same { looking.new.next ≡ looking.old.next }
    ensures told { AreByBits task.new (WORD_BITS * (looking.old.next / WORD_BITS)) looking.new.word WORD_BITS }
    ensures loaded { HasLoaded task.old task.new looking.old.next (looking.old.next + 1) }
{
    if looking.next % WORD_BITS == 0 {
        looking.word = held_member_load(domain, task, (looking.next / WORD_BITS) as u8);
    }
}

/// The first set bit of a word from bit `from` on, or `WORD_BITS` where none is set.
#[inline(always)]
pub(crate) fn next_bit(word: u64, from: u16) -> u16
    requires from { from ≤ WORD_BITS }
    ensures low { from ≤ result }
    ensures high { result ≤ WORD_BITS }
    ensures clear { (b : ℕ) → from ≤ b → b < result → bit_at word b ≡ false }
    ensures set { result < WORD_BITS → bit_at word result ≡ true }
{
    if word == 0 {
        return WORD_BITS;
    }
    if from < WORD_BITS {
        let rest = word >> from;
        if rest == 0 {
            WORD_BITS
        } else {
            from + rest.trailing_zeros() as u16
        }
    } else {
        WORD_BITS
    }
}
