//! The steps on the words by which a head knows its members.

ghost use Rattle.std.specs.Prelude.{◌≡◌, ◌<◌, Some, None};
ghost use Rattle.wait_model.specs.{Tables.mark_of, Words.entry_of, Words.entry_word, declared.watches.Entry.Entry};
ghost use Rattle.wait_model.specs.declared.layout.TheConstants.{SLOTS, WORD_BITS, HEADS, MEMBERS, MEMBER_WORDS};
ghost use Rattle.wait_model.specs.declared.steps.Step.TheVariants as step;
ghost use Rattle.wait_rule.specs.{HandedPermits.FoundNoPermit, LookCounts.Looked, MemberLooks.SawWord};
ghost use Rattle.wait_rule.specs.{Stores.StoresEntry, Stores.StoresMark};
ghost use Rattle.wait_rule.specs.Queues.{IsLocked, IsAgreed, index, marked, MayQueue, MayUnqueue, MayStoreMark};
ghost use Rattle.wait_rule.specs.Queues.{MayStoreMember};
ghost use Rattle.wait_rule.specs.Says.{IsUp, added, stored_with};
ghost use Rattle.wait_rule.specs.Stays.{Carries, take_off_change, unchanged};
ghost use Rattle.wait_rule.specs.declared.journal.Item.TheVariants as item;

use crate::domain::{Domain, Task};
use crate::queue_plays::{ScanMembers, SeeMembers, StoreMember};
use crate::queues::{mark_store, queue_store, unqueue_store};
use wait_model::entry_words::EntryWord;
use wait_model::layout::{ENTRIES, SLOTS, WORD_BITS};
use wait_model::positions::member_at;

/// Sets or clears the member bit of the head that the task holds, for the entry or bookmark of this index, whose word
/// it stored last: with `on` where that store put it at the head, and else where it took it out. Before it the word and
/// the bit differ, and after it no word of the head does. `head` is below `HEADS`, `index` below `MEMBERS`.
pub fn member_store(domain: &Domain, task: &mut Task, head: u16, index: u16, on: bool)
    requires of { task.old.domain ≡ domain.now }
    requires head { head < HEADS }
    requires index { index < MEMBERS }
    requires may { MayStoreMember task.old head index on }
    ensures step { task.new ≡ added task.old item.Member }
    ensures carries { Carries unchanged task.old task.new }
{
    let at = member_at(head, (index / WORD_BITS) as u8) as usize;
    let bit = 1u64 << (index % WORD_BITS);
    if on {
        domain
            .table
            .shared
            .fetch_or::<StoreMember>(&mut task.seat, at, bit);
    } else {
        domain
            .table
            .shared
            .fetch_and::<StoreMember>(&mut task.seat, at, !bit);
    }
}

/// Loads word `i`, below `MEMBER_WORDS`, of the members of the head that the task holds, where no word differs from its
/// bit. Each bit stands for a look at the entry or bookmark of its index, which found it naming the head exactly where
/// the bit is set: it enters what the hold shows, and what the hold has shown before still stands. It is no event, and
/// one look.
#[inline(always)]
pub fn held_member_load(domain: &Domain, task: &mut Task, i: u8) -> u64
    requires of { task.old.domain ≡ domain.now }
    requires word { i < MEMBER_WORDS }
    requires held { IsLocked task.old }
    requires agreed { IsAgreed task.old }
    ensures saw { SawWord task.old.at i result task.old task.new }
    ensures looks { Looked 1 task.old task.new }
{
    let at = member_at(task.head, i) as usize;
    domain.table.shared.load::<SeeMembers>(&mut task.seat, at)
}

/// Loads word `i`, below `MEMBER_WORDS`, of the members of head `head`, below `HEADS`, without its lock: the task holds
/// none (`waitqueue_active` is a look at all of them). Where such a look finds no bit in any word, the task owes no
/// wake of a watch of the head any more (`wait_model::laws::empty_looks_end`): who is not seen has tested no watch yet.
/// A bit that is set ends nothing. One look.
#[inline(always)]
pub fn member_load(domain: &Domain, task: &mut Task, head: u16, i: u8) -> u64
    requires of { task.old.domain ≡ domain.now }
    requires up { IsUp task.old }
    requires out { task.old.book.head ≡ None }
    requires head { head < HEADS }
    requires word { i < MEMBER_WORDS }
    ensures step { task.new ≡ added task.old (item.Made (step.Scan head i result)) }
    ensures looks { Looked 1 task.old task.new }
    ensures carries { Carries unchanged task.old task.new }
{
    let at = member_at(head, i) as usize;
    domain.table.shared.load::<ScanMembers>(&mut task.seat, at)
}

/// Queues the own entry of slot 0 or 1 as `queue_store` does, and sets its member bit.
pub fn queue_member(domain: &Domain, task: &mut Task, slot: u8, word: EntryWord)
    requires of { task.old.domain ≡ domain.now }
    requires up { IsUp task.old }
    requires held { IsLocked task.old }
    requires agreed { IsAgreed task.old }
    requires slot { slot < SLOTS }
    requires may { (e : Entry) × (word.0 ≡ entry_word (Some e)) × MayQueue task.old slot e }
    requires permits { FoundNoPermit task.old slot }
    ensures step { (e : Entry) × (entry_of word.0 ≡ Some e)
        × (task.new ≡ stored_with task.old (step.Queue (index task.old.view.number slot) e)) }
    ensures stores { (e : Entry) → entry_of word.0 ≡ Some e
        → StoresEntry (index task.old.view.number slot) e task.old task.new }
{
    let head = task.head;
    let index = SLOTS * u16::from(task.number()) + u16::from(slot);
    queue_store(domain, task, slot, word);
    member_store(domain, task, head, index, true);
}

/// Takes an entry off the queue as `unqueue_store` does, and clears its member bit.
pub fn unqueue_member(domain: &Domain, task: &mut Task, who: u8, slot: u8)
    requires of { task.old.domain ≡ domain.now }
    requires up { IsUp task.old }
    requires held { IsLocked task.old }
    requires agreed { IsAgreed task.old }
    requires slot { slot < SLOTS }
    requires may { MayUnqueue task.old who slot }
    ensures step { task.new ≡ stored_with task.old (step.Unqueue (index who slot)) }
    ensures carries { Carries (take_off_change (index who slot)) task.old task.new }
{
    let head = task.head;
    let index = SLOTS * u16::from(who) + u16::from(slot);
    unqueue_store(domain, task, who, slot);
    member_store(domain, task, head, index, false);
}

/// Stores the own bookmark word as `mark_store` does, and its member bit.
pub fn mark_member(domain: &Domain, task: &mut Task, word: u64)
    requires of { task.old.domain ≡ domain.now }
    requires up { IsUp task.old }
    requires held { IsLocked task.old }
    requires agreed { IsAgreed task.old }
    requires may { MayStoreMark task.old word }
    ensures step { task.new ≡ stored_with task.old (marked (mark_of word)) }
    ensures stores { StoresMark (mark_of word) task.old task.new }
{
    let head = task.head;
    let index = ENTRIES + u16::from(task.number());
    mark_store(domain, task, word);
    member_store(domain, task, head, index, word != 0);
}
