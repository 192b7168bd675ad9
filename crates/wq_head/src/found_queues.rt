//! Whom a hold finds queued: most wakes find one member at most, and need no list of members.

ghost use Rattle.std.specs.Prelude.{◌≡◌, ◌<◌, ◌≤◌, ◌*◌, length, slice_index_or};
ghost use Rattle.wait_model.specs.declared.layout.TheConstants.{MEMBER_WORDS, WORD_BITS};
ghost use Rattle.wait_rule.specs.Says.{IsUp};
ghost use Rattle.wq_head.specs.{Members.member_of, Holds.IsHolding, Looking.AreNone, Looks.Looks};
ghost use Rattle.wq_head.specs.FoundQueues.{IsFoundQueue, IsSole, queue_of};

use crate::lists::Members;
use crate::looking::{Looking, next_bit, next_set};
use crate::looks::{ShownMember, look_at};
use wait_model::layout::{MEMBER_WORDS, WORD_BITS};
use wait_rule::queues::held_member_load;
use wait_rule::{Domain, Task};

/// The queue that a hold finds: nobody, one member alone, or more than one.
#[derive(Clone, Copy)]
pub(crate) enum FoundQueue {
    Empty,
    Sole(ShownMember),
    Several,
}

/// The members of a head in the order of its queue: one that is alone, or those of a list.
#[derive(Clone, Copy)]
pub(crate) enum Queue<'a> {
    Sole(ShownMember),
    Listed(&'a Members),
}

impl Queue<'_> {
    /// How many there are.
    pub(crate) fn len(&self) -> usize
        ensures { result ≡ length (queue_of self.now) }
    {
        match self {
            Queue::Sole(_) => 1,
            Queue::Listed(list) => list.len(),
        }
    }

    /// The number and the place of the one at a position.
    pub(crate) fn stand(&self, index: usize) -> ShownMember
        requires { index < length (queue_of self.now) }
        ensures { member_of result ≡ slice_index_or (queue_of self.now) index (member_of result) }
    {
        match self {
            Queue::Sole(stand) => *stand,
            Queue::Listed(list) => list.stand(index),
        }
    }
}

/// Looks whether the head whose lock the task holds has no member, one, or several. It loads the words by which the head
/// knows its members, up to the second member that they show, and the word of one that is alone, each by one look.
pub(crate) fn find_queue(domain: &Domain, task: &mut Task, head: u16) -> FoundQueue
    requires of { task.old.domain ≡ domain.now }
    requires up { IsUp task.old }
    requires held { IsHolding task.old }
    requires head { head ≡ task.old.at }
    ensures looks { Looks task.old task.new }
    ensures finds { IsFoundQueue task.new result }
{
    let words = clear_words(domain, task);
    if words == MEMBER_WORDS {
        return FoundQueue::Empty;
    }
    let mut looking = Looking::behind(words);
    match next_set(domain, task, &mut looking) {
        None => FoundQueue::Empty,
        Some(member) => match next_set(domain, task, &mut looking) {
            None => sole_member(domain, task, head, member),
            Some(_) => FoundQueue::Several,
        },
    }
}

/// How many of the words by which the head knows its members show none, from the first one on.
#[inline(always)]
fn clear_words(domain: &Domain, task: &mut Task) -> u16
    requires of { task.old.domain ≡ domain.now }
    requires up { IsUp task.old }
    requires held { IsHolding task.old }
    ensures looks { Looks task.old task.new }
    ensures within { result ≤ MEMBER_WORDS }
    ensures none { AreNone task.new 0 (WORD_BITS * result) }
{
    for i in 0..MEMBER_WORDS {
        let word = held_member_load(domain, task, i as u8);
        if next_bit(word, 0) < WORD_BITS {
            return i;
        }
    }
    MEMBER_WORDS
}

/// The only member of the head, with its place.
fn sole_member(domain: &Domain, task: &mut Task, head: u16, member: u16) -> FoundQueue
    requires of { task.old.domain ≡ domain.now }
    requires up { IsUp task.old }
    requires held { IsHolding task.old }
    requires head { head ≡ task.old.at }
    requires sole { IsSole task.old member }
    ensures looks { Looks task.old task.new }
    ensures finds { IsFoundQueue task.new result }
{
    match look_at(domain, task, head, member).place {
        None => unreachable!(),
        Some(place) => FoundQueue::Sole(ShownMember { place, member }),
    }
}
