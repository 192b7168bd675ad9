//! Selections from a simple head in a hold: the task of the first entry is woken, and the entry taken off.

ghost use Rattle.std.specs.Prelude.{◌≡◌, ◌<◌, ◌≤◌, [], IfErr, IfOk, MatchResult, length, true};
ghost use Rattle.wait_model.specs.declared.layout.TheConstants.{FIRST_SIMPLE_HEAD, MEMBERS};
ghost use Rattle.wait_rule.specs.{Known.Known, Queues.MayRise, Says.IsUp, Stays.Carries, Stays.only_looks};
ghost use Rattle.wait_rule.specs.Tried.{IsStarved};
ghost use Rattle.wq_head.specs.Holds.{IsHolding};
ghost use Rattle.wq_head.specs.Roused.{HasRoused, IsRousing, tasks_in};
ghost use Rattle.wq_head.specs.Selects.{HasSelected, IsSimpleHold, KeepsHold};
ghost use Rattle.wq_head.specs.Selecting.{HasSelectedFirst, HasSelectedSole, IsFirstEntry};

use crate::found_queues::{FoundQueue, find_queue};
use crate::lists::Members;
use crate::looks::{ShownMember, members};
use crate::rousing::{Rousing, wake_later};
use std::hint::spin_loop;
use std::sync::Wait;
use wait_model::layout::{ENTRIES, SLOTS};
use wait_model::watches::Mode;
use wait_rule::queues::{entry_load, unqueue_member};
use wait_rule::tries::FailedTries;
use wait_rule::{Domain, Task};

/// Selects the first entries of the simple head whose lock the task holds, in the order of its queue
/// (kernel/sched/swait.c, `swake_up_locked`): wakes the task of each with NORMAL, and takes the entry off, also where
/// its task was awake. It ends after `most` entries, and with a `most` of 0 after all. The answer is how many there
/// were: less than `most` only where the queue is empty then. Whose threads are still to be woken is put into
/// `rousing`, in the order of their wakes; the threads of those that it names before are woken first.
pub fn select<R: Wait>(
    rt: &R,
    domain: &Domain,
    task: &mut Task,
    head: u16,
    most: u32,
    rousing: &mut Rousing,
) -> u32
    requires of { task.old.domain ≡ domain.now }
    requires up { IsUp task.old }
    requires held { IsHolding task.old }
    requires head { head ≡ task.old.at }
    requires simple { FIRST_SIMPLE_HEAD ≤ head }
    ensures selected { HasSelected task.old task.new most result }
    ensures held { IsHolding task.new }
    ensures hold { KeepsHold task.old task.new }
    ensures keeps { IsSimpleHold task.old → IsSimpleHold task.new }
    ensures rises { 0 < result → IsSimpleHold task.old → MayRise task.new true }
    ensures carries { Carries only_looks task.old task.new }
    ensures rouses { IsRousing task.old task.new rousing.new }
{
    rousing.rouse_all(domain);
    match select_tries(domain, task, head, most, rousing) {
        Ok(selected) => selected,
        Err(_) => {
            for _ in rt.forever() {
                spin_loop();
            }
            unreachable!()
        }
    }
}

/// Selects the first entries of the simple head whose lock the task holds, as `select` does, for who may neither wait
/// nor wake threads: `rousing`, in which none is left before, names the tasks that were put asleep and that this
/// selection has woken, in the order of their wakes. Err: the word of one task changed before each of `TRIES` tries to
/// wake it, as no run comes to; some entries may have been selected then, and the hold goes on.
pub fn select_tries(
    domain: &Domain,
    task: &mut Task,
    head: u16,
    most: u32,
    rousing: &mut Rousing,
) -> Result<u32, FailedTries>
    requires of { task.old.domain ≡ domain.now }
    requires up { IsUp task.old }
    requires held { IsHolding task.old }
    requires head { head ≡ task.old.at }
    requires simple { FIRST_SIMPLE_HEAD ≤ head }
    requires none { tasks_in rousing.old ≡ [] }
    ensures selected { IfOk result (λ n. HasSelected task.old task.new most n) }
    ensures held { IsHolding task.new }
    ensures hold { KeepsHold task.old task.new }
    ensures keeps { IsSimpleHold task.old → IsSimpleHold task.new }
    ensures rises { IfOk result (λ n. 0 < n → IsSimpleHold task.old → MayRise task.new true) }
    ensures carries { Carries only_looks task.old task.new }
    ensures rouses { IsRousing task.old task.new rousing.new }
    ensures starved { IfErr result (λ failed. IsStarved failed) }
{
    match find_queue(domain, task, head) {
        FoundQueue::Empty => Ok(0),
        FoundQueue::Sole(stand) => take_sole(domain, task, stand, rousing),
        FoundQueue::Several => select_several(domain, task, head, most, rousing),
    }
}

/// The same where several are queued, of whom it makes a list: a function of its own, since a frame with room for the list
/// costs who needs none.
fn select_several(
    domain: &Domain,
    task: &mut Task,
    head: u16,
    most: u32,
    rousing: &mut Rousing,
) -> Result<u32, FailedTries>
    requires of { task.old.domain ≡ domain.now }
    requires up { IsUp task.old }
    requires held { IsHolding task.old }
    requires head { head ≡ task.old.at }
    requires simple { FIRST_SIMPLE_HEAD ≤ head }
    requires none { tasks_in rousing.old ≡ [] }
    ensures selected { IfOk result (λ n. HasSelected task.old task.new most n) }
    ensures hold { KeepsHold task.old task.new }
    ensures rises { IfOk result (λ n. 0 < n → IsSimpleHold task.old → MayRise task.new true) }
    ensures rouses { (start : Known) → IsRousing start task.old rousing.old → IsRousing start task.new rousing.new }
    ensures starved { IfErr result (λ failed. IsStarved failed) }
{
    let mut list = Members::new();
    members(domain, task, head, &mut list);
    let mut selected = 0;
    for i in 0..list.len() {
        let stand = list.stand(i);
        if stand.member < ENTRIES {
            take_first(domain, task, stand.member, rousing)?;
            selected += 1;
            if selected == most {
                return Ok(selected);
            }
        }
    }
    Ok(selected)
}

/// Selects the only member of a head, where it is an entry, and answers how many it selected: one or none.
fn take_sole(
    domain: &Domain,
    task: &mut Task,
    stand: ShownMember,
    rousing: &mut Rousing,
) -> Result<u32, FailedTries>
    requires of { task.old.domain ≡ domain.now }
    requires up { IsUp task.old }
    requires first { stand.member < ENTRIES → IsFirstEntry task.old stand.member }
    requires room { length (tasks_in rousing.old) < MEMBERS }
    ensures taken { MatchResult result (λ n. HasSelectedSole task.old task.new stand.member n)
        (λ failed. IsStarved failed × KeepsHold task.old task.new) }
    ensures rouses { (start : Known) → IsRousing start task.old rousing.old → IsRousing start task.new rousing.new }
{
    if stand.member < ENTRIES {
        take_first(domain, task, stand.member, rousing)?;
        return Ok(1);
    }
    Ok(0)
}

/// Wakes the task of the first entry with NORMAL, and takes the entry off, whatever the wake found. The thread is left
/// to be roused later. Err only where all tries failed; then the entry stays.
fn take_first(
    domain: &Domain,
    task: &mut Task,
    member: u16,
    rousing: &mut Rousing,
) -> Result<(), FailedTries>
    requires of { task.old.domain ≡ domain.now }
    requires up { IsUp task.old }
    requires first { IsFirstEntry task.old member }
    requires room { length (tasks_in rousing.old) < MEMBERS }
    ensures taken { MatchResult result (λ _. HasSelectedFirst task.old task.new member)
        (λ failed. IsStarved failed × KeepsHold task.old task.new) }
    ensures rouses { HasRoused task.old task.new rousing.old rousing.new }
{
    let who = (member / SLOTS) as u8;
    let slot = (member % SLOTS) as u8;
    entry_load(domain, task, who, slot);
    wake_later(domain, task, rousing, who, Mode::Normal.mask())?;
    unqueue_member(domain, task, who, slot);
    Ok(())
}
