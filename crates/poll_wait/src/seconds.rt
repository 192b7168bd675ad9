//! The second entry of a task, of slot 1: queued in a hold of its own unless it is, and taken off again. No state is
//! stored here; who waits by the first entry does that (`wait_event::prepares`).

ghost use Rattle.std.specs.Prelude.{◌≡◌};
ghost use Rattle.wait_model.specs.Watches.{head_of, kind_for};
ghost use Rattle.wait_rule.specs.{Says.IsUp, Says.told_of, Stays.Carries};
ghost use Rattle.wq_head.specs.Holds.{IsHolding};
ghost use Rattle.wait_event.specs.Prepares.{IsPart, leave_change};
ghost use Rattle.poll_wait.specs.Seconds.{
  EndsJoin,
  HasLeftSecond,
  IsPolled,
  MayJoinSecond,
  MayLeave,
  join_change,
  second_of,
};
ghost use Rattle.poll_wait.specs.SecondSteps.{HasSeenSecond, IsSecondAtHead, JoinsHeld, ParesSecond};

use std::sync::Wait;
use wait_model::heads::head_of;
use wait_model::watches::{Entry, Watch};
use wait_model::words::entry_of;
use wait_rule::queues::entry_load;
use wait_rule::{Domain, Task};
use wq_head::{Worn, add_front, lock, remove, unlock};

/// Loads the own entry of slot 1.
#[inline(always)]
pub fn second_entry(domain: &Domain, task: &mut Task) -> Option<Entry>
    requires of { task.old.domain ≡ domain.now }
    requires up { IsUp task.old }
    ensures { HasSeenSecond task.old task.new result }
{
    let me = task.number();
    let word = entry_load(domain, task, me, 1);
    entry_of(word.0)
}

/// In a hold of its head: queues the own entry of slot 1 at the front unless it is queued. Worn comes where no place is
/// left for it.
pub fn join_held(domain: &Domain, task: &mut Task, watch: Watch) -> Result<(), Worn>
    requires of { task.old.domain ≡ domain.now }
    requires up { IsUp task.old }
    requires held { IsHolding task.old }
    requires head { head_of watch ≡ task.old.at }
    requires polled { IsPolled watch }
    requires home { IsPart watch (kind_for watch) ((told_of task.old).bits.stored (second_of task.old)) }
    ensures joins { JoinsHeld watch task.old task.new result }
    ensures held { IsHolding task.new }
{
    if second_entry(domain, task).is_some() {
        return Ok(());
    }
    let bare = watch.bare();
    match add_front(domain, task, 1, watch.kind(), bare) {
        Ok(()) => Ok(()),
        Err(worn) => {
            second_entry(domain, task);
            Err(worn)
        }
    }
}

/// Queues the own entry of slot 1 for this watch at the front of its head, in a hold of its own, unless it is queued
/// (kernel/sched/wait.c, `add_wait_queue`, as the `poll_wait` of fs/select.c and fs/eventpoll.c makes it). Worn comes
/// exactly where the entry was off and no place is left for it. The task holds no lock, is in any state, and has no
/// entry of slot 1 queued but one for this watch.
pub fn join_second<R: Wait>(
    rt: &R,
    domain: &Domain,
    task: &mut Task,
    watch: Watch,
) -> Result<(), Worn>
    requires of { task.old.domain ≡ domain.now }
    requires may { MayJoinSecond task.old watch }
    requires polled { IsPolled watch }
    ensures ends { EndsJoin task.old task.new watch result }
    ensures may { MayJoinSecond task.new watch }
    ensures carries { Carries (join_change (second_of task.old) task.new.at) task.old task.new }
{
    task.told();
    lock(rt, domain, task, head_of(watch));
    let joined = join_held(domain, task, watch);
    unlock(rt, domain, task, false);
    joined
}

/// In a hold of its head: takes the own entry of slot 1 off where it is queued, and answers whether it was.
pub fn pare_second(domain: &Domain, task: &mut Task) -> bool
    requires of { task.old.domain ≡ domain.now }
    requires up { IsUp task.old }
    requires held { IsHolding task.old }
    requires home { IsSecondAtHead task.old }
    ensures pares { ParesSecond task.old task.new result }
    ensures held { IsHolding task.new }
{
    if second_entry(domain, task).is_some() {
        let me = task.number();
        remove(domain, task, me, 1);
        return true;
    }
    false
}

/// Looks at the own entry of slot 1 without the lock, and takes it off in a hold of its head only where it is queued
/// (kernel/sched/wait.c, `finish_wait`, but for its store of the state). Afterwards it is off. It is for no completion;
/// the task holds no lock, and is in any state.
pub fn leave_second<R: Wait>(rt: &R, domain: &Domain, task: &mut Task)
    requires of { task.old.domain ≡ domain.now }
    requires may { MayLeave task.old }
    ensures left { HasLeftSecond task.old task.new }
    ensures carries { Carries (leave_change (second_of task.old) task.new.at) task.old task.new }
{
    task.told();
    match second_entry(domain, task) {
        None => {}
        Some(entry) => {
            lock(rt, domain, task, head_of(entry.watch));
            pare_second(domain, task);
            unlock(rt, domain, task, false);
        }
    }
}
