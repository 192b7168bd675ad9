//! Mutexes of futexes: a word that is 1 while nobody holds the mutex, and 0 while a task does.

ghost use Rattle.std.specs.Prelude.{◌≡◌, ◌<◌, ◌||◌, true, false, IfOk};
ghost use Rattle.wait_model.specs.declared.layout.TheConstants.{FIRST_SIMPLE};
ghost use Rattle.wait_model.specs.declared.watches.Mode.TheVariants as mode;
ghost use Rattle.wait_model.specs.declared.watches.Watch.TheVariants as watch;
ghost use Rattle.wait_rule.specs.{Queues.IsIdle, Queues.index, Says.IsUp, Says.added, Stays.Carries, Stays.unchanged};
ghost use Rattle.wait_model.specs.declared.steps.Step.TheVariants as step;
ghost use Rattle.wait_rule.specs.declared.journal.Item.TheVariants as item;
ghost use Rattle.wait_class.specs.Posts.{IsOut};
ghost use Rattle.wait_event.specs.{Conds.set_change, Ends.wait_change};
ghost use Rattle.futex_table.specs.Holding.{HoldsMutex, OthersStayHeld, holds_mutex};
ghost use Rattle.futex_table.specs.Mutexes.{HasFreedMutex, HasTriedMutex, LocksMutex, is_locked, worn_in};
ghost use Rattle.futex_table.specs.TalliedTasks.{StartsTallies, StayTallied};
ghost use Rattle.futex_table.specs.TallyUses.{LeavesTallies, OpensTallies};

use crate::futexes::{FutexEnd, futex_wait};
use crate::stores::store_and_wake;
use std::sync::Wait;
use wait_model::tasks::SleepState;
use wait_rule::queues::consume;
use wait_rule::{Domain, Task};
use wq_head::Worn;

/// Opens mutex `lock`, below `FIRST_SIMPLE`, whose word is 0 at first: stores 1 in it, and wakes one who waits for it.
/// It is called once for a mutex, before or while others try to take it. The task is idle, and so it is afterwards.
pub fn mutex_open<R: Wait>(rt: &R, domain: &Domain, task: &mut Task, lock: u8)
    requires of { task.old.domain ≡ domain.now }
    requires up { IsUp task.old }
    requires idle { IsIdle task.old }
    requires lock { lock < FIRST_SIMPLE }
    ensures opened { HasFreedMutex task.old task.new lock }
    ensures up { IsUp task.new }
    ensures idle { IsIdle task.new }
    ensures carries { Carries (set_change (watch.Plain lock) mode.Normal task.new.at) task.old task.new }
    ensures free { holds_mutex task.new lock ≡ false }
    ensures others { OthersStayHeld lock task.old task.new }
    ensures opens { OpensTallies lock task.old task.new }
    ensures starts { StartsTallies lock task.old task.new }
{
    store_and_wake(rt, domain, task, lock, 1, 1);
}

/// Takes mutex `lock`, below `FIRST_SIMPLE`, if nobody holds it: one exchange of 0 for its word. False comes exactly
/// where it found 0. The task is idle, and so it is afterwards.
pub fn mutex_try(domain: &Domain, task: &mut Task, lock: u8) -> bool
    requires of { task.old.domain ≡ domain.now }
    requires up { IsUp task.old }
    requires idle { IsIdle task.old }
    requires lock { lock < FIRST_SIMPLE }
    ensures tried { HasTriedMutex task.old task.new lock result }
    ensures step { (found : _) × (task.new ≡ added task.old (item.Made (step.Consume (watch.Plain lock) 0 found))) }
    ensures up { IsUp task.new }
    ensures idle { IsIdle task.new }
    ensures carries { Carries unchanged task.old task.new }
    ensures held { holds_mutex task.new lock ≡ (holds_mutex task.old lock || result) }
    ensures holds { result ≡ true → HoldsMutex task.new lock }
    ensures others { OthersStayHeld lock task.old task.new }
    ensures tallies { LeavesTallies lock task.old task.new }
    ensures tallied { StayTallied lock task.old task.new }
{
    consume(domain, task, lock) != 0
}

/// Takes mutex `lock`, below `FIRST_SIMPLE`: tries it until it takes it, and between two tries sleeps while the word is
/// 0, uninterruptibly (a mutex of the kernel's own kind over futexes, as in the futex man page). Worn: no place was left
/// for its entry at the mutex's head, and the mutex is not taken. The task is idle with no entry queued, and so it is
/// afterwards; it owes what it owed.
pub fn mutex_lock<R: Wait>(rt: &R, domain: &Domain, task: &mut Task, lock: u8) -> Result<(), Worn>
    requires of { task.old.domain ≡ domain.now }
    requires up { IsUp task.old }
    requires idle { IsIdle task.old }
    requires out { IsOut task.old }
    requires lock { lock < FIRST_SIMPLE }
    ensures locked { LocksMutex task.old task.new lock result }
    ensures up { IsUp task.new }
    ensures idle { IsIdle task.new }
    ensures out { IsOut task.new }
    ensures carries { Carries (wait_change (index task.old.view.number 0) task.new.at) task.old task.new }
    ensures held { holds_mutex task.new lock ≡ (holds_mutex task.old lock || is_locked result) }
    ensures holds { IfOk result (λ _. HoldsMutex task.new lock) }
    ensures others { OthersStayHeld lock task.old task.new }
    ensures tallies { LeavesTallies lock task.old task.new }
    ensures tallied { StayTallied lock task.old task.new }
{
    for _ in rt.forever() {
        if mutex_try(domain, task, lock) {
            return Ok(());
        }
        let end = futex_wait(rt, domain, task, lock, 0, SleepState::Uninterruptible);
        if let Some(worn) = worn_in(end) {
            return Err(worn);
        }
    }
    unreachable!()
}

/// That no place was left for a wait.
pub fn worn_in(end: Result<(), FutexEnd>) -> Option<Worn>
    ensures { result ≡ worn_in end }
{
    match end {
        Err(FutexEnd::Worn { head, place }) => Some(Worn { head, place }),
        _ => None,
    }
}

/// Gives mutex `lock`, below `FIRST_SIMPLE`, back, which the task holds: stores 1 in its word, and wakes one who waits
/// for it. The task is idle, and so it is afterwards.
pub fn mutex_unlock<R: Wait>(rt: &R, domain: &Domain, task: &mut Task, lock: u8)
    requires of { task.old.domain ≡ domain.now }
    requires up { IsUp task.old }
    requires idle { IsIdle task.old }
    requires lock { lock < FIRST_SIMPLE }
    requires held { HoldsMutex task.old lock }
    ensures unlocked { HasFreedMutex task.old task.new lock }
    ensures up { IsUp task.new }
    ensures idle { IsIdle task.new }
    ensures carries { Carries (set_change (watch.Plain lock) mode.Normal task.new.at) task.old task.new }
    ensures free { holds_mutex task.new lock ≡ false }
    ensures others { OthersStayHeld lock task.old task.new }
    ensures tallies { LeavesTallies lock task.old task.new }
    ensures tallied { StayTallied lock task.old task.new }
{
    let _walked = store_and_wake(rt, domain, task, lock, 1, 1);
}
