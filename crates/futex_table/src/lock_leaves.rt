//! Mutexes and condition variables of futexes, whose waits their task leaves.

ghost use Rattle.std.specs.Prelude.{◌≡◌, ◌≢◌, ◌<◌, ◌||◌, true, false};
ghost use Rattle.wait_model.specs.declared.layout.TheConstants.{FIRST_SIMPLE};
ghost use Rattle.wait_rule.specs.{Queues.IsIdle, Queues.index, Says.IsUp, Stays.Carries};
ghost use Rattle.wait_class.specs.Posts.{IsOut};
ghost use Rattle.wait_event.specs.Ends.{wait_change};
ghost use Rattle.futex_table.specs.{CondVars.cond_change, TalliedTasks.StayTallied, TallyUses.LeavesTallies};
ghost use Rattle.futex_table.specs.Holding.{HoldsMutex, OthersStayHeld, holds_mutex};
ghost use Rattle.futex_table.specs.LockLeaves.{
  LocksMutexUntil,
  WaitsForCondUntil,
  cond_until_answer,
  is_held_until,
  is_locked_until,
  round_end,
};

use crate::cond_vars::{CondEnd, cond_answer};
use crate::futexes::FutexEnd;
use crate::leaves::futex_wait_until;
use crate::mutexes::{mutex_lock, mutex_try, mutex_unlock, worn_in};
use std::sync::Wait;
use wait_leave::Until;
use wait_model::tasks::SleepState;
use wait_model::watches::Watch;
use wait_rule::queues::cond_load;
use wait_rule::{Domain, Task};
use wq_head::Worn;

/// Takes mutex `lock` as `mutex_lock` does, but leaves it once `asks` has answered true: it is asked before each event
/// of a wait between two tries, so not before the first try (as pthread_mutex_timedlock). Left: asked so, its last load
/// found the mutex taken (`seen`, 0), and it has not taken the mutex; no wake selected its last wait, since its entry
/// was off by itself. Over: as `mutex_lock` answers. By stretches it is `stretch_mutex_lock` and, asked to leave,
/// `stretch_mutex_lock_out`.
pub fn mutex_lock_until<R: Wait, Q: Fn() -> bool>(
    rt: &R,
    domain: &Domain,
    task: &mut Task,
    lock: u8,
    asks: Q,
) -> Until<Result<(), Worn>>
    requires of { task.old.domain ≡ domain.now }
    requires up { IsUp task.old }
    requires idle { IsIdle task.old }
    requires out { IsOut task.old }
    requires lock { lock < FIRST_SIMPLE }
    requires asks { Q.IsAlwaysCallable asks }
    ensures locked { LocksMutexUntil (Q.post asks true) task.old task.new lock result }
    ensures up { IsUp task.new }
    ensures idle { IsIdle task.new }
    ensures out { IsOut task.new }
    ensures carries { Carries (wait_change (index task.old.view.number 0) task.new.at) task.old task.new }
    ensures held { holds_mutex task.new lock ≡ (holds_mutex task.old lock || is_locked_until result) }
    ensures holds { is_locked_until result ≡ true → HoldsMutex task.new lock }
    ensures others { OthersStayHeld lock task.old task.new }
    ensures tallies { LeavesTallies lock task.old task.new }
    ensures tallied { StayTallied lock task.old task.new }
{
    for _ in rt.forever() {
        if mutex_try(domain, task, lock) {
            return Until::Over(Ok(()));
        }
        let state = SleepState::Uninterruptible;
        let end = futex_wait_until(rt, domain, task, lock, 0, state, &asks);
        if let Some(last) = round_end(end) {
            return last;
        }
    }
    unreachable!()
}

/// The answer of a lock that ends with a wait: one that was left, or for which no place was left.
pub(crate) fn round_end(end: Until<Result<(), FutexEnd>>) -> Option<Until<Result<(), Worn>>>
    ensures { result ≡ round_end end }
{
    match end {
        Until::Left { seen } => Some(Until::Left { seen }),
        Until::Over(over) => match worn_in(over) {
            Some(worn) => Some(Until::Over(Err(worn))),
            None => None,
        },
    }
}

/// Waits for condition variable `cond` as `cond_wait` does, but leaves the wait once `asks` has answered true: it is
/// asked before each event while its task is awake and waits. Left: asked so, its last load found the condition's word
/// as it was when the call began (`seen`), no wake selected it, and the mutex is held again (as pthread_cond_timedwait
/// with ETIMEDOUT): the lock behind the wait is not left. Over: as `cond_wait` answers, so also a Worn where the lock
/// behind a wait that was left found no place. By stretches it is `stretch_cond_wait` and, asked to leave,
/// `stretch_cond_wait_out`.
pub fn cond_wait_until<R: Wait, Q: Fn() -> bool>(
    rt: &R,
    domain: &Domain,
    task: &mut Task,
    cond: u8,
    lock: u8,
    state: SleepState,
    asks: Q,
) -> Until<Result<(), CondEnd>>
    requires of { task.old.domain ≡ domain.now }
    requires up { IsUp task.old }
    requires idle { IsIdle task.old }
    requires out { IsOut task.old }
    requires cond { cond < FIRST_SIMPLE }
    requires lock { lock < FIRST_SIMPLE }
    requires apart { cond ≢ lock }
    requires held { HoldsMutex task.old lock }
    requires asks { Q.IsAlwaysCallable asks }
    ensures waited { WaitsForCondUntil (Q.post asks true) task.old task.new cond lock state result }
    ensures up { IsUp task.new }
    ensures idle { IsIdle task.new }
    ensures out { IsOut task.new }
    ensures carries { Carries (cond_change lock (index task.old.view.number 0) task.new.at) task.old task.new }
    ensures held { holds_mutex task.new lock ≡ is_held_until result }
    ensures holds { is_held_until result ≡ true → HoldsMutex task.new lock }
    ensures others { OthersStayHeld lock task.old task.new }
    ensures tallies { LeavesTallies lock task.old task.new }
    ensures tallied { StayTallied lock task.old task.new }
{
    task.told();
    let seen = cond_load(domain, task, Watch::Plain { cond });
    mutex_unlock(rt, domain, task, lock);
    let end = futex_wait_until(rt, domain, task, cond, seen, state, asks);
    let locked = mutex_lock(rt, domain, task, lock);
    cond_until_answer(end, locked)
}

/// The answer of a wait that may have been left, by those of the wait for the futex and of the lock behind it.
pub(crate) fn cond_until_answer(
    end: Until<Result<(), FutexEnd>>,
    locked: Result<(), Worn>,
) -> Until<Result<(), CondEnd>>
    ensures { result ≡ cond_until_answer end locked }
{
    match end {
        Until::Over(over) => Until::Over(cond_answer(over, locked)),
        Until::Left { seen } => match locked {
            Ok(()) => Until::Left { seen },
            Err(worn) => Until::Over(Err(CondEnd::Worn {
                head: worn.head,
                place: worn.place,
                held: false,
            })),
        },
    }
}
