//! Condition variables of futexes: tasks that hold a mutex wait until another one that holds it signals them.

ghost use Rattle.std.specs.Prelude.{◌≡◌, ◌≢◌, ◌<◌, IfOk};
ghost use Rattle.wait_model.specs.declared.layout.TheConstants.{FIRST_SIMPLE};
ghost use Rattle.wait_model.specs.declared.watches.Mode.TheVariants as mode;
ghost use Rattle.wait_model.specs.declared.watches.Watch.TheVariants as watch;
ghost use Rattle.wait_rule.specs.{Queues.IsIdle, Queues.index, Says.IsUp, Stays.Carries};
ghost use Rattle.wait_class.specs.Posts.{IsOut};
ghost use Rattle.wait_event.specs.Conds.{set_change};
ghost use Rattle.futex_table.specs.CondVars.{SignalsCond, WaitsForCond, cond_answer, cond_change, is_mutex_held};
ghost use Rattle.futex_table.specs.Holding.{HoldsMutex, MaySignal, OthersStayHeld, holds_mutex};
ghost use Rattle.futex_table.specs.TalliedTasks.{CountsAdd, StayTallied};
ghost use Rattle.futex_table.specs.TallyUses.{AddsToTally, LeavesTallies};

use crate::futexes::{FutexEnd, futex_wait};
use crate::mutexes::{mutex_lock, mutex_unlock};
use crate::stores::store_and_wake;
use std::sync::Wait;
use thiserror::Error;
use wait_model::tasks::SleepState;
use wait_model::watches::Watch;
use wait_rule::queues::cond_load;
use wait_rule::{Domain, Task};
use wq_head::Worn;

/// Why a wait for a condition variable ended without a wake. Interrupted: a signal ended it, and the mutex is held again.
/// Worn: no place was left for an entry at `head`, where a member stands at `place`, in the wait or, where that was not
/// worn, in the lock behind it; `held` is that the mutex was taken behind the wait.
#[derive(Clone, Copy, Debug, Drop, Error)]
pub enum CondEnd {
    #[error("a signal ended the wait")]
    Interrupted,
    #[error("head {head} has no place left: a member stands at place {place}")]
    Worn { head: u16, place: u64, held: bool },
}

/// Waits for a signal on condition variable `cond`, with mutex `lock`, which the task holds; both are below
/// `FIRST_SIMPLE`, and differ (as pthread_cond_wait over FUTEX_WAIT): loads the condition's word, gives the mutex back,
/// sleeps while the word has the value that was loaded, and locks the mutex. Whoever signals holds the mutex and changes
/// the word, so a signal behind the load ends the wait; a change of the word that the wait finds before it sleeps counts
/// as a wake. The mutex is held afterwards but where a Worn tells otherwise. The task is idle with no entry queued, and
/// so it is afterwards.
pub fn cond_wait<R: Wait>(
    rt: &R,
    domain: &Domain,
    task: &mut Task,
    cond: u8,
    lock: u8,
    state: SleepState,
) -> Result<(), CondEnd>
    requires of { task.old.domain ≡ domain.now }
    requires up { IsUp task.old }
    requires idle { IsIdle task.old }
    requires out { IsOut task.old }
    requires cond { cond < FIRST_SIMPLE }
    requires lock { lock < FIRST_SIMPLE }
    requires apart { cond ≢ lock }
    requires held { HoldsMutex task.old lock }
    ensures waited { WaitsForCond task.old task.new cond lock state result }
    ensures up { IsUp task.new }
    ensures idle { IsIdle task.new }
    ensures out { IsOut task.new }
    ensures carries { Carries (cond_change lock (index task.old.view.number 0) task.new.at) task.old task.new }
    ensures held { holds_mutex task.new lock ≡ is_mutex_held result }
    ensures holds { IfOk result (λ _. HoldsMutex task.new lock) }
    ensures others { OthersStayHeld lock task.old task.new }
    ensures tallies { LeavesTallies lock task.old task.new }
    ensures tallied { StayTallied lock task.old task.new }
{
    task.told();
    let seen = cond_load(domain, task, Watch::Plain { cond });
    mutex_unlock(rt, domain, task, lock);
    let end = futex_wait(rt, domain, task, cond, seen, state);
    let locked = mutex_lock(rt, domain, task, lock);
    cond_answer(end, locked)
}

/// The answer of a wait, by those of the wait for the futex and of the lock behind it.
pub fn cond_answer(end: Result<(), FutexEnd>, locked: Result<(), Worn>) -> Result<(), CondEnd>
    ensures { result ≡ cond_answer end locked }
{
    if let Err(FutexEnd::Worn { head, place }) = end {
        return Err(CondEnd::Worn {
            head,
            place,
            held: locked.is_ok(),
        });
    }
    if let Err(worn) = locked {
        return Err(CondEnd::Worn {
            head: worn.head,
            place: worn.place,
            held: false,
        });
    }
    match end {
        Err(FutexEnd::Interrupted) => Err(CondEnd::Interrupted),
        _ => Ok(()),
    }
}

/// Wakes one task that waits for condition variable `cond`, with mutex `lock`, which the task holds; both are below
/// `FIRST_SIMPLE`, and differ: stores one more in the condition's word, modulo 2^64, and wakes one. It answers how many
/// it woke, 0 or 1. The task is idle, and so it is afterwards.
pub fn cond_signal<R: Wait>(rt: &R, domain: &Domain, task: &mut Task, cond: u8, lock: u8) -> u32
    requires of { task.old.domain ≡ domain.now }
    requires up { IsUp task.old }
    requires idle { IsIdle task.old }
    requires cond { cond < FIRST_SIMPLE }
    requires lock { lock < FIRST_SIMPLE }
    requires apart { cond ≢ lock }
    requires held { HoldsMutex task.old lock }
    ensures signals { SignalsCond task.old task.new cond 1 result }
    ensures up { IsUp task.new }
    ensures idle { IsIdle task.new }
    ensures carries { Carries (set_change (watch.Plain cond) mode.Normal task.new.at) task.old task.new }
    ensures held { HoldsMutex task.new lock }
    ensures others { OthersStayHeld cond task.old task.new }
    ensures adds { AddsToTally task.old task.new lock cond 1 }
    ensures counted { CountsAdd lock cond task.old task.new }
{
    change_and_wake(rt, domain, task, cond, lock, 1)
}

/// Wakes all tasks that wait for condition variable `cond`. The rest is as in `cond_signal`.
pub fn cond_broadcast<R: Wait>(rt: &R, domain: &Domain, task: &mut Task, cond: u8, lock: u8) -> u32
    requires of { task.old.domain ≡ domain.now }
    requires up { IsUp task.old }
    requires idle { IsIdle task.old }
    requires cond { cond < FIRST_SIMPLE }
    requires lock { lock < FIRST_SIMPLE }
    requires apart { cond ≢ lock }
    requires held { HoldsMutex task.old lock }
    ensures signals { SignalsCond task.old task.new cond 0 result }
    ensures up { IsUp task.new }
    ensures idle { IsIdle task.new }
    ensures carries { Carries (set_change (watch.Plain cond) mode.Normal task.new.at) task.old task.new }
    ensures held { HoldsMutex task.new lock }
    ensures others { OthersStayHeld cond task.old task.new }
    ensures adds { AddsToTally task.old task.new lock cond 1 }
    ensures counted { CountsAdd lock cond task.old task.new }
{
    change_and_wake(rt, domain, task, cond, lock, 0)
}

/// Stores one more in a condition's word, and wakes this many who wait for it, or all for 0.
fn change_and_wake<R: Wait>(
    rt: &R,
    domain: &Domain,
    task: &mut Task,
    cond: u8,
    lock: u8,
    count: u32,
) -> u32
    requires of { task.old.domain ≡ domain.now }
    requires cond { cond < FIRST_SIMPLE }
    requires may { MaySignal task.old cond lock }
    ensures signals { SignalsCond task.old task.new cond count result }
    ensures up { IsUp task.new }
    ensures idle { IsIdle task.new }
    ensures carries { Carries (set_change (watch.Plain cond) mode.Normal task.new.at) task.old task.new }
    ensures held { HoldsMutex task.new lock }
    ensures others { OthersStayHeld cond task.old task.new }
    ensures adds { AddsToTally task.old task.new lock cond 1 }
    ensures counted { CountsAdd lock cond task.old task.new }
{
    let _ = lock;
    let watch = Watch::Plain { cond };
    let seen = cond_load(domain, task, watch);
    store_and_wake(rt, domain, task, cond, seen.wrapping_add(1), count).selected
}
