//! Futexes: a wait while a word has a value, as a whole call and by stretches, a wake, and a store.

ghost use Rattle.std.specs.Prelude.{◌≡◌, ◌<◌, ◌≤◌, false};
ghost use Rattle.wait_model.specs.declared.layout.TheConstants.{FIRST_SIMPLE};
ghost use Rattle.wait_model.specs.declared.watches.Mode.TheVariants as mode;
ghost use Rattle.wait_model.specs.declared.watches.Watch.TheVariants as watch;
ghost use Rattle.wait_rule.specs.Queues.{IsIdle, IsTold, index};
ghost use Rattle.wait_rule.specs.Says.{IsClean, IsUp};
ghost use Rattle.wait_rule.specs.Stays.{Carries, publish_change, wake_all_change};
ghost use Rattle.wait_class.specs.{Posts.IsOut, Tables.Advances, Tables.IsAt, UnderWay.IsUnderWay};
ghost use Rattle.wait_class.specs.declared.stages.Turn.TheVariants as turn;
ghost use Rattle.wait_event.specs.Ends.{wait_change};
ghost use Rattle.futex_table.specs.declared.waits.FutexStage.TheVariants as stage;
ghost use Rattle.futex_table.specs.{FutexTables.IsFreshFutexWait, FutexTables.futex_table};
ghost use Rattle.futex_table.specs.{TalliedTasks.StayTalliedApart, TallyUses.LeavesApart, TallyUses.StoresWord};
ghost use Rattle.futex_table.specs.FutexEnds.{EndsFutexWait, HasStored, HasWokenFutex, futex_end_in};
ghost use Rattle.futex_table.specs.Holding.{OthersStayHeld, StayHeld, holds_mutex};

use crate::waits::{FutexOutcome, FutexRun, FutexStage, FutexWait};
use std::sync::Wait;
use thiserror::Error;
use wait_class::runs::run;
use wait_class::stages::Run;
use wait_model::heads::head_of;
use wait_model::tasks::SleepState;
use wait_model::watches::{Mode, Watch};
use wait_rule::queues::publish;
use wait_rule::{Domain, Task};
use wq_head::wake;

/// Why a wait ended though nobody woke its task. Again: its last hold loaded `seen`, which is another value than the
/// expected one. Interrupted: one hold found its own entry queued, and its own word with a signal that its state admits.
/// Worn: no place was left for its entry at its head, where a member stands at `place`.
#[derive(Clone, Copy, Debug, Drop, Error)]
pub enum FutexEnd {
    #[error("the futex has the value {seen}")]
    Again { seen: u64 },
    #[error("a signal ended the wait")]
    Interrupted,
    #[error("head {head} has no place left: a member stands at place {place}")]
    Worn { head: u16, place: u64 },
}

/// A wait on futex `futex`, below `FIRST_SIMPLE`, while it has the value `expected`, that is about to begin: `stretch`
/// goes on with it at `FutexStage::First`, and `end_futex` makes its answer. The task is idle and has no entry queued.
pub fn begin_futex(task: &Task, futex: u8, expected: u64, state: SleepState) -> FutexRun
    requires up { IsUp task.now }
    requires idle { IsIdle task.now }
    requires futex { futex < FIRST_SIMPLE }
    requires out { IsOut task.now }
    ensures at { IsAt futex_table task.now result stage.First }
    ensures fresh { IsFreshFutexWait result.of futex expected state }
    ensures told { IsTold task.now }
    ensures under { IsClean task.now
        → IsUnderWay futex_table (futex_table.plan_of result.of) task.now result (turn.Again stage.First) }
    ensures came { Advances futex_table task.now task.now result result stage.First (turn.Again stage.First) }
{
    task.told();
    Run::new(FutexWait {
        futex,
        expected,
        state,
        place: 0,
        seen: 0,
        asked: false,
    })
}

/// Sleeps on futex `futex`, below `FIRST_SIMPLE`, if its word has the value `expected` (kernel/futex/core.c,
/// `futex_wait`, `futex_wait_setup`, `futex_wait_queue_me`). The word is loaded and compared in the hold of the futex's
/// head in which the exclusive entry is queued at the tail, so that whoever stores another value and then walks over the
/// queue either is seen by the load or finds the entry (`laws::queued_by_value`). Ok: a wake took the entry off. The
/// causes of the others are those of `FutexEnd`; a wait that was roused by neither begins anew. The task is idle and has
/// no entry queued, and so it is afterwards; it owes what it owed.
pub fn futex_wait<R: Wait>(
    rt: &R,
    domain: &Domain,
    task: &mut Task,
    futex: u8,
    expected: u64,
    state: SleepState,
) -> Result<(), FutexEnd>
    requires of { task.old.domain ≡ domain.now }
    requires up { IsUp task.old }
    requires idle { IsIdle task.old }
    requires futex { futex < FIRST_SIMPLE }
    requires out { IsOut task.old }
    ensures waited { EndsFutexWait task.old task.new futex expected state result }
    ensures up { IsUp task.new }
    ensures idle { IsIdle task.new }
    ensures out { IsOut task.new }
    ensures carries { Carries (wait_change (index task.old.view.number 0) task.new.at) task.old task.new }
    ensures held { StayHeld task.old task.new }
{
    let mut wait = begin_futex(task, futex, expected, state);
    let outcome = run(rt, domain, task, &mut wait, FutexStage::First);
    end_of_futex(wait.of, outcome)
}

/// The answer of a wait that has ended. One that its task left has another, by `futex_until_of`.
pub fn end_of_futex(wait: FutexWait, outcome: FutexOutcome) -> Result<(), FutexEnd>
    ensures { result ≡ futex_end_in wait outcome }
{
    match outcome {
        FutexOutcome::Over => Ok(()),
        FutexOutcome::Again => Err(FutexEnd::Again { seen: wait.seen }),
        FutexOutcome::Interrupted => Err(FutexEnd::Interrupted),
        FutexOutcome::Worn => Err(FutexEnd::Worn {
            head: head_of(Watch::Plain { cond: wait.futex }),
            place: wait.place,
        }),
        FutexOutcome::Left(_) => Err(FutexEnd::Interrupted),
    }
}

/// The answer of a wait that went on by stretches and has ended. Who owed nothing when it began owes nothing, and the
/// answer of one that began at `start` is as that of `futex_wait`.
pub fn end_futex(task: &Task, wait: &FutexRun, outcome: FutexOutcome) -> Result<(), FutexEnd>
    ensures is { result ≡ futex_end_in wait.now.of outcome }
    ensures clean { (c : _) → IsUnderWay futex_table c task.now wait.now (turn.Done outcome) → IsClean task.now }
    ensures ends { (start : _) → (f : _) → (futex : _) → (expected : _) → (state : _)
        → IsAt futex_table start f stage.First → IsFreshFutexWait f.of futex expected state
        → Advances futex_table start task.now f wait.now stage.First (turn.Done outcome)
        → EndsFutexWait start task.now futex expected state result }
{
    let _ = *task;
    end_of_futex(wait.of, outcome)
}

/// Wakes those who sleep on futex `futex`, below `FIRST_SIMPLE`, in the order in which they came, and answers how many:
/// at most `count`, which is at least 1 (kernel/futex/core.c, `futex_wake`). It walks over the futex's queue with
/// NORMAL; each entry whose task it woke is taken off. The task is idle, and so it is afterwards; it owes no wake of
/// the futex then.
pub fn futex_wake<R: Wait>(rt: &R, domain: &Domain, task: &mut Task, futex: u8, count: u32) -> u32
    requires of { task.old.domain ≡ domain.now }
    requires up { IsUp task.old }
    requires idle { IsIdle task.old }
    requires futex { futex < FIRST_SIMPLE }
    requires some { 1 ≤ count }
    ensures woken { HasWokenFutex task.old task.new futex count result }
    ensures up { IsUp task.new }
    ensures idle { IsIdle task.new }
    ensures carries { Carries (wake_all_change (watch.Plain futex) mode.Normal task.new.at) task.old task.new }
    ensures held { StayHeld task.old task.new }
{
    let watch = Watch::Plain { cond: futex };
    wake(rt, domain, task, watch, Mode::Normal, count).selected
}

/// Stores `value` in futex `futex`, below `FIRST_SIMPLE`: the store that a user of futexes makes before a wake. The task
/// is idle, and so it is afterwards; it owes a wake of the futex then.
pub fn futex_store(domain: &Domain, task: &mut Task, futex: u8, value: u64)
    requires of { task.old.domain ≡ domain.now }
    requires up { IsUp task.old }
    requires idle { IsIdle task.old }
    requires futex { futex < FIRST_SIMPLE }
    ensures stored { HasStored task.old task.new futex value }
    ensures up { IsUp task.new }
    ensures idle { IsIdle task.new }
    ensures carries { Carries (publish_change (watch.Plain futex)) task.old task.new }
    ensures free { holds_mutex task.new futex ≡ false }
    ensures held { OthersStayHeld futex task.old task.new }
    ensures stores { StoresWord task.old task.new futex value }
    ensures tallies { LeavesApart futex task.old task.new }
    ensures tallied { StayTalliedApart futex task.old task.new }
{
    publish(domain, task, Watch::Plain { cond: futex }, value);
}
