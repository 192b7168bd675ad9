//! `wait_event`, as a whole call and by stretches.

ghost use Rattle.std.specs.Prelude.{◌≡◌, ◌<◌};
ghost use Rattle.wait_model.specs.declared.layout.TheConstants.{FIRST_SIMPLE};
ghost use Rattle.wait_model.specs.declared.watches.Watch.TheVariants as watch;
ghost use Rattle.wait_rule.specs.{Says.IsClean, Says.IsUp, Stays.Carries};
ghost use Rattle.wait_rule.specs.Queues.{IsIdle, IsTold, index};
ghost use Rattle.wait_event.specs.declared.waits.WaitStage.TheVariants as stage;
ghost use Rattle.wait_class.specs.declared.stages.Turn.TheVariants as turn;
ghost use Rattle.wait_class.specs.{Tables.Advances, Tables.IsAt, UnderWay.IsUnderWay, Posts.IsOut};
ghost use Rattle.wait_event.specs.Waits.{IsFreshWait, wait_table};
ghost use Rattle.wait_event.specs.Ends.{EndsWait, wait_end_in, wait_change};

use crate::waits::{WaitCall, WaitOutcome, WaitRun, WaitStage, fresh_wait};
use std::sync::Wait;
use thiserror::Error;
use wait_class::runs::run;
use wait_model::heads::head_of;
use wait_model::tasks::How;
use wait_model::watches::Watch;
use wait_rule::{Domain, Task};

/// Why a wait ended though its condition was not set. Signal: the look in its last hold showed a signal that its state
/// admits, its entry was off then, and the load of the condition after it found `seen`; `selected` is that this hold
/// found the entry off that the call had queued, so that a wake had chosen it. Worn: no place was left for its entry at
/// its head, where a member stands at `place`, and the load of the condition after it found it not set.
#[derive(Clone, Copy, Debug, Drop, Error)]
pub enum WaitEnd {
    #[error("a signal ended the wait")]
    Signal { seen: u64, selected: bool },
    #[error("head {head} has no place left: a member stands at place {place}")]
    Worn { head: u16, place: u64 },
}

/// A wait for condition `cond`, below `FIRST_SIMPLE`, that is about to begin: `stretch` goes on with it at
/// `WaitStage::First`. The task is idle and has no entry queued.
pub fn begin_wait(task: &Task, cond: u8, how: How) -> WaitRun
    requires up { IsUp task.now }
    requires idle { IsIdle task.now }
    requires full { cond < FIRST_SIMPLE }
    requires out { IsOut task.now }
    ensures at { IsAt wait_table task.now result stage.First }
    ensures fresh { IsFreshWait result.of (watch.Plain cond) how }
    ensures told { IsTold task.now }
    ensures under { IsClean task.now
        → IsUnderWay wait_table (wait_table.plan_of result.of) task.now result (turn.Again stage.First) }
    ensures came { Advances wait_table task.now task.now result result stage.First (turn.Again stage.First) }
{
    task.told();
    fresh_wait(Watch::Plain { cond }, how)
}

/// Waits until condition `cond`, below `FIRST_SIMPLE`, is set (include/linux/wait.h, `wait_event`,
/// `wait_event_interruptible`, `wait_event_killable`): a value other than 0. An exclusive wait
/// (`wait_event_interruptible_exclusive`, `wait_event_killable_exclusive`) has its entry at the tail, where one wake of
/// the count selects it; every other one has it at the front. The task is idle and has no entry queued, and so it is
/// afterwards; it owes what it owed.
pub fn wait_event<R: Wait>(
    rt: &R,
    domain: &Domain,
    task: &mut Task,
    cond: u8,
    how: How,
) -> Result<(), WaitEnd>
    requires of { task.old.domain ≡ domain.now }
    requires up { IsUp task.old }
    requires idle { IsIdle task.old }
    requires full { cond < FIRST_SIMPLE }
    requires out { IsOut task.old }
    ensures waited { EndsWait task.old task.new cond how result }
    ensures up { IsUp task.new }
    ensures idle { IsIdle task.new }
    ensures out { IsOut task.new }
    ensures carries { Carries (wait_change (index task.old.view.number 0) task.new.at) task.old task.new }
{
    let mut wait = begin_wait(task, cond, how);
    let outcome = run(rt, domain, task, &mut wait, WaitStage::First);
    end_of(wait.of, outcome)
}

/// The answer of a wait that has ended.
pub fn end_of(wait: WaitCall, outcome: WaitOutcome) -> Result<(), WaitEnd>
    ensures { result ≡ wait_end_in wait outcome }
{
    match outcome {
        WaitOutcome::Over => Ok(()),
        WaitOutcome::Signalled(found) => Err(WaitEnd::Signal {
            seen: wait.seen,
            selected: wait.queued && !found,
        }),
        WaitOutcome::Worn => Err(WaitEnd::Worn {
            head: head_of(wait.watch),
            place: wait.place,
        }),
    }
}

/// The answer of a wait that went on by stretches and has ended. Who owed nothing when it began owes nothing, and the
/// answer of one for a condition that began at `start` is as that of `wait_event`.
pub fn end_wait(task: &Task, wait: &WaitRun, outcome: WaitOutcome) -> Result<(), WaitEnd>
    ensures is { result ≡ wait_end_in wait.now.of outcome }
    ensures clean { (c : _) → IsUnderWay wait_table c task.now wait.now (turn.Done outcome) → IsClean task.now }
    ensures ends { (start : _) → (f : _) → (cond : _) → (how : _) → IsAt wait_table start f stage.First
        → IsFreshWait f.of (watch.Plain cond) how
        → Advances wait_table start task.now f wait.now stage.First (turn.Done outcome)
        → EndsWait start task.now cond how result }
{
    let _ = *task;
    end_of(wait.of, outcome)
}
