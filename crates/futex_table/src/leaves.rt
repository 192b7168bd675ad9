//! Waits on futexes that their task leaves.

ghost use Rattle.std.specs.Prelude.{◌≡◌, ◌<◌, None, true};
ghost use Rattle.wait_model.specs.declared.layout.TheConstants.{FIRST_SIMPLE};
ghost use Rattle.wait_rule.specs.{Queues.IsIdle, Queues.index, Stays.Carries};
ghost use Rattle.wait_rule.specs.Says.{IsClean, IsUp, told_of};
ghost use Rattle.wait_class.specs.{Posts.IsOut, Posts.Keeps, Tables.IsAt, Tables.SleepsNot};
ghost use Rattle.wait_class.specs.declared.stages.Turn.TheVariants as turn;
ghost use Rattle.wait_event.specs.Ends.{wait_change};
ghost use Rattle.wait_leave.specs.OnTheWay.{IsOnWay, OnTheWay};
ghost use Rattle.futex_table.specs.declared.waits.FutexStage.TheVariants as stages;
ghost use Rattle.futex_table.specs.{FutexTables.IsFreshFutexWait, FutexTables.futex_table, Holding.StayHeld};
ghost use Rattle.futex_table.specs.FutexLeaves.{EndsFutexUntil, LeavesFutex, futex_exits, futex_until_in};

use crate::futexes::{FutexEnd, begin_futex, end_of_futex};
use crate::waits::{FutexOutcome, FutexRun, FutexStage, FutexWait};
use std::sync::Wait;
use wait_class::stages::Turn;
use wait_leave::{Exit, Leavable, Until, leave, run_asked};
use wait_model::tasks::SleepState;
use wait_rule::{Domain, Task};

impl Leavable for FutexWait {
    ghost exits = { futex_exits };

    #[inline(always)]
    fn asked(self) -> FutexWait
        ensures { result ≡ futex_exits.asks self }
    {
        FutexWait {
            asked: true,
            ..self
        }
    }

    #[inline(always)]
    fn exit(self, stage: FutexStage) -> Option<Exit<FutexStage, FutexOutcome>>
        ensures { result ≡ futex_exits.exit self stage }
    {
        let (to, rests) = match stage {
            FutexStage::Queue => (FutexStage::Leave(true), false),
            FutexStage::Sleep => (FutexStage::OffLock, true),
            FutexStage::Off(false) => (FutexStage::Leave(false), false),
            _ => return None,
        };
        Some(Exit {
            to: Turn::Again(to),
            rests,
        })
    }

    #[inline(always)]
    fn may_leave() {}
}

/// Leaves a wait on a futex that goes on by stretches, at a stage at which its task is awake: to its end, and answers
/// (kernel/futex/core.c, `futex_wait` with a timeout that is over, `unqueue_me`). It waits for the lock of the futex's
/// head alone, and never sleeps. Left: it went out by itself, either in the hold of its load, which found the expected value, before it
/// had queued its entry; or in a hold that found the entry queued still and took it off. `seen` is that value. Over: a
/// wake had taken the entry off (Ok), or the wait ended as `futex_wait` says: another value, a signal that its hold
/// found, or no place.
pub fn leave_futex_wait<R: Wait>(
    rt: &R,
    domain: &Domain,
    task: &mut Task,
    wait: &mut FutexRun,
    stage: FutexStage,
) -> Until<Result<(), FutexEnd>>
    requires of { task.old.domain ≡ domain.now }
    requires at { IsAt futex_table task.old wait.old stage }
    ensures leaves { LeavesFutex (Unit {0}) task.old task.new wait.old stage result }
    ensures awake { SleepsNot task.old task.new }
    ensures up { IsUp task.new }
    ensures out { IsOut task.new }
    ensures idle { (told_of task.old).mark ≡ None → IsIdle task.new }
    ensures keeps { Keeps (index task.old.view.number 0) task.old task.new }
    ensures held { StayHeld task.old task.new }
    ensures clean { (c : _) → IsOnWay (Unit {0}) futex_table futex_exits c task.old wait.old (turn.Again stage)
        → IsClean task.new }
{
    let outcome = leave(rt, domain, task, wait, stage);
    futex_until_of(wait.of, outcome)
}

/// The answer of a wait that has ended, and may have been left.
pub fn futex_until_of(wait: FutexWait, outcome: FutexOutcome) -> Until<Result<(), FutexEnd>>
    ensures { result ≡ futex_until_in wait outcome }
{
    match outcome {
        FutexOutcome::Left(_) => Until::Left {
            seen: wait.expected,
        },
        _ => Until::Over(end_of_futex(wait, outcome)),
    }
}

/// The answer of a wait that went on by stretches, may have been asked to leave between two of them or in one
/// (`wait_leave::ask`, `wait_leave::stretch_out`), and has ended. Who owed nothing when it began owes nothing, and the
/// answer of one that began at `start` is as that of `futex_wait_until`.
pub fn end_futex_wait_until(
    task: &Task,
    wait: &FutexRun,
    outcome: FutexOutcome,
) -> Until<Result<(), FutexEnd>>
    ensures is { result ≡ futex_until_in wait.now.of outcome }
    ensures clean { (c : _) → IsOnWay (Unit {0}) futex_table futex_exits c task.now wait.now (turn.Done outcome)
        → IsClean task.now }
    ensures ends { (start : _) → (f : _) → (futex : _) → (expected : _) → (state : _)
        → IsFreshFutexWait f.of futex expected state
        → OnTheWay (Unit {0}) futex_table futex_exits start f stages.First task.now wait.now (turn.Done outcome)
        → EndsFutexUntil (Unit {0}) start task.now futex expected state result }
{
    let _ = *task;
    futex_until_of(wait.of, outcome)
}

/// Sleeps on a futex as `futex_wait` does, but leaves the wait once `asks` has answered true: it is asked before each
/// event while its task is awake, so before it goes asleep and once it was woken. Who stores what `asks` reads and then
/// wakes the task (`wake_task`) is heard. Left: asked so, its last load found the expected value (`seen`), and its own
/// entry is off by itself, so no wake has selected it since. Over: as `futex_wait` answers, so also Ok where a wake took
/// its entry off behind the asking. The task owes what it owed.
pub fn futex_wait_until<R: Wait, Q: Fn() -> bool>(
    rt: &R,
    domain: &Domain,
    task: &mut Task,
    futex: u8,
    expected: u64,
    state: SleepState,
    asks: Q,
) -> Until<Result<(), FutexEnd>>
    requires of { task.old.domain ≡ domain.now }
    requires up { IsUp task.old }
    requires idle { IsIdle task.old }
    requires futex { futex < FIRST_SIMPLE }
    requires out { IsOut task.old }
    requires asks { Q.IsAlwaysCallable asks }
    ensures waited { EndsFutexUntil (Q.post asks true) task.old task.new futex expected state result }
    ensures up { IsUp task.new }
    ensures idle { IsIdle task.new }
    ensures out { IsOut task.new }
    ensures carries { Carries (wait_change (index task.old.view.number 0) task.new.at) task.old task.new }
    ensures held { StayHeld task.old task.new }
{
    let mut wait = begin_futex(task, futex, expected, state);
    let outcome = run_asked(rt, domain, task, &mut wait, FutexStage::First, asks);
    futex_until_of(wait.of, outcome)
}
