//! Waits for completions that their task leaves.

ghost use Rattle.std.specs.Prelude.{◌≡◌, ◌<◌, None, true};
ghost use Rattle.wait_model.specs.declared.layout.TheConstants.{COMPLETIONS};
ghost use Rattle.wait_rule.specs.{HandedPermits.StaysOff, LeftEntries.LeftOff, Queues.IsIdle, Queues.index};
ghost use Rattle.wait_rule.specs.Stays.{Carries};
ghost use Rattle.wait_rule.specs.Says.{IsClean, IsUp, told_of};
ghost use Rattle.wait_class.specs.{Posts.IsOut, Tables.IsAt, Tables.SleepsNot};
ghost use Rattle.wait_class.specs.declared.stages.Turn.TheVariants as turn;
ghost use Rattle.wait_event.specs.Ends.{wait_change};
ghost use Rattle.wait_leave.specs.OnTheWay.{IsOnWay, OnTheWay};
ghost use Rattle.completion_cell.specs.AwaitLeaves.{EndsAwaitUntil, LeavesAwait, await_exits, await_until};
ghost use Rattle.completion_cell.specs.Awaits.{CellKeeps, IsFreshAwait, await_table};
ghost use Rattle.completion_cell.specs.declared.awaits.AwaitStage.TheVariants as stage;

use crate::await_calls::{begin_await, end_of};
use crate::awaits::{AwaitCall, AwaitOutcome, AwaitRun, AwaitStage};
use std::sync::Wait;
use wait_class::stages::Turn;
use wait_event::wait_events::WaitEnd;
use wait_leave::{Exit, Leavable, Until, leave, run_asked};
use wait_model::tasks::SleepState;
use wait_rule::{Domain, Task};

impl Leavable for AwaitCall {
    ghost exits = { await_exits };

    #[inline(always)]
    fn asked(self) -> AwaitCall
        ensures { result ≡ await_exits.asks self }
    {
        AwaitCall {
            asked: true,
            ..self
        }
    }

    #[inline(always)]
    fn exit(self, stage: AwaitStage) -> Option<Exit<AwaitStage, AwaitOutcome>>
        ensures { result ≡ await_exits.exit self stage }
    {
        let (to, rests) = match stage {
            AwaitStage::Look => (AwaitStage::LeaveState, false),
            AwaitStage::Queue => (AwaitStage::LeaveState, false),
            AwaitStage::Sleep => (AwaitStage::Again, true),
            _ => return None,
        };
        Some(Exit {
            to: Turn::Again(to),
            rests,
        })
    }

    #[inline(always)]
    fn may_leave() {}
}

/// Leaves a wait for a completion that goes on by stretches, at a stage at which its task is awake: to its end, and
/// answers. It goes through one more hold, waits for the lock of the head alone, and never sleeps. Left: that hold loaded
/// the count as 0 (`seen`), and its own entry is off. Over: it took one of the count, so also one that was handed to it;
/// or the wait had ended before it was left, as `wait_for` says.
pub fn leave_await<R: Wait>(
    rt: &R,
    domain: &Domain,
    task: &mut Task,
    call: &mut AwaitRun,
    stage: AwaitStage,
) -> Until<Result<(), WaitEnd>>
    requires of { task.old.domain ≡ domain.now }
    requires at { IsAt await_table task.old call.old stage }
    ensures leaves { LeavesAwait (Unit {0}) task.old task.new call.old stage result }
    ensures awake { SleepsNot task.old task.new }
    ensures up { IsUp task.new }
    ensures out { IsOut task.new }
    ensures idle { (told_of task.old).mark ≡ None → IsIdle task.new }
    ensures left { LeftOff call.old.of.cell task.new }
    ensures keeps { CellKeeps (index task.old.view.number 0) task.old task.new }
{
    let outcome = leave(rt, domain, task, call, stage);
    until_of(call.of, outcome)
}

/// The answer of a wait that has ended, and may have been left.
pub fn until_of(call: AwaitCall, outcome: AwaitOutcome) -> Until<Result<(), WaitEnd>>
    ensures { result ≡ await_until call outcome }
{
    match outcome {
        AwaitOutcome::Signalled(_) => {
            if call.asked {
                Until::Left { seen: 0 }
            } else {
                Until::Over(end_of(call, outcome))
            }
        }
        _ => Until::Over(end_of(call, outcome)),
    }
}

/// The answer of a wait that went on by stretches, may have been asked to leave between two of them or in one
/// (`wait_leave::ask`, `wait_leave::stretch_out`), and has ended. Who owed nothing when it began owes nothing, and the
/// answer of one that began at `start` is as that of `wait_for_until`.
pub fn end_await_until(
    task: &Task,
    wait: &AwaitRun,
    outcome: AwaitOutcome,
) -> Until<Result<(), WaitEnd>>
    ensures is { result ≡ await_until wait.now.of outcome }
    ensures clean { (c : _) → IsOnWay (Unit {0}) await_table await_exits c task.now wait.now (turn.Done outcome)
        → IsClean task.now }
    ensures ends { (start : _) → (f : _) → (cell : _) → (state : _) → IsFreshAwait f.of cell state
        → OnTheWay (Unit {0}) await_table await_exits start f stage.First task.now wait.now (turn.Done outcome)
        → EndsAwaitUntil (Unit {0}) start task.now cell state result }
{
    let _ = *task;
    until_of(wait.of, outcome)
}

/// Waits for a completion as `wait_for` does, but leaves the wait once `asks` has answered true: it is asked before each
/// event while its task is awake, so before it goes asleep and once it was woken. Who stores what `asks` reads and then
/// wakes the task (`wake_task`) is heard. Left: asked so, its last hold loaded the count as 0 (`seen`), and its own entry
/// is off. Over: as `wait_for` answers, so also Ok where a permit was handed to it behind the asking. The task owes what
/// it owed.
pub fn wait_for_until<R: Wait, Q: Fn() -> bool>(
    rt: &R,
    domain: &Domain,
    task: &mut Task,
    cell: u8,
    state: SleepState,
    asks: Q,
) -> Until<Result<(), WaitEnd>>
    requires of { task.old.domain ≡ domain.now }
    requires up { IsUp task.old }
    requires idle { IsIdle task.old }
    requires cell { cell < COMPLETIONS }
    requires out { IsOut task.old }
    requires left { LeftOff cell task.old }
    requires asks { Q.IsAlwaysCallable asks }
    ensures waited { EndsAwaitUntil (Q.post asks true) task.old task.new cell state result }
    ensures up { IsUp task.new }
    ensures idle { IsIdle task.new }
    ensures out { IsOut task.new }
    ensures carries { Carries (wait_change (index task.old.view.number 0) task.new.at) task.old task.new }
    ensures off { StaysOff task.old task.new }
{
    let mut wait = begin_await(task, cell, state);
    let outcome = run_asked(rt, domain, task, &mut wait, AwaitStage::First, asks);
    until_of(wait.of, outcome)
}
