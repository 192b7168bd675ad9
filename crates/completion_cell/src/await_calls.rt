//! Waits for completions, as whole calls; `wait_class::runs` goes on with one by stretches, for who may not wait.

ghost use Rattle.std.specs.Prelude.{◌≡◌, ◌<◌, MatchBool};
ghost use Rattle.wait_model.specs.declared.layout.TheConstants.{COMPLETIONS};
ghost use Rattle.wait_rule.specs.{HandedPermits.StaysOff, LeftEntries.LeftOff, Says.IsClean, Says.IsUp, Stays.Carries};
ghost use Rattle.wait_rule.specs.Queues.{IsIdle, IsTold, index};
ghost use Rattle.wait_class.specs.{Posts.IsOut, Tables.Advances, Tables.IsAt, UnderWay.IsUnderWay};
ghost use Rattle.wait_class.specs.declared.stages.Turn.TheVariants as turn;
ghost use Rattle.wait_event.specs.Ends.{wait_change};
ghost use Rattle.completion_cell.specs.declared.awaits.AwaitStage.TheVariants as stage;
ghost use Rattle.completion_cell.specs.Awaits.{IsFreshAwait, await_table};
ghost use Rattle.completion_cell.specs.AwaitEnds.{EndsAwait, await_end_in};

use crate::awaits::{AwaitCall, AwaitOutcome, AwaitRun, AwaitStage};
use std::sync::Wait;
use wait_class::runs::run;
use wait_class::stages::Run;
use wait_event::wait_events::WaitEnd;
use wait_model::heads::head_of;
use wait_model::tasks::SleepState;
use wait_model::watches::Watch;
use wait_rule::{Domain, Task};

/// A wait for completion `cell`, below `COMPLETIONS`, that is about to begin: `stretch` goes on with it at
/// `AwaitStage::First`. The task is idle and has no entry queued, and has left none at the completion.
pub fn begin_await(task: &Task, cell: u8, state: SleepState) -> AwaitRun
    requires up { IsUp task.now }
    requires idle { IsIdle task.now }
    requires cell { cell < COMPLETIONS }
    requires out { IsOut task.now }
    requires left { LeftOff cell task.now }
    ensures at { IsAt await_table task.now result stage.First }
    ensures fresh { IsFreshAwait result.of cell state }
    ensures told { IsTold task.now }
    ensures under { IsClean task.now
        → IsUnderWay await_table (await_table.plan_of result.of) task.now result (turn.Again stage.First) }
    ensures came { Advances await_table task.now task.now result result stage.First (turn.Again stage.First) }
{
    task.told();
    Run::new(AwaitCall {
        cell,
        state,
        count: 0,
        place: 0,
        queued: false,
        asked: false,
    })
}

/// Waits until completion `cell`, below `COMPLETIONS`, is done, and takes one of its count (kernel/sched/completion.c,
/// `wait_for_completion`, `wait_for_completion_interruptible`, `wait_for_completion_killable`); a count at its end,
/// 4294967295, stays. The own entry waits at the tail. Signal: its last hold loaded the count as 0 (`seen`), and a look
/// at the own word showed a signal that the state admits; `selected` is that this hold found the entry off that the
/// call had queued. Worn: no place was left for the entry, in a hold that had loaded 0. The task is idle and has no
/// entry queued, and so it is afterwards; it owes what it owed. Its last hold of the completion's head, if there was
/// one, left its own entry off, and so does this call.
pub fn wait_for<R: Wait>(
    rt: &R,
    domain: &Domain,
    task: &mut Task,
    cell: u8,
    state: SleepState,
) -> Result<(), WaitEnd>
    requires of { task.old.domain ≡ domain.now }
    requires up { IsUp task.old }
    requires idle { IsIdle task.old }
    requires cell { cell < COMPLETIONS }
    requires out { IsOut task.old }
    requires left { LeftOff cell task.old }
    ensures waited { EndsAwait task.old task.new cell state result }
    ensures up { IsUp task.new }
    ensures idle { IsIdle task.new }
    ensures out { IsOut task.new }
    ensures carries { Carries (wait_change (index task.old.view.number 0) task.new.at) task.old task.new }
    ensures off { StaysOff task.old task.new }
{
    let mut wait = begin_await(task, cell, state);
    let outcome = run(rt, domain, task, &mut wait, AwaitStage::First);
    end_of(wait.of, outcome)
}

/// The answer of a wait that has ended, as `wait_for` gives it: for who went on with it by stretches.
pub fn end_of(call: AwaitCall, outcome: AwaitOutcome) -> Result<(), WaitEnd>
    ensures { result ≡ await_end_in call outcome }
{
    match outcome {
        AwaitOutcome::Over => Ok(()),
        AwaitOutcome::Signalled(found) => Err(WaitEnd::Signal {
            seen: 0,
            selected: call.queued && !found,
        }),
        AwaitOutcome::Worn => Err(WaitEnd::Worn {
            head: head_of(Watch::Done { cell: call.cell }),
            place: call.place,
        }),
    }
}

/// The answer of a wait that went on by stretches and has ended. Who owed nothing when it began owes nothing, and the
/// answer of one that began at `start` is as that of `wait_for`.
pub fn end_await(task: &Task, wait: &AwaitRun, outcome: AwaitOutcome) -> Result<(), WaitEnd>
    ensures is { result ≡ await_end_in wait.now.of outcome }
    ensures clean { (c : _) → IsUnderWay await_table c task.now wait.now (turn.Done outcome) → IsClean task.now }
    ensures ends { (start : _) → (f : _) → (cell : _) → (state : _) → IsFreshAwait f.of cell state
        → Advances await_table start task.now f wait.now stage.First (turn.Done outcome)
        → EndsAwait start task.now cell state result }
{
    let _ = *task;
    end_of(wait.of, outcome)
}
