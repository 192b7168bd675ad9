//! `down` as a whole call; `wait_class::runs` goes on with one by stretches, for who may not wait.

ghost use Rattle.std.specs.Prelude.{◌≡◌, ◌≢◌, ◌<◌};
ghost use Rattle.wait_model.specs.declared.layout.TheConstants.{COMPLETIONS};
ghost use Rattle.wait_rule.specs.{HandedPermits.StaysOff, LeftEntries.LeftOff, Says.IsClean, Says.IsUp, Stays.Carries};
ghost use Rattle.wait_rule.specs.Queues.{IsIdle, IsTold, index};
ghost use Rattle.wait_class.specs.{Posts.IsOut, Tables.Advances, Tables.IsAt, UnderWay.IsUnderWay};
ghost use Rattle.wait_class.specs.declared.stages.Turn.TheVariants as turn;
ghost use Rattle.wait_event.specs.Ends.{wait_change};
ghost use Rattle.count_sem.specs.declared.downs.DownOutcome.TheVariants as ended;
ghost use Rattle.count_sem.specs.declared.downs.DownStage.TheVariants as stage;
ghost use Rattle.count_sem.specs.{Downs.IsFreshDown, Downs.down_table, DownEnds.EndsDown, DownEnds.down_end_in};

use crate::downs::{DownCall, DownOutcome, DownRun, DownStage};
use crate::passes::pass;
use std::sync::Wait;
use wait_class::runs::run;
use wait_class::stages::Run;
use wait_model::heads::head_of;
use wait_model::tasks::SleepState;
use wait_model::watches::Watch;
use wait_rule::{Domain, Task};

/// Why a `down` took no permit: a signal ended it; or no place was left for its entry at head `head`, as a member
/// shows that stands at `place`.
#[derive(Clone, Copy)]
pub enum SemEnd {
    Interrupted,
    Worn { head: u16, place: u64 },
}

/// A `down` of semaphore `cell`, below `COMPLETIONS`, that is about to begin: `stretch` goes on with it at
/// `DownStage::First`. Where it ends as `Passing`, `hand_on` follows. The task is idle and has no entry queued, and has
/// left none at the semaphore.
pub fn begin_down(task: &Task, cell: u8, state: SleepState) -> DownRun
    requires up { IsUp task.now }
    requires idle { IsIdle task.now }
    requires cell { cell < COMPLETIONS }
    requires out { IsOut task.now }
    requires left { LeftOff cell task.now }
    ensures at { IsAt down_table task.now result stage.First }
    ensures fresh { IsFreshDown result.of cell state }
    ensures told { IsTold task.now }
    ensures under { IsClean task.now
        → IsUnderWay down_table (down_table.plan_of result.of) task.now result (turn.Again stage.First) }
    ensures came { Advances down_table task.now task.now result result stage.First (turn.Again stage.First) }
{
    task.told();
    Run::new(DownCall {
        cell,
        state,
        count: 0,
        place: 0,
        queued: false,
        again: false,
        asked: false,
    })
}

/// Takes a permit of semaphore `cell`, below `COMPLETIONS`, and waits for one where none is there
/// (kernel/locking/semaphore.c, `down`, `down_interruptible`, `down_killable`); a count at its end, 4294967295, stays.
/// The own entry waits at the tail, and an `up` that takes it off has given the permit, whatever signals come.
/// Interrupted: one hold loaded the count as 0, had not found the own entry taken off, read a signal that the state
/// admits, and left the entry off. Worn: no place was left for the entry, in a hold that had loaded 0. The task is idle
/// and has no entry queued, and so it is afterwards; it owes what it owed. Its last hold of the semaphore's head, if
/// there was one, left its own entry off, and so does this call.
pub fn down<R: Wait>(
    rt: &R,
    domain: &Domain,
    task: &mut Task,
    cell: u8,
    state: SleepState,
) -> Result<(), SemEnd>
    requires of { task.old.domain ≡ domain.now }
    requires up { IsUp task.old }
    requires idle { IsIdle task.old }
    requires cell { cell < COMPLETIONS }
    requires out { IsOut task.old }
    requires left { LeftOff cell task.old }
    ensures downed { EndsDown task.old task.new cell state result }
    ensures up { IsUp task.new }
    ensures idle { IsIdle task.new }
    ensures out { IsOut task.new }
    ensures carries { Carries (wait_change (index task.old.view.number 0) task.new.at) task.old task.new }
    ensures off { StaysOff task.old task.new }
{
    let mut wait = begin_down(task, cell, state);
    let outcome = run(rt, domain, task, &mut wait, DownStage::First);
    match outcome {
        DownOutcome::Passing => {
            pass(rt, domain, task, &wait);
            Ok(())
        }
        _ => end_of(wait.of, outcome),
    }
}

/// The answer of a `down` that has ended: for who went on with it by stretches.
pub fn end_of(call: DownCall, outcome: DownOutcome) -> Result<(), SemEnd>
    ensures { result ≡ down_end_in call outcome }
{
    match outcome {
        DownOutcome::Over => Ok(()),
        DownOutcome::Passing => Ok(()),
        DownOutcome::Interrupted => Err(SemEnd::Interrupted),
        DownOutcome::Worn => Err(SemEnd::Worn {
            head: head_of(Watch::Done { cell: call.cell }),
            place: call.place,
        }),
    }
}

/// The answer of a `down` that went on by stretches and has ended, but not as `Passing`. Who owed nothing when it began
/// owes nothing, and the answer of one that began at `start` is as that of `down`.
pub fn end_down(task: &Task, wait: &DownRun, outcome: DownOutcome) -> Result<(), SemEnd>
    requires over { outcome ≢ ended.Passing }
    ensures is { result ≡ down_end_in wait.now.of outcome }
    ensures clean { (c : _) → IsUnderWay down_table c task.now wait.now (turn.Done outcome) → IsClean task.now }
    ensures ends { (start : _) → (f : _) → (cell : _) → (state : _) → IsFreshDown f.of cell state
        → Advances down_table start task.now f wait.now stage.First (turn.Done outcome)
        → EndsDown start task.now cell state result }
{
    let _ = *task;
    end_of(wait.of, outcome)
}
