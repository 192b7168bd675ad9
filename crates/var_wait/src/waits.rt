//! Waits for variables. In stretches they go on by `wait_class::runs::stretch`, from `begin_var` on.

ghost use Rattle.std.specs.Prelude.{◌≡◌, ◌<◌, true};
ghost use Rattle.wait_model.specs.declared.layout.TheConstants.{VARIABLES};
ghost use Rattle.wait_model.specs.declared.watches.Watch.TheVariants as watch;
ghost use Rattle.wait_rule.specs.{Says.IsClean, Says.IsUp, Stays.Carries};
ghost use Rattle.wait_rule.specs.Queues.{IsIdle, IsTold, index};
ghost use Rattle.wait_event.specs.declared.waits.WaitStage.TheVariants as stage;
ghost use Rattle.wait_class.specs.{Posts.IsOut, Tables.Advances, Tables.IsAt, UnderWay.IsUnderWay};
ghost use Rattle.wait_event.specs.{Ends.wait_end_in, Ends.wait_change, WaitLeaves.wait_until_in, Waits.IsFreshWait};
ghost use Rattle.wait_event.specs.Waits.{wait_table};
ghost use Rattle.wait_class.specs.declared.stages.Turn.TheVariants as turn;
ghost use Rattle.var_wait.specs.VarLeaves.{EndsVarUntil, until_loaded};
ghost use Rattle.var_wait.specs.VarWaits.{EndsVarWait, shared_in, with_loaded};

use std::sync::Wait;
use wait_class::runs::run;
use wait_event::wait_events::{WaitEnd, end_of};
use wait_event::wait_leaves::{WaitUntil, until_of};
use wait_event::waits::{WaitCall, WaitOutcome, WaitRun, WaitStage, fresh_wait};
use wait_leave::run_asked;
use wait_model::tasks::{How, SleepState};
use wait_model::watches::Watch;
use wait_rule::{Domain, Task};

/// A wait for variable `var`, below `VARIABLES`, to differ from `old`, that is about to begin: `stretch` goes on with
/// it at `WaitStage::First`, and `end_var` makes its answer. The task is idle and has no entry queued.
pub fn begin_var(task: &Task, var: u8, old: u64, state: SleepState) -> WaitRun
    requires up { IsUp task.now }
    requires idle { IsIdle task.now }
    requires there { var < VARIABLES }
    requires out { IsOut task.now }
    ensures at { IsAt wait_table task.now result stage.First }
    ensures fresh { IsFreshWait result.of (watch.Var var old) (shared_in state) }
    ensures told { IsTold task.now }
    ensures under { IsClean task.now
        → IsUnderWay wait_table (wait_table.plan_of result.of) task.now result (turn.Again stage.First) }
    ensures came { Advances wait_table task.now task.now result result stage.First (turn.Again stage.First) }
{
    task.told();
    fresh_wait(Watch::Var { var, old }, shared_in(state))
}

/// At the front, and in this state.
fn shared_in(state: SleepState) -> How
    ensures { result ≡ shared_in state }
{
    How {
        state,
        exclusive: false,
    }
}

/// Waits until variable `var`, below `VARIABLES`, has another value than `old` (include/linux/wait_bit.h,
/// `wait_var_event`, `wait_var_event_killable`; kernel/sched/wait_bit.c, `init_wait_var_entry`), and answers the value
/// that its last load found. Its entry stands at the front of the variable's head, which other variables and bits may
/// share. Signal: the look in its last hold showed a signal that its state admits, its entry was off then, and the load
/// after it found `seen`, which is `old`; `selected` is that this hold found the entry off that the call had queued.
/// Worn: no place was left for its entry at its head, and the load after it found `old`. The task is idle and has no
/// entry queued, and so it is afterwards; it owes what it owed.
#[inline(always)]
pub fn wait_var<R: Wait>(
    rt: &R,
    domain: &Domain,
    task: &mut Task,
    var: u8,
    old: u64,
    state: SleepState,
) -> Result<u64, WaitEnd>
    requires of { task.old.domain ≡ domain.now }
    requires up { IsUp task.old }
    requires idle { IsIdle task.old }
    requires there { var < VARIABLES }
    requires out { IsOut task.old }
    ensures waited { EndsVarWait task.old task.new var old state result }
    ensures up { IsUp task.new }
    ensures idle { IsIdle task.new }
    ensures out { IsOut task.new }
    ensures carries { Carries (wait_change (index task.old.view.number 0) task.new.at) task.old task.new }
{
    let mut wait = begin_var(task, var, old, state);
    let outcome = run(rt, domain, task, &mut wait, WaitStage::First);
    end_of_var(wait.of, outcome)
}

/// The answer of a wait for a variable that has ended: the value that its last load found, or why it ended without
/// another one than the old.
pub fn end_of_var(wait: WaitCall, outcome: WaitOutcome) -> Result<u64, WaitEnd>
    ensures { result ≡ with_loaded wait.seen (wait_end_in wait outcome) }
{
    match end_of(wait, outcome) {
        Ok(()) => Ok(wait.seen),
        Err(end) => Err(end),
    }
}

/// The answer of a wait that went on by stretches and has ended. Who owed nothing when it began owes nothing, and the
/// answer of one that began at `start` is as that of `wait_var`.
pub fn end_var(task: &Task, wait: &WaitRun, outcome: WaitOutcome) -> Result<u64, WaitEnd>
    ensures is { result ≡ with_loaded wait.now.of.seen (wait_end_in wait.now.of outcome) }
    ensures clean { (c : _) → IsUnderWay wait_table c task.now wait.now (turn.Done outcome) → IsClean task.now }
    ensures ends { (start : _) → (f : _) → (var : _) → (old : _) → (state : _) → IsAt wait_table start f stage.First
        → IsFreshWait f.of (watch.Var var old) (shared_in state)
        → Advances wait_table start task.now f wait.now stage.First (turn.Done outcome)
        → EndsVarWait start task.now var old state result }
{
    let _ = *task;
    let call = wait.of;
    end_of_var(call, outcome)
}

/// Waits as `wait_var` does, but leaves the wait once `asks` has answered true: it is asked before each event while its
/// task is awake, so before it goes asleep and once it was woken. Who stores what `asks` reads and then wakes the task
/// (`wake_task`) is heard. Left: asked so, its entry off, and its last load found `seen`, which is `old`. Over: as
/// `wait_var` answers.
pub fn wait_var_until<R: Wait, Q: Fn() -> bool>(
    rt: &R,
    domain: &Domain,
    task: &mut Task,
    var: u8,
    old: u64,
    state: SleepState,
    asks: Q,
) -> WaitUntil<Result<u64, WaitEnd>>
    requires of { task.old.domain ≡ domain.now }
    requires up { IsUp task.old }
    requires idle { IsIdle task.old }
    requires there { var < VARIABLES }
    requires out { IsOut task.old }
    requires asks { Q.IsAlwaysCallable asks }
    ensures waited { EndsVarUntil (Q.post asks true) task.old task.new var old state result }
    ensures up { IsUp task.new }
    ensures idle { IsIdle task.new }
    ensures out { IsOut task.new }
    ensures carries { Carries (wait_change (index task.old.view.number 0) task.new.at) task.old task.new }
{
    let mut wait = begin_var(task, var, old, state);
    let outcome = run_asked(rt, domain, task, &mut wait, WaitStage::First, asks);
    until_of_var(wait.of, outcome)
}

/// The answer of a wait for a variable that has ended, and may have been left (`wait_event::leave_wait`).
pub fn until_of_var(wait: WaitCall, outcome: WaitOutcome) -> WaitUntil<Result<u64, WaitEnd>>
    ensures { result ≡ until_loaded wait.seen (wait_until_in wait outcome) }
{
    match until_of(wait, outcome) {
        WaitUntil::Over(Ok(())) => WaitUntil::Over(Ok(wait.seen)),
        WaitUntil::Over(Err(end)) => WaitUntil::Over(Err(end)),
        WaitUntil::Left { seen, selected } => WaitUntil::Left { seen, selected },
    }
}
