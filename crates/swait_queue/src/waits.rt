//! Waits in simple queues. In stretches they go on by `wait_class::runs::stretch`, from `begin_swait` on.

ghost use Rattle.std.specs.Prelude.{◌≡◌, false, true};
ghost use Rattle.wait_model.specs.declared.watches.Watch.TheVariants as watch;
ghost use Rattle.wait_model.specs.Tasks.{is_killable};
ghost use Rattle.wait_rule.specs.{Says.IsClean, Says.IsUp, Stays.Carries};
ghost use Rattle.wait_rule.specs.Queues.{IsIdle, IsTold, index};
ghost use Rattle.wait_event.specs.declared.waits.WaitStage.TheVariants as stage;
ghost use Rattle.wait_class.specs.{Posts.IsOut, Tables.Advances, Tables.IsAt, UnderWay.IsUnderWay};
ghost use Rattle.wait_event.specs.{Ends.wait_change, WaitLeaves.EndsWaitUntil, Waits.IsFreshWait, Waits.wait_table};
ghost use Rattle.wait_class.specs.declared.stages.Turn.TheVariants as turn;
ghost use Rattle.swait_queue.specs.SimpleWaits.{EndsSimpleWait, IsSimpleCond, tail_in};

use std::sync::Wait;
use wait_class::runs::run;
use wait_event::wait_events::{WaitEnd, end_of};
use wait_event::wait_leaves::{WaitUntil, until_of};
use wait_event::waits::{WaitRun, WaitStage, fresh_wait};
use wait_leave::run_asked;
use wait_model::tasks::{How, SleepState};
use wait_model::watches::Watch;
use wait_rule::{Domain, Task};

/// A wait for condition `cond`, from `FIRST_SIMPLE` on and below `PLAIN_CONDITIONS`, that is about to begin: `stretch`
/// goes on with it at `WaitStage::First`. The state is uninterruptible or interruptible. The task is idle and has no
/// entry queued.
pub fn begin_swait(task: &Task, cond: u8, state: SleepState) -> WaitRun
    requires up { IsUp task.now }
    requires idle { IsIdle task.now }
    requires simple { IsSimpleCond cond }
    requires listed { is_killable state ≡ false }
    requires out { IsOut task.now }
    ensures at { IsAt wait_table task.now result stage.First }
    ensures fresh { IsFreshWait result.of (watch.Plain cond) (tail_in state) }
    ensures told { IsTold task.now }
    ensures under { IsClean task.now
        → IsUnderWay wait_table (wait_table.plan_of result.of) task.now result (turn.Again stage.First) }
    ensures came { Advances wait_table task.now task.now result result stage.First (turn.Again stage.First) }
{
    task.told();
    fresh_wait(Watch::Plain { cond }, tail_in(state))
}

/// At the tail, and in this state.
fn tail_in(state: SleepState) -> How
    ensures { result ≡ tail_in state }
{
    How {
        state,
        exclusive: true,
    }
}

/// Waits until condition `cond`, from `FIRST_SIMPLE` on and below `PLAIN_CONDITIONS`, is set, in the condition's simple
/// queue (include/linux/swait.h, `swait_event_exclusive`, `swait_event_interruptible_exclusive`; kernel/sched/swait.c,
/// `prepare_to_swait_event`, `finish_swait`): a value other than 0. Its entry stands at the tail, and a wake takes it
/// off. The state is uninterruptible or interruptible. The answers are those of `wait_event`. The task is idle and has
/// no entry queued, and so it is afterwards; it owes what it owed.
pub fn swait_event<R: Wait>(
    rt: &R,
    domain: &Domain,
    task: &mut Task,
    cond: u8,
    state: SleepState,
) -> Result<(), WaitEnd>
    requires of { task.old.domain ≡ domain.now }
    requires up { IsUp task.old }
    requires idle { IsIdle task.old }
    requires simple { IsSimpleCond cond }
    requires listed { is_killable state ≡ false }
    requires out { IsOut task.old }
    ensures waited { EndsSimpleWait task.old task.new cond state result }
    ensures up { IsUp task.new }
    ensures idle { IsIdle task.new }
    ensures out { IsOut task.new }
    ensures carries { Carries (wait_change (index task.old.view.number 0) task.new.at) task.old task.new }
{
    let mut wait = begin_swait(task, cond, state);
    let outcome = run(rt, domain, task, &mut wait, WaitStage::First);
    end_of(wait.of, outcome)
}

/// Waits as `swait_event` does, but leaves the wait once `asks` has answered true: it is asked before each event while
/// its task is awake, so before it goes asleep and once it was woken. Who stores what `asks` reads and then wakes the
/// task (`wake_task`) is heard. Left: asked so, its entry off, and its last load found the condition not set;
/// `selected` is that a wake had taken the entry off that the call had queued. Over: as `swait_event` answers.
pub fn swait_event_until<R: Wait, Q: Fn() -> bool>(
    rt: &R,
    domain: &Domain,
    task: &mut Task,
    cond: u8,
    state: SleepState,
    asks: Q,
) -> WaitUntil<Result<(), WaitEnd>>
    requires of { task.old.domain ≡ domain.now }
    requires up { IsUp task.old }
    requires idle { IsIdle task.old }
    requires simple { IsSimpleCond cond }
    requires listed { is_killable state ≡ false }
    requires out { IsOut task.old }
    requires asks { Q.IsAlwaysCallable asks }
    ensures waited { EndsWaitUntil (Q.post asks true) task.old task.new (watch.Plain cond) (tail_in state) result }
    ensures up { IsUp task.new }
    ensures idle { IsIdle task.new }
    ensures out { IsOut task.new }
    ensures carries { Carries (wait_change (index task.old.view.number 0) task.new.at) task.old task.new }
{
    let mut wait = begin_swait(task, cond, state);
    let outcome = run_asked(rt, domain, task, &mut wait, WaitStage::First, asks);
    until_of(wait.of, outcome)
}
