//! Waits for plain conditions and variables that their task leaves.

ghost use Rattle.std.specs.Prelude.{◌≡◌, ◌<◌, None, Some, true};
ghost use Rattle.wait_model.specs.declared.layout.TheConstants.{FIRST_SIMPLE};
ghost use Rattle.wait_model.specs.declared.watches.Watch.TheVariants as watch;
ghost use Rattle.wait_rule.specs.{Queues.IsIdle, Queues.index, Stays.Carries};
ghost use Rattle.wait_rule.specs.Says.{IsClean, IsUp, told_of};
ghost use Rattle.wait_class.specs.{Posts.IsOut, Posts.Keeps, Tables.IsAt, Tables.SleepsNot};
ghost use Rattle.wait_class.specs.declared.stages.Turn.TheVariants as turn;
ghost use Rattle.wait_leave.specs.OnTheWay.{IsOnWay, OnTheWay};
ghost use Rattle.wait_event.specs.{Ends.wait_change, Waits.IsFreshWait, Waits.wait_table};
ghost use Rattle.wait_event.specs.WaitLeaves.{EndsWaitUntil, LeavesWait, wait_exits, wait_until_in};
ghost use Rattle.wait_event.specs.declared.waits.WaitStage.TheVariants as stages;

use crate::wait_events::{WaitEnd, begin_wait, end_of};
use crate::waits::{WaitCall, WaitOutcome, WaitRun, WaitStage};
use std::alloc::AllocError;
use std::sync::Wait;
use wait_class::stages::Turn;
use wait_leave::{Exit, Leavable, leave, run_asked};
use wait_model::tasks::How;
use wait_rule::{Domain, Task};

/// How a wait ended that its task may leave. Over: as the call answers that is not left. Left: it was asked to leave
/// before its last hold, its entry is off, and the load behind that hold found `seen`, in which what it waits for was
/// not set; `selected` is that the hold found the entry off that the call had queued, so that a wake had chosen it.
#[derive(Copy, Debug)]
pub enum WaitUntil<A> {
    Over(A),
    Left { seen: u64, selected: bool },
}

impl<A: Copy> Clone for WaitUntil<A> {
    fn clone(&self) -> Result<WaitUntil<A>, AllocError> {
        Ok(*self)
    }
}

impl Leavable for WaitCall {
    ghost exits = { wait_exits };

    #[inline(always)]
    fn asked(self) -> WaitCall
        ensures { result ≡ wait_exits.asks self }
    {
        WaitCall {
            asked: true,
            ..self
        }
    }

    #[inline(always)]
    fn exit(self, stage: WaitStage) -> Option<Exit<WaitStage, WaitOutcome>>
        ensures { result ≡ wait_exits.exit self stage }
    {
        match stage {
            WaitStage::PrepareLook => goes_out(WaitStage::LeaveQueue, false),
            WaitStage::PrepareQueue => goes_out(WaitStage::LeaveQueue, false),
            WaitStage::Test => goes_out(WaitStage::PrepareLock, true),
            WaitStage::Sleep => goes_out(WaitStage::PrepareLock, true),
            _ => None,
        }
    }

    #[inline(always)]
    fn may_leave() {}
}

/// An exit to a stage, and whether RUNNING is stored first.
#[inline(always)]
fn goes_out(stage: WaitStage, rests: bool) -> Option<Exit<WaitStage, WaitOutcome>>
    ensures { result ≡ Some (record { to = turn.Again stage; rests = rests }) }
{
    Some(Exit {
        to: Turn::Again(stage),
        rests,
    })
}

/// Leaves a wait that goes on by stretches, at a stage at which its task is awake: to its end, and answers. It waits for
/// the lock of the head alone, and never sleeps. Left: it was in time to leave, and the condition was not set. Over: its
/// condition was set, or the wait had ended before it was left. Its entry is off then; what the task owed it owes.
pub fn leave_wait<R: Wait>(
    rt: &R,
    domain: &Domain,
    task: &mut Task,
    wait: &mut WaitRun,
    stage: WaitStage,
) -> WaitUntil<Result<(), WaitEnd>>
    requires of { task.old.domain ≡ domain.now }
    requires at { IsAt wait_table task.old wait.old stage }
    ensures leaves { LeavesWait (Unit {0}) task.old task.new wait.old stage result }
    ensures awake { SleepsNot task.old task.new }
    ensures up { IsUp task.new }
    ensures out { IsOut task.new }
    ensures idle { (told_of task.old).mark ≡ None → IsIdle task.new }
    ensures keeps { Keeps (index task.old.view.number 0) task.old task.new }
    ensures clean { (c : _) → IsOnWay (Unit {0}) wait_table wait_exits c task.old wait.old (turn.Again stage)
        → IsClean task.new }
{
    let outcome = leave(rt, domain, task, wait, stage);
    until_of(wait.of, outcome)
}

/// The answer of a wait that has ended, and may have been left.
pub fn until_of(wait: WaitCall, outcome: WaitOutcome) -> WaitUntil<Result<(), WaitEnd>>
    ensures { result ≡ wait_until_in wait outcome }
{
    match outcome {
        WaitOutcome::Signalled(found) => {
            if wait.asked {
                WaitUntil::Left {
                    seen: wait.seen,
                    selected: wait.queued && !found,
                }
            } else {
                WaitUntil::Over(end_of(wait, outcome))
            }
        }
        _ => WaitUntil::Over(end_of(wait, outcome)),
    }
}

/// The answer of a wait that went on by stretches, asked to leave on its way (`wait_leave::ask`) or not, and has ended.
/// Who owed nothing when it began owes nothing, and the answer of one that began at `start` is as that of
/// `wait_event_until`.
pub fn end_until(
    task: &Task,
    wait: &WaitRun,
    outcome: WaitOutcome,
) -> WaitUntil<Result<(), WaitEnd>>
    ensures is { result ≡ wait_until_in wait.now.of outcome }
    ensures clean { (c : _) → IsOnWay (Unit {0}) wait_table wait_exits c task.now wait.now (turn.Done outcome)
        → IsClean task.now }
    ensures ends { (start : _) → (f : _) → (w : _) → (how : _) → IsFreshWait f.of w how
        → OnTheWay (Unit {0}) wait_table wait_exits start f stages.First task.now wait.now (turn.Done outcome)
        → EndsWaitUntil (Unit {0}) start task.now w how result }
{
    let _ = *task;
    until_of(wait.of, outcome)
}

/// Waits as `wait_event` does, but leaves the wait once `asks` has answered true: it is asked before each event while
/// its task is awake, so before it goes asleep and once it was woken. Who stores what `asks` reads and then wakes the
/// task (`wake_task`) is heard. Left: asked so, its entry off, and its last load found the condition not set. Over: as
/// `wait_event` answers.
pub fn wait_event_until<R: Wait, Q: Fn() -> bool>(
    rt: &R,
    domain: &Domain,
    task: &mut Task,
    cond: u8,
    how: How,
    asks: Q,
) -> WaitUntil<Result<(), WaitEnd>>
    requires of { task.old.domain ≡ domain.now }
    requires up { IsUp task.old }
    requires idle { IsIdle task.old }
    requires full { cond < FIRST_SIMPLE }
    requires out { IsOut task.old }
    requires asks { Q.IsAlwaysCallable asks }
    ensures waited { EndsWaitUntil (Q.post asks true) task.old task.new (watch.Plain cond) how result }
    ensures up { IsUp task.new }
    ensures idle { IsIdle task.new }
    ensures out { IsOut task.new }
    ensures carries { Carries (wait_change (index task.old.view.number 0) task.new.at) task.old task.new }
{
    let mut wait = begin_wait(task, cond, how);
    let outcome = run_asked(rt, domain, task, &mut wait, WaitStage::First, asks);
    until_of(wait.of, outcome)
}
