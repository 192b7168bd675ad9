//! A `down` that its task leaves.

ghost use Rattle.std.specs.Prelude.{◌≡◌, ◌≢◌, ◌<◌, None, true};
ghost use Rattle.wait_model.specs.declared.layout.TheConstants.{COMPLETIONS};
ghost use Rattle.wait_rule.specs.{HandedPermits.StaysOff, LeftEntries.LeftOff, Queues.IsIdle, Queues.index};
ghost use Rattle.wait_rule.specs.Stays.{Carries};
ghost use Rattle.wait_rule.specs.Says.{IsClean, IsUp, told_of};
ghost use Rattle.wait_class.specs.Posts.{IsOut};
ghost use Rattle.wait_class.specs.Tables.{IsAt, IsEnded, SleepsNot};
ghost use Rattle.wait_class.specs.declared.stages.Turn.TheVariants as turn;
ghost use Rattle.wait_event.specs.Ends.{wait_change};
ghost use Rattle.wait_leave.specs.OnTheWay.{IsOnWay, OnTheWay};
ghost use Rattle.count_sem.specs.declared.downs.DownOutcome.TheVariants as ended;
ghost use Rattle.count_sem.specs.declared.downs.DownStage.TheVariants as stage;
ghost use Rattle.count_sem.specs.DownLeaves.{ClosesDown, EndsDownUntil, LeavesDown, down_exits, end_until};
ghost use Rattle.count_sem.specs.Downs.{DownKeeps, IsFreshDown, down_table};

use crate::down_calls::{SemEnd, begin_down, end_of};
use crate::downs::{DownCall, DownOutcome, DownRun, DownStage};
use crate::passes::pass;
use std::sync::Wait;
use wait_class::stages::Turn;
use wait_leave::{Exit, Leavable, Until, leave, run_asked};
use wait_model::tasks::SleepState;
use wait_rule::{Domain, Task};

impl Leavable for DownCall {
    ghost exits = { down_exits };

    #[inline(always)]
    fn asked(self) -> DownCall
        ensures { result ≡ down_exits.asks self }
    {
        DownCall {
            asked: true,
            ..self
        }
    }

    #[inline(always)]
    fn exit(self, stage: DownStage) -> Option<Exit<DownStage, DownOutcome>>
        ensures { result ≡ down_exits.exit self stage }
    {
        let (to, rests) = match stage {
            DownStage::Look => (DownStage::LeaveQueue, false),
            DownStage::Queue => (DownStage::LeaveQueue, false),
            DownStage::Sleep => (DownStage::Again, true),
            _ => return None,
        };
        Some(Exit {
            to: Turn::Again(to),
            rests,
        })
    }

    #[inline(always)]
    fn may_leave() {}
}

/// Hands a permit on where the call ended so, and answers.
fn close<R: Wait>(
    rt: &R,
    domain: &Domain,
    task: &mut Task,
    wait: &DownRun,
    outcome: DownOutcome,
) -> Until<Result<(), SemEnd>>
    requires of { task.old.domain ≡ domain.now }
    requires ended { IsEnded down_table task.old wait.now outcome }
    ensures closes { ClosesDown task.old task.new wait.now.of outcome }
    ensures answer { result ≡ end_until wait.now.of outcome }
{
    match outcome {
        DownOutcome::Passing => {
            pass(rt, domain, task, wait);
            Until::Over(Ok(()))
        }
        _ => until_of(wait.of, outcome),
    }
}

/// The answer of a `down` that has ended, and may have been left.
pub fn until_of(call: DownCall, outcome: DownOutcome) -> Until<Result<(), SemEnd>>
    ensures { result ≡ end_until call outcome }
{
    match outcome {
        DownOutcome::Interrupted => {
            if call.asked {
                Until::Left { seen: 0 }
            } else {
                Until::Over(end_of(call, outcome))
            }
        }
        _ => Until::Over(end_of(call, outcome)),
    }
}

/// Leaves a `down` that goes on by stretches, at a stage at which its task is awake: to its end, and answers. It goes
/// through one more hold, waits for the lock of the head alone, and never sleeps (`awake`). Left: that hold loaded the
/// count as 0 (`seen`), had found the own entry queued before where the call had queued it, so nobody had given it a
/// permit, and the entry is off. Over: it took a permit, so also one that it was given; or the call had ended before it
/// was left, as `down` says.
pub fn leave_down<R: Wait>(
    rt: &R,
    domain: &Domain,
    task: &mut Task,
    call: &mut DownRun,
    stage: DownStage,
) -> Until<Result<(), SemEnd>>
    requires of { task.old.domain ≡ domain.now }
    requires at { IsAt down_table task.old call.old stage }
    ensures leaves { LeavesDown (Unit {0}) task.old task.new call.old stage result }
    ensures awake { SleepsNot task.old task.new }
    ensures up { IsUp task.new }
    ensures out { IsOut task.new }
    ensures idle { (told_of task.old).mark ≡ None → IsIdle task.new }
    ensures left { LeftOff call.old.of.cell task.new }
    ensures keeps { DownKeeps (index task.old.view.number 0) task.old task.new }
{
    let outcome = leave(rt, domain, task, call, stage);
    close(rt, domain, task, call, outcome)
}

/// The answer of a `down` that went on by stretches, may have been asked to leave between two of them or in one
/// (`wait_leave::ask`, `wait_leave::stretch_out`), and has ended, but not as `Passing`: then `hand_on` follows, and it
/// is over. Who owed nothing when it began owes nothing, and the answer of one that began at `start` is as that of
/// `down_until`.
pub fn end_down_until(
    task: &Task,
    wait: &DownRun,
    outcome: DownOutcome,
) -> Until<Result<(), SemEnd>>
    requires over { outcome ≢ ended.Passing }
    ensures is { result ≡ end_until wait.now.of outcome }
    ensures clean { (c : _) → IsOnWay (Unit {0}) down_table down_exits c task.now wait.now (turn.Done outcome)
        → IsClean task.now }
    ensures ends { (start : _) → (f : _) → (cell : _) → (state : _) → IsFreshDown f.of cell state
        → OnTheWay (Unit {0}) down_table down_exits start f stage.First task.now wait.now (turn.Done outcome)
        → EndsDownUntil (Unit {0}) start task.now cell state result }
{
    let _ = *task;
    until_of(wait.of, outcome)
}

/// Takes a permit as `down` does, but leaves the call once `asks` has answered true: it is asked before each event
/// while its task is awake, so before it goes asleep and once it was woken. Who stores what `asks` reads and then wakes
/// the task (`wake_task`) is heard. Left: asked so, its last hold loaded the count as 0 (`seen`), had found the own
/// entry queued before where the call had queued it, and left it off. Over: as `down` answers, so also Ok where an `up`
/// gave it a permit behind the asking. The task owes what it owed.
pub fn down_until<R: Wait, Q: Fn() -> bool>(
    rt: &R,
    domain: &Domain,
    task: &mut Task,
    cell: u8,
    state: SleepState,
    asks: Q,
) -> Until<Result<(), SemEnd>>
    requires of { task.old.domain ≡ domain.now }
    requires up { IsUp task.old }
    requires idle { IsIdle task.old }
    requires cell { cell < COMPLETIONS }
    requires out { IsOut task.old }
    requires left { LeftOff cell task.old }
    requires asks { Q.IsAlwaysCallable asks }
    ensures downed { EndsDownUntil (Q.post asks true) task.old task.new cell state result }
    ensures up { IsUp task.new }
    ensures idle { IsIdle task.new }
    ensures out { IsOut task.new }
    ensures carries { Carries (wait_change (index task.old.view.number 0) task.new.at) task.old task.new }
    ensures off { StaysOff task.old task.new }
{
    let mut wait = begin_down(task, cell, state);
    let outcome = run_asked(rt, domain, task, &mut wait, DownStage::First, asks);
    close(rt, domain, task, &wait, outcome)
}
