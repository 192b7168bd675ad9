//! The stretches that wait for the lock of a head by looks at a ticket, and what is done in the hold of each.

ghost use Rattle.std.specs.Prelude.{◌≡◌};
ghost use Rattle.wait_rule.specs.{PassedLocks.PassesNone, Says.IsUp};
ghost use Rattle.wq_head.specs.Holds.{IsHolding};
ghost use Rattle.wait_class.specs.declared.stages.Turn.TheVariants as turn;
ghost use Rattle.poll_wait.specs.Polls.{IsPoll};
ghost use Rattle.poll_turns.specs.PollSteps.{Awaits, GoesFrom, IsAtHold, WorksHeld};
ghost use Rattle.poll_turns.specs.PollTurns.{IsPollUnderWay};

use crate::entries::{join_first, pare_first, pass_on};
use crate::stages::{PollStage, PollTurn};
use poll_wait::seconds::{join_held, pare_second};
use poll_wait::turns::Poll;
use wait_class::stages::Turn;
use wait_rule::queues::Passing;
use wait_rule::{Domain, Task};
use wq_head::lock_turns::lock_turn;

/// One look at the ticket of this head for which the wait stands at this stage. Where it is served what the hold is for is
/// done, and the head given back.
#[inline(always)]
pub(crate) fn hold(
    domain: &Domain,
    task: &mut Task,
    poll: Poll,
    stage: PollStage,
    head: u16,
    ticket: u64,
    passing: &mut Passing,
) -> PollTurn
    requires of { task.old.domain ≡ domain.now }
    requires poll { IsPoll poll }
    requires passes { PassesNone passing.old }
    requires at { IsPollUnderWay poll task.old (turn.Again stage) }
    requires awaits { Awaits poll stage head ticket }
    ensures of { task.new.domain ≡ domain.now }
    ensures goes { GoesFrom poll task.old task.new passing.new.head stage result }
{
    match lock_turn(domain, task, head, ticket) {
        Err(_) => Turn::Locked(stage),
        Ok(()) => {
            let next = work_held(domain, task, poll, stage);
            pass_on(domain, task, passing);
            task.told();
            next
        }
    }
}

/// In the hold of this stage: an entry is queued, or taken off.
#[inline(always)]
fn work_held(domain: &Domain, task: &mut Task, poll: Poll, stage: PollStage) -> PollTurn
    requires of { task.old.domain ≡ domain.now }
    requires up { IsUp task.old }
    requires held { IsHolding task.old }
    requires poll { IsPoll poll }
    requires at { IsAtHold poll task.old stage }
    ensures of { task.new.domain ≡ domain.now }
    ensures up { IsUp task.new }
    ensures works { WorksHeld poll task.old task.new stage result }
    ensures held { IsHolding task.new }
{
    match stage {
        PollStage::HoldFirst(_) => match join_first(domain, task, poll) {
            Ok(_) => Turn::Again(PollStage::QueueSecond),
            Err(worn) => Turn::Again(PollStage::Load(Err(worn))),
        },
        PollStage::HoldSecond(_) => {
            let queued = join_held(domain, task, poll.second);
            Turn::Again(PollStage::Load(queued))
        }
        PollStage::HoldTakeFirst(end, _, _) => {
            pare_first(domain, task);
            Turn::Again(PollStage::TakeSecond(end))
        }
        PollStage::HoldTakeSecond(end, _, _) => {
            pare_second(domain, task);
            Turn::Done(end)
        }
        _ => unreachable!(),
    }
}
