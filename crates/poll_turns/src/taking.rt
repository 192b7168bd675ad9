//! The stretches that look at the two entries, and draw a ticket where one is to be taken off.

ghost use Rattle.std.specs.Prelude.{◌≡◌};
ghost use Rattle.wait_class.specs.declared.stages.Turn.TheVariants as turn;
ghost use Rattle.poll_wait.specs.Polls.{IsPoll};
ghost use Rattle.poll_turns.specs.declared.stages.PollStage.TheVariants as stage;
ghost use Rattle.poll_turns.specs.{PollTurns.IsPollUnderWay, PollSteps.GoesFrom};
ghost use Rattle.wait_model.specs.declared.layout.TheConstants.{HEADS};

use crate::stages::{PollStage, PollTurn, PollUntil};
use poll_wait::seconds::second_entry;
use poll_wait::turns::Poll;
use wait_class::queueing::own_entry;
use wait_class::stages::Turn;
use wait_model::heads::head_of;
use wait_model::layout::RUNNING;
use wait_rule::tasks::set_state;
use wait_rule::{Domain, Task};
use wq_head::lock_turns::draw_lock;

/// Stores RUNNING and looks at the first entry: where it is queued, a ticket of its head is drawn.
pub(crate) fn take_first(domain: &Domain, task: &mut Task, poll: Poll, end: PollUntil) -> PollTurn
    requires of { task.old.domain ≡ domain.now }
    requires poll { IsPoll poll }
    requires at { IsPollUnderWay poll task.old (turn.Again (stage.TakeFirst end)) }
    ensures of { task.new.domain ≡ domain.now }
    ensures goes { GoesFrom poll task.old task.new HEADS (stage.TakeFirst end) result }
{
    let _ = poll;
    task.told();
    set_state(domain, task, RUNNING);
    match own_entry(domain, task) {
        None => {
            task.told();
            Turn::Again(PollStage::TakeSecond(end))
        }
        Some(entry) => {
            let head = head_of(entry.watch);
            let ticket = draw_lock(domain, task, head);
            Turn::Again(PollStage::HoldTakeFirst(end, head, ticket))
        }
    }
}

/// Looks at the second entry: where it is queued, a ticket of its head is drawn.
pub(crate) fn take_second(domain: &Domain, task: &mut Task, poll: Poll, end: PollUntil) -> PollTurn
    requires of { task.old.domain ≡ domain.now }
    requires poll { IsPoll poll }
    requires at { IsPollUnderWay poll task.old (turn.Again (stage.TakeSecond end)) }
    ensures of { task.new.domain ≡ domain.now }
    ensures goes { GoesFrom poll task.old task.new HEADS (stage.TakeSecond end) result }
{
    let _ = poll;
    task.told();
    match second_entry(domain, task) {
        None => Turn::Done(end),
        Some(entry) => {
            let head = head_of(entry.watch);
            let ticket = draw_lock(domain, task, head);
            Turn::Again(PollStage::HoldTakeSecond(end, head, ticket))
        }
    }
}
