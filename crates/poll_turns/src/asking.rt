//! The stretches that load both conditions, look for a signal, and sleep.

ghost use Rattle.std.specs.Prelude.{◌≡◌, true};
ghost use Rattle.wait_class.specs.declared.stages.Turn.TheVariants as turn;
ghost use Rattle.poll_wait.specs.Polls.{IsPoll};
ghost use Rattle.poll_turns.specs.declared.stages.PollStage.TheVariants as stage;
ghost use Rattle.poll_turns.specs.{PollShows.DidStretch, PollSteps.GoesFrom};
ghost use Rattle.poll_turns.specs.PollTurns.{IsOnTurn, IsPollUnderWay, IsPolling, leaves_at};
ghost use Rattle.wait_model.specs.declared.layout.TheConstants.{HEADS};

use crate::stages::{PollStage, PollTurn, PollUntil};
use poll_wait::PollEnd;
use poll_wait::turns::{Loads, Poll, load_both};
use wait_class::stages::Turn;
use wait_model::task_words::pending_state;
use wait_model::tasks::Sleep;
use wait_rule::tasks::load_own;
use wait_rule::tries::{FailedTries, sleep_try};
use wait_rule::{Domain, Task};
use wq_head::Worn;

/// The loads before the first turn: it is over where one finds its condition set.
pub(crate) fn load_first(domain: &Domain, task: &mut Task, poll: Poll) -> PollTurn
    requires of { task.old.domain ≡ domain.now }
    requires poll { IsPoll poll }
    requires at { IsPollUnderWay poll task.old (turn.Again stage.First) }
    ensures of { task.new.domain ≡ domain.now }
    ensures goes { GoesFrom poll task.old task.new HEADS stage.First result }
{
    let loads = load_both(domain, task, poll);
    match poll.ready(loads) {
        Some(ready) => Turn::Done(PollUntil::Over(Ok(ready))),
        None => Turn::Again(PollStage::QueueFirst),
    }
}

/// The loads behind the queueing, which ended so.
pub(crate) fn load_queued(
    domain: &Domain,
    task: &mut Task,
    poll: Poll,
    queued: Result<(), Worn>,
) -> PollTurn
    requires of { task.old.domain ≡ domain.now }
    requires poll { IsPoll poll }
    requires at { IsPollUnderWay poll task.old (turn.Again (stage.Load queued)) }
    ensures of { task.new.domain ≡ domain.now }
    ensures goes { GoesFrom poll task.old task.new HEADS (stage.Load queued) result }
{
    let loads = load_both(domain, task, poll);
    if let Some(ready) = poll.ready(loads) {
        return Turn::Again(PollStage::TakeFirst(PollUntil::Over(Ok(ready))));
    }
    match queued {
        Err(worn) => {
            let end = PollEnd::Worn {
                head: worn.head,
                place: worn.place,
            };
            Turn::Again(PollStage::TakeFirst(PollUntil::Over(Err(end))))
        }
        Ok(()) => {
            if poll.state.looks() {
                return Turn::Again(PollStage::Ask(loads));
            }
            Turn::Again(PollStage::Sleep(FailedTries::none()))
        }
    }
}

/// The look for a signal behind the loads.
pub(crate) fn ask(domain: &Domain, task: &mut Task, poll: Poll, loads: Loads) -> PollTurn
    requires of { task.old.domain ≡ domain.now }
    requires poll { IsPoll poll }
    requires at { IsPollUnderWay poll task.old (turn.Again (stage.Ask loads)) }
    ensures of { task.new.domain ≡ domain.now }
    ensures goes { GoesFrom poll task.old task.new HEADS (stage.Ask loads) result }
{
    let own = load_own(domain, task);
    if pending_state(poll.state.mask(), own) {
        let end = PollEnd::Signal {
            first: loads.first,
            second: loads.second,
        };
        return Turn::Again(PollStage::TakeFirst(PollUntil::Over(Err(end))));
    }
    Turn::Again(PollStage::Sleep(FailedTries::none()))
}

/// One try to sleep. Where the own word changed meanwhile it is made again in the next stretch.
pub(crate) fn sleep(domain: &Domain, task: &mut Task, poll: Poll, failed: FailedTries) -> PollTurn
    requires of { task.old.domain ≡ domain.now }
    requires poll { IsPoll poll }
    requires at { IsPollUnderWay poll task.old (turn.Again (stage.Sleep failed)) }
    ensures of { task.new.domain ≡ domain.now }
    ensures goes { GoesFrom poll task.old task.new HEADS (stage.Sleep failed) result }
{
    let _ = poll;
    let mut tries = failed;
    match sleep_try(domain, task, &mut tries) {
        None => Turn::Again(PollStage::Sleep(tries)),
        Some(Sleep::Asleep) => Turn::Asleep(PollStage::QueueFirst),
        Some(Sleep::Stay) => Turn::Again(PollStage::QueueFirst),
        Some(Sleep::Signal) => Turn::Again(PollStage::QueueFirst),
    }
}

/// The loads of a wait that was asked to leave: it is ready where one finds its condition set, and else it is left.
pub(crate) fn load_last(domain: &Domain, task: &mut Task, poll: Poll) -> PollTurn
    requires of { task.old.domain ≡ domain.now }
    requires poll { IsPoll poll }
    requires at { (start : _) × IsOnTurn poll start task.old }
    ensures of { task.new.domain ≡ domain.now }
    ensures came { (start : _) → IsOnTurn poll start task.old → IsPolling true poll start task.new result }
    ensures did { (s : _) → DidStretch poll task.old task.new HEADS s result }
{
    let loads = load_both(domain, task, poll);
    match poll.ready(loads) {
        Some(ready) => Turn::Again(PollStage::TakeFirst(PollUntil::Over(Ok(ready)))),
        None => {
            let end = PollUntil::Left {
                first: loads.first,
                second: loads.second,
            };
            Turn::Again(PollStage::TakeFirst(end))
        }
    }
}

/// Whether a wait that is asked to leave at this stage makes its last loads there.
pub(crate) fn leaves_at(stage: PollStage) -> bool
    ensures { result ≡ leaves_at stage }
{
    match stage {
        PollStage::QueueFirst => true,
        PollStage::QueueSecond => true,
        PollStage::Load(Ok(())) => true,
        PollStage::Ask(_) => true,
        PollStage::Sleep(_) => true,
        _ => false,
    }
}
