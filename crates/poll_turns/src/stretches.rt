//! Waits for two conditions, by stretches, for who may not wait.

ghost use Rattle.std.specs.Prelude.{◌≡◌, MatchBool, false, true};
ghost use Rattle.wait_rule.specs.{PassedLocks.PassesNone, Queues.IsIdle, Says.IsClean, Says.IsUp, Stays.Carries};
ghost use Rattle.wait_class.specs.{Posts.IsOut, Tables.LooksAwake, Tables.SleepsNot};
ghost use Rattle.wait_class.specs.declared.stages.Turn.TheVariants as turn;
ghost use Rattle.poll_wait.specs.Polls.{EndsPoll, IsPoll, StaysBesidePoll, poll_change};
ghost use Rattle.poll_wait.specs.Seconds.{IsSecondOut};
ghost use Rattle.poll_turns.specs.declared.stages.PollUntil.TheVariants as until;
ghost use Rattle.poll_turns.specs.{PollShows.DidStretch, PollSteps.GoesFrom};
ghost use Rattle.poll_turns.specs.PollTurns.{EndsPollUntil, IsPollUnderWay, IsPolling};

use crate::asking::{ask, leaves_at, load_first, load_last, load_queued, sleep};
use crate::stages::{PollStage, PollTurn, PollUntil};
use crate::taking::{take_first, take_second};
use crate::tickets::hold;
use poll_wait::turns::Poll;
use poll_wait::{PollEnd, Ready};
use wait_model::heads::head_of;
use wait_rule::queues::Passing;
use wait_rule::tasks::awake;
use wait_rule::{Domain, Task};
use wq_head::lock_turns::draw_lock;

/// A wait for two conditions that is about to begin, as `poll_two` does: `stretch_poll` goes on with it there, or
/// `stretch_poll_out`, and `end_poll` or `end_poll_until` has what holds at its end. The task is idle and has neither
/// entry queued. It makes no step.
pub fn begin_poll(task: &Task, poll: Poll) -> PollStage
    requires up { IsUp task.now }
    requires idle { IsIdle task.now }
    requires poll { IsPoll poll }
    requires out { IsOut task.now }
    requires out_second { IsSecondOut task.now }
    ensures stands { IsPollUnderWay poll task.now (turn.Again result) }
    ensures came { (b : _) → IsPolling b poll task.now task.now (turn.Again result) }
{
    let _ = poll;
    task.told();
    PollStage::First
}

/// Goes on with a wait for two conditions by one stretch, up to the next point at which no head is held. Again: it goes
/// on there at once, by the next call. Locked: the ticket of a head is not served yet, and it goes on there when another
/// number of that head is served. Asleep: it was put asleep, and goes on there once `woke_poll` has answered true. Done:
/// it is over, with the answer of `poll_two`. It wakes no thread: `passing` has the lock that it gave back, or none.
pub fn stretch_poll(
    domain: &Domain,
    task: &mut Task,
    poll: Poll,
    stage: PollStage,
    passing: &mut Passing,
) -> PollTurn
    requires of { task.old.domain ≡ domain.now }
    requires poll { IsPoll poll }
    requires passes { PassesNone passing.old }
    requires at { IsPollUnderWay poll task.old (turn.Again stage) }
    ensures of { task.new.domain ≡ domain.now }
    ensures stands { IsPollUnderWay poll task.new result }
    ensures came { (b : _) → (start : _) → IsPolling b poll start task.old (turn.Again stage)
        → IsPolling b poll start task.new result }
    ensures did { DidStretch poll task.old task.new passing.new.head stage result }
{
    go_on(domain, task, poll, stage, passing)
}

/// The stretch of this stage.
#[inline(always)]
fn go_on(
    domain: &Domain,
    task: &mut Task,
    poll: Poll,
    stage: PollStage,
    passing: &mut Passing,
) -> PollTurn
    requires of { task.old.domain ≡ domain.now }
    requires poll { IsPoll poll }
    requires passes { PassesNone passing.old }
    requires at { IsPollUnderWay poll task.old (turn.Again stage) }
    ensures of { task.new.domain ≡ domain.now }
    ensures goes { GoesFrom poll task.old task.new passing.new.head stage result }
{
    task.told();
    match stage {
        PollStage::First => load_first(domain, task, poll),
        PollStage::QueueFirst => {
            let head = head_of(poll.first);
            let ticket = draw_lock(domain, task, head);
            let drawn = PollStage::HoldFirst(ticket);
            hold(domain, task, poll, drawn, head, ticket, passing)
        }
        PollStage::HoldFirst(ticket) => {
            let head = head_of(poll.first);
            hold(domain, task, poll, stage, head, ticket, passing)
        }
        PollStage::QueueSecond => {
            let head = head_of(poll.second);
            let ticket = draw_lock(domain, task, head);
            let drawn = PollStage::HoldSecond(ticket);
            hold(domain, task, poll, drawn, head, ticket, passing)
        }
        PollStage::HoldSecond(ticket) => {
            let head = head_of(poll.second);
            hold(domain, task, poll, stage, head, ticket, passing)
        }
        PollStage::Load(queued) => load_queued(domain, task, poll, queued),
        PollStage::Ask(loads) => ask(domain, task, poll, loads),
        PollStage::Sleep(failed) => sleep(domain, task, poll, failed),
        PollStage::TakeFirst(end) => take_first(domain, task, poll, end),
        PollStage::HoldTakeFirst(_, head, ticket) => {
            hold(domain, task, poll, stage, head, ticket, passing)
        }
        PollStage::TakeSecond(end) => take_second(domain, task, poll, end),
        PollStage::HoldTakeSecond(_, head, ticket) => {
            hold(domain, task, poll, stage, head, ticket, passing)
        }
    }
}

/// Goes on by one stretch with a wait for two conditions that is asked to leave. Between two holds of a turn, and before
/// it sleeps, it loads both conditions once more, and then takes both entries off: it ends ready where one is set, and
/// else left. Where it is before its first loads, holds a ticket, found no place, or has its answer, the stretch is that
/// of `stretch_poll`. It never sleeps.
pub fn stretch_poll_out(
    domain: &Domain,
    task: &mut Task,
    poll: Poll,
    stage: PollStage,
    passing: &mut Passing,
) -> PollTurn
    requires of { task.old.domain ≡ domain.now }
    requires poll { IsPoll poll }
    requires passes { PassesNone passing.old }
    requires at { IsPollUnderWay poll task.old (turn.Again stage) }
    ensures of { task.new.domain ≡ domain.now }
    ensures stands { IsPollUnderWay poll task.new result }
    ensures came { (start : _) → IsPolling true poll start task.old (turn.Again stage)
        → IsPolling true poll start task.new result }
    ensures did { DidStretch poll task.old task.new passing.new.head stage result }
    ensures awake { SleepsNot task.old task.new }
{
    if leaves_at(stage) {
        return load_last(domain, task, poll);
    }
    stretch_poll(domain, task, poll, stage, passing)
}

/// Looks whether a wait for two conditions that was put asleep was woken: true where it may go on at `stage`.
pub fn woke_poll(domain: &Domain, task: &mut Task, poll: Poll, stage: PollStage) -> bool
    requires of { task.old.domain ≡ domain.now }
    requires poll { IsPoll poll }
    requires asleep { IsPollUnderWay poll task.old (turn.Asleep stage) }
    ensures of { task.new.domain ≡ domain.now }
    ensures looked { LooksAwake task.old task.new result }
    ensures stands { MatchBool result (IsPollUnderWay poll task.new (turn.Again stage))
        (IsPollUnderWay poll task.new (turn.Asleep stage)) }
    ensures came { (b : _) → (start : _) → IsPolling b poll start task.old (turn.Asleep stage)
        → MatchBool result (IsPolling b poll start task.new (turn.Again stage))
        (IsPolling b poll start task.new (turn.Asleep stage)) }
{
    let _ = poll;
    let _ = stage;
    awake(domain, task)
}

/// The answer of a wait for two conditions that went on by stretches, was never asked to leave, and is over. Of one that
/// began at `start` holds what `poll_two` says.
pub fn end_poll(task: &Task, poll: Poll, end: PollUntil) -> Result<Ready, PollEnd>
    requires over { (start : _) × IsPolling false poll start task.now (turn.Done end) }
    ensures is { end ≡ until.Over result }
    ensures up { IsUp task.now }
    ensures idle { IsIdle task.now }
    ensures out { IsOut task.now }
    ensures out_second { IsSecondOut task.now }
    ensures ends { (start : _) → IsPolling false poll start task.now (turn.Done end) → EndsPoll poll start task.now result }
    ensures carries { (start : _) → IsPolling false poll start task.now (turn.Done end)
        → Carries (poll_change start.view.number task.now.at) start task.now }
    ensures beside { (start : _) → IsPolling false poll start task.now (turn.Done end) → StaysBesidePoll start task.now }
    ensures clean { (start : _) → IsPolling false poll start task.now (turn.Done end) → IsClean start
        → IsClean task.now }
{
    let _ = *task;
    let _ = poll;
    match end {
        PollUntil::Over(answer) => answer,
        PollUntil::Left { .. } => unreachable!(),
    }
}

/// The answer of a wait for two conditions that went on by stretches, may have been asked to leave, and is over.
pub fn end_poll_until(task: &Task, poll: Poll, end: PollUntil) -> PollUntil
    requires over { (start : _) × IsPolling true poll start task.now (turn.Done end) }
    ensures is { result ≡ end }
    ensures up { IsUp task.now }
    ensures idle { IsIdle task.now }
    ensures out { IsOut task.now }
    ensures out_second { IsSecondOut task.now }
    ensures ends { (start : _) → IsPolling true poll start task.now (turn.Done end)
        → EndsPollUntil (Unit {0}) poll start task.now result }
    ensures carries { (start : _) → IsPolling true poll start task.now (turn.Done end)
        → Carries (poll_change start.view.number task.now.at) start task.now }
    ensures beside { (start : _) → IsPolling true poll start task.now (turn.Done end) → StaysBesidePoll start task.now }
    ensures clean { (start : _) → IsPolling true poll start task.now (turn.Done end) → IsClean start
        → IsClean task.now }
{
    let _ = *task;
    let _ = poll;
    end
}
