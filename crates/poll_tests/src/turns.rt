//! Polls by stretches on one thread: one turn of such a poll, which others take turns with; orders of turns, and polls that
//! are left.

mod left;
mod orders;

ghost use Rattle.std.specs.Prelude.{◌≡◌};
ghost use Rattle.wait_rule.specs.PassedLocks.{PassesNone};
ghost use Rattle.wait_class.specs.declared.stages.Turn.TheVariants as turn;
ghost use Rattle.poll_wait.specs.Polls.{IsPoll};
ghost use Rattle.poll_turns.specs.PollTurns.{IsPollUnderWay};

use poll_turns::{Poll, PollStage, PollTurn, stretch_poll, stretch_poll_out, woke_poll};
use wait_class::stages::Turn;
use wait_rule::queues::Passing;
use wait_rule::{Domain, Task};

/// One stretch of a wait, which is asked to leave or not.
fn stretch(
    domain: &Domain,
    task: &mut Task,
    poll: Poll,
    stage: PollStage,
    asked: bool,
    passing: &mut Passing,
) -> PollTurn
    requires of { task.old.domain ≡ domain.now }
    requires poll { IsPoll poll }
    requires passes { PassesNone passing.old }
    requires waiting { IsPollUnderWay poll task.old (turn.Again stage) }
    ensures of { task.new.domain ≡ domain.now }
    ensures waiting { IsPollUnderWay poll task.new result }
{
    if asked {
        stretch_poll_out(domain, task, poll, stage, passing)
    } else {
        stretch_poll(domain, task, poll, stage, passing)
    }
}

/// One stretch, or a look whether it was woken.
fn turn(
    domain: &Domain,
    task: &mut Task,
    poll: Poll,
    last: PollTurn,
    asked: bool,
    passing: &mut Passing,
) -> PollTurn
    requires of { task.old.domain ≡ domain.now }
    requires poll { IsPoll poll }
    requires passes { PassesNone passing.old }
    requires waiting { IsPollUnderWay poll task.old last }
    ensures of { task.new.domain ≡ domain.now }
    ensures waiting { IsPollUnderWay poll task.new result }
{
    match last {
        Turn::Again(stage) => stretch(domain, task, poll, stage, asked, passing),
        Turn::Locked(stage) => stretch(domain, task, poll, stage, asked, passing),
        Turn::Asleep(stage) => {
            if woke_poll(domain, task, poll, stage) {
                Turn::Again(stage)
            } else {
                Turn::Asleep(stage)
            }
        }
        Turn::Done(end) => Turn::Done(end),
    }
}

/// Goes on with a wait by one stretch, or looks whether it was woken. Who parks for a lock that it passed on is woken.
pub(crate) fn go_on(
    domain: &Domain,
    task: &mut Task,
    poll: Poll,
    last: PollTurn,
    asked: bool,
) -> PollTurn
    requires of { task.old.domain ≡ domain.now }
    requires poll { IsPoll poll }
    requires waiting { IsPollUnderWay poll task.old last }
    ensures of { task.new.domain ≡ domain.now }
    ensures waiting { IsPollUnderWay poll task.new result }
{
    let mut passing = Passing::none();
    let next = turn(domain, task, poll, last, asked, &mut passing);
    passing.wake(domain);
    passing.end();
    next
}

/// Goes on by so many turns, where nobody else goes on.
pub(crate) fn go_often(
    domain: &Domain,
    task: &mut Task,
    poll: Poll,
    last: PollTurn,
    asked: bool,
    turns: u32,
) -> PollTurn
    requires of { task.old.domain ≡ domain.now }
    requires poll { IsPoll poll }
    requires waiting { IsPollUnderWay poll task.old last }
    ensures of { task.new.domain ≡ domain.now }
    ensures waiting { IsPollUnderWay poll task.new result }
{
    let mut at = last;
    for _ in 0..turns {
        at = go_on(domain, task, poll, at, asked);
    }
    at
}
