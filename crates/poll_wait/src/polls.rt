//! The wait for two conditions as a whole call.

ghost use Rattle.std.specs.Prelude.{◌≡◌};
ghost use Rattle.wait_rule.specs.{Queues.IsIdle, Says.IsUp, Stays.Carries};
ghost use Rattle.wait_class.specs.Posts.{IsOut};
ghost use Rattle.poll_wait.specs.{Seconds.IsPolled, Seconds.IsSecondOut, TurnSteps.EndsSo};
ghost use Rattle.poll_wait.specs.Polls.{EndsPoll, EndsTurns, IsPoll, MayTurn, StaysBesidePoll, poll_change};

use crate::turns::{Poll, PollEnd, Ready, load_both, turn};
use std::sync::Wait;
use wait_model::tasks::SleepState;
use wait_model::watches::Watch;
use wait_rule::{Domain, Task};

/// The turns of a poll, behind its first loads.
fn poll_on<R: Wait>(rt: &R, domain: &Domain, task: &mut Task, poll: Poll) -> Result<Ready, PollEnd>
    requires of { task.old.domain ≡ domain.now }
    requires poll { IsPoll poll }
    requires may { MayTurn poll task.old }
    ensures goes { EndsTurns poll task.old task.new result }
    ensures ends { EndsSo poll task.old task.new (Some result) }
{
    for _ in rt.forever() {
        match turn(rt, domain, task, poll) {
            None => {}
            Some(end) => return end,
        }
    }
    unreachable!()
}

/// Waits until one of two conditions is set, with an entry queued for each (fs/select.c, `do_poll`, and fs/eventpoll.c,
/// `ep_poll`, over the `poll_wait` of two wait queues): a plain condition below `FIRST_SIMPLE`, set where its value is
/// another than 0, or a variable, set where its value is another than the one that was seen. Both loads come first, and
/// the call is over where one finds its condition set. Else it goes on in turns: it queues the entry of slot 0 for the
/// first and stores the state, as `wait_event` does; queues that of slot 1 for the second; loads both again; looks for
/// a signal, where the state admits any; and sleeps. At its end it stores RUNNING, and takes both entries off.
///
/// First comes exactly where the last load of the first condition found it set, with what it found; Second exactly
/// where that did not and the last load of the second one found it set. Signal: the look behind the last loads showed a
/// signal that the state admits, and these loads, which it carries, found neither set. Worn: no place was left for one
/// of the entries at its head, where a member stands at `place`, and the loads after that found neither set.
///
/// The task is idle and has neither entry queued, and so it is afterwards; it owes what it owed. It takes no memory.
pub fn poll_two<R: Wait>(
    rt: &R,
    domain: &Domain,
    task: &mut Task,
    first: Watch,
    second: Watch,
    state: SleepState,
) -> Result<Ready, PollEnd>
    requires of { task.old.domain ≡ domain.now }
    requires up { IsUp task.old }
    requires idle { IsIdle task.old }
    requires first { IsPolled first }
    requires second { IsPolled second }
    requires out { IsOut task.old }
    requires out_second { IsSecondOut task.old }
    ensures ends { EndsPoll (record { first = first; second = second; state = state }) task.old task.new result }
    ensures up { IsUp task.new }
    ensures idle { IsIdle task.new }
    ensures out { IsOut task.new }
    ensures out_second { IsSecondOut task.new }
    ensures carries { Carries (poll_change task.old.view.number task.new.at) task.old task.new }
    ensures beside { StaysBesidePoll task.old task.new }
{
    task.told();
    let poll = Poll {
        first,
        second,
        state,
    };
    let loads = load_both(domain, task, poll);
    match poll.ready(loads) {
        Some(ready) => Ok(ready),
        None => poll_on(rt, domain, task, poll),
    }
}
