//! A poll that is asked to leave, or gets a signal, at each moment.

ghost use Rattle.std.specs.Prelude.{◌≡◌};
ghost use Rattle.wait_rule.specs.Says.{IsClean};
ghost use Rattle.poll_wait.specs.Polls.{IsPoll};

use crate::calls::sets;
use crate::turns::go_often;
use poll_turns::{Poll, PollTurn, PollUntil, begin_poll};
use poll_wait::{PollEnd, Ready};
use std::sync::Wait;
use std::test::Fail;
use test_tasks::signals::signals;
use test_tasks::wants::{all_so, begin_two};
use wait_class::stages::Turn;
use wait_model::tasks::SleepState;
use wait_model::watches::Watch;
use wait_rule::{Domain, Task};

/// How many stretches a poll has before it is asleep, and more.
const MOMENTS: u32 = 12;

/// More turns than any poll has left.
const REST: u32 = 40;

/// The poll of the tests.
fn poll() -> Poll
    ensures { IsPoll result }
{
    Poll {
        first: Watch::Plain { cond: 3 },
        second: Watch::Var { var: 20, old: 0 },
        state: SleepState::Interruptible,
    }
}

/// Goes on `before` turns with a poll, then wakes it by a signal where it is asleep, and asks it to leave or does not: its
/// end. Where it `is_set` the condition is set before the signal.
fn end_at<R: Wait>(
    rt: &R,
    domain: &Domain,
    setter: &mut Task,
    task: &mut Task,
    before: u32,
    is_set: bool,
    asked: bool,
) -> PollTurn
    requires of { setter.old.domain ≡ domain.now }
    requires same { task.old.domain ≡ domain.now }
    requires setter { IsClean setter.old }
    requires clean { IsClean task.old }
    ensures of { setter.new.domain ≡ domain.now }
    ensures setter { IsClean setter.new }
{
    let waits = poll();
    let first = Turn::Again(begin_poll(task, waits));
    let at = go_often(domain, task, waits, first, false, before);
    if is_set {
        sets(rt, domain, setter, 3, 7);
    }
    let who = task.number();
    signals(rt, domain, setter, who, false);
    go_often(domain, task, waits, at, asked, REST)
}

/// How a poll ended that found neither condition set, or the first one.
#[derive(Clone, Copy)]
enum Ends {
    Left,
    Signalled,
    Ready,
}

/// Whether it ended so.
fn ended_so(end: PollTurn, wanted: Ends) -> bool {
    match end {
        Turn::Done(
            PollUntil::Left {
                first: 0,
                second: 0,
            },
        ) => matches!(wanted, Ends::Left),
        Turn::Done(
            PollUntil::Over(
                Err(
                    PollEnd::Signal {
                        first: 0,
                        second: 0,
                    },
                ),
            ),
        ) => matches!(wanted, Ends::Signalled),
        Turn::Done(PollUntil::Over(Ok(Ready::First { value: 7 }))) => {
            matches!(wanted, Ends::Ready)
        }
        _ => false,
    }
}

/// Where nothing is set a poll that is asked to leave at any moment is left, or was over by the signal that woke it; and
/// one that is asked behind the set is ready.
#[test]
fn at_each_moment_a_poll_may_be_left(rt: HostRuntime) -> Result<(), Fail> {
    for before in 0..MOMENTS {
        let (domain, mut setter, mut task) = begin_two(rt.alloc())?;
        let unset = end_at(&rt, &domain, &mut setter, &mut task, before, false, true);
        let mut other = setter.fork(&domain, 0)?;
        let set = end_at(&rt, &domain, &mut setter, &mut other, before, true, true);
        all_so(&[ended_so(unset, Ends::Left), ended_so(set, Ends::Ready)])?;
    }
    Ok(())
}

/// A signal at any moment ends a poll that finds neither condition set.
#[test]
fn at_each_moment_a_signal_ends_it(rt: HostRuntime) -> Result<(), Fail> {
    for before in 0..MOMENTS {
        let (domain, mut setter, mut task) = begin_two(rt.alloc())?;
        let end = end_at(&rt, &domain, &mut setter, &mut task, before, false, false);
        all_so(&[ended_so(end, Ends::Signalled)])?;
    }
    Ok(())
}
