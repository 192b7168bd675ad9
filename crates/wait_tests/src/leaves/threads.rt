//! Waits that are asked to leave in threads of their own, again and again, in Domains whose tasks park at once when they
//! are put asleep.

ghost use Rattle.wait_rule.specs.Says.{RestsIn};

use crate::events::threads::set;
use crate::leaves::conditions::{set_one, take};
use crate::meetings::rows::{PASSED_WAKE, SLEEPERS};
use crate::meetings::{ROUNDS, Shared, meet_often};
use std::sync::Wait;
use std::test::Fail;
use swait_queue::{swait_event_until, swake_one};
use var_wait::wait_var_until;
use wait_event::{WaitEnd, WaitUntil, wait_event, wait_event_until};
use wait_model::layout::{CLAIMS, FIRST_SIMPLE};
use wait_model::tasks::{How, SleepState};
use wait_rule::{Domain, Task};

/// The first condition with a simple head, and the first variable that belongs to no pipe.
const SIMPLE: u8 = FIRST_SIMPLE as u8;

const VAR: u8 = CLAIMS as u8;

/// How each of the exclusive waits waits.
const HOW: How = How {
    state: SleepState::Uninterruptible,
    exclusive: true,
};

/// What is left.
#[derive(Clone, Copy)]
pub(crate) enum Left {
    Plain,
    Simple,
    Variable,
}

/// Waits until it has the condition, or is asked to leave: passes on what it has. True where it saw the condition set,
/// or was left with the condition not set.
pub(crate) fn passes_on<R: Wait>(rt: &R, domain: &Domain, task: &mut Task, shared: &Shared) -> bool
    requires rests { RestsIn domain.now task.old }
    ensures rests { RestsIn domain.now task.new }
{
    match wait_event_until(rt, domain, task, 0, HOW, || shared.asks()) {
        WaitUntil::Over(Ok(())) => {
            if take(domain, task, 0) != 0 {
                set_one(rt, domain, task, 0, 1);
            }
            true
        }
        WaitUntil::Over(Err(_)) => false,
        WaitUntil::Left { seen, selected: _ } => seen == 0,
    }
}

/// Waits until it has the condition.
pub(crate) fn take_it<R: Wait>(rt: &R, domain: &Domain, task: &mut Task) -> bool
    requires rests { RestsIn domain.now task.old }
    ensures rests { RestsIn domain.now task.new }
{
    for _ in rt.forever() {
        if wait_event(rt, domain, task, 0, HOW).is_err() {
            return false;
        }
        if take(domain, task, 0) != 0 {
            return true;
        }
    }
    unreachable!()
}

/// Waits for what nobody sets, and leaves once it is asked: whether it was left, with that not set.
pub(crate) fn leave<R: Wait>(
    rt: &R,
    domain: &Domain,
    task: &mut Task,
    shared: &Shared,
    left: Left,
) -> bool
    requires rests { RestsIn domain.now task.old }
    ensures rests { RestsIn domain.now task.new }
{
    let state = SleepState::Uninterruptible;
    let asks = || shared.asks();
    match left {
        Left::Plain => is_left(wait_event_until(rt, domain, task, 0, HOW, asks)),
        Left::Simple => is_left(swait_event_until(rt, domain, task, SIMPLE, state, asks)),
        Left::Variable => is_left(wait_var_until(rt, domain, task, VAR, 0, state, asks)),
    }
}

/// Whether a wait was left that nobody woke, with 0 in what it waited for.
fn is_left<A: Drop>(end: WaitUntil<Result<A, WaitEnd>>) -> bool {
    matches!(
        end,
        WaitUntil::Left {
            seen: 0,
            selected: false
        }
    )
}

/// Whether nobody waits for the conditions that waits were left for.
pub(crate) fn nobody_waits<R: Wait>(rt: &R, domain: &Domain, task: &mut Task) -> bool
    requires rests { RestsIn domain.now task.old }
{
    let one = swake_one(rt, domain, task, SIMPLE);
    let walked = set(rt, domain, task, 0);
    !one && walked.woken == 0
}

/// Whenever the wait is asked to leave, the second waiter comes to its condition, which is set for one: it is not lost
/// with the wait that was left.
#[test]
fn left_waiter_passes_its_wake(rt: HostRuntime) -> Result<(), Fail> {
    meet_often(&rt, rt.alloc(), ROUNDS, PASSED_WAKE)
}

/// A wait for what nobody sets is left once it is asked, from its sleep too; nobody waits then.
#[test]
fn waits_are_left_from_their_sleep(rt: HostRuntime) -> Result<(), Fail> {
    meet_often(&rt, rt.alloc(), ROUNDS / 3, SLEEPERS)
}
