//! The calls that are timed, by a task that owes nothing before and after each.

ghost use Rattle.std.specs.Prelude.{◌<◌};
ghost use Rattle.wait_model.specs.declared.layout.TheConstants.{COMPLETIONS, FIRST_SIMPLE};
ghost use Rattle.wait_rule.specs.Says.{RestsIn};

use completion_cell::await_calls;
use completion_cell::completes::complete;
use count_sem::{down, up};
use std::sync::Wait;
use wait_event::conds::{set_and_wake, take_cond};
use wait_event::wait_events::wait_event;
use wait_model::tasks::{How, SleepState};
use wait_model::watches::Mode;
use wait_rule::{Domain, Task};

/// In which state a task waits.
const STATE: SleepState = SleepState::Uninterruptible;

/// Waits until condition `cond`, below `FIRST_SIMPLE`, is set: false where the wait ended for another reason.
pub(crate) fn wait_for<R: Wait>(rt: &R, domain: &Domain, task: &mut Task, cond: u8) -> bool
    requires rests { RestsIn domain.now task.old }
    requires full { cond < FIRST_SIMPLE }
    ensures rests { RestsIn domain.now task.new }
{
    let how = How {
        state: STATE,
        exclusive: false,
    };
    wait_event(rt, domain, task, cond, how).is_ok()
}

/// The same, and takes the condition.
pub(crate) fn receive<R: Wait>(rt: &R, domain: &Domain, task: &mut Task, cond: u8) -> bool
    requires rests { RestsIn domain.now task.old }
    requires full { cond < FIRST_SIMPLE }
    ensures rests { RestsIn domain.now task.new }
{
    let over = wait_for(rt, domain, task, cond);
    take_cond(domain, task, cond);
    over
}

/// Sets condition `cond`, below `FIRST_SIMPLE`, and wakes all who wait for it: how many were woken.
pub(crate) fn set<R: Wait>(rt: &R, domain: &Domain, task: &mut Task, cond: u8) -> u32
    requires rests { RestsIn domain.now task.old }
    requires full { cond < FIRST_SIMPLE }
    ensures rests { RestsIn domain.now task.new }
{
    set_and_wake(rt, domain, task, cond, 1, Mode::Normal, 0).woken
}

/// By which calls one thread tells another that it may go on.
#[derive(Clone, Copy)]
pub(crate) enum Means {
    /// A plain condition that is set, and waited for and taken.
    Condition,
    /// A completion that is completed, and waited for.
    Completion,
    /// A semaphore of which a permit is given back, and taken.
    Semaphore,
}

/// Tells whoever waits for condition, completion or semaphore `number` to go on.
pub(crate) fn tell<R: Wait>(rt: &R, domain: &Domain, task: &mut Task, means: Means, number: u8)
    requires rests { RestsIn domain.now task.old }
    requires full { number < FIRST_SIMPLE }
    requires cell { number < COMPLETIONS }
    ensures rests { RestsIn domain.now task.new }
{
    match means {
        Means::Condition => {
            set(rt, domain, task, number);
        }
        Means::Completion => {
            complete(rt, domain, task, number);
        }
        Means::Semaphore => {
            let _ = up(rt, domain, task, number);
        }
    }
}

/// Waits until it is told by condition, completion or semaphore `number`: false where the wait ended for another reason.
pub(crate) fn hear<R: Wait>(
    rt: &R,
    domain: &Domain,
    task: &mut Task,
    means: Means,
    number: u8,
) -> bool
    requires rests { RestsIn domain.now task.old }
    requires full { number < FIRST_SIMPLE }
    requires cell { number < COMPLETIONS }
    ensures rests { RestsIn domain.now task.new }
{
    match means {
        Means::Condition => receive(rt, domain, task, number),
        Means::Completion => await_calls::wait_for(rt, domain, task, number, STATE).is_ok(),
        Means::Semaphore => down(rt, domain, task, number, STATE).is_ok(),
    }
}
