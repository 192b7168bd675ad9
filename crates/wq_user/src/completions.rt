//! A task that waits for completion 0, and one that completes it: each owes nothing after it, and is taken in.

ghost use Rattle.wait_rule.specs.Says.{RestsIn};
ghost use Rattle.wq_user.specs.Joining.{IsUpIn};

use completion_cell::asks::{is_done, reinit, try_wait};
use completion_cell::await_calls::wait_for;
use completion_cell::completes::{complete, complete_all};
use std::sync::Wait;
use wait_model::tasks::SleepState;
use wait_rule::{Domain, Task};

/// The completion.
const CELL: u8 = 0;

/// Completes it for one waiter.
pub fn complete_one<R: Wait>(rt: &R, domain: &Domain, task: &mut Task)
    requires rests { RestsIn domain.now task.old }
    ensures rests { RestsIn domain.now task.new }
{
    complete(rt, domain, task, CELL);
}

/// Completes it for all, clears it, and says whether it is done then.
pub fn complete_and_clear<R: Wait>(rt: &R, domain: &Domain, task: &mut Task) -> bool
    requires rests { RestsIn domain.now task.old }
    ensures rests { RestsIn domain.now task.new }
{
    complete_all(rt, domain, task, CELL);
    reinit(rt, domain, task, CELL);
    is_done(rt, domain, task, CELL)
}

/// Waits until it is done, and takes one: true where it took one, and false where a signal ended the wait, or no place
/// was left.
pub fn wait_for_one<R: Wait>(rt: &R, domain: &Domain, task: &mut Task, state: SleepState) -> bool
    requires rests { RestsIn domain.now task.old }
    ensures rests { RestsIn domain.now task.new }
{
    wait_for(rt, domain, task, CELL, state).is_ok()
}

/// Takes one where one is there.
pub fn take_one<R: Wait>(rt: &R, domain: &Domain, task: &mut Task) -> bool
    requires rests { RestsIn domain.now task.old }
    ensures rests { RestsIn domain.now task.new }
{
    try_wait(rt, domain, task, CELL)
}

/// Waits for one, and then is taken in by another task.
pub fn take_and_join<R: Wait>(rt: &R, domain: &Domain, into: &mut Task, mut task: Task) -> bool
    requires into { IsUpIn domain.now into.old }
    requires rests { RestsIn domain.now task }
    ensures into { IsUpIn domain.now into.new }
{
    let took = wait_for_one(rt, domain, &mut task, SleepState::Killable);
    into.join(domain, task);
    took
}

/// Completes it for one, and then is taken in by another task.
pub fn complete_and_join<R: Wait>(rt: &R, domain: &Domain, into: &mut Task, mut task: Task)
    requires into { IsUpIn domain.now into.old }
    requires rests { RestsIn domain.now task }
    ensures into { IsUpIn domain.now into.new }
{
    complete_one(rt, domain, &mut task);
    into.join(domain, task);
}
