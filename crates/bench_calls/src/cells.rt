//! Calls of completions, by a task that has left no entry at any.

ghost use Rattle.wait_rule.specs.Says.{RestsIn};

use crate::names::Call;
use completion_cell::asks::try_wait;
use completion_cell::await_calls::wait_for;
use completion_cell::completes::complete;
use std::sync::Wait;
use wait_model::tasks::SleepState;
use wait_rule::{Domain, Task};

/// The completion.
const CELL: u8 = 0;

/// Completes it for one waiter.
fn complete_one<R: Wait>(rt: &R, domain: &Domain, task: &mut Task)
    requires rests { RestsIn domain.now task.old }
    ensures rests { RestsIn domain.now task.new }
{
    complete(rt, domain, task, CELL);
}

/// Waits for one, and takes it: true where it took one.
fn wait_for_one<R: Wait>(rt: &R, domain: &Domain, task: &mut Task) -> bool
    requires rests { RestsIn domain.now task.old }
    ensures rests { RestsIn domain.now task.new }
{
    wait_for(rt, domain, task, CELL, SleepState::Uninterruptible).is_ok()
}

/// Takes one where one is there.
fn take_one<R: Wait>(rt: &R, domain: &Domain, task: &mut Task) -> bool
    requires rests { RestsIn domain.now task.old }
    ensures rests { RestsIn domain.now task.new }
{
    try_wait(rt, domain, task, CELL)
}

/// Completes it, and takes what it completed, as the call says: true where it took one, if it was to.
fn once<R: Wait>(rt: &R, domain: &Domain, task: &mut Task, call: Call) -> bool
    requires rests { RestsIn domain.now task.old }
    ensures rests { RestsIn domain.now task.new }
{
    complete_one(rt, domain, task);
    match call {
        Call::CompleteWait => wait_for_one(rt, domain, task),
        Call::CompleteTry => take_one(rt, domain, task),
        _ => true,
    }
}

/// The same `n` times: true where each took one, if it was to.
pub(crate) fn repeat_cell<R: Wait>(
    rt: &R,
    domain: &Domain,
    task: &mut Task,
    call: Call,
    n: u64,
) -> bool
    requires rests { RestsIn domain.now task.old }
{
    let mut all = true;
    for _ in 0..n {
        if !once(rt, domain, task, call) {
            all = false;
        }
    }
    all
}
