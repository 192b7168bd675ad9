//! Holds of a head in which nothing is queued, and wakes, by a task that owes nothing.

ghost use Rattle.std.specs.Prelude.{◌<◌};
ghost use Rattle.wait_model.specs.declared.layout.TheConstants.{FIRST_DONE_HEAD};
ghost use Rattle.wait_rule.specs.Says.{RestsIn};
ghost use Rattle.wq_user.specs.Joining.{IsUpIn};

use std::sync::Wait;
use wait_model::watches::{Mode, Watch};
use wait_rule::queues::publish;
use wait_rule::{Domain, Task};
use wq_head::locks::give_back;
use wq_head::{has_members, lock, unlock, wake};

/// Takes the lock of head `head`, which is none of a completion, and gives it back. The task owes nothing before and
/// after it.
pub fn pass<R: Wait>(rt: &R, domain: &Domain, task: &mut Task, head: u16)
    requires rests { RestsIn domain.now task.old }
    requires head { head < FIRST_DONE_HEAD }
    ensures rests { RestsIn domain.now task.new }
{
    lock(rt, domain, task, head);
    unlock(rt, domain, task, false);
}

/// The same, where the wake of who parks for the lock is a step of its own.
pub fn pass_in_parts<R: Wait>(rt: &R, domain: &Domain, task: &mut Task, head: u16)
    requires rests { RestsIn domain.now task.old }
    requires head { head < FIRST_DONE_HEAD }
    ensures rests { RestsIn domain.now task.new }
{
    lock(rt, domain, task, head);
    give_back(domain, task, false).wake(domain);
}

/// Says whether head `head`, which is none of a completion, has members.
pub fn look<R: Wait>(rt: &R, domain: &Domain, task: &mut Task, head: u16) -> bool
    requires rests { RestsIn domain.now task.old }
    requires head { head < FIRST_DONE_HEAD }
    ensures rests { RestsIn domain.now task.new }
{
    lock(rt, domain, task, head);
    let has = has_members(domain, task, head);
    unlock(rt, domain, task, false);
    has
}

/// Sets condition 0 and wakes all who wait for it: how many were woken.
pub fn set_and_wake<R: Wait>(rt: &R, domain: &Domain, task: &mut Task) -> u32
    requires rests { RestsIn domain.now task.old }
    ensures rests { RestsIn domain.now task.new }
{
    let watch = Watch::Plain { cond: 0 };
    publish(domain, task, watch, 1);
    wake(rt, domain, task, watch, Mode::Normal, 0).woken
}

/// Passes through a hold of head `head`, which is none of a completion, and then sets condition 0 and wakes all who
/// wait for it.
pub fn pass_and_wake<R: Wait>(rt: &R, domain: &Domain, task: &mut Task, head: u16) -> u32
    requires rests { RestsIn domain.now task.old }
    requires head { head < FIRST_DONE_HEAD }
    ensures rests { RestsIn domain.now task.new }
{
    pass(rt, domain, task, head);
    set_and_wake(rt, domain, task)
}

/// Sets condition 0, wakes all who wait for it, and is taken in by another task.
pub fn wake_and_join<R: Wait>(rt: &R, domain: &Domain, into: &mut Task, task: Task) -> u32
    requires into { IsUpIn domain.now into.old }
    requires rests { RestsIn domain.now task }
    ensures into { IsUpIn domain.now into.new }
{
    let mut task = task;
    let woken = set_and_wake(rt, domain, &mut task);
    into.join(domain, task);
    woken
}
