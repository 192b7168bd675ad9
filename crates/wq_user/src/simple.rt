//! A task that waits in the simple queue of the first condition that has one, and one that wakes there: each owes
//! nothing after it, and is taken in.

ghost use Rattle.wait_rule.specs.Says.{RestsIn};
ghost use Rattle.wq_user.specs.Joining.{IsUpIn};

use std::sync::Wait;
use swait_queue::{swait_event, swake_all, swake_all_locked, swake_locked, swake_one};
use wait_model::layout::{FIRST_SIMPLE, FIRST_SIMPLE_HEAD};
use wait_model::tasks::SleepState;
use wait_model::watches::Watch;
use wait_rule::queues::publish;
use wait_rule::{Domain, Task};
use wq_head::{lock, unlock};

/// The condition, and its head.
const COND: u8 = FIRST_SIMPLE as u8;

const HEAD: u16 = FIRST_SIMPLE_HEAD;

/// Waits until the condition is set: true where it was, and false where no place was left.
pub fn swait<R: Wait>(rt: &R, domain: &Domain, task: &mut Task) -> bool
    requires rests { RestsIn domain.now task.old }
    ensures rests { RestsIn domain.now task.new }
{
    swait_event(rt, domain, task, COND, SleepState::Uninterruptible).is_ok()
}

/// Sets the condition, and wakes the first who waits for it: whether there was one.
pub fn set_and_swake<R: Wait>(rt: &R, domain: &Domain, task: &mut Task) -> bool
    requires rests { RestsIn domain.now task.old }
    ensures rests { RestsIn domain.now task.new }
{
    publish(domain, task, Watch::Plain { cond: COND }, 1);
    swake_one(rt, domain, task, COND)
}

/// Sets the condition, and wakes all who wait for it: how many they were.
pub fn set_and_swake_all<R: Wait>(rt: &R, domain: &Domain, task: &mut Task) -> u32
    requires rests { RestsIn domain.now task.old }
    ensures rests { RestsIn domain.now task.new }
{
    publish(domain, task, Watch::Plain { cond: COND }, 1);
    swake_all(rt, domain, task, COND)
}

/// Wakes the first who waits, with nothing set before: whether there was one.
pub fn swake<R: Wait>(rt: &R, domain: &Domain, task: &mut Task) -> bool
    requires rests { RestsIn domain.now task.old }
    ensures rests { RestsIn domain.now task.new }
{
    swake_one(rt, domain, task, COND)
}

/// Wakes all who wait, with nothing set before, in a hold in which it wakes the first: whether there was one, and how
/// many more.
pub fn swake_in_hold<R: Wait>(rt: &R, domain: &Domain, task: &mut Task) -> (bool, u32)
    requires rests { RestsIn domain.now task.old }
    ensures rests { RestsIn domain.now task.new }
{
    lock(rt, domain, task, HEAD);
    let first = swake_locked(rt, domain, task, HEAD);
    let more = swake_all_locked(rt, domain, task, HEAD);
    unlock(rt, domain, task, false);
    (first, more)
}

/// Wakes all who wait, with nothing set before, and is taken in by another task: how many they were.
pub fn swake_and_join<R: Wait>(rt: &R, domain: &Domain, into: &mut Task, mut task: Task) -> u32
    requires into { IsUpIn domain.now into.old }
    requires rests { RestsIn domain.now task }
    ensures into { IsUpIn domain.now into.new }
{
    let woken = swake_all(rt, domain, &mut task, COND);
    into.join(domain, task);
    woken
}
