//! Waits and a waker in threads of their own, again and again, in Domains whose tasks park at once when they are put
//! asleep.

ghost use Rattle.wait_rule.specs.Says.{RestsIn};

use crate::meetings::rows::WAITERS;
use crate::meetings::{ROUNDS, meet_often};
use std::sync::Wait;
use std::test::Fail;
use wait_event::conds::set_and_wake;
use wait_model::queues::Walked;
use wait_model::watches::Mode;
use wait_rule::{Domain, Task};

/// Sets condition 0, and wakes all, or so many exclusive waiters.
pub(crate) fn set<R: Wait>(rt: &R, domain: &Domain, task: &mut Task, count: u32) -> Walked
    requires rests { RestsIn domain.now task.old }
    ensures rests { RestsIn domain.now task.new }
{
    set_and_wake(rt, domain, task, 0, 1, Mode::Normal, count)
}

/// Whatever the order of the steps, both waits end, and the waker takes both tasks in.
#[test]
fn waiters_are_joined(rt: HostRuntime) -> Result<(), Fail> {
    meet_often(&rt, rt.alloc(), ROUNDS, WAITERS)
}
