//! Waits for a variable and its publisher in threads of their own, again and again, in Domains whose tasks park at once
//! when they are put asleep.

ghost use Rattle.wait_rule.specs.Says.{RestsIn};

use crate::meetings::rows::VALUES;
use crate::meetings::{ROUNDS, meet_often};
use crate::variables::alone::{VAR, announce};
use std::sync::Wait;
use std::test::Fail;
use var_wait::waits::wait_var;
use wait_model::tasks::SleepState;
use wait_rule::{Domain, Task};

/// Waits until the variable is 2, by what it saw before each time: whether it saw that.
pub(crate) fn wait_twice<R: Wait>(rt: &R, domain: &Domain, task: &mut Task) -> bool
    requires rests { RestsIn domain.now task.old }
    ensures rests { RestsIn domain.now task.new }
{
    let state = SleepState::Uninterruptible;
    let first = wait_var(rt, domain, task, VAR, 0, state).unwrap_or(0);
    let second = if first == 1 {
        wait_var(rt, domain, task, VAR, 1, state).unwrap_or(0)
    } else {
        first
    };
    second == 2
}

/// Publishes 1 and then 2.
pub(crate) fn announce_twice<R: Wait>(rt: &R, domain: &Domain, task: &mut Task) -> bool
    requires rests { RestsIn domain.now task.old }
    ensures rests { RestsIn domain.now task.new }
{
    announce(rt, domain, task, 1);
    announce(rt, domain, task, 2);
    true
}

/// Whatever the order of the steps, the wait ends with the last value, and the publisher takes its task in.
#[test]
fn waiter_sees_each_value(rt: HostRuntime) -> Result<(), Fail> {
    meet_often(&rt, rt.alloc(), ROUNDS, VALUES)
}
