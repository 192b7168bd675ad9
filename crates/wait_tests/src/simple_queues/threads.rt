//! Waits in a simple queue and a waker in threads of their own, again and again, in Domains whose tasks park at once
//! when they are put asleep.

ghost use Rattle.wait_rule.specs.Says.{RestsIn};

use crate::meetings::rows::SWAITERS;
use crate::meetings::{ROUNDS, meet_often};
use std::sync::Wait;
use std::test::Fail;
use wait_model::layout::FIRST_SIMPLE;
use wait_rule::{Domain, Task};
use wq_user::simple::{set_and_swake, set_and_swake_all, swake};

/// The first condition with a simple head.
pub(crate) const COND: u8 = FIRST_SIMPLE as u8;

/// Sets the condition, and wakes who waits for it, all at once or one after another.
pub(crate) fn swake_all_or_two<R: Wait>(rt: &R, domain: &Domain, task: &mut Task, all: bool) -> bool
    requires rests { RestsIn domain.now task.old }
    ensures rests { RestsIn domain.now task.new }
{
    if all {
        set_and_swake_all(rt, domain, task);
    } else {
        set_and_swake(rt, domain, task);
        swake(rt, domain, task);
    }
    true
}

/// Whatever the order of the steps, both waits end, and the waker takes both tasks in: a round of each kind of wake.
#[test]
fn waiters_are_joined(rt: HostRuntime) -> Result<(), Fail> {
    meet_often(&rt, rt.alloc(), ROUNDS / 2, SWAITERS)
}
