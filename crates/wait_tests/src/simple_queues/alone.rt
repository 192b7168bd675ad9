//! One task alone: its wakes find nobody, and its wait ends at its first look.

ghost use Rattle.wait_rule.specs.Says.{RestsIn};

use std::sync::Wait;
use std::test::Fail;
use swait_queue::waits::swait_event;
use swait_queue::wakes::{swake_all, swake_one};
use test_tasks::wants::all_so;
use wait_model::layout::FIRST_SIMPLE;
use wait_model::tasks::SleepState;
use wait_rule::{Domain, Task};
use wq_user::simple::{set_and_swake_all, swake_in_hold};

/// The first condition with a simple head.
const COND: u8 = FIRST_SIMPLE as u8;

/// Wakes with nothing set before: whether there was a first one, and how many there were then.
fn wake_unset<R: Wait>(rt: &R, domain: &Domain, task: &mut Task) -> (bool, u32)
    requires rests { RestsIn domain.now task.old }
    ensures rests { RestsIn domain.now task.new }
{
    let one = swake_one(rt, domain, task, COND);
    let all = swake_all(rt, domain, task, COND);
    (one, all)
}

/// Who wakes with nothing set finds nobody, and owes nothing after it: the task is taken in.
#[test]
fn wakes_of_an_empty_queue(rt: HostRuntime) -> Result<(), Fail> {
    let (domain, mut task) = Domain::new(rt.alloc())?;
    let mut other = task.fork(&domain, 0)?;
    let (one, all) = wake_unset(&rt, &domain, &mut other);
    let seen = [!one, all == 0];
    all_so(&seen)?;
    let (one, all) = swake_in_hold(&rt, &domain, &mut other);
    let seen = [!one, all == 0];
    all_so(&seen)?;
    task.join(&domain, other);
    Ok(())
}

/// A condition that is set before the wait: nobody is woken, and the wait ends at its first look.
#[test]
fn set_before_the_wait(rt: HostRuntime) -> Result<(), Fail> {
    let (domain, mut task) = Domain::new(rt.alloc())?;
    let seen = [
        set_and_swake_all(&rt, &domain, &mut task) == 0,
        swait_event(&rt, &domain, &mut task, COND, SleepState::Uninterruptible).is_ok(),
    ];
    all_so(&seen)
}
