//! Simple queues and completions: each part once by one task alone, and waits in threads of their own, again and again,
//! in Domains whose tasks park at once when they are put asleep.

ghost use Rattle.wait_rule.specs.Says.{RestsIn};

use crate::meetings::Part;
use std::sync::Wait;
use std::test::Fail;
use test_tasks::meetings::{meet_two, two_meet};
use test_tasks::wants::{all_so, begin_two};
use wait_rule::{Domain, Task};
use wq_user::completions::{
    complete_and_clear, complete_and_join, complete_one, take_and_join, take_one,
};
use wq_user::simple::{
    set_and_swake, set_and_swake_all, swait, swake, swake_and_join, swake_in_hold,
};

/// How many rounds each test in threads makes.
const ROUNDS: u32 = 300;

/// Sets the condition and wakes the first or all, and wakes again with nothing more set.
pub(crate) fn swake_twice<R: Wait>(rt: &R, domain: &Domain, task: &mut Task, all: bool) -> bool
    requires rests { RestsIn domain.now task.old }
    ensures rests { RestsIn domain.now task.new }
{
    if all {
        set_and_swake_all(rt, domain, task);
    } else {
        set_and_swake(rt, domain, task);
    }
    swake(rt, domain, task);
    true
}

/// Wakes with nothing set find nobody; a wait whose condition is set ends at once; and the task is taken in.
#[test]
fn simple_queue_of_nobody(rt: HostRuntime) -> Result<(), Fail> {
    let (domain, mut task, mut other) = begin_two(rt.alloc())?;
    let seen = [
        !swake(&rt, &domain, &mut other),
        swake_in_hold(&rt, &domain, &mut other) == (false, 0),
        !set_and_swake(&rt, &domain, &mut other),
        swait(&rt, &domain, &mut other),
        swake_and_join(&rt, &domain, &mut task, other) == 0,
    ];
    all_so(&seen)
}

/// A completion is taken as often as it was completed; one that is cleared is not done; and both tasks are taken in.
#[test]
fn completion_of_nobody(rt: HostRuntime) -> Result<(), Fail> {
    let (domain, mut task, mut one) = begin_two(rt.alloc())?;
    let two = task.fork(&domain, 0)?;
    complete_one(&rt, &domain, &mut one);
    let seen = [
        take_one(&rt, &domain, &mut one),
        !take_one(&rt, &domain, &mut one),
        !complete_and_clear(&rt, &domain, &mut one),
    ];
    all_so(&seen)?;
    complete_and_join(&rt, &domain, &mut task, two);
    assert!(rt; take_and_join(&rt, &domain, &mut task, one));
    Ok(())
}

/// Whatever the order of the steps, a wait in the simple queue ends, and its task is taken in.
#[test]
fn simple_waiter_is_joined(rt: HostRuntime) -> Result<(), Fail> {
    for round in 0..ROUNDS {
        let (domain, mut task) = Domain::with_looks(rt.alloc(), 0)?;
        let other = task.fork(&domain, 0)?;
        let all = round % 2 == 0;
        let parts = (Part::UserSwakes { all }, Part::UserSwaits);
        let ((mut task, _), waited) = meet_two(&rt, &domain, task, other, parts);
        let seen = [
            waited.1,
            swake_and_join(&rt, &domain, &mut task, waited.0) == 0,
        ];
        all_so(&seen)?;
    }
    Ok(())
}

/// Whatever the order of the steps, a wait for the completion takes the one that there is, and its task is taken in.
#[test]
fn waiter_for_one_is_joined(rt: HostRuntime) -> Result<(), Fail> {
    for _round in 0..ROUNDS {
        let (domain, task) = Domain::with_looks(rt.alloc(), 0)?;
        let parts = (Part::UserCompletes, Part::UserWaits);
        let (mut task, went) = two_meet(&rt, &domain, task, parts);
        all_so(&went)?;
        assert!(rt; !take_one(&rt, &domain, &mut task));
    }
    Ok(())
}
