//! Wakes by stretches, by who waits for no lock.

ghost use Rattle.wait_rule.specs.Says.{RestsIn};

use crate::events::stretches::is_over;
use crate::simple_queues::threads::COND;
use crate::turns::go_often;
use std::process::Abort;
use std::test::Fail;
use swait_queue::swake_turns::{SwakeRun, SwakeStage, SwakeTurn, swake_stretch};
use swait_queue::waits::begin_swait;
use test_tasks::ends::{end_both, rouses_only};
use test_tasks::wants::all_so;
use wait_class::stages::Turn;
use wait_event::waits::WaitStage;
use wait_model::layout::FIRST_SIMPLE_HEAD;
use wait_model::tasks::SleepState;
use wait_model::watches::Watch;
use wait_rule::queues::{Passing, publish};
use wait_rule::{Domain, Task};
use wq_head::{Rousing, lock, unlock};

/// More stretches than a wait has that nobody keeps waiting.
const OFTEN: u32 = 20;

/// While another task holds the lock the wake makes no hold, and when that is given back it makes one.
#[test]
fn wake_waits_for_its_turn(rt: HostRuntime) -> Result<(), Fail> {
    let (domain, mut task) = Domain::new(rt.alloc())?;
    let mut other = task.fork(&domain, 0)?;
    lock(&rt, &domain, &mut other, FIRST_SIMPLE_HEAD);
    let (mut rousing, mut passing) = (Rousing::new(), Passing::none());
    let mut run = SwakeRun::new(COND, true);
    let first = SwakeStage::First;
    let turn = swake_stretch(
        &domain,
        &mut task,
        &mut run,
        first,
        &mut rousing,
        &mut passing,
    );
    let SwakeTurn::Locked = turn else {
        panic!(rt; "the other task holds the lock")
    };
    unlock(&rt, &domain, &mut other, false);
    passing.wake(&domain);
    rousing.rouse_all(&domain);
    let next = SwakeStage::Turn;
    let turn = swake_stretch(
        &domain,
        &mut task,
        &mut run,
        next,
        &mut rousing,
        &mut passing,
    );
    let SwakeTurn::Done(selected) = turn else {
        panic!(rt; "nobody holds the lock")
    };
    assert!(rt; selected == 0);
    end_both(&domain, rousing, passing);
    Ok(())
}

/// A wake of one by one stretch: it names the waiter, which slept, and the wait is over then.
fn wake_sleeper<R: Abort>(
    rt: &R,
    domain: &Domain,
    waker: &mut Task,
    waiter: &mut Task,
) -> Result<(), Fail>
    requires rest { RestsIn domain.now waker.old × RestsIn domain.now waiter.old }
{
    let mut wait = begin_swait(waiter, COND, SleepState::Uninterruptible);
    let begins = Turn::Again(WaitStage::First);
    let asleep = go_often(domain, waiter, &mut wait, begins, OFTEN);
    assert!(rt; matches!(asleep, Turn::Asleep(_)));
    publish(domain, waker, Watch::Plain { cond: COND }, 1);
    let (mut rousing, mut passing) = (Rousing::new(), Passing::none());
    let mut run = SwakeRun::new(COND, false);
    let first = SwakeStage::First;
    let turn = swake_stretch(domain, waker, &mut run, first, &mut rousing, &mut passing);
    let SwakeTurn::Done(selected) = turn else {
        panic!(rt; "nobody holds the lock")
    };
    let named = rouses_only(&rousing, waiter.number());
    end_both(domain, rousing, passing);
    let over = go_often(domain, waiter, &mut wait, asleep, OFTEN);
    all_so(&[selected == 1, named, is_over(over)])
}

/// Whom a stretch has woken is for the caller to rouse.
#[test]
fn stretch_names_who_slept(rt: HostRuntime) -> Result<(), Fail> {
    let (domain, mut waker) = Domain::new(rt.alloc())?;
    let mut waiter = waker.fork(&domain, 0)?;
    wake_sleeper(&rt, &domain, &mut waker, &mut waiter)
}
