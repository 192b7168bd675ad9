//! A `down` by stretches on one thread, which its task leaves once it was woken.

ghost use Rattle.std.specs.Prelude.{◌≡◌};
ghost use Rattle.wait_rule.specs.Says.{RestsIn};
ghost use Rattle.wait_class.specs.Tables.{IsAsleepAt, IsAt, Lands};
ghost use Rattle.count_sem.specs.Downs.{down_table};
ghost use Rattle.count_sem.specs.declared.downs.DownStage.TheVariants as stage;

use crate::alone::{gives, tries};
use count_sem::downs::{DownRun, DownStage, DownTurn};
use count_sem::{begin_down, leave_down, up};
use std::process::Abort;
use std::sync::Wait;
use std::test::Fail;
use test_tasks::wants::{all_so, begin_two};
use wait_class::runs::{stretch, woke};
use wait_class::stages::Turn;
use wait_leave::Until;
use wait_model::tasks::SleepState;
use wait_model::watches::Mode;
use wait_rule::queues::Passing;
use wait_rule::{Domain, Task, wake_task};

/// The semaphore of the tests.
const CELL: u8 = 6;

/// Goes on by one stretch.
fn go_on(domain: &Domain, task: &mut Task, call: &mut DownRun, stage: DownStage) -> DownTurn
    requires of { task.old.domain ≡ domain.now }
    requires at { IsAt down_table task.old call.old stage }
    ensures of { task.new.domain ≡ domain.now }
    ensures lands { Lands down_table task.new call.new result }
{
    let mut passing = Passing::none();
    let turn = stretch(domain, task, call, stage, &mut passing);
    passing.wake(domain);
    passing.end();
    turn
}

/// A `down` that nobody keeps waiting falls asleep by two stretches: at which stage it goes on once it was woken.
fn fall_asleep<R: Abort>(rt: &R, domain: &Domain, task: &mut Task, call: &mut DownRun) -> DownStage
    requires of { task.old.domain ≡ domain.now }
    requires at { IsAt down_table task.old call.old stage.First }
    ensures of { task.new.domain ≡ domain.now }
    ensures asleep { IsAsleepAt down_table task.new call.new result }
{
    let Turn::Again(queued) = go_on(domain, task, call, DownStage::First) else {
        panic!(rt; "its entry is queued")
    };
    let Turn::Asleep(next) = go_on(domain, task, call, queued) else {
        panic!(rt; "it is put asleep")
    };
    next
}

/// Gives back a permit, or only wakes this task: whether that went so.
fn wake_waiter<R: Wait>(rt: &R, domain: &Domain, task: &mut Task, who: u8, gives: bool) -> bool
    requires rests { RestsIn domain.now task.old }
    ensures rests { RestsIn domain.now task.new }
{
    if gives {
        up(rt, domain, task, CELL).is_ok()
    } else {
        wake_task(rt, domain, task, who, Mode::Normal)
    }
}

/// It was given a permit or woken with none, and is left then: whether it took that, or was left with the count found 0.
fn is_left<R: Abort + Wait>(
    rt: &R,
    domain: &Domain,
    task: &mut Task,
    waiter: &mut Task,
    gives: bool,
) -> bool
    requires rests { RestsIn domain.now task.old }
    requires waiter { RestsIn domain.now waiter.old }
    ensures rests { RestsIn domain.now task.new }
{
    let mut call = begin_down(waiter, CELL, SleepState::Uninterruptible);
    let next = fall_asleep(rt, domain, waiter, &mut call);
    let woken = wake_waiter(rt, domain, task, waiter.number(), gives);
    if !woke(domain, waiter, &call, next) {
        panic!(rt; "it was woken")
    }
    let end = leave_down(rt, domain, waiter, &mut call, next);
    woken
        && if gives {
            matches!(end, Until::Over(Ok(())))
        } else {
            matches!(end, Until::Left { seen: 0 })
        }
}

/// A `down` that is left takes the permit that it was given, and none is counted then.
#[test]
fn left_down_takes_the_permit_that_it_was_given(rt: HostRuntime) -> Result<(), Fail> {
    let (domain, mut task, mut waiter) = begin_two(rt.alloc())?;
    let took = is_left(&rt, &domain, &mut task, &mut waiter, true);
    let none = !tries(&rt, &domain, &mut task, CELL);
    all_so(&[took, none])
}

/// A `down` that is left has taken its entry off: what is given back behind it is counted.
#[test]
fn left_down_has_taken_its_entry_off(rt: HostRuntime) -> Result<(), Fail> {
    let (domain, mut task, mut waiter) = begin_two(rt.alloc())?;
    let left = is_left(&rt, &domain, &mut task, &mut waiter, false);
    let gave = gives(&rt, &domain, &mut task, CELL).is_ok();
    let one = tries(&rt, &domain, &mut task, CELL);
    let two = tries(&rt, &domain, &mut task, CELL);
    all_so(&[left, gave, one, !two])
}
