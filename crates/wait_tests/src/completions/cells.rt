//! Calls by stretches, by who waits for no lock.

ghost use Rattle.std.specs.Prelude.{◌≡◌};
ghost use Rattle.wait_tests.specs.CompletionTasks.{MayComplete};
ghost use Rattle.wait_rule.specs.Says.{RestsIn};

use crate::completions::threads::CELL;
use crate::turns::go_often;
use completion_cell::await_calls::{begin_await, end_of};
use completion_cell::awaits::AwaitStage;
use completion_cell::cell_turns::{CellCall, CellRun, CellStage, CellTurn, cell_stretch};
use std::process::Abort;
use std::test::Fail;
use test_tasks::ends::{end_both, rouses_only};
use test_tasks::wants::all_so;
use wait_class::stages::Turn;
use wait_model::heads::head_of;
use wait_model::tasks::SleepState;
use wait_model::watches::Watch;
use wait_rule::queues::Passing;
use wait_rule::{Domain, Task};
use wq_head::{Rousing, draw_lock};

/// More stretches than a wait has that nobody keeps waiting.
const OFTEN: u32 = 20;

/// Makes a call by one stretch: its answer.
fn call_at_once<R: Abort>(rt: &R, domain: &Domain, task: &mut Task, call: CellCall) -> bool
    requires of { task.old.domain ≡ domain.now }
    requires may { MayComplete task.old }
    ensures of { task.new.domain ≡ domain.now }
    ensures may { MayComplete task.new }
{
    let (mut rousing, mut passing) = (Rousing::new(), Passing::none());
    let mut run = CellRun::new(call, CELL);
    let first = CellStage::First;
    let turn = cell_stretch(domain, task, &mut run, first, &mut rousing, &mut passing);
    let CellTurn::Done(yes) = turn else {
        panic!(rt; "nobody holds the lock")
    };
    end_both(domain, rousing, passing);
    yes
}

/// A count is there after `complete` and gone after `reinit`, and stays after `complete_all`.
#[test]
fn each_call_ends_by_one_stretch(rt: HostRuntime) -> Result<(), Fail> {
    let (domain, mut task) = Domain::new(rt.alloc())?;
    let seen = [
        !call_at_once(&rt, &domain, &mut task, CellCall::IsDone),
        !call_at_once(&rt, &domain, &mut task, CellCall::TryWait),
    ];
    all_so(&seen)?;
    call_at_once(&rt, &domain, &mut task, CellCall::Complete);
    let seen = [
        call_at_once(&rt, &domain, &mut task, CellCall::IsDone),
        call_at_once(&rt, &domain, &mut task, CellCall::TryWait),
        !call_at_once(&rt, &domain, &mut task, CellCall::TryWait),
    ];
    all_so(&seen)?;
    call_at_once(&rt, &domain, &mut task, CellCall::CompleteAll);
    let seen = [
        call_at_once(&rt, &domain, &mut task, CellCall::TryWait),
        call_at_once(&rt, &domain, &mut task, CellCall::TryWait),
    ];
    all_so(&seen)?;
    call_at_once(&rt, &domain, &mut task, CellCall::Reinit);
    assert!(rt; !call_at_once(&rt, &domain, &mut task, CellCall::IsDone));
    Ok(())
}

/// A task draws its ticket after another one, and completes after it.
fn complete_in_turn<R: Abort>(rt: &R, domain: &Domain, task: &mut Task, other: &mut Task)
    requires of { (task.old.domain ≡ domain.now) × (other.old.domain ≡ domain.now) }
    requires may { MayComplete task.old }
    requires other { MayComplete other.old }
{
    let (mut rousing, mut passing) = (Rousing::new(), Passing::none());
    other.told();
    let mut before = CellRun::new(CellCall::Complete, CELL);
    before.ticket = draw_lock(domain, other, head_of(Watch::Done { cell: CELL }));
    let mut run = CellRun::new(CellCall::Complete, CELL);
    let first = CellStage::First;
    let turn = cell_stretch(domain, task, &mut run, first, &mut rousing, &mut passing);
    let CellTurn::Locked = turn else {
        panic!(rt; "the other ticket is served")
    };
    passing.wake(domain);
    rousing.rouse_all(domain);
    let next = CellStage::Turn;
    let turn = cell_stretch(domain, other, &mut before, next, &mut rousing, &mut passing);
    let CellTurn::Done(_) = turn else {
        panic!(rt; "it is its turn")
    };
    passing.wake(domain);
    rousing.rouse_all(domain);
    let turn = cell_stretch(domain, task, &mut run, next, &mut rousing, &mut passing);
    let CellTurn::Done(_) = turn else {
        panic!(rt; "nobody holds the lock")
    };
    assert!(rt; rousing.tasks().len() == 0);
    end_both(domain, rousing, passing);
}

/// A call goes on once its own ticket is served.
#[test]
fn call_waits_for_its_turn(rt: HostRuntime) -> Result<(), Fail> {
    let (domain, mut task) = Domain::new(rt.alloc())?;
    let mut other = task.fork(&domain, 0)?;
    complete_in_turn(&rt, &domain, &mut task, &mut other);
    Ok(())
}

/// A stretch completes: it names the waiter, which slept, and the wait takes the one then.
fn complete_for_sleeper<R: Abort>(
    rt: &R,
    domain: &Domain,
    task: &mut Task,
    waiter: &mut Task,
) -> Result<(), Fail>
    requires of { task.old.domain ≡ domain.now }
    requires may { MayComplete task.old }
    requires rests { RestsIn domain.now waiter.old }
{
    let mut wait = begin_await(waiter, CELL, SleepState::Uninterruptible);
    let first = Turn::Again(AwaitStage::First);
    let asleep = go_often(domain, waiter, &mut wait, first, OFTEN);
    assert!(rt; matches!(asleep, Turn::Asleep(_)));
    let (mut rousing, mut passing) = (Rousing::new(), Passing::none());
    let mut run = CellRun::new(CellCall::Complete, CELL);
    let first = CellStage::First;
    let turn = cell_stretch(domain, task, &mut run, first, &mut rousing, &mut passing);
    let CellTurn::Done(_) = turn else {
        panic!(rt; "nobody holds the lock")
    };
    let named = rouses_only(&rousing, waiter.number());
    end_both(domain, rousing, passing);
    let Turn::Done(outcome) = go_often(domain, waiter, &mut wait, asleep, OFTEN) else {
        panic!(rt; "it was completed")
    };
    all_so(&[named, end_of(wait.of, outcome).is_ok()])
}

/// Whom a stretch has woken is for the caller to rouse.
#[test]
fn stretch_names_who_slept(rt: HostRuntime) -> Result<(), Fail> {
    let (domain, mut task) = Domain::new(rt.alloc())?;
    let mut waiter = task.fork(&domain, 0)?;
    complete_for_sleeper(&rt, &domain, &mut task, &mut waiter)
}
