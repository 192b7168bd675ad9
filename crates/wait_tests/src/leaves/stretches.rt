//! Waits that go on by stretches on one thread and are left from each of them on, by the call that leaves and by
//! stretches.

ghost use Rattle.wait_rule.specs.Says.{RestsIn};
ghost use Rattle.wq_user.specs.Joining.{IsUpIn};
ghost use Rattle.wait_tests.specs.TurnTasks.{TurnsIn};

use crate::bits::alone::lock;
use crate::turns::go_often;
use bit_wait::BitEnd;
use bit_wait::lock_calls::begin_lock;
use bit_wait::lock_leaves::{end_lock_until, leave_lock};
use bit_wait::lock_waits::LockTest;
use bit_wait::wait_calls::begin_bit;
use bit_wait::wait_leaves::{end_bit_until, leave_bit};
use bit_wait::waits::BitTest;
use completion_cell::await_calls::begin_await;
use completion_cell::awaits::AwaitStage;
use completion_cell::leaves::{end_await_until, leave_await};
use page_lock::leaves::{end_page_until, leave_page};
use page_lock::wait_calls::begin_page;
use page_lock::waits::PageStage;
use std::sync::Wait;
use std::test::Fail;
use wait_class::frame_stages::Stage;
use wait_class::machines::Machine;
use wait_class::runs::woke;
use wait_class::stages::{Run, Turn};
use wait_event::wait_events::begin_wait;
use wait_event::wait_leaves::{end_until, leave_wait};
use wait_event::waits::WaitStage;
use wait_event::{WaitEnd, WaitUntil};
use wait_leave::{Leavable, Until, stretch_out};
use wait_model::tasks::{How, SleepState};
use wait_model::watches::Mode;
use wait_rule::queues::Passing;
use wait_rule::{Domain, Task, wake_task};

/// More turns than a wait has before its task is asleep, and more than one has that leaves.
const BEFORE: u32 = 14;

const AFTER: u32 = 20;

/// How all of them wait, those for a condition as exclusive ones.
const STATE: SleepState = SleepState::Uninterruptible;

const HOW: How = How {
    state: STATE,
    exclusive: true,
};

/// After how many turns a wait is left, and whether by stretches or by the call.
#[derive(Clone, Copy)]
struct Way {
    turns: u32,
    by_stretches: bool,
}

/// Goes on by so many turns, and is woken by the other task where it was put asleep: the stage at which its task is awake
/// then.
fn reach<R: Wait, C: Machine>(
    rt: &R,
    domain: &Domain,
    other: &mut Task,
    task: &mut Task,
    run: &mut Run<C>,
    first: Turn<C::Stage, C::Outcome>,
    turns: u32,
) -> Turn<C::Stage, C::Outcome>
    requires up { IsUpIn domain.now other.old }
    requires waiting { TurnsIn domain.now C.table task.old run.old first }
    ensures waiting { TurnsIn domain.now C.table task.new run.new result }
{
    match go_often(domain, task, run, first, turns) {
        Turn::Locked(stage) => Turn::Again(stage),
        Turn::Asleep(stage) => {
            let who = task.number();
            wake_task(rt, domain, other, who, Mode::Normal);
            if woke(domain, task, run, stage) {
                return Turn::Again(stage);
            }
            Turn::Asleep(stage)
        }
        at => at,
    }
}

/// One stretch of a wait that is asked to leave.
fn out_on<C: Leavable>(
    domain: &Domain,
    task: &mut Task,
    run: &mut Run<C>,
    last: Turn<C::Stage, C::Outcome>,
) -> Turn<C::Stage, C::Outcome>
    requires waiting { TurnsIn domain.now C.table task.old run.old last }
    ensures waiting { TurnsIn domain.now C.table task.new run.new result }
{
    let stage = match last {
        Turn::Again(stage) => stage,
        Turn::Locked(stage) => stage,
        Turn::Asleep(stage) => return Turn::Asleep(stage),
        Turn::Done(outcome) => return Turn::Done(outcome),
    };
    let mut passing = Passing::none();
    let next = stretch_out(domain, task, run, stage, &mut passing);
    passing.wake(domain);
    passing.end();
    next
}

/// Goes on by stretches with a wait that is asked to leave: to its end.
fn out_often<C: Leavable>(
    domain: &Domain,
    task: &mut Task,
    run: &mut Run<C>,
    last: Turn<C::Stage, C::Outcome>,
) -> Turn<C::Stage, C::Outcome>
    requires waiting { TurnsIn domain.now C.table task.old run.old last }
    ensures waiting { TurnsIn domain.now C.table task.new run.new result }
{
    let mut at = last;
    for _ in 0..AFTER {
        at = out_on(domain, task, run, at);
    }
    at
}

/// Reaches the stage from which a wait is left, and goes to its end by stretches, where it is not left by the call.
fn way_out<R: Wait, C: Leavable>(
    rt: &R,
    domain: &Domain,
    other: &mut Task,
    task: &mut Task,
    run: &mut Run<C>,
    first: Turn<C::Stage, C::Outcome>,
    way: Way,
) -> Turn<C::Stage, C::Outcome>
    requires up { IsUpIn domain.now other.old }
    requires waiting { TurnsIn domain.now C.table task.old run.old first }
    ensures waiting { TurnsIn domain.now C.table task.new run.new result }
{
    let at = reach(rt, domain, other, task, run, first, way.turns);
    if way.by_stretches {
        return out_often(domain, task, run, at);
    }
    at
}

/// Whether a wait for a condition or a completion, and one for a bit or a page, was left that nobody woke.
fn is_unset(end: WaitUntil<Result<(), WaitEnd>>) -> bool {
    matches!(
        end,
        WaitUntil::Left {
            seen: 0,
            selected: false
        }
    )
}

fn is_undone(end: Until<Result<(), WaitEnd>>) -> bool {
    matches!(end, Until::Left { seen: 0 })
}

fn is_set(end: Until<Result<(), BitEnd>>) -> bool {
    matches!(end, Until::Left { seen: 1 })
}

/// A wait for condition 0 is left from there on, by stretches or by the call: whether it was left.
fn of_event<R: Wait>(rt: &R, domain: &Domain, other: &mut Task, task: &mut Task, way: Way) -> bool
    requires up { IsUpIn domain.now other.old }
    requires rests { RestsIn domain.now task.old }
{
    let mut run = begin_wait(task, 0, HOW);
    let begins = Turn::Again(WaitStage::First);
    match way_out(rt, domain, other, task, &mut run, begins, way) {
        Turn::Again(stage) => is_unset(leave_wait(rt, domain, task, &mut run, stage)),
        Turn::Done(outcome) => is_unset(end_until(task, &run, outcome)),
        _ => false,
    }
}

/// The same of one for completion 1.
fn of_await<R: Wait>(rt: &R, domain: &Domain, other: &mut Task, task: &mut Task, way: Way) -> bool
    requires up { IsUpIn domain.now other.old }
    requires rests { RestsIn domain.now task.old }
{
    let mut run = begin_await(task, 1, STATE);
    let begins = Turn::Again(AwaitStage::First);
    match way_out(rt, domain, other, task, &mut run, begins, way) {
        Turn::Again(stage) => is_undone(leave_await(rt, domain, task, &mut run, stage)),
        Turn::Done(outcome) => is_undone(end_await_until(task, &run, outcome)),
        _ => false,
    }
}

/// Of one until bit 0 of word 2 is clear, which the other one keeps.
fn of_bit<R: Wait>(rt: &R, domain: &Domain, other: &mut Task, task: &mut Task, way: Way) -> bool
    requires up { IsUpIn domain.now other.old }
    requires rests { RestsIn domain.now task.old }
{
    let mut run = begin_bit(task, 2, 0, STATE);
    let begins = Turn::Again(Stage::Test(BitTest::First));
    match way_out(rt, domain, other, task, &mut run, begins, way) {
        Turn::Again(stage) => is_set(leave_bit(rt, domain, task, &mut run, stage)),
        Turn::Done(outcome) => is_set(end_bit_until(domain, task, &run, outcome)),
        _ => false,
    }
}

/// Of one to take that bit.
fn of_lock<R: Wait>(rt: &R, domain: &Domain, other: &mut Task, task: &mut Task, way: Way) -> bool
    requires up { IsUpIn domain.now other.old }
    requires rests { RestsIn domain.now task.old }
{
    let mut run = begin_lock(task, 2, 0, STATE);
    let begins = Turn::Again(Stage::Test(LockTest::First));
    match way_out(rt, domain, other, task, &mut run, begins, way) {
        Turn::Again(stage) => is_set(leave_lock(rt, domain, task, &mut run, stage)),
        Turn::Done(outcome) => is_set(end_lock_until(domain, task, &run, outcome)),
        _ => false,
    }
}

/// And of one for page 2, which is that bit.
fn of_page<R: Wait>(rt: &R, domain: &Domain, other: &mut Task, task: &mut Task, way: Way) -> bool
    requires up { IsUpIn domain.now other.old }
    requires rests { RestsIn domain.now task.old }
{
    let mut run = begin_page(task, 2, STATE);
    let begins = Turn::Again(PageStage::First);
    match way_out(rt, domain, other, task, &mut run, begins, way) {
        Turn::Again(stage) => is_set(leave_page(rt, domain, task, &mut run, stage)),
        Turn::Done(outcome) => is_set(end_page_until(task, &run, outcome)),
        _ => false,
    }
}

/// A wait of this kind is left.
fn leaves<R: Wait>(
    rt: &R,
    domain: &Domain,
    other: &mut Task,
    task: &mut Task,
    kind: u32,
    way: Way,
) -> bool
    requires up { IsUpIn domain.now other.old }
    requires rests { RestsIn domain.now task.old }
{
    match kind {
        0 => of_event(rt, domain, other, task, way),
        1 => of_await(rt, domain, other, task, way),
        2 => of_bit(rt, domain, other, task, way),
        3 => of_lock(rt, domain, other, task, way),
        _ => of_page(rt, domain, other, task, way),
    }
}

/// From each stretch on, also from its sleep once it was woken, a wait for what nobody sets is left to its end: by the
/// call that leaves it, and by stretches.
#[test]
fn waits_are_left_from_each_stretch(rt: HostRuntime) -> Result<(), Fail> {
    for round in 0..10 * BEFORE {
        let (domain, mut other) = Domain::new(rt.alloc())?;
        let mut task = other.fork(&domain, 0)?;
        if !lock(&domain, &mut other, 2, 0) {
            panic!(rt; "the bit is clear")
        }
        let way = Way {
            turns: round / 10,
            by_stretches: (round / 5) % 2 == 1,
        };
        assert!(rt; leaves(&rt, &domain, &mut other, &mut task, round % 5, way));
    }
    Ok(())
}
