//! A wait for a bit and the task that gives it back on one thread, which goes on with one of them at a time; the wait is
//! roused again and again.

ghost use Rattle.wait_model.specs.declared.watches.Watch.TheVariants as watch;
ghost use Rattle.wait_rule.specs.{Bits.KeepsBitOf, Says.RestsIn};
ghost use Rattle.wait_tests.specs.TurnTasks.{IsIdleIn, TurnsIn};

use crate::bits::alone::{give, take};
use crate::turns::{go_often, go_on};
use bit_wait::lock_calls::begin_lock;
use bit_wait::lock_waits::{LockOutcome, LockTest};
use bit_wait::wait_calls::begin_bit;
use bit_wait::waits::{BitOutcome, BitTest};
use std::alloc::Global;
use std::process::Abort;
use std::sync::Wait;
use std::test::Fail;
use test_tasks::draws::next_number;
use wait_class::frame_stages::Stage;
use wait_class::machines::Machine;
use wait_class::stages::{Run, Turn};
use wait_model::tasks::SleepState;
use wait_model::watches::Mode;
use wait_rule::{Domain, Task, wake_task};

/// How many orders are tried.
const ORDERS: u32 = 400;

/// How many turns the wait has at most before the bit is given back.
const BEFORE: u32 = 12;

/// How many turns the wait and the waker have.
const TURNS: u32 = 200;

/// Wakes the waiter's task, as a walk would.
fn rouse<R: Wait>(rt: &R, domain: &Domain, waker: &mut Task, who: u8)
    requires rest { IsIdleIn domain.now waker.old }
    ensures rest { IsIdleIn domain.now waker.new }
{
    wake_task(rt, domain, waker, who, Mode::Normal);
}

/// Wakes the waiter's task or goes on with its wait, in an order that a number draws: where the wait stands then.
fn rouse_and_go<R: Wait, C: Machine>(
    rt: &R,
    domain: &Domain,
    waker: &mut Task,
    waiter: &mut Task,
    run: &mut Run<C>,
    last: Turn<C::Stage, C::Outcome>,
    seed: u32,
) -> Turn<C::Stage, C::Outcome>
    requires rest { IsIdleIn domain.now waker.old }
    requires waiting { TurnsIn domain.now C.table waiter.old run.old last }
    ensures rest { IsIdleIn domain.now waker.new }
{
    let who = waiter.number();
    let mut at = last;
    let mut seed = seed;
    for _ in 0..TURNS {
        seed = next_number(seed);
        if seed % 3 == 0 {
            rouse(rt, domain, waker, who);
        } else {
            at = go_on(domain, waiter, run, at);
        }
    }
    at
}

/// Plays one order with a wait that begins: it goes on, then its bit is given back, and then it is roused again and again.
/// Where it stands in the end.
fn play_order<R: Wait, C: Machine>(
    rt: &R,
    domain: &Domain,
    holder: &mut Task,
    waiter: &mut Task,
    run: &mut Run<C>,
    begins: Turn<C::Stage, C::Outcome>,
    seed: u32,
) -> Turn<C::Stage, C::Outcome>
    requires rest { IsIdleIn domain.now holder.old }
    requires keeps { KeepsBitOf holder.old (watch.Bit 0 0) }
    requires waiting { TurnsIn domain.now C.table waiter.old run.old begins }
    ensures rest { IsIdleIn domain.now holder.new }
{
    let at = go_often(domain, waiter, run, begins, seed % BEFORE);
    give(domain, holder, 0, 0);
    rouse_and_go(rt, domain, holder, waiter, run, at, seed)
}

/// Plays one order of a wait until the bit is clear: whether it has ended so.
fn looks<R: Wait>(rt: &R, domain: &Domain, holder: &mut Task, waiter: &mut Task, seed: u32) -> bool
    requires rest { IsIdleIn domain.now holder.old }
    requires keeps { KeepsBitOf holder.old (watch.Bit 0 0) }
    requires waiter { RestsIn domain.now waiter.old }
{
    let mut run = begin_bit(waiter, 0, 0, SleepState::Uninterruptible);
    let begins = Turn::Again(Stage::Test(BitTest::First));
    let at = play_order(rt, domain, holder, waiter, &mut run, begins, seed);
    matches!(at, Turn::Done(BitOutcome::Over))
}

/// The same of a wait to take it: whether it has taken it then, so that nobody else can.
fn takes<R: Wait>(rt: &R, domain: &Domain, holder: &mut Task, waiter: &mut Task, seed: u32) -> bool
    requires rest { IsIdleIn domain.now holder.old }
    requires keeps { KeepsBitOf holder.old (watch.Bit 0 0) }
    requires waiter { RestsIn domain.now waiter.old }
{
    let mut run = begin_lock(waiter, 0, 0, SleepState::Uninterruptible);
    let begins = Turn::Again(Stage::Test(LockTest::First));
    let at = play_order(rt, domain, holder, waiter, &mut run, begins, seed);
    let taken = !take(domain, holder, 0, 0);
    taken && matches!(at, Turn::Done(LockOutcome::Over))
}

/// Plays each order in a Domain of its own, with a wait until the bit is clear or one to take it: each ends.
pub(crate) fn play_each<R: Abort + Wait>(rt: &R, alloc: Global, to_take: bool) -> Result<(), Fail> {
    for order in 0..ORDERS {
        let (domain, mut holder) = Domain::new(alloc)?;
        let mut waiter = holder.fork(&domain, 0)?;
        if !take(&domain, &mut holder, 0, 0) {
            panic!(rt; "the bit is clear")
        }
        let well = if to_take {
            takes(rt, &domain, &mut holder, &mut waiter, order + 1)
        } else {
            looks(rt, &domain, &mut holder, &mut waiter, order + 1)
        };
        assert!(rt; well);
    }
    Ok(())
}
