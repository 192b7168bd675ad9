//! Two waits and a wake on one thread, none of which waits for a lock: what an executor does.

ghost use Rattle.std.specs.Prelude.{◌≡◌};
ghost use Rattle.wq_head.specs.declared.wakes.WakeStage.TheVariants as stages;
ghost use Rattle.wq_head.specs.declared.wakes.WakeTurn.TheVariants as turns;
ghost use Rattle.wq_head.specs.Turns.{WakeRests};
ghost use Rattle.wait_rule.specs.Says.{RestsIn};
ghost use Rattle.wait_event.specs.Waits.{wait_table};
ghost use Rattle.wait_tests.specs.TurnTasks.{TurnsIn};

use crate::events::stretches::is_over;
use crate::turns::go_on;
use std::test::Fail;
use test_tasks::draws::next_number;
use test_tasks::ends::end_both;
use wait_class::stages::Turn;
use wait_event::wait_events::begin_wait;
use wait_event::waits::{WaitRun, WaitStage, WaitTurn};
use wait_model::tasks::{How, SleepState};
use wait_model::watches::{Mode, Watch};
use wait_rule::queues::{Passing, publish};
use wait_rule::{Domain, Task};
use wq_head::Rousing;
use wq_head::wakes::{WakeRun, WakeStage, WakeTurn, wake_stretch};

/// How many orders are tried.
const ORDERS: u32 = 400;

/// How many turns an order has after that at most.
const TURNS: u32 = 600;

/// How many turns the waits make before the wake begins.
const BEGINS: u32 = 12;

/// What the waker wakes.
const WATCH: Watch = Watch::Plain { cond: 0 };

/// Sets the condition, and begins the wake.
fn begin_wake(domain: &Domain, waker: &mut Task) -> WakeRun
    requires rests { RestsIn domain.now waker.old }
    ensures of { waker.new.domain ≡ domain.now }
    ensures waking { WakeRests waker.new result (turns.Locked stages.First) }
{
    waker.told();
    publish(domain, waker, WATCH, 1);
    WakeRun::new(WATCH, Mode::Normal, 0)
}

/// Goes on with the wake by one turn. No thread is parked in this test, so that none is to be roused.
fn wake_on(domain: &Domain, waker: &mut Task, run: &mut WakeRun, last: WakeTurn) -> WakeTurn
    requires of { waker.old.domain ≡ domain.now }
    requires waking { WakeRests waker.old run.old last }
    ensures of { waker.new.domain ≡ domain.now }
    ensures waking { WakeRests waker.new run.new result }
{
    let stage = match last {
        WakeTurn::Locked(stage) => stage,
        WakeTurn::Broken => WakeStage::Next,
        WakeTurn::Done(walked) => return WakeTurn::Done(walked),
        WakeTurn::Starved(failed) => return WakeTurn::Starved(failed),
    };
    let (mut rousing, mut passing) = (Rousing::new(), Passing::none());
    let turn = wake_stretch(domain, waker, run, stage, &mut rousing, &mut passing);
    end_both(domain, rousing, passing);
    turn
}

/// Goes on with the wake where it is its turn.
fn wake_if(
    domain: &Domain,
    waker: &mut Task,
    run: &mut WakeRun,
    last: WakeTurn,
    its_turn: bool,
) -> WakeTurn
    requires of { waker.old.domain ≡ domain.now }
    requires waking { WakeRests waker.old run.old last }
    ensures of { waker.new.domain ≡ domain.now }
    ensures waking { WakeRests waker.new run.new result }
{
    if its_turn {
        wake_on(domain, waker, run, last)
    } else {
        last
    }
}

/// Goes on with a wait where it is its turn.
fn wait_if(
    domain: &Domain,
    task: &mut Task,
    run: &mut WaitRun,
    last: WaitTurn,
    its_turn: bool,
) -> WaitTurn
    requires stands { TurnsIn domain.now wait_table task.old run.old last }
    ensures stands { TurnsIn domain.now wait_table task.new run.new result }
{
    if its_turn {
        go_on(domain, task, run, last)
    } else {
        last
    }
}

/// Plays one order: whether both waits and the wake are over then.
fn play(domain: &Domain, waker: &mut Task, first: &mut Task, second: &mut Task, seed: u32) -> bool
    requires rest { RestsIn domain.now waker.old × RestsIn domain.now first.old × RestsIn domain.now second.old }
{
    let how = How {
        state: SleepState::Interruptible,
        exclusive: false,
    };
    let mut one = begin_wait(first, 0, how);
    let mut two = begin_wait(second, 0, how);
    let mut one_at = Turn::Again(WaitStage::First);
    let mut two_at = Turn::Again(WaitStage::First);
    let mut seed = seed;
    for early in 0..BEGINS {
        seed = next_number(seed ^ early);
        one_at = wait_if(domain, first, &mut one, one_at, seed % 2 == 0);
        two_at = wait_if(domain, second, &mut two, two_at, seed % 2 == 1);
    }
    let mut wake = begin_wake(domain, waker);
    let mut wake_at = WakeTurn::Locked(WakeStage::First);
    for turn in 0..TURNS {
        seed = next_number(seed ^ turn);
        one_at = wait_if(domain, first, &mut one, one_at, seed % 5 < 2);
        two_at = wait_if(domain, second, &mut two, two_at, seed % 5 > 2);
        wake_at = wake_if(domain, waker, &mut wake, wake_at, seed % 5 == 2);
    }
    is_over(one_at) && is_over(two_at) && matches!(wake_at, WakeTurn::Done(_))
}

/// Whatever the order, all three end.
#[test]
fn all_end_in_each_order(rt: HostRuntime) -> Result<(), Fail> {
    for order in 0..ORDERS {
        let (domain, mut waker) = Domain::new(rt.alloc())?;
        let mut first = waker.fork(&domain, 0)?;
        let mut second = waker.fork(&domain, 0)?;
        assert!(rt; play(&domain, &mut waker, &mut first, &mut second, order + 1));
    }
    Ok(())
}
