//! Locks and wakes hold by hold, by who waits for no lock.

ghost use Rattle.head_tests.specs.Ready.{IsReadyIn};

use crate::heads::many::queue_many;
use crate::heads::waiting::queue_own;
use crate::scenes::{Alone, Beside, want, want_beside};
use std::sync::Wait;
use std::test::Fail;
use test_tasks::ends::{end_both, rouses_only};
use wait_model::layout::{FIRST_PLAIN_HEAD, INTERRUPTIBLE};
use wait_model::queues::End;
use wait_model::tasks::Sleep;
use wait_model::watches::{Kind, Mode, Watch};
use wait_rule::queues::Passing;
use wait_rule::tasks::sleep_exchange;
use wait_rule::{Domain, Task};
use wq_head::lock_turns::{draw_lock, lock_turn};
use wq_head::locks::{give_back, lock, unlock};
use wq_head::rousing::Rousing;
use wq_head::wakes::{WakeRun, WakeStage, WakeTurn, wake_stretch};

/// Whether a look while another task holds the lock finds its ticket served, and takes the lock once that is given back.
pub(crate) fn waits_its_turn<R: Wait>(
    rt: &R,
    domain: &Domain,
    task: &mut Task,
    other: &mut Task,
) -> bool
    requires ready { IsReadyIn domain.now task.old × IsReadyIn domain.now other.old }
{
    lock(rt, domain, other, FIRST_PLAIN_HEAD);
    let ticket = draw_lock(domain, task, FIRST_PLAIN_HEAD);
    let Err(served) = lock_turn(domain, task, FIRST_PLAIN_HEAD, ticket) else {
        return false;
    };
    unlock(rt, domain, other, false);
    let Ok(()) = lock_turn(domain, task, FIRST_PLAIN_HEAD, ticket) else {
        return false;
    };
    give_back(domain, task, false).wake(domain);
    served.wrapping_add(1) == ticket
}

/// While another task holds the lock a look finds its ticket served, and when that is given back the own one.
#[test]
fn lock_waits_for_its_turn(rt: HostRuntime) -> Result<(), Fail> {
    want_beside(&rt, rt.alloc(), Beside::WaitsItsTurn)
}

/// Whether a wake has met nobody, in one hold.
fn met_nobody(turn: WakeTurn) -> bool {
    match turn {
        WakeTurn::Done(walked) => {
            walked.woken == 0 && walked.holds == 1 && matches!(walked.end, End::End)
        }
        _ => false,
    }
}

/// Whether the wake finds the lock taken while another task holds it, and makes one hold then.
pub(crate) fn wake_waits<R: Wait>(
    rt: &R,
    domain: &Domain,
    task: &mut Task,
    other: &mut Task,
) -> bool
    requires ready { IsReadyIn domain.now task.old × IsReadyIn domain.now other.old }
{
    lock(rt, domain, other, FIRST_PLAIN_HEAD);
    let (mut rousing, mut passing) = (Rousing::new(), Passing::none());
    let mut run = WakeRun::new(Watch::Plain { cond: 0 }, Mode::Normal, 1);
    let first = wake_stretch(
        domain,
        task,
        &mut run,
        WakeStage::First,
        &mut rousing,
        &mut passing,
    );
    let WakeTurn::Locked(stage) = first else {
        end_both(domain, rousing, passing);
        return false;
    };
    unlock(rt, domain, other, false);
    passing.wake(domain);
    rousing.rouse_all(domain);
    let second = wake_stretch(domain, task, &mut run, stage, &mut rousing, &mut passing);
    end_both(domain, rousing, passing);
    met_nobody(second)
}

/// While another task holds the lock the wake makes no hold, and when that is given back it makes one.
#[test]
fn locked_until_it_is_given_back(rt: HostRuntime) -> Result<(), Fail> {
    want_beside(&rt, rt.alloc(), Beside::WakeWaits)
}

/// Whether a wake is over with its second hold, and has selected nobody.
fn is_over(turn: WakeTurn) -> bool {
    match turn {
        WakeTurn::Done(walked) => walked.holds == 2 && walked.selected == 0,
        _ => false,
    }
}

/// A wake over 66 entries of tasks that are awake breaks once, and is over with the next hold.
pub(crate) fn wake_over_66<R: Wait>(rt: &R, domain: &Domain, task: &mut Task) -> bool
    requires ready { IsReadyIn domain.now task.old }
{
    if !queue_many(rt, domain, task, 66) {
        return false;
    }
    let (mut rousing, mut passing) = (Rousing::new(), Passing::none());
    let mut run = WakeRun::new(Watch::Plain { cond: 0 }, Mode::Normal, 1);
    let begins = WakeStage::First;
    let first = wake_stretch(domain, task, &mut run, begins, &mut rousing, &mut passing);
    let WakeTurn::Broken = first else {
        end_both(domain, rousing, passing);
        return false;
    };
    passing.wake(domain);
    rousing.rouse_all(domain);
    let goes_on = WakeStage::Next;
    let second = wake_stretch(domain, task, &mut run, goes_on, &mut rousing, &mut passing);
    end_both(domain, rousing, passing);
    is_over(second)
}

/// Between the two holds nobody holds the lock.
#[test]
fn broken_between_two_holds(rt: HostRuntime) -> Result<(), Fail> {
    want(&rt, rt.alloc(), Alone::WakesOver66)
}

/// Queues the entries of two tasks, of which the first goes to sleep.
fn queue_both<R: Wait>(rt: &R, domain: &Domain, sleeper: &mut Task, other: &mut Task) -> bool
    requires ready { IsReadyIn domain.now sleeper.old × IsReadyIn domain.now other.old }
{
    let kind = Kind::Autoremove;
    let first = queue_own(rt, domain, sleeper, kind, false, INTERRUPTIBLE);
    let second = queue_own(rt, domain, other, kind, false, INTERRUPTIBLE);
    let slept = sleep_exchange(rt, domain, sleeper);
    first && second && matches!(slept, Sleep::Asleep)
}

/// Whether a wake has woken two.
fn woke_two(turn: WakeTurn) -> bool {
    match turn {
        WakeTurn::Done(walked) => walked.woken == 2,
        _ => false,
    }
}

/// Whether the wake of two tasks in one turn names this one alone, to be roused.
fn names_alone(domain: &Domain, task: &mut Task, who: u8) -> bool
    requires ready { IsReadyIn domain.now task.old }
{
    let (mut rousing, mut passing) = (Rousing::new(), Passing::none());
    let mut run = WakeRun::new(Watch::Plain { cond: 0 }, Mode::Normal, 0);
    let turn = wake_stretch(
        domain,
        task,
        &mut run,
        WakeStage::First,
        &mut rousing,
        &mut passing,
    );
    let named = rouses_only(&rousing, who);
    end_both(domain, rousing, passing);
    woke_two(turn) && named
}

/// A wake of two tasks, one of which was put asleep: the turn names that one, to be roused.
pub(crate) fn wake_sleeper<R: Wait>(rt: &R, domain: &Domain, task: &mut Task) -> bool
    requires ready { IsReadyIn domain.now task.old }
{
    let (Ok(mut sleeper), Ok(mut other)) = (task.fork(domain, 0), task.fork(domain, 0)) else {
        return false;
    };
    let slept = queue_both(rt, domain, &mut sleeper, &mut other);
    slept && names_alone(domain, task, sleeper.number())
}

/// Who was awake is woken too, and need not be roused.
#[test]
fn turn_names_who_slept(rt: HostRuntime) -> Result<(), Fail> {
    want(&rt, rt.alloc(), Alone::WakesSleeper)
}
