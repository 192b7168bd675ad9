//! Each stretch once, alone and in threads.

mod pages;
mod pairs;
pub(crate) mod rounds;
pub(crate) mod strangers;
mod stretched;

ghost use Rattle.std.specs.Prelude.{◌≡◌};
ghost use Rattle.wait_rule.specs.Says.{RestsIn};
ghost use Rattle.wq_user.specs.Waiting.{IsWaiting};

use std::sync::Wait;
use std::test::Fail;
use std::thread;
use std::thread::Threads;
use test_tasks::wants::{all_so, begin_two};
use wait_model::tasks::{Sleep, SleepState};
use wait_model::watches::Kind;
use wait_rule::{Domain, Task, send_signal};
use wq_user::events::{
    come_and_go, hear_zero, set_zero, take_zero, wait_and_join, wait_for_zero, wait_to_be_selected,
};
use wq_user::holds::{look, pass, pass_and_wake, set_and_wake, wake_and_join};
use wq_user::parts::{
    look_for_bit, wait_at_simple, wait_by_default, wait_by_parts, wait_for_change,
};
use wq_user::waits::{leave, prepare, queue, sleep};

/// Sleeps and leaves the queue: true where the task was not put asleep.
fn wait_up<R: Wait>(rt: &R, domain: &Domain, mut task: Task) -> bool
    requires of { task.domain ≡ domain.now }
    requires waiting { IsWaiting task }
{
    let slept = sleep(rt, domain, &mut task);
    leave(rt, domain, &mut task);
    matches!(slept, Sleep::Stay)
}

/// Sets the condition and wakes all: how many it woke.
fn wake_up<R: Wait>(rt: &R, domain: &Domain, mut task: Task) -> u32
    requires rests { RestsIn domain.now task }
{
    set_and_wake(rt, domain, &mut task)
}

/// A wait and a wake, each in a thread of its own.
fn both<R: Threads + Wait + Sync>(rt: &R, domain: &Domain, waiter: Task, waker: Task) -> (bool, u32)
    requires waiting { (waiter.domain ≡ domain.now) × IsWaiting waiter }
    requires rests { RestsIn domain.now waker }
{
    thread::join(
        rt,
        move || -> bool
            requires { (waiter.domain ≡ domain.now) × IsWaiting waiter }
        { wait_up(rt, domain, waiter) },
        move || -> u32
            requires { RestsIn domain.now waker }
        { wake_up(rt, domain, waker) },
    )
}

/// A task that only holds and wakes is taken in.
#[test]
fn holds_and_wakes(rt: HostRuntime) -> Result<(), Fail> {
    let (domain, mut task, mut other) = begin_two(rt.alloc())?;
    pass(&rt, &domain, &mut other, 256);
    let seen = [
        !look(&rt, &domain, &mut other, 256),
        pass_and_wake(&rt, &domain, &mut other, 256) == 0,
        wake_and_join(&rt, &domain, &mut task, other) == 0,
    ];
    all_so(&seen)
}

/// A waiter that is woken leaves and is taken in.
#[test]
fn waiter_leaves(rt: HostRuntime) -> Result<(), Fail> {
    let (domain, mut task, mut waiter) = begin_two(rt.alloc())?;
    let Ok(()) = queue(&rt, &domain, &mut waiter, Kind::Default) else {
        panic!(rt; "the queue is empty")
    };
    prepare(&domain, &mut waiter);
    let seen = [
        set_and_wake(&rt, &domain, &mut task) == 1,
        matches!(sleep(&rt, &domain, &mut waiter), Sleep::Stay),
    ];
    all_so(&seen)?;
    leave(&rt, &domain, &mut waiter);
    task.join(&domain, waiter);
    Ok(())
}

/// A waiter and a waker, each in a thread of its own.
#[test]
fn waiter_and_waker(rt: HostRuntime) -> Result<(), Fail> {
    let (domain, mut task, mut waiter) = begin_two(rt.alloc())?;
    let Ok(()) = queue(&rt, &domain, &mut waiter, Kind::Autoremove) else {
        panic!(rt; "the queue is empty")
    };
    prepare(&domain, &mut waiter);
    let (_stayed, woken) = both(&rt, &domain, waiter, task);
    assert!(rt; woken == 1);
    Ok(())
}

/// A condition that is set and taken, by two tasks that stay clean, and a wait that is taken in.
#[test]
fn condition_is_waited_for(rt: HostRuntime) -> Result<(), Fail> {
    let (domain, mut task, mut other) = begin_two(rt.alloc())?;
    let seen = [
        set_zero(&rt, &domain, &mut task) == 0,
        wait_for_zero(&rt, &domain, &mut other, SleepState::Interruptible),
        take_zero(&domain, &mut other) == 1,
        set_zero(&rt, &domain, &mut task) == 0,
    ];
    all_so(&seen)?;
    wait_and_join(&rt, &domain, &mut task, other);
    Ok(())
}

/// An exclusive wait whose condition is set, and an entry that is added and taken off: the task is taken in after both.
#[test]
fn exclusive_waiter_is_joined(rt: HostRuntime) -> Result<(), Fail> {
    let (domain, mut task, mut other) = begin_two(rt.alloc())?;
    let seen = [
        come_and_go(&rt, &domain, &mut other),
        set_zero(&rt, &domain, &mut task) == 0,
        wait_to_be_selected(&rt, &domain, &mut other, SleepState::Killable),
    ];
    all_so(&seen)?;
    task.join(&domain, other);
    Ok(())
}

/// A wait by the flag of an entry whose condition is set, and one that a signal ends: the task is taken in after both.
#[test]
fn hearer_is_joined(rt: HostRuntime) -> Result<(), Fail> {
    let (domain, mut task, mut other) = begin_two(rt.alloc())?;
    let who = other.number();
    send_signal(&rt, &domain, &mut task, who, false);
    let seen = [
        hear_zero(&rt, &domain, &mut other, SleepState::Interruptible),
        set_zero(&rt, &domain, &mut task) == 0,
        hear_zero(&rt, &domain, &mut other, SleepState::Killable),
    ];
    all_so(&seen)?;
    task.join(&domain, other);
    Ok(())
}

/// Waits by parts for what is set, and such that a signal ends in their sleep: the task is taken in after all.
#[test]
fn waiter_by_parts_is_joined(rt: HostRuntime) -> Result<(), Fail> {
    let (domain, mut task, mut other) = begin_two(rt.alloc())?;
    let who = other.number();
    send_signal(&rt, &domain, &mut task, who, true);
    let seen = [
        look_for_bit(&rt, &domain, &mut other),
        wait_for_change(&rt, &domain, &mut other, 1),
        wait_at_simple(&rt, &domain, &mut other),
        wait_by_default(&rt, &domain, &mut other),
        wait_by_parts(&rt, &domain, &mut other, SleepState::Interruptible),
    ];
    all_so(&seen)?;
    task.join(&domain, other);
    Ok(())
}
