//! Waits of a second: a task sleeps until it is woken, and another one waits for the lock of a head. Their threads park
//! meanwhile, so the program uses next to no processor.

ghost use Rattle.std.specs.Prelude.{◌≡◌};
ghost use Rattle.wait_rule.specs.Says.{IsClean, RestsIn};

use crate::heads::HEAD;
use crate::tasks::{Retry, wake_up};
use std::sync::Wait;
use std::thread;
use std::thread::Threads;
use std::time::{Clock, Duration};
use wait_model::layout::UNINTERRUPTIBLE;
use wait_rule::tasks::set_state;
use wait_rule::{Domain, Task, schedule};
use wq_head::{lock, unlock};

/// How long the lock is held, in milliseconds.
const HELD: u64 = 1_100;

/// When the other one asks for the lock, in milliseconds.
const LATER: u64 = 100;

/// Holds the lock of the head for a while, and then wakes task `sleeper`.
fn hold_and_wake<R: Clock + Wait>(rt: &R, domain: &Domain, mut task: Task, sleeper: u8)
    requires rests { RestsIn domain.now task }
{
    lock(rt, domain, &mut task, HEAD);
    thread::sleep(rt, Duration::from_millis(HELD));
    unlock(rt, domain, &mut task, false);
    wake_up(rt, domain, &mut task, sleeper, Retry::Yield);
}

/// Sleeps until it is woken.
fn sleep<R: Wait>(rt: &R, domain: &Domain, mut task: Task)
    requires rests { RestsIn domain.now task }
{
    set_state(domain, &mut task, UNINTERRUPTIBLE);
    schedule(rt, domain, &mut task);
}

/// Asks for the lock while another task holds it.
fn ask<R: Clock + Wait>(rt: &R, domain: &Domain, mut task: Task)
    requires rests { RestsIn domain.now task }
{
    thread::sleep(rt, Duration::from_millis(LATER));
    lock(rt, domain, &mut task, HEAD);
    unlock(rt, domain, &mut task, false);
}

/// One that sleeps and one that asks, each in a thread of its own.
fn two_wait<R: Clock + Threads + Wait + Sync>(rt: &R, domain: &Domain, sleeper: Task, asker: Task)
    requires of { (sleeper.domain ≡ domain.now) × (asker.domain ≡ domain.now) }
    requires clean { IsClean sleeper × IsClean asker }
{
    thread::join(
        rt,
        move ||
            requires { RestsIn domain.now sleeper }
        { sleep(rt, domain, sleeper) },
        move ||
            requires { RestsIn domain.now asker }
        { ask(rt, domain, asker) },
    );
}

/// The task holds the lock of the head for `HELD`, and wakes the sleeper then. The asker waits for the lock for all but
/// `LATER` of it.
pub(crate) fn wait_a_second<R: Clock + Threads + Wait + Sync>(
    rt: &R,
    domain: &Domain,
    task: Task,
    sleeper: Task,
    asker: Task,
)
    requires of { (task.domain ≡ domain.now) × (sleeper.domain ≡ domain.now) × (asker.domain ≡ domain.now) }
    requires clean { IsClean task × IsClean sleeper × IsClean asker }
{
    let who = sleeper.number();
    thread::join(
        rt,
        move ||
            requires { RestsIn domain.now task }
        { hold_and_wake(rt, domain, task, who) },
        move ||
            requires of { (sleeper.domain ≡ domain.now) × (asker.domain ≡ domain.now) }
            requires clean { IsClean sleeper × IsClean asker }
        { two_wait(rt, domain, sleeper, asker) },
    );
}
