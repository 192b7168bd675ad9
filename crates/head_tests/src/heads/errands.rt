//! What tasks do in threads of their own that are let go then.

ghost use Rattle.head_tests.specs.Ready.{IsReadyIn};

use crate::heads::pages::{sleep_for, wake_once};
use crate::heads::sleepers::{set_and_wake, wait_once};
use std::sync::Wait;
use std::thread;
use std::thread::Threads;
use wait_rule::{Domain, Task};

/// What a task does, and answers a number.
#[derive(Clone, Copy)]
pub(crate) enum Errand {
    /// It waits once for condition 0: 1 where no wake has taken its entry off.
    Waits,
    /// It sets the condition and wakes all, after so many looks and yields: how many it woke.
    Sets { looks: u32, yields: u32 },
    /// It waits for a page: 1 where it was handed over to it.
    Sleeps,
    /// It hands the page over to this task, after so many yields: 1 where it did.
    Hands { who: u8, yields: u32 },
}

/// A task does it.
fn run<R: Wait>(rt: &R, domain: &Domain, task: Task, errand: Errand) -> u32
    requires ready { IsReadyIn domain.now task }
{
    match errand {
        Errand::Waits => u32::from(wait_once(rt, domain, task)),
        Errand::Sets { looks, yields } => set_and_wake(rt, domain, task, looks, yields),
        Errand::Sleeps => u32::from(sleep_for(rt, domain, task)),
        Errand::Hands { who, yields } => u32::from(wake_once(rt, domain, task, who, yields)),
    }
}

/// Two tasks, each in a thread of its own.
pub(crate) fn run_two<R: Threads + Wait + Sync>(
    rt: &R,
    domain: &Domain,
    first: Task,
    second: Task,
    errands: (Errand, Errand),
) -> (u32, u32)
    requires ready { IsReadyIn domain.now first × IsReadyIn domain.now second }
{
    let (own, other) = errands;
    thread::join(
        rt,
        move || -> u32
            requires { IsReadyIn domain.now first }
        { run(rt, domain, first, own) },
        move || -> u32
            requires { IsReadyIn domain.now second }
        { run(rt, domain, second, other) },
    )
}

/// Four tasks, of which all but the first one do the same.
pub(crate) fn run_four<R: Threads + Wait + Sync>(
    rt: &R,
    domain: &Domain,
    firsts: (Task, Task),
    seconds: (Task, Task),
    own: Errand,
    others: Errand,
) -> ((u32, u32), (u32, u32))
    requires firsts { IsReadyIn domain.now firsts.0 × IsReadyIn domain.now firsts.1 }
    requires seconds { IsReadyIn domain.now seconds.0 × IsReadyIn domain.now seconds.1 }
{
    thread::join(
        rt,
        move || -> (u32, u32)
            requires { IsReadyIn domain.now firsts.0 × IsReadyIn domain.now firsts.1 }
        { run_two(rt, domain, firsts.0, firsts.1, (own, others)) },
        move || -> (u32, u32)
            requires { IsReadyIn domain.now seconds.0 × IsReadyIn domain.now seconds.1 }
        { run_two(rt, domain, seconds.0, seconds.1, (others, others)) },
    )
}
