//! How fast the steps of a Domain are.

ghost use Rattle.std.specs.Prelude.{◌≡◌};
ghost use Rattle.wait_rule.specs.Says.{IsUp, RestsIn};

use crate::tasks::{Retry, wake_up};
use crate::timing::{Times, time_two};
use std::alloc::Global;
use std::io;
use std::sync::Wait;
use std::thread::Threads;
use std::time::{Clock, Duration, Instant};
use test_tasks::meetings::Part;
use wait_model::layout::{FATAL, NORMAL, UNINTERRUPTIBLE};
use wait_rule::tasks::{load_own, set_state, wake_exchange};
use wait_rule::{Domain, Task, schedule};

/// Loads of the own word.
fn loads(domain: &Domain, task: &mut Task, n: u64) -> u64
    requires of { task.old.domain ≡ domain.now }
    requires up { IsUp task.old }
    ensures of { task.new.domain ≡ domain.now }
    ensures up { IsUp task.new }
{
    let mut sum: u64 = 0;
    for _ in 0..n {
        sum ^= load_own(domain, task).0;
    }
    sum
}

/// Wakes of a task that is running: a load and a compare-exchange each, which change nothing.
fn exchanges<R: Wait>(rt: &R, domain: &Domain, task: &mut Task, n: u64)
    requires of { task.old.domain ≡ domain.now }
    requires up { IsUp task.old }
    ensures of { task.new.domain ≡ domain.now }
    ensures up { IsUp task.new }
{
    for _ in 0..n {
        wake_exchange(rt, domain, task, 0, NORMAL);
    }
}

/// Sleeps until woken.
fn doze<R: Wait>(rt: &R, domain: &Domain, task: &mut Task)
    requires rests { RestsIn domain.now task.old }
    ensures rests { RestsIn domain.now task.new }
{
    set_state(domain, task, UNINTERRUPTIBLE);
    schedule(rt, domain, task);
}

/// One side of a round trip: it wakes the other one and sleeps, or first sleeps.
#[derive(Clone, Copy)]
struct Nap {
    other: u8,
    first: bool,
    retry: Retry,
}

impl Part for Nap {
    fn play<R: Wait>(self, rt: &R, domain: &Domain, task: &mut Task) -> bool {
        if self.first {
            wake_up(rt, domain, task, self.other, self.retry);
        }
        doze(rt, domain, task);
        if !self.first {
            wake_up(rt, domain, task, self.other, self.retry);
        }
        true
    }
}

/// How long `n` round trips take in a Domain whose tasks look so often before they park.
pub(crate) fn time_naps<R: Clock + Threads + Wait + Sync>(
    rt: &R,
    alloc: Global,
    looks: u32,
    retry: Retry,
    n: u64,
) -> io::Result<Option<Duration>> {
    let own = Nap {
        other: 1,
        first: true,
        retry,
    };
    let its = Nap {
        other: 0,
        first: false,
        retry,
    };
    time_two(rt, alloc, looks, (own, its), n)
}

/// How long `n` loads of one task take, and as many wakes of it.
pub(crate) fn time_steps<R: Clock + Wait>(rt: &R, alloc: Global, n: u64) -> io::Result<Times> {
    let (domain, mut task) = Domain::new(alloc)?;
    let start = Instant::now(rt)?;
    let sum = loads(&domain, &mut task, n);
    let load = start.elapsed(rt)?;
    let start = Instant::now(rt)?;
    exchanges(rt, &domain, &mut task, n);
    let exchange = start.elapsed(rt)?;
    let is_right = sum < 2 * FATAL;
    Ok(Times(if is_right { Some(load) } else { None }, Some(exchange)))
}
