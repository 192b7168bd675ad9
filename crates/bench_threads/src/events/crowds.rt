//! One wake of many threads that sleep.

ghost use Rattle.std.specs.Prelude.{◌≡◌, All};
ghost use Rattle.wait_rule.specs.Says.{IsClean, RestsIn};

use crate::events::calls::{set, wait_for};
use crate::tasks::crowd;
use crate::timing::Times;
use std::alloc::Global;
use std::sync::Wait;
use std::thread::Threads;
use std::time::{Clock, Duration, Instant};
use std::{io, thread};
use wait_rule::{Domain, Task};

/// The condition that all wait for.
const COND: u8 = 0;

/// How long the waker leaves the waiters to go to sleep, in milliseconds.
const PAUSE: u64 = 30;

/// What the waker of a crowd found: when it began, how long its call took, and how many it woke.
#[derive(Clone, Copy)]
struct Woke {
    start: Instant,
    call: Duration,
    woken: u32,
}

/// Waits for the condition: when it went on. None where the condition was not set, or the clock not read.
fn wait_once<R: Clock + Wait>(rt: &R, domain: &Domain, mut task: Task) -> Option<Instant>
    requires rests { RestsIn domain.now task }
{
    if wait_for(rt, domain, &mut task, COND) {
        Instant::now(rt).ok()
    } else {
        None
    }
}

/// Sets the condition once all sleep.
fn wake_once<R: Clock + Wait>(rt: &R, domain: &Domain, task: &mut Task) -> io::Result<Woke>
    requires rests { RestsIn domain.now task.old }
{
    thread::sleep(rt, Duration::from_millis(PAUSE));
    let start = Instant::now(rt)?;
    let woken = set(rt, domain, task, COND);
    let call = start.elapsed(rt)?;
    Ok(Woke { start, call, woken })
}

/// The last of the times at which waiters went on: None where one of them did not.
fn last_of(ends: &[Option<Instant>]) -> Option<Instant> {
    let mut last: Option<Instant> = None;
    for end in ends {
        let found = (*end)?;
        last = match last {
            Some(other) if found < other => Some(other),
            _ => Some(found),
        };
    }
    last
}

/// So many tasks wait in threads of their own: when the last of them went on.
fn wait_all<R: Clock + Threads + Wait + Sync>(
    rt: &R,
    domain: &Domain,
    tasks: Vec<Task>,
) -> Option<Instant>
    requires clean { All (λ t. (t.domain ≡ domain.now) × IsClean t) tasks.items }
{
    let ends = thread::map_vec(
        rt,
        tasks,
        &|task: Task| -> Option<Instant>
            requires { RestsIn domain.now task }
        { wait_once(rt, domain, task) },
    );
    match ends {
        Err(_) => None,
        Ok(ends) => last_of(&ends),
    }
}

/// A waker, and the tasks that it wakes, each in a thread of its own.
fn meet<R: Clock + Threads + Wait + Sync>(
    rt: &R,
    domain: &Domain,
    mut waker: Task,
    tasks: Vec<Task>,
) -> (Option<Woke>, Option<Instant>)
    requires rests { RestsIn domain.now waker }
    requires all { All (λ t. (t.domain ≡ domain.now) × IsClean t) tasks.items }
{
    thread::join(
        rt,
        move || -> Option<Woke>
            requires { RestsIn domain.now waker }
        { wake_once(rt, domain, &mut waker).ok() },
        move || -> Option<Instant>
            requires { All (λ t. (t.domain ≡ domain.now) × IsClean t) tasks.items }
        { wait_all(rt, domain, tasks) },
    )
}

/// How long one wake of `count` sleepers takes, all of which park at once: the call, and until the last of them had gone
/// on; none of both where not all of them slept.
pub(crate) fn time_wake<R: Clock + Threads + Wait + Sync>(
    rt: &R,
    alloc: Global,
    count: u8,
) -> io::Result<Times> {
    let (domain, mut task) = Domain::with_looks(alloc, 0)?;
    let tasks = crowd(alloc, &domain, &mut task, count)?;
    let (Some(woke), Some(last)) = meet(rt, &domain, task, tasks) else {
        return Ok(Times(None, None));
    };
    if woke.woken != u32::from(count) {
        return Ok(Times(None, None));
    }
    let until = last.duration_since(woke.start);
    Ok(Times(Some(woke.call), Some(until)))
}
