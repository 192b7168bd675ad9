//! Threads that take one page in turn, add 1 to its tally, and give it back.

ghost use Rattle.std.specs.Prelude.{◌≡◌, All};
ghost use Rattle.wait_rule.specs.Says.{IsClean, RestsIn};

use crate::tasks::crowd;
use page_lock::{add_tally, lock_page, unlock_page};
use std::alloc::Global;
use std::sync::Wait;
use std::thread::Threads;
use std::time::{Clock, Duration, Instant};
use std::{io, thread};
use test_tasks::meetings::Part;
use wait_model::tasks::SleepState;
use wait_rule::{Domain, Task};

/// The page that all take.
const PAGE: u8 = 3;

/// A lock of the page: how many were made before it, and when its thread came for it, since the round began.
#[derive(Clone, Copy)]
pub(crate) struct Came {
    pub(crate) before: u64,
    pub(crate) at: Duration,
}

/// Takes the page, adds 1 to its tally, and gives it back: the tally before. None where no place was left at its head.
fn add_one<R: Wait>(rt: &R, domain: &Domain, task: &mut Task) -> Option<u64>
    requires rests { RestsIn domain.now task.old }
    ensures rests { RestsIn domain.now task.new }
{
    if lock_page(rt, domain, task, PAGE, SleepState::Uninterruptible).is_err() {
        return None;
    }
    let before = add_tally(domain, task, PAGE, 1);
    unlock_page(rt, domain, task, PAGE);
    Some(before)
}

/// A lock of the page: it goes well where the task got it.
#[derive(Clone, Copy)]
pub(crate) struct AddOne;

impl Part for AddOne {
    fn play<R: Wait>(self, rt: &R, domain: &Domain, task: &mut Task) -> bool {
        add_one(rt, domain, task).is_some()
    }
}

/// `n` locks of the page, and when the task came for each: None where one of them did not get the page, or the clock was not
/// read.
fn come_often<R: Clock + Wait>(
    rt: &R,
    alloc: Global,
    domain: &Domain,
    mut task: Task,
    start: Instant,
    n: u64,
) -> Option<Vec<Came>>
    requires rests { RestsIn domain.now task }
{
    let mut all = Vec::new(alloc);
    for _ in 0..n {
        let at = start.elapsed(rt).ok()?;
        let before = add_one(rt, domain, &mut task)?;
        all.push(Came { before, at }).ok()?;
    }
    Some(all)
}

/// Tasks of threads of their own: when each came for its locks. None where one of them did not get the page.
fn come_all<R: Clock + Threads + Wait + Sync>(
    rt: &R,
    alloc: Global,
    domain: &Domain,
    tasks: Vec<Task>,
    start: Instant,
    n: u64,
) -> io::Result<Option<Vec<Vec<Came>>>>
    requires clean { All (λ t. (t.domain ≡ domain.now) × IsClean t) tasks.items }
{
    let found = thread::map_vec(
        rt,
        tasks,
        &|task: Task| -> Option<Vec<Came>>
            requires { RestsIn domain.now task }
        { come_often(rt, alloc, domain, task, start, n) },
    )?;
    let mut all = Vec::new(alloc);
    for one in found {
        let Some(one) = one else {
            return Ok(None);
        };
        all.push(one)?;
    }
    Ok(Some(all))
}

/// When the locks of a round of `threads` threads were asked for, thread by thread.
pub(crate) fn came_for<R: Clock + Threads + Wait + Sync>(
    rt: &R,
    alloc: Global,
    threads: u8,
    n: u64,
) -> io::Result<Option<Vec<Vec<Came>>>> {
    let (domain, mut task) = Domain::new(alloc)?;
    let tasks = crowd(alloc, &domain, &mut task, threads)?;
    let start = Instant::now(rt)?;
    come_all(rt, alloc, &domain, tasks, start, n)
}
