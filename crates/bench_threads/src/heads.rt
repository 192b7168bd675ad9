//! How fast the lock of a head is, and how long two tasks wait for a second.

mod idle;

ghost use Rattle.std.specs.Prelude.{◌≡◌};
ghost use Rattle.wq_head.specs.Readied.{IsUpAndIdle, IsReadyToCall};

use crate::heads::idle::wait_a_second;
use crate::tasks::another;
use std::alloc::Global;
use std::io;
use std::sync::Wait;
use std::thread::Threads;
use std::time::{Clock, Duration, Instant};
use test_tasks::meetings::Part;
use wait_model::layout::FIRST_PLAIN_HEAD;
use wait_model::watches::{Kind, Mode, Watch};
use wait_rule::{Domain, Task};
use wq_head::{active, add_tail, has_members, lock, unlock, wake};

/// The head that all holds are of.
const HEAD: u16 = FIRST_PLAIN_HEAD;

/// A hold in which nothing is done.
#[derive(Clone, Copy)]
pub(crate) struct Hold;

impl Part for Hold {
    fn play<R: Wait>(self, rt: &R, domain: &Domain, task: &mut Task) -> bool {
        lock(rt, domain, task, HEAD);
        unlock(rt, domain, task, false);
        true
    }
}

/// A hold that looks for members of the head, and finds none.
#[derive(Clone, Copy)]
pub(crate) struct Look;

impl Part for Look {
    fn play<R: Wait>(self, rt: &R, domain: &Domain, task: &mut Task) -> bool {
        lock(rt, domain, task, HEAD);
        let found = has_members(domain, task, HEAD);
        unlock(rt, domain, task, false);
        !found
    }
}

/// Looks for members of the head without its lock, and finds none.
#[derive(Clone, Copy)]
pub(crate) struct UnlockedLook;

impl Part for UnlockedLook {
    fn play<R: Wait>(self, _rt: &R, domain: &Domain, task: &mut Task) -> bool {
        !active(domain, task, HEAD)
    }
}

/// A task that is awake queues its entry: false where there is no place.
fn queue_own<R: Wait>(rt: &R, domain: &Domain, mut task: Task) -> bool
    requires of { task.domain ≡ domain.now }
    requires ready { IsReadyToCall task }
{
    lock(rt, domain, &mut task, HEAD);
    let watch = Watch::Plain { cond: 0 };
    let queued = add_tail(domain, &mut task, 0, Kind::Default, false, watch).is_ok();
    unlock(rt, domain, &mut task, false);
    queued
}

/// So many new tasks queue their entries: false where there is no number or no place left.
fn queue_many<R: Wait>(rt: &R, domain: &Domain, task: &mut Task, count: u8) -> bool
    requires of { task.old.domain ≡ domain.now }
    requires ready { IsReadyToCall task.old }
    ensures of { task.new.domain ≡ domain.now }
    ensures ready { IsReadyToCall task.new }
{
    for _ in 0..count {
        let Ok(other) = task.fork(domain, 0) else {
            return false;
        };
        if !queue_own(rt, domain, other) {
            return false;
        }
    }
    true
}

/// Wakes of all who wait for condition 0: 0 where nobody was woken.
fn wakes<R: Wait>(rt: &R, domain: &Domain, task: &mut Task, n: u64) -> u32
    requires of { task.old.domain ≡ domain.now }
    requires rests { IsUpAndIdle task.old }
    ensures of { task.new.domain ≡ domain.now }
    ensures rests { IsUpAndIdle task.new }
{
    let mut woken: u32 = 0;
    for _ in 0..n {
        woken |= wake(rt, domain, task, Watch::Plain { cond: 0 }, Mode::Normal, 0).woken;
    }
    woken
}

/// How long `n` wakes take that each call the entries of `count` tasks, which are awake: the walk alone, since no
/// thread is woken.
pub(crate) fn time_walks<R: Clock + Wait>(
    rt: &R,
    alloc: Global,
    count: u8,
    n: u64,
) -> io::Result<Option<Duration>> {
    let (domain, mut task) = Domain::new(alloc)?;
    queue_many(rt, &domain, &mut task, count);
    let start = Instant::now(rt)?;
    wakes(rt, &domain, &mut task, n);
    Ok(Some(start.elapsed(rt)?))
}

/// Two tasks wait for a second.
pub(crate) fn wait_idly<R: Clock + Threads + Wait + Sync>(rt: &R, alloc: Global) -> io::Result<()> {
    let (domain, mut task) = Domain::new(alloc)?;
    let sleeper = another(&domain, &mut task);
    let asker = another(&domain, &mut task);
    wait_a_second(rt, &domain, task, sleeper, asker);
    Ok(())
}
