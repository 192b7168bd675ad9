//! Three tasks that sleep until a condition is set, and one that sets it, each in a thread of its own; again and again,
//! in Domains whose tasks park at once when they are put asleep.

ghost use Rattle.std.specs.Prelude.{◌≡◌};
ghost use Rattle.wq_head.specs.Readied.{IsUpAndIdle};
ghost use Rattle.head_tests.specs.Ready.{IsFreeIn, IsReadyIn};

use crate::heads::errands::{Errand, run_four};
use crate::heads::waiting::{count_members, leave, queue_own};
use crate::scenes::{Batch, want_often};
use std::sync::Wait;
use std::test::Fail;
use std::thread;
use std::thread::Threads;
use test_tasks::late::yield_often;
use test_tasks::wants::all_so;
use wait_model::layout::{RUNNING, UNINTERRUPTIBLE};
use wait_model::watches::{Kind, Mode, Watch};
use wait_rule::queues::{cond_load, entry_load, publish};
use wait_rule::tasks::set_state;
use wait_rule::{Domain, Task, schedule};
use wq_head::wakes::wake;

/// How many rounds each test makes.
const ROUNDS: u32 = 300;

/// Sleeps where the condition is not set yet.
fn sleep_unless_set<R: Wait>(rt: &R, domain: &Domain, task: &mut Task)
    requires there { IsFreeIn domain.now task.old }
    ensures there { IsFreeIn domain.now task.new }
{
    if cond_load(domain, task, Watch::Plain { cond: 0 }) == 0 {
        schedule(rt, domain, task);
    }
}

/// Waits once for the condition. True where its entry was still queued then: no wake has taken it off.
pub(crate) fn wait_once<R: Wait>(rt: &R, domain: &Domain, mut task: Task) -> bool
    requires ready { IsReadyIn domain.now task }
{
    if !queue_own(
        rt,
        domain,
        &mut task,
        Kind::Autoremove,
        false,
        UNINTERRUPTIBLE,
    ) {
        return true;
    }
    sleep_unless_set(rt, domain, &mut task);
    set_state(domain, &mut task, RUNNING);
    leave(rt, domain, &mut task)
}

/// Looks at an entry word of another task, outside of a hold: true where it is queued.
pub(crate) fn sees_queued(domain: &Domain, task: &mut Task, who: u8) -> bool
    requires of { task.old.domain ≡ domain.now }
    requires rests { IsUpAndIdle task.old }
    ensures of { task.new.domain ≡ domain.now }
    ensures rests { IsUpAndIdle task.new }
{
    entry_load(domain, task, who, 0).queued()
}

/// Looks until the entries of tasks 1 to 3 are all queued, so often at most.
fn look_for_three(domain: &Domain, task: &mut Task, looks: u32)
    requires of { task.old.domain ≡ domain.now }
    requires rests { IsUpAndIdle task.old }
    ensures of { task.new.domain ≡ domain.now }
    ensures rests { IsUpAndIdle task.new }
{
    for _ in 0..looks {
        let one = sees_queued(domain, task, 1);
        let two = sees_queued(domain, task, 2);
        let three = sees_queued(domain, task, 3);
        if one && two && three {
            return;
        }
        thread::yield_now();
    }
}

/// Sets the condition and wakes all who wait for it, after so many looks at their entries at most, and then so many
/// yields: how many it woke.
pub(crate) fn set_and_wake<R: Wait>(
    rt: &R,
    domain: &Domain,
    mut task: Task,
    looks: u32,
    yields: u32,
) -> u32
    requires ready { IsReadyIn domain.now task }
{
    let watch = Watch::Plain { cond: 0 };
    look_for_three(domain, &mut task, looks);
    yield_often(yields);
    publish(domain, &mut task, watch, 1);
    wake(rt, domain, &mut task, watch, Mode::Normal, 0).woken
}

/// Three tasks wait, and a fourth one sets the condition and wakes them, each in a thread of its own. Each entry is taken
/// off by the wake that woke its task, or by its task: whatever the order of the steps, no wakeup is lost, and no entry and
/// no bookmark is left anywhere.
pub(crate) fn walk_over_three<R: Threads + Wait + Sync>(
    rt: &R,
    domain: &Domain,
    mut task: Task,
    looks: u32,
    yields: u32,
) -> Result<(), Fail>
    requires ready { IsReadyIn domain.now task }
{
    let first = task.fork(domain, 0)?;
    let second = task.fork(domain, 0)?;
    let third = task.fork(domain, 0)?;
    let mut last = task.fork(domain, 0)?;
    let ((woken, one), (two, three)) = run_four(
        rt,
        domain,
        (task, first),
        (second, third),
        Errand::Sets { looks, yields },
        Errand::Waits,
    );
    let left = one.saturating_add(two).saturating_add(three);
    all_so(&[
        woken <= 3,
        woken.saturating_add(left) == 3,
        count_members(domain, &mut last) == (0, 0),
    ])
}

/// The condition is set at once, which may be before the tasks wait for it, while they do, or when they sleep.
#[test]
fn walk_over_arrivals(rt: HostRuntime) -> Result<(), Fail> {
    want_often(&rt, rt.alloc(), Batch::WalksOverArrivals, ROUNDS)
}

/// The condition is set once all are queued, or after many looks: while they go to sleep, or when they sleep.
#[test]
fn walk_over_sleepers(rt: HostRuntime) -> Result<(), Fail> {
    want_often(&rt, rt.alloc(), Batch::WalksOverSleepers, ROUNDS)
}
