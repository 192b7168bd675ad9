//! A task that queues its entry, sleeps, is woken and leaves: it is clean then, by what the calls promise, and is
//! joined.

ghost use Rattle.std.specs.Prelude.{◌≡◌};
ghost use Rattle.wait_model.specs.declared.layout.TheConstants.{FIRST_PLAIN_HEAD};
ghost use Rattle.wait_model.specs.declared.watches.Kind.TheVariants as kind;
ghost use Rattle.wait_rule.specs.Says.{IsUp, RestsIn};
ghost use Rattle.wq_head.specs.{Holds.IsHolding, Readied.IsPlainKind};
ghost use Rattle.head_tests.specs.Leaving.{HasEntry, HasLeft, IsBack, StandsQueued};
ghost use Rattle.head_tests.specs.Ready.{IsReadyIn};

use crate::scenes::{Joined, want_joined};
use std::process::Abort;
use std::sync::Wait;
use std::test::Fail;
use wait_model::layout::{FIRST_PLAIN_HEAD, UNINTERRUPTIBLE};
use wait_model::tasks::Sleep;
use wait_model::watches::{Kind, Mode, Watch};
use wait_model::words::entry_of;
use wait_rule::queues::{entry_load, publish};
use wait_rule::tasks::set_state;
use wait_rule::{Domain, Task, schedule};
use wq_head::adds::{add_tail, remove};
use wq_head::locks::{lock, unlock};
use wq_head::wakes::wake;

/// Queues the own entry at the head of condition 0.
fn queue_own<R: Abort + Wait>(rt: &R, domain: &Domain, task: &mut Task, kind: Kind)
    requires rests { RestsIn domain.now task.old }
    requires kind { IsPlainKind kind }
    ensures of { task.new.domain ≡ domain.now }
    ensures queued { IsBack task.new kind }
{
    lock(rt, domain, task, FIRST_PLAIN_HEAD);
    let watch = Watch::Plain { cond: 0 };
    let Ok(()) = add_tail(domain, task, 0, kind, false, watch) else {
        panic!(rt; "the queue is empty")
    };
    unlock(rt, domain, task, false);
}

/// Stores the state in which it is to sleep.
fn prepare(domain: &Domain, task: &mut Task, kind: Kind)
    requires of { task.old.domain ≡ domain.now }
    requires back { IsBack task.old kind }
    ensures of { task.new.domain ≡ domain.now }
    ensures queued { StandsQueued task.new kind }
{
    set_state(domain, task, UNINTERRUPTIBLE);
}

/// Sleeps until woken.
fn sleep<R: Wait>(rt: &R, domain: &Domain, task: &mut Task, kind: Kind) -> Sleep
    requires of { task.old.domain ≡ domain.now }
    requires queued { StandsQueued task.old kind }
    ensures of { task.new.domain ≡ domain.now }
    ensures back { IsBack task.new kind }
{
    schedule(rt, domain, task)
}

/// Takes the own entry off, if it is still queued, as one of kind `Default` is: no other task takes off such an entry.
fn take_off(domain: &Domain, task: &mut Task, kind: Kind)
    requires of { task.old.domain ≡ domain.now }
    requires up { IsUp task.old }
    requires held { IsHolding task.old }
    requires at { task.old.at ≡ FIRST_PLAIN_HEAD }
    requires entry { HasEntry task.old kind }
    ensures { HasLeft task.old task.new }
{
    let who = task.number();
    let word = entry_load(domain, task, who, 0);
    match kind {
        Kind::Default => remove(domain, task, who, 0),
        _ => match entry_of(word.0) {
            None => {}
            Some(_) => remove(domain, task, who, 0),
        },
    }
}

/// Leaves the queue.
fn leave<R: Wait>(rt: &R, domain: &Domain, task: &mut Task, kind: Kind)
    requires of { task.old.domain ≡ domain.now }
    requires back { IsBack task.old kind }
    ensures rests { RestsIn domain.now task.new }
{
    lock(rt, domain, task, FIRST_PLAIN_HEAD);
    take_off(domain, task, kind);
    unlock(rt, domain, task, false);
}

/// Wakes all who wait for condition 0, and goes on with its own entry queued.
fn wake_with_entry<R: Wait>(rt: &R, domain: &Domain, task: &mut Task) -> u32
    requires of { task.old.domain ≡ domain.now }
    requires back { IsBack task.old kind.Default }
    ensures of { task.new.domain ≡ domain.now }
    ensures back { IsBack task.new kind.Default }
{
    let watch = Watch::Plain { cond: 0 };
    wake(rt, domain, task, watch, Mode::Normal, 0).woken
}

/// Sets condition 0 and wakes all who wait for it.
fn set_and_wake<R: Wait>(rt: &R, domain: &Domain, task: &mut Task) -> u32
    requires rests { RestsIn domain.now task.old }
    ensures rests { RestsIn domain.now task.new }
{
    let watch = Watch::Plain { cond: 0 };
    publish(domain, task, watch, 1);
    wake(rt, domain, task, watch, Mode::Normal, 0).woken
}

/// Wakes all who wait for condition 0, by a task that has nothing queued.
fn wake_all<R: Wait>(rt: &R, domain: &Domain, task: &mut Task) -> u32
    requires ready { IsReadyIn domain.now task.old }
    ensures of { task.new.domain ≡ domain.now }
    ensures up { IsUp task.new }
{
    let watch = Watch::Plain { cond: 0 };
    wake(rt, domain, task, watch, Mode::Normal, 0).woken
}

/// A waiter queues its entry, and another task wakes it before it sleeps. It leaves the queue then, and is joined.
pub(crate) fn woken_leaves<R: Abort + Wait>(
    rt: &R,
    domain: &Domain,
    task: &mut Task,
    mut waiter: Task,
    kind: Kind,
) -> [bool; 2]
    requires ready { IsReadyIn domain.now task.old }
    requires rests { RestsIn domain.now waiter }
    requires kind { IsPlainKind kind }
{
    queue_own(rt, domain, &mut waiter, kind);
    prepare(domain, &mut waiter, kind);
    let woken = wake_all(rt, domain, task);
    let slept = sleep(rt, domain, &mut waiter, kind);
    leave(rt, domain, &mut waiter, kind);
    task.join(domain, waiter);
    [woken == 1, matches!(slept, Sleep::Stay)]
}

/// A waiter wakes others, leaves the queue and is joined: whether it woke nobody.
pub(crate) fn waiter_wakes<R: Abort + Wait>(
    rt: &R,
    domain: &Domain,
    task: &mut Task,
    mut waiter: Task,
) -> bool
    requires of { task.old.domain ≡ domain.now }
    requires up { IsUp task.old }
    requires rests { RestsIn domain.now waiter }
{
    queue_own(rt, domain, &mut waiter, Kind::Default);
    let woken = wake_with_entry(rt, domain, &mut waiter);
    leave(rt, domain, &mut waiter, Kind::Default);
    task.join(domain, waiter);
    woken == 0
}

/// A waker sets the condition, wakes all and is joined: whether it woke nobody.
pub(crate) fn waker_ends<R: Wait>(rt: &R, domain: &Domain, task: &mut Task, mut waker: Task) -> bool
    requires of { task.old.domain ≡ domain.now }
    requires up { IsUp task.old }
    requires rests { RestsIn domain.now waker }
{
    let woken = set_and_wake(rt, domain, &mut waker);
    task.join(domain, waker);
    woken == 0
}

/// A waker that set the condition owes nothing more after its wake of all.
#[test]
fn waker_is_joined(rt: HostRuntime) -> Result<(), Fail> {
    want_joined(&rt, rt.alloc(), Joined::Waker)
}

/// A waiter whose entry the wake takes off.
#[test]
fn woken_waiter_is_joined(rt: HostRuntime) -> Result<(), Fail> {
    want_joined(&rt, rt.alloc(), Joined::WokenWaiter)
}

/// A waiter whose entry stays over the wake of another task, and that takes it off itself.
#[test]
fn default_entry_stays(rt: HostRuntime) -> Result<(), Fail> {
    want_joined(&rt, rt.alloc(), Joined::WokenDefault)
}

/// A waiter that wakes others while its own entry is queued.
#[test]
fn own_entry_stays_over_a_wake(rt: HostRuntime) -> Result<(), Fail> {
    want_joined(&rt, rt.alloc(), Joined::WakingWaiter)
}
