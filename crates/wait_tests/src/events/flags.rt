//! A task that waits by the flag of an entry: alone, and in threads again and again, in Domains whose tasks park at
//! once when they are put asleep.

ghost use Rattle.std.specs.Prelude.{◌≡◌, MatchBool, None};
ghost use Rattle.wait_rule.specs.Says.{IsClean, RestsIn, told_of};
ghost use Rattle.wait_tests.specs.EventTasks.{IsCleanHearer, IsHearer};

use crate::in_order::met_nobody;
use crate::meetings::rows::HEARERS;
use crate::meetings::{ROUNDS, meet_often};
use std::sync::Wait;
use std::test::Fail;
use wait_event::entries::{add_entry, remove_entry};
use wait_event::woken_waits::wait_woken;
use wait_model::queues::{Form, Walked};
use wait_model::tasks::SleepState;
use wait_model::watches::{Kind, Mode, Watch};
use wait_rule::queues::cond_load;
use wait_rule::{Domain, Task};
use wq_head::wakes::wake;

/// The condition that is waited for.
const WATCH: Watch = Watch::Plain { cond: 0 };

/// Queues an entry of kind Woken: true where there was a place for it.
pub(crate) fn enter<R: Wait>(rt: &R, domain: &Domain, task: &mut Task) -> bool
    requires rests { RestsIn domain.now task.old }
    ensures of { task.new.domain ≡ domain.now }
    ensures entered { MatchBool result (IsCleanHearer task.new) (IsClean task.new) }
    ensures unmarked { (told_of task.new).mark ≡ None }
{
    match add_entry(rt, domain, task, 0, Kind::Woken, Form::Front) {
        Ok(()) => true,
        Err(_worn) => false,
    }
}

/// Whether the condition is set.
pub(crate) fn is_set(domain: &Domain, task: &mut Task) -> bool
    requires of { task.old.domain ≡ domain.now }
    requires hearer { IsHearer task.old }
    ensures of { task.new.domain ≡ domain.now }
    ensures hearer { IsHearer task.new }
    ensures clean { IsCleanHearer task.old → IsCleanHearer task.new }
{
    cond_load(domain, task, WATCH) != 0
}

/// Waits for the flag once.
pub(crate) fn hear<R: Wait>(rt: &R, domain: &Domain, task: &mut Task)
    requires of { task.old.domain ≡ domain.now }
    requires hearer { IsCleanHearer task.old }
    ensures of { task.new.domain ≡ domain.now }
    ensures hearer { IsCleanHearer task.new }
{
    wait_woken(rt, domain, task, SleepState::Interruptible);
}

/// Takes the entry off.
pub(crate) fn leave<R: Wait>(rt: &R, domain: &Domain, task: &mut Task)
    requires of { task.old.domain ≡ domain.now }
    requires hearer { IsCleanHearer task.old }
    ensures rests { RestsIn domain.now task.new }
{
    remove_entry(rt, domain, task);
}

/// Wakes all who wait for the condition, which sets the flag of the own entry.
fn wake_all<R: Wait>(rt: &R, domain: &Domain, task: &mut Task) -> Walked
    requires of { task.old.domain ≡ domain.now }
    requires hearer { IsHearer task.old }
    requires unmarked { (told_of task.old).mark ≡ None }
    ensures of { task.new.domain ≡ domain.now }
    ensures hearer { IsHearer task.new }
{
    wake(rt, domain, task, WATCH, Mode::Normal, 0)
}

/// Waits for the flag, which is set, and takes the entry off.
fn hear_and_leave<R: Wait>(rt: &R, domain: &Domain, task: &mut Task)
    requires of { task.old.domain ≡ domain.now }
    requires hearer { IsHearer task.old }
{
    wait_woken(rt, domain, task, SleepState::Interruptible);
    remove_entry(rt, domain, task);
}

/// A wake that comes before the wait sets the flag, though the task is not asleep: so the wait does not sleep.
#[test]
fn woken_before_the_sleep(rt: HostRuntime) -> Result<(), Fail> {
    let (domain, mut task) = Domain::new(rt.alloc())?;
    if enter(&rt, &domain, &mut task) {
        let walked = wake_all(&rt, &domain, &mut task);
        assert!(rt; met_nobody(walked, 1));
        hear_and_leave(&rt, &domain, &mut task);
        return Ok(());
    }
    panic!(rt; "the queue is empty")
}

/// Waits for the condition by the flag of an entry: true where there was a place for it.
pub(crate) fn hear_until_set<R: Wait>(rt: &R, domain: &Domain, task: &mut Task) -> bool
    requires rests { RestsIn domain.now task.old }
    ensures rests { RestsIn domain.now task.new }
{
    if !enter(rt, domain, task) {
        return false;
    }
    for _ in rt.forever() {
        if is_set(domain, task) {
            leave(rt, domain, task);
            return true;
        }
        hear(rt, domain, task);
    }
    unreachable!()
}

/// Whatever the order of the steps, the wait ends, and the waker takes its task in.
#[test]
fn hearers_are_joined(rt: HostRuntime) -> Result<(), Fail> {
    meet_often(&rt, rt.alloc(), ROUNDS, HEARERS)
}
