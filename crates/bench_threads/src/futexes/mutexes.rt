//! A mutex that threads take in turn and give back, and wakes that find nobody.

ghost use Rattle.std.specs.Prelude.{◌≡◌, true};
ghost use Rattle.wait_rule.specs.Says.{RestsIn};
ghost use Rattle.futex_table.specs.Holding.{HoldsMutex};

use futex_table::{futex_wake, mutex_lock, mutex_open, mutex_unlock};
use std::sync::Wait;
use test_tasks::meetings::Part;
use wait_rule::{Domain, Task};

/// The mutex.
const LOCK: u8 = 6;

/// The futex on which nobody sleeps.
const FUTEX: u8 = 5;

/// Opens the mutex.
pub(crate) fn open<R: Wait>(rt: &R, domain: &Domain, task: &mut Task)
    requires rests { RestsIn domain.now task.old }
    ensures rests { RestsIn domain.now task.new }
{
    mutex_open(rt, domain, task, LOCK);
}

/// Takes the mutex: false where no place was left at its head.
pub(crate) fn lock<R: Wait>(rt: &R, domain: &Domain, task: &mut Task) -> bool
    requires rests { RestsIn domain.now task.old }
    ensures rests { RestsIn domain.now task.new }
    ensures holds { result ≡ true → HoldsMutex task.new 6 }
{
    match mutex_lock(rt, domain, task, LOCK) {
        Ok(()) => true,
        Err(_worn) => false,
    }
}

/// Gives it back.
pub(crate) fn unlock<R: Wait>(rt: &R, domain: &Domain, task: &mut Task)
    requires rests { RestsIn domain.now task.old }
    requires holds { HoldsMutex task.old 6 }
    ensures rests { RestsIn domain.now task.new }
{
    mutex_unlock(rt, domain, task, LOCK);
}

/// Takes it and gives it back: it goes well where the task had it.
#[derive(Clone, Copy)]
pub(crate) struct LockOnce;

impl Part for LockOnce {
    fn play<R: Wait>(self, rt: &R, domain: &Domain, task: &mut Task) -> bool {
        if lock(rt, domain, task) {
            unlock(rt, domain, task);
            return true;
        }
        false
    }
}

/// Wakes one who sleeps on the futex, where one does.
fn wake_one<R: Wait>(rt: &R, domain: &Domain, task: &mut Task)
    requires rests { RestsIn domain.now task.old }
    ensures rests { RestsIn domain.now task.new }
{
    futex_wake(rt, domain, task, FUTEX, 1);
}

/// It does so once.
#[derive(Clone, Copy)]
pub(crate) struct WakeOne;

impl Part for WakeOne {
    fn play<R: Wait>(self, rt: &R, domain: &Domain, task: &mut Task) -> bool {
        wake_one(rt, domain, task);
        true
    }
}
