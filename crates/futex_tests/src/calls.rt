//! The calls that the tests make, each by a task that owes nothing, before it and after it. The mutex of the tests is
//! futex 6, their condition variable futex 7, and futex 5 one that tasks sleep on.

ghost use Rattle.std.specs.Prelude.{◌≡◌, true};
ghost use Rattle.wait_rule.specs.Says.{RestsIn};
ghost use Rattle.futex_table.specs.Holding.{HoldsMutex};

use futex_table::{
    cond_broadcast, cond_signal, cond_wait, futex_wait, futex_wake, mutex_lock, mutex_open,
    mutex_try, mutex_unlock,
};
use std::sync::Wait;
use std::sync::atomic::{AtomicU64, Ordering};
use std::thread;
use wait_model::tasks::SleepState;
use wait_rule::{Domain, Task};

/// The futex.
const FUTEX: u8 = 5;

/// The mutex.
const LOCK: u8 = 6;

/// The condition variable.
const COND: u8 = 7;

/// Opens the mutex.
pub(crate) fn open<R: Wait>(rt: &R, domain: &Domain, task: &mut Task)
    requires rests { RestsIn domain.now task.old }
    ensures rests { RestsIn domain.now task.new }
{
    mutex_open(rt, domain, task, LOCK);
}

/// Takes the mutex: whether it has it.
pub(crate) fn lock<R: Wait>(rt: &R, domain: &Domain, task: &mut Task) -> bool
    requires rests { RestsIn domain.now task.old }
    ensures rests { RestsIn domain.now task.new }
    ensures holds { result ≡ true → HoldsMutex task.new 6 }
{
    match mutex_lock(rt, domain, task, LOCK) {
        Ok(()) => true,
        Err(_worn) => false,
    }
}

/// Takes the mutex if nobody has it: whether it has it.
pub(crate) fn try_lock(domain: &Domain, task: &mut Task) -> bool
    requires rests { RestsIn domain.now task.old }
    ensures rests { RestsIn domain.now task.new }
    ensures holds { result ≡ true → HoldsMutex task.new 6 }
{
    mutex_try(domain, task, LOCK)
}

/// Gives it back.
pub(crate) fn unlock<R: Wait>(rt: &R, domain: &Domain, task: &mut Task)
    requires rests { RestsIn domain.now task.old }
    requires holds { HoldsMutex task.old 6 }
    ensures rests { RestsIn domain.now task.new }
{
    mutex_unlock(rt, domain, task, LOCK);
}

/// Waits for the condition variable: whether it has the mutex behind the wait.
pub(crate) fn wait<R: Wait>(rt: &R, domain: &Domain, task: &mut Task) -> bool
    requires rests { RestsIn domain.now task.old }
    requires holds { HoldsMutex task.old 6 }
    ensures rests { RestsIn domain.now task.new }
    ensures holds { result ≡ true → HoldsMutex task.new 6 }
{
    let state = SleepState::Uninterruptible;
    match cond_wait(rt, domain, task, COND, LOCK, state) {
        Ok(()) => true,
        Err(_end) => false,
    }
}

/// Wakes one who waits for the condition variable: how many it woke.
pub(crate) fn signal<R: Wait>(rt: &R, domain: &Domain, task: &mut Task) -> u32
    requires rests { RestsIn domain.now task.old }
    requires holds { HoldsMutex task.old 6 }
    ensures rests { RestsIn domain.now task.new }
    ensures holds { HoldsMutex task.new 6 }
{
    cond_signal(rt, domain, task, COND, LOCK)
}

/// Wakes all who wait for the condition variable.
pub(crate) fn broadcast<R: Wait>(rt: &R, domain: &Domain, task: &mut Task)
    requires rests { RestsIn domain.now task.old }
    requires holds { HoldsMutex task.old 6 }
    ensures rests { RestsIn domain.now task.new }
    ensures holds { HoldsMutex task.new 6 }
{
    cond_broadcast(rt, domain, task, COND, LOCK);
}

/// Sleeps on the futex, whose word is 0: true where a wake ended it, which is counted.
pub(crate) fn sleep<R: Wait>(
    rt: &R,
    domain: &Domain,
    task: &mut Task,
    state: SleepState,
    wakes: &AtomicU64,
) -> bool
    requires rests { RestsIn domain.now task.old }
    ensures rests { RestsIn domain.now task.new }
{
    match futex_wait(rt, domain, task, FUTEX, 0, state) {
        Ok(()) => {
            wakes.fetch_add(1, Ordering::SeqCst);
            true
        }
        Err(_end) => false,
    }
}

/// Wakes one who sleeps on the futex: whether one did.
fn wake_one<R: Wait>(rt: &R, domain: &Domain, task: &mut Task) -> bool
    requires rests { RestsIn domain.now task.old }
    ensures rests { RestsIn domain.now task.new }
{
    futex_wake(rt, domain, task, FUTEX, 1) == 1
}

/// Wakes one, as soon as one sleeps.
pub(crate) fn wake_soon<R: Wait>(rt: &R, domain: &Domain, task: &mut Task) -> bool
    requires rests { RestsIn domain.now task.old }
    ensures rests { RestsIn domain.now task.new }
{
    for _ in rt.forever() {
        if wake_one(rt, domain, task) {
            return true;
        }
        thread::yield_now();
    }
    unreachable!()
}
