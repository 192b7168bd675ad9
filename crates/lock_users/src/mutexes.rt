//! A critical section under mutex 6 of futexes: a task adds one to a tally, the word of futex 7, wakes who waits for a
//! change of it, or waits for one. By `futex_table::laws::one_holder` the mutex has one holder at most, and what that has
//! loaded from the tally stands there until it stores one more, so no add is lost. It owes nothing between two calls.

ghost use Rattle.std.specs.Prelude.{◌≡◌, true, false};
ghost use Rattle.wait_rule.specs.Says.{IsClean, IsUp, RestsIn};
ghost use Rattle.futex_table.specs.Holding.{HoldsMutex};
ghost use Rattle.futex_table.specs.TalliedTasks.{CountsAdd, StartsTallies, StayTallied};

use futex_table::{cond_signal, cond_wait, mutex_lock, mutex_open, mutex_unlock};
use std::sync::Wait;
use wait_model::tasks::SleepState;
use wait_rule::{Domain, Task};

/// The mutex.
pub(crate) const LOCK: u8 = 6;

/// The tally.
pub(crate) const TALLY: u8 = 7;

/// Opens the mutex, once.
pub fn open_mutex<R: Wait>(rt: &R, domain: &Domain, task: &mut Task)
    requires rests { RestsIn domain.now task.old }
    ensures rests { RestsIn domain.now task.new }
    ensures starts { StartsTallies 6 task.old task.new }
{
    mutex_open(rt, domain, task, LOCK);
}

/// Takes it: false where no place was left at its head.
pub fn take_mutex<R: Wait>(rt: &R, domain: &Domain, task: &mut Task) -> bool
    requires rests { RestsIn domain.now task.old }
    ensures rests { RestsIn domain.now task.new }
    ensures holds { result ≡ true → HoldsMutex task.new 6 }
    ensures tallied { StayTallied 6 task.old task.new }
{
    match mutex_lock(rt, domain, task, LOCK) {
        Ok(()) => true,
        Err(_worn) => false,
    }
}

/// Adds one to the tally, and wakes one who waits for a change of it.
pub fn add_one<R: Wait>(rt: &R, domain: &Domain, task: &mut Task)
    requires rests { RestsIn domain.now task.old }
    requires holds { HoldsMutex task.old 6 }
    ensures rests { RestsIn domain.now task.new }
    ensures holds { HoldsMutex task.new 6 }
    ensures counted { CountsAdd 6 7 task.old task.new }
{
    cond_signal(rt, domain, task, TALLY, LOCK);
}

/// Waits for a change of the tally: whether it has the mutex behind the wait.
pub fn wait_for_add<R: Wait>(rt: &R, domain: &Domain, task: &mut Task) -> bool
    requires rests { RestsIn domain.now task.old }
    requires holds { HoldsMutex task.old 6 }
    ensures rests { RestsIn domain.now task.new }
    ensures holds { result ≡ true → HoldsMutex task.new 6 }
    ensures tallied { StayTallied 6 task.old task.new }
{
    let state = SleepState::Uninterruptible;
    match cond_wait(rt, domain, task, TALLY, LOCK, state) {
        Ok(()) => true,
        Err(_end) => false,
    }
}

/// Gives the mutex back.
pub fn give_mutex<R: Wait>(rt: &R, domain: &Domain, task: &mut Task)
    requires rests { RestsIn domain.now task.old }
    requires holds { HoldsMutex task.old 6 }
    ensures rests { RestsIn domain.now task.new }
    ensures tallied { StayTallied 6 task.old task.new }
{
    mutex_unlock(rt, domain, task, LOCK);
}

/// Takes the mutex, adds one to the tally, and gives the mutex back: whether it had it.
pub fn add_under_mutex<R: Wait>(rt: &R, domain: &Domain, task: &mut Task) -> bool
    requires rests { RestsIn domain.now task.old }
    ensures rests { RestsIn domain.now task.new }
    ensures added { result ≡ true → CountsAdd 6 7 task.old task.new }
    ensures none { result ≡ false → StayTallied 6 task.old task.new }
{
    if take_mutex(rt, domain, task) {
        add_one(rt, domain, task);
        give_mutex(rt, domain, task);
        return true;
    }
    false
}

/// Does so, and then is taken in by another task.
pub fn add_and_join<R: Wait>(rt: &R, domain: &Domain, into: &mut Task, mut task: Task) -> bool
    requires of { (into.old.domain ≡ domain.now) × (task.domain ≡ domain.now) }
    requires up { IsUp into.old }
    requires clean { IsClean task }
    ensures of { into.new.domain ≡ domain.now }
    ensures up { IsUp into.new }
{
    let had = add_under_mutex(rt, domain, &mut task);
    into.join(domain, task);
    had
}
