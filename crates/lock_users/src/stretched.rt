//! The critical section of `mutexes` where its task may not wait: it takes the mutex by stretches, and waits by
//! stretches for a change of the tally. Here a loop makes them; an executor makes them as it likes.

ghost use Rattle.std.specs.Prelude.{◌≡◌, true, false};
ghost use Rattle.wait_rule.specs.Says.{RestsIn};
ghost use Rattle.wait_class.specs.declared.stages.Turn.TheVariants as turn;
ghost use Rattle.futex_table.specs.{Holding.HoldsMutex, LockStretches.IsLockUnderWay, LockStretches.IsMutexLocking};
ghost use Rattle.futex_table.specs.{TalliedTasks.CountsAdd, TalliedTasks.StayTallied};

use crate::mutexes::{LOCK, add_one, give_mutex};
use futex_table::lock_stretches::{
    LockStage, MutexTurn, begin_mutex_lock, end_mutex_lock, stretch_mutex_lock, woke_mutex_lock,
};
use std::sync::Wait;
use wait_class::stages::Turn;
use wait_leave::Until;
use wait_rule::queues::Passing;
use wait_rule::{Domain, Task};
use wq_head::Worn;

/// Makes one stretch of a lock, and wakes who parks for the lock of the head that it gave back.
fn one_stretch(domain: &Domain, task: &mut Task, stage: LockStage) -> MutexTurn
    requires of { task.old.domain ≡ domain.now }
    requires at { IsLockUnderWay 6 task.old (turn.Again stage) }
    ensures of { task.new.domain ≡ domain.now }
    ensures stands { IsLockUnderWay 6 task.new result }
    ensures came { (start : _) → IsMutexLocking false 6 start task.old (turn.Again stage)
        → IsMutexLocking false 6 start task.new result }
{
    let mut passing = Passing::none();
    let turn = stretch_mutex_lock(domain, task, LOCK, stage, &mut passing);
    passing.wake(domain);
    passing.end();
    turn
}

/// Looks again and again until a lock that was put asleep was woken.
fn doze<R: Wait>(rt: &R, domain: &Domain, task: &mut Task, stage: LockStage)
    requires of { task.old.domain ≡ domain.now }
    requires asleep { IsLockUnderWay 6 task.old (turn.Asleep stage) }
    ensures of { task.new.domain ≡ domain.now }
    ensures stands { IsLockUnderWay 6 task.new (turn.Again stage) }
    ensures came { (start : _) → IsMutexLocking false 6 start task.old (turn.Asleep stage)
        → IsMutexLocking false 6 start task.new (turn.Again stage) }
{
    for _ in rt.forever() {
        if woke_mutex_lock(domain, task, LOCK, stage) {
            return;
        }
    }
}

/// Goes on with a lock to its end by stretches.
fn lock_on<R: Wait>(
    rt: &R,
    domain: &Domain,
    task: &mut Task,
    stage: LockStage,
) -> Until<Result<(), Worn>>
    requires of { task.old.domain ≡ domain.now }
    requires at { IsLockUnderWay 6 task.old (turn.Again stage) }
    ensures of { task.new.domain ≡ domain.now }
    ensures came { (start : _) → IsMutexLocking false 6 start task.old (turn.Again stage)
        → IsMutexLocking false 6 start task.new (turn.Done result) }
{
    let mut at = stage;
    for _ in rt.forever() {
        match one_stretch(domain, task, at) {
            Turn::Again(next) => at = next,
            Turn::Locked(next) => at = next,
            Turn::Asleep(next) => {
                doze(rt, domain, task, next);
                at = next;
            }
            Turn::Done(answer) => return answer,
        }
    }
    unreachable!()
}

/// Takes the mutex by stretches: false where no place was left at its head.
pub fn take_by_stretches<R: Wait>(rt: &R, domain: &Domain, task: &mut Task) -> bool
    requires rests { RestsIn domain.now task.old }
    ensures rests { RestsIn domain.now task.new }
    ensures holds { result ≡ true → HoldsMutex task.new 6 }
    ensures tallied { StayTallied 6 task.old task.new }
{
    let stage = begin_mutex_lock(task, LOCK);
    let answer = lock_on(rt, domain, task, stage);
    match end_mutex_lock(task, LOCK, answer) {
        Ok(()) => true,
        Err(_worn) => false,
    }
}

/// Takes the mutex by stretches, adds one to the tally, and gives the mutex back: whether it had it.
pub fn add_by_stretches<R: Wait>(rt: &R, domain: &Domain, task: &mut Task) -> bool
    requires rests { RestsIn domain.now task.old }
    ensures rests { RestsIn domain.now task.new }
    ensures added { result ≡ true → CountsAdd 6 7 task.old task.new }
    ensures none { result ≡ false → StayTallied 6 task.old task.new }
{
    if take_by_stretches(rt, domain, task) {
        add_one(rt, domain, task);
        give_mutex(rt, domain, task);
        return true;
    }
    false
}
