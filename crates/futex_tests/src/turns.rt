//! What the tests on one thread share, in which calls that go on by stretches take turns: whether a call has drawn a
//! ticket, for which the task of a whole call would wait in vain, and the mutex that is taken before them.

ghost use Rattle.wait_rule.specs.Says.{RestsIn};
ghost use Rattle.futex_table.specs.Holding.{HoldsMutex};

use crate::calls::{open, try_lock};
use futex_table::lock_stretches::LockStage;
use futex_table::waits::FutexStage;
use std::process::Abort;
use std::sync::Wait;
use wait_rule::{Domain, Task};

/// Whether a wait has drawn no ticket at a stage, so that another task of the thread can wait for the lock of the head.
pub(crate) fn is_free_wait(stage: FutexStage) -> bool {
    !matches!(stage, FutexStage::Turn | FutexStage::OffTurn)
}

/// The same of a lock.
pub(crate) fn is_free_lock(stage: LockStage) -> bool {
    match stage {
        LockStage::Try => true,
        LockStage::Wait(_, at) => is_free_wait(at),
    }
}

/// Opens the mutex, and takes it before anybody else does.
pub(crate) fn open_and_take<R: Abort + Wait>(rt: &R, domain: &Domain, task: &mut Task)
    requires rests { RestsIn domain.now task.old }
    ensures rests { RestsIn domain.now task.new }
    ensures holds { HoldsMutex task.new 6 }
{
    open(rt, domain, task);
    if !try_lock(domain, task) {
        panic!(rt; "the mutex is open")
    }
}
