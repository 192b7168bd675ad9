//! One task alone: each call once, with what it answers where nobody else is there.

use futex_table::{
    FutexEnd, cond_broadcast, cond_signal, futex_store, futex_wait, futex_wake, mutex_lock,
    mutex_open, mutex_try, mutex_unlock,
};
use std::test::Fail;
use test_tasks::wants::all_so;
use wait_model::tasks::SleepState;
use wait_rule::{Domain, send_signal};

/// Whether a wait found this value.
fn found(end: Result<(), FutexEnd>, value: u64) -> bool {
    match end {
        Err(FutexEnd::Again { seen }) => seen == value,
        _ => false,
    }
}

/// Whether a signal ended a wait.
fn is_interrupted(end: Result<(), FutexEnd>) -> bool {
    matches!(end, Err(FutexEnd::Interrupted))
}

/// A wait for a value that the word has not ends at once, and tells what the word has; a wake finds nobody.
#[test]
fn wait_for_another_value(rt: HostRuntime) -> Result<(), Fail> {
    let (domain, mut task) = Domain::new(rt.alloc())?;
    let state = SleepState::Interruptible;
    let first = futex_wait(&rt, &domain, &mut task, 5, 1, state);
    let none = futex_wake(&rt, &domain, &mut task, 5, 1);
    futex_store(&domain, &mut task, 5, 3);
    let second = futex_wait(&rt, &domain, &mut task, 5, 0, state);
    let nobody = futex_wake(&rt, &domain, &mut task, 5, 1);
    all_so(&[found(first, 0), none == 0, found(second, 3), nobody == 0])
}

/// A signal that is pending ends a wait for the value that the word has.
#[test]
fn signal_ends_a_wait(rt: HostRuntime) -> Result<(), Fail> {
    let (domain, mut task) = Domain::new(rt.alloc())?;
    let who = task.number();
    send_signal(&rt, &domain, &mut task, who, false);
    let end = futex_wait(&rt, &domain, &mut task, 5, 0, SleepState::Interruptible);
    let none = futex_wake(&rt, &domain, &mut task, 5, 1);
    all_so(&[is_interrupted(end), none == 0])
}

/// A mutex is taken once it is open, by one task.
#[test]
fn tries_of_a_mutex(rt: HostRuntime) -> Result<(), Fail> {
    let (domain, mut task) = Domain::new(rt.alloc())?;
    let shut = mutex_try(&domain, &mut task, 6);
    mutex_open(&rt, &domain, &mut task, 6);
    let open = mutex_try(&domain, &mut task, 6);
    let taken = mutex_try(&domain, &mut task, 6);
    all_so(&[!shut, open, !taken])
}

/// A signal and a broadcast find nobody, and the mutex stays taken until it is given back.
#[test]
fn nobody_waits_for_a_condition_variable(rt: HostRuntime) -> Result<(), Fail> {
    let (domain, mut task) = Domain::new(rt.alloc())?;
    mutex_open(&rt, &domain, &mut task, 6);
    if mutex_lock(&rt, &domain, &mut task, 6).is_err() {
        panic!(rt; "the mutex is open")
    }
    let signalled = cond_signal(&rt, &domain, &mut task, 7, 6);
    let broadcast = cond_broadcast(&rt, &domain, &mut task, 7, 6);
    mutex_unlock(&rt, &domain, &mut task, 6);
    let open = mutex_try(&domain, &mut task, 6);
    all_so(&[signalled == 0, broadcast == 0, open])
}
