//! One task alone: each call once, with what it answers where nobody else is there.

use crate::completions::calls::{complete, complete_all, is_done, reinit, takes, try_wait};
use std::test::Fail;
use test_tasks::wants::all_so;
use wait_model::tasks::SleepState;
use wait_rule::Domain;

/// The completion of the tests.
const CELL: u8 = 1;

/// What one task completes, it takes without a sleep, and nothing is left of it.
#[test]
fn one_is_taken(rt: HostRuntime) -> Result<(), Fail> {
    let (domain, mut task) = Domain::new(rt.alloc())?;
    complete(&rt, &domain, &mut task, CELL);
    let seen = [
        takes(&rt, &domain, &mut task, CELL, SleepState::Interruptible),
        !try_wait(&rt, &domain, &mut task, CELL),
        !is_done(&rt, &domain, &mut task, CELL),
    ];
    all_so(&seen)
}

/// A completion that is done for all stays done, whoever takes of it, until it is cleared.
#[test]
fn all_stay_done(rt: HostRuntime) -> Result<(), Fail> {
    let (domain, mut task) = Domain::new(rt.alloc())?;
    complete_all(&rt, &domain, &mut task, CELL);
    complete(&rt, &domain, &mut task, CELL);
    let seen = [
        is_done(&rt, &domain, &mut task, CELL),
        try_wait(&rt, &domain, &mut task, CELL),
        is_done(&rt, &domain, &mut task, CELL),
    ];
    all_so(&seen)?;
    reinit(&rt, &domain, &mut task, CELL);
    let seen = [
        !is_done(&rt, &domain, &mut task, CELL),
        !try_wait(&rt, &domain, &mut task, CELL),
    ];
    all_so(&seen)
}
