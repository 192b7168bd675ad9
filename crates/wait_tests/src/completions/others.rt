//! A task that completes, waits for a condition, and completes again: that it has left no entry at a completion stays
//! known over the wait.

use crate::completions::calls::{complete, try_wait};
use std::test::Fail;
use test_tasks::wants::all_so;
use wait_event::conds::set_and_wake;
use wait_model::tasks::SleepState;
use wait_model::watches::Mode;
use wait_rule::Domain;
use wq_user::events::wait_for_zero;

/// The completion of the test.
const CELL: u8 = 3;

/// Two permits are there then, and no third.
#[test]
fn completed_around_a_wait(rt: HostRuntime) -> Result<(), Fail> {
    let (domain, mut task) = Domain::new(rt.alloc())?;
    let mut other = task.fork(&domain, 0)?;
    set_and_wake(&rt, &domain, &mut other, 0, 1, Mode::Normal, 0);
    complete(&rt, &domain, &mut task, CELL);
    let over = wait_for_zero(&rt, &domain, &mut task, SleepState::Uninterruptible);
    complete(&rt, &domain, &mut task, CELL);
    let seen = [
        over,
        try_wait(&rt, &domain, &mut task, CELL),
        try_wait(&rt, &domain, &mut task, CELL),
        !try_wait(&rt, &domain, &mut task, CELL),
    ];
    all_so(&seen)
}
