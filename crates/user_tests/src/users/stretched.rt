//! Waits by stretches of one task alone, each of which finds what it waits for.

use std::test::Fail;
use test_tasks::wants::{all_so, begin_two};
use wait_model::tasks::{How, SleepState};
use wq_user::completions::complete_one;
use wq_user::events::set_zero;
use wq_user::stretched::{take, wait_cond, wait_var};
use wq_user::stretched_bits::{hold, look};
use wq_user::stretched_locks::hold_bit;

/// Each ends as its whole call does, and the task is taken in.
#[test]
fn waits_by_stretches_are_over(rt: HostRuntime) -> Result<(), Fail> {
    let (domain, mut task, mut other) = begin_two(rt.alloc())?;
    let how = How {
        state: SleepState::Interruptible,
        exclusive: false,
    };
    complete_one(&rt, &domain, &mut task);
    let seen = [
        set_zero(&rt, &domain, &mut task) == 0,
        wait_cond(&rt, &domain, &mut other, how),
        wait_var(&rt, &domain, &mut other, 1, SleepState::Killable),
        take(&rt, &domain, &mut other, SleepState::Killable),
        look(&rt, &domain, &mut other, SleepState::Killable),
        hold(&rt, &domain, &mut other, SleepState::Killable),
        hold_bit(&rt, &domain, &mut other, SleepState::Interruptible),
    ];
    all_so(&seen)?;
    task.join(&domain, other);
    Ok(())
}
