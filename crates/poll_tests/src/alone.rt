//! One task alone: what a poll answers where nobody else is there.

use crate::calls::{polls, sets, stores};
use poll_wait::{PollEnd, Ready};
use std::test::Fail;
use test_tasks::signals::signals;
use test_tasks::wants::all_so;
use wait_model::tasks::SleepState;
use wait_model::watches::Watch;
use wait_rule::Domain;

/// A variable that has another value than the old one is found, and the first condition is where both are set.
#[test]
fn set_conditions_are_found_the_first_one_first(rt: HostRuntime) -> Result<(), Fail> {
    let (domain, mut task) = Domain::new(rt.alloc())?;
    let state = SleepState::Uninterruptible;
    let cond = Watch::Plain { cond: 0 };
    let var = Watch::Var { var: 20, old: 0 };
    stores(&rt, &domain, &mut task, 20, 5);
    let second = polls(&rt, &domain, &mut task, cond, var, state);
    let turned = polls(&rt, &domain, &mut task, var, cond, state);
    sets(&rt, &domain, &mut task, 0, 9);
    let first = polls(&rt, &domain, &mut task, cond, var, state);
    let seen = [
        matches!(second, Ok(Ready::Second { value: 5 })),
        matches!(turned, Ok(Ready::First { value: 5 })),
        matches!(first, Ok(Ready::First { value: 9 })),
    ];
    all_so(&seen)
}

/// A signal that is pending ends a poll that finds neither condition set, and none that finds one; a plain one ends none
/// that only fatal ones may.
#[test]
fn signals_end_the_poll_that_finds_none(rt: HostRuntime) -> Result<(), Fail> {
    let (domain, mut task) = Domain::new(rt.alloc())?;
    let who = task.number();
    let cond = Watch::Plain { cond: 47 };
    let var = Watch::Var { var: 31, old: 0 };
    signals(&rt, &domain, &mut task, who, false);
    let plain = polls(
        &rt,
        &domain,
        &mut task,
        cond,
        var,
        SleepState::Interruptible,
    );
    signals(&rt, &domain, &mut task, who, true);
    let fatal = polls(&rt, &domain, &mut task, var, cond, SleepState::Killable);
    sets(&rt, &domain, &mut task, 47, 3);
    let found = polls(&rt, &domain, &mut task, var, cond, SleepState::Killable);
    let seen = [
        matches!(
            plain,
            Err(PollEnd::Signal {
                first: 0,
                second: 0
            })
        ),
        matches!(
            fatal,
            Err(PollEnd::Signal {
                first: 0,
                second: 0
            })
        ),
        matches!(found, Ok(Ready::Second { value: 3 })),
    ];
    all_so(&seen)
}
