//! The calls of a completion.

use crate::completions::calls::{complete, complete_all, is_done, reinit, takes, try_wait};
use std::test::Fail;
use wait_model::tasks::SleepState;
use wait_rule::Domain;

/// The completion.
const CELL: u8 = 1;

#[test]
fn completed_then_taken_then_done_for_all(rt: HostRuntime) -> Result<(), Fail> {
    let (domain, mut task) = Domain::new(rt.alloc())?;
    complete(&rt, &domain, &mut task, CELL);
    let took = takes(&rt, &domain, &mut task, CELL, SleepState::Uninterruptible);
    let again = try_wait(&rt, &domain, &mut task, CELL);
    complete_all(&rt, &domain, &mut task, CELL);
    let done = is_done(&rt, &domain, &mut task, CELL);
    reinit(&rt, &domain, &mut task, CELL);
    assert!(rt; took && !again && done);
    Ok(())
}
