//! Tasks that wait for a completion and are asked to leave in threads of their own, again and again, in Domains whose
//! tasks park at once when they are put asleep.

ghost use Rattle.wait_rule.specs.Says.{RestsIn};

use crate::completions::calls::complete;
use crate::completions::threads::CELL;
use crate::meetings::rows::LEFT_PERMIT;
use crate::meetings::{ROUNDS, Shared, meet_once};
use completion_cell::leaves::wait_for_until;
use std::sync::Wait;
use std::sync::atomic::Ordering;
use std::test::Fail;
use test_tasks::late::yield_often;
use wait_leave::Until;
use wait_model::tasks::SleepState;
use wait_rule::{Domain, Task};

/// Yields so often, and completes once.
pub(crate) fn complete_late<R: Wait>(rt: &R, domain: &Domain, task: &mut Task, late: u32) -> bool
    requires rests { RestsIn domain.now task.old }
    ensures rests { RestsIn domain.now task.new }
{
    yield_often(late);
    complete(rt, domain, task, CELL);
    true
}

/// Takes one, which it counts, and completes once more; or leaves once it is asked. True where it took one, or was left
/// with the count found 0.
pub(crate) fn take_until<R: Wait>(rt: &R, domain: &Domain, task: &mut Task, shared: &Shared) -> bool
    requires rests { RestsIn domain.now task.old }
    ensures rests { RestsIn domain.now task.new }
{
    let asks = || shared.asks();
    match wait_for_until(rt, domain, task, CELL, SleepState::Uninterruptible, asks) {
        Until::Over(Ok(())) => {
            shared.count.store(1, Ordering::SeqCst);
            complete(rt, domain, task, CELL);
            true
        }
        Until::Over(Err(_)) => false,
        Until::Left { seen } => seen == 0,
    }
}

/// Whenever the wait is asked to leave, the other one takes what was completed once: a permit that was handed to the one
/// that was asked is taken and handed on, and nothing is left in the end.
#[test]
fn left_waiters_lose_no_permit(rt: HostRuntime) -> Result<(), Fail> {
    let mut took_any = 0u64;
    for round in 0..ROUNDS {
        let took = meet_once(&rt, rt.alloc(), round, &LEFT_PERMIT)?;
        took_any = took_any.wrapping_add(took);
    }
    assert!(rt; took_any < u64::from(ROUNDS));
    Ok(())
}
