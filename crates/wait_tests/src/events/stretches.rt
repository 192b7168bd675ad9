//! Two waits and a waker on one thread, which goes on with one of them at a time: what an executor does.

use crate::orders::{Wakes, play_each};
use std::test::Fail;
use wait_class::stages::Turn;
use wait_event::waits::{WaitOutcome, WaitTurn};

/// Whether the wait is over with its condition set.
pub(crate) fn is_over(last: WaitTurn) -> bool {
    matches!(last, Turn::Done(WaitOutcome::Over))
}

/// Whatever the order, both waits end once the condition is set.
#[test]
fn waits_end_in_each_order(rt: HostRuntime) -> Result<(), Fail> {
    play_each(&rt, rt.alloc(), Wakes::Event)
}
