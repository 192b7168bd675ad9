//! Two waits for one variable and a publisher on one thread, which goes on with one of them at a time.

use crate::orders::{Wakes, play_each};
use std::test::Fail;
use var_wait::waits::end_of_var;
use wait_class::stages::Turn;
use wait_event::waits::{WaitRun, WaitTurn};

/// The value that is stored.
pub(crate) const VALUE: u64 = 5;

/// Whether the wait is over and has found the new value.
pub(crate) fn has_found(run: WaitRun, last: WaitTurn) -> bool {
    match last {
        Turn::Done(outcome) => matches!(end_of_var(run.of, outcome), Ok(VALUE)),
        _ => false,
    }
}

/// Whatever the order, both waits end with the value that was stored.
#[test]
fn waits_end_in_each_order(rt: HostRuntime) -> Result<(), Fail> {
    play_each(&rt, rt.alloc(), Wakes::Variable)
}
