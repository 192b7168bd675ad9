//! An exclusive wait that a wake selects and that a signal may end: where it answers the signal, its condition was not
//! set, so the selection is not lost.

ghost use Rattle.wait_rule.specs.Says.{RestsIn};

use crate::meetings::rows::SELECTED;
use crate::meetings::{ROUNDS, meet_often};
use std::sync::Wait;
use std::test::Fail;
use wait_event::wait_events::{WaitEnd, wait_event};
use wait_model::tasks::{How, SleepState};
use wait_rule::{Domain, Task};

/// Waits for condition 0: true where it was set, or where a signal ended the wait and the last load found it not set.
pub(crate) fn wait_exclusive<R: Wait>(rt: &R, domain: &Domain, task: &mut Task) -> bool
    requires rests { RestsIn domain.now task.old }
    ensures rests { RestsIn domain.now task.new }
{
    let how = How {
        state: SleepState::Interruptible,
        exclusive: true,
    };
    let end = wait_event(rt, domain, task, 0, how);
    is_not_lost(&end)
}

/// Whether a wait ended as one whose selection is not lost.
fn is_not_lost(end: &Result<(), WaitEnd>) -> bool {
    match end {
        Ok(()) => true,
        Err(WaitEnd::Signal { seen, selected: _ }) => *seen == 0,
        Err(WaitEnd::Worn { head: _, place: _ }) => false,
    }
}

/// Whenever the signal comes, the wait ends with its condition set, or by the signal with the condition not set; and
/// the waker, which wakes one exclusive waiter, takes all tasks in.
#[test]
fn selected_not_lost(rt: HostRuntime) -> Result<(), Fail> {
    meet_often(&rt, rt.alloc(), ROUNDS, SELECTED)
}
