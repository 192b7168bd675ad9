//! Waits and those who complete in threads of their own, again and again, in Domains whose tasks park at once when they
//! are put asleep.

ghost use Rattle.wait_rule.specs.Says.{RestsIn};

use crate::completions::calls::{complete, complete_all, is_done, reinit, try_wait};
use crate::meetings::rows::PERMITS;
use crate::meetings::{ROUNDS, meet_often};
use std::sync::Wait;
use std::test::Fail;
use wait_rule::{Domain, Task};

/// The completion of the tests.
pub(crate) const CELL: u8 = 2;

/// Completes it three times.
pub(crate) fn complete_thrice<R: Wait>(rt: &R, domain: &Domain, task: &mut Task) -> bool
    requires rests { RestsIn domain.now task.old }
    ensures rests { RestsIn domain.now task.new }
{
    complete(rt, domain, task, CELL);
    complete(rt, domain, task, CELL);
    complete(rt, domain, task, CELL);
    true
}

/// Whether nothing is left to be taken; and once all are let through and the completion is begun anew, nothing again.
pub(crate) fn nothing_is_left<R: Wait>(rt: &R, domain: &Domain, task: &mut Task) -> bool
    requires rests { RestsIn domain.now task.old }
{
    let taken = try_wait(rt, domain, task, CELL);
    complete_all(rt, domain, task, CELL);
    let done = is_done(rt, domain, task, CELL);
    reinit(rt, domain, task, CELL);
    let again = is_done(rt, domain, task, CELL);
    !taken && done && !again
}

/// Whatever the order of the steps, three waits take what was completed three times, and nothing is left.
#[test]
fn permits(rt: HostRuntime) -> Result<(), Fail> {
    meet_often(&rt, rt.alloc(), ROUNDS, PERMITS)
}
