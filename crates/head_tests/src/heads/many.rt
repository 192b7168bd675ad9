//! New tasks that queue their entries for condition 0.

ghost use Rattle.head_tests.specs.Ready.{IsReadyIn};

use crate::heads::waiting::queue_own;
use std::sync::Wait;
use wait_model::layout::RUNNING;
use wait_model::watches::Kind;
use wait_rule::{Domain, Task};

/// So many new tasks queue their entries, and stay awake: false where there is no number or no place left.
pub(crate) fn queue_many<R: Wait>(rt: &R, domain: &Domain, task: &mut Task, count: u8) -> bool
    requires ready { IsReadyIn domain.now task.old }
    ensures ready { IsReadyIn domain.now task.new }
{
    for _ in 0..count {
        let Ok(mut other) = task.fork(domain, 0) else {
            return false;
        };
        if !queue_own(rt, domain, &mut other, Kind::Default, false, RUNNING) {
            return false;
        }
    }
    true
}
