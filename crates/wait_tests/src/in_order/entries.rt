//! An entry whose flag a wake sets, a wait for the flag, and the entry's end; then the calls of a simple queue.

ghost use Rattle.std.specs.Prelude.{◌≡◌};
ghost use Rattle.wait_tests.specs.EventTasks.{IsCleanHearer};

use super::met_nobody;
use crate::events::flags::{enter, hear, leave};
use std::sync::Wait;
use std::test::Fail;
use test_tasks::wants::all_so;
use wait_model::queues::Walked;
use wait_model::watches::{Mode, Watch};
use wait_rule::{Domain, Task};
use wq_head::wake;
use wq_user::simple;

/// Wakes all who wait for condition 0, of which the own entry is one.
fn wake_own<R: Wait>(rt: &R, domain: &Domain, task: &mut Task) -> Walked
    requires of { task.old.domain ≡ domain.now }
    requires hearer { IsCleanHearer task.old }
    ensures of { task.new.domain ≡ domain.now }
    ensures hearer { IsCleanHearer task.new }
{
    wake(rt, domain, task, Watch::Plain { cond: 0 }, Mode::Normal, 0)
}

#[test]
fn flag_then_a_simple_queue(rt: HostRuntime) -> Result<(), Fail> {
    let (domain, mut task) = Domain::new(rt.alloc())?;
    if !enter(&rt, &domain, &mut task) {
        panic!(rt; "the queue is empty")
    }
    let walked = wake_own(&rt, &domain, &mut task);
    hear(&rt, &domain, &mut task);
    leave(&rt, &domain, &mut task);
    let first = simple::swake(&rt, &domain, &mut task);
    let (locked, all_locked) = simple::swake_in_hold(&rt, &domain, &mut task);
    let all = simple::set_and_swake_all(&rt, &domain, &mut task);
    let over = simple::swait(&rt, &domain, &mut task);
    let seen = [
        met_nobody(walked, 1),
        !first,
        !locked,
        over,
        all_locked == 0,
        all == 0,
    ];
    all_so(&seen)
}
