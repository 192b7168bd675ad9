//! The parts of a wait for a condition, then a wake and a wait, then an entry that is added and removed.

ghost use Rattle.wait_rule.specs.Says.{RestsIn};

use super::met_nobody;
use crate::events::alone::{prepare_asking, prepare_first, prepare_shared};
use std::sync::Wait;
use std::test::Fail;
use test_tasks::wants::all_so;
use wait_event::{add_entry, remove_entry, set_and_wake, wait_event};
use wait_model::queues::{Form, Walked};
use wait_model::tasks::{How, SleepState};
use wait_model::watches::{Kind, Mode};
use wait_rule::{Domain, Task};

/// A wait that no signal ends, and that no wake selects.
const SHARED: How = How {
    state: SleepState::Uninterruptible,
    exclusive: false,
};

/// Sets condition 0 and wakes one who waits for it.
fn set_one<R: Wait>(rt: &R, domain: &Domain, task: &mut Task) -> Walked
    requires rests { RestsIn domain.now task.old }
    ensures rests { RestsIn domain.now task.new }
{
    set_and_wake(rt, domain, task, 0, 1, Mode::Normal, 1)
}

/// Waits for it: true where it was set.
fn wait_for_it<R: Wait>(rt: &R, domain: &Domain, task: &mut Task) -> bool
    requires rests { RestsIn domain.now task.old }
    ensures rests { RestsIn domain.now task.new }
{
    wait_event(rt, domain, task, 0, SHARED).is_ok()
}

/// Adds an entry at the front for condition 1, and removes it: true where there was a place for it.
fn enter_and_leave<R: Wait>(rt: &R, domain: &Domain, task: &mut Task) -> bool
    requires rests { RestsIn domain.now task.old }
{
    match add_entry(rt, domain, task, 1, Kind::Default, Form::Front) {
        Ok(()) => {
            remove_entry(rt, domain, task);
            true
        }
        Err(_worn) => false,
    }
}

#[test]
fn parts_then_a_wait_then_an_entry(rt: HostRuntime) -> Result<(), Fail> {
    let (domain, mut task) = Domain::new(rt.alloc())?;
    let seen = [
        prepare_shared(&rt, &domain, &mut task, 0, SHARED.state),
        prepare_first(&rt, &domain, &mut task, 0),
        prepare_asking(&rt, &domain, &mut task, 0, SHARED),
    ];
    all_so(&seen)?;
    let walked = set_one(&rt, &domain, &mut task);
    let over = wait_for_it(&rt, &domain, &mut task);
    let left = enter_and_leave(&rt, &domain, &mut task);
    let seen = [met_nobody(walked, 1), over, left];
    all_so(&seen)
}
