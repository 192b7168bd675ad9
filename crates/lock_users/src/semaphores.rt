//! A task that takes a permit of semaphore 0, sets condition 0 and waits for it, and gives the permit back: it owes
//! nothing after it.

ghost use Rattle.wait_rule.specs.Says.{RestsIn};

use count_sem::down_calls::down;
use count_sem::ups::{try_down, up};
use std::sync::Wait;
use wait_event::conds::set_and_wake;
use wait_event::wait_events::wait_event;
use wait_model::tasks::{How, SleepState};
use wait_model::watches::Mode;
use wait_rule::{Domain, Task};

/// The semaphore.
const CELL: u8 = 0;

/// Takes a permit, sets condition 0 and wakes one who waits for it, waits for it, and gives the permit back: true where
/// no signal ended a wait.
pub fn set_with_permit<R: Wait>(rt: &R, domain: &Domain, task: &mut Task, state: SleepState) -> bool
    requires rests { RestsIn domain.now task.old }
    ensures rests { RestsIn domain.now task.new }
{
    let took = down(rt, domain, task, CELL, state).is_ok();
    let how = How {
        state,
        exclusive: false,
    };
    set_and_wake(rt, domain, task, 0, 1, Mode::Normal, 1);
    let saw = wait_event(rt, domain, task, 0, how).is_ok();
    let gave = up(rt, domain, task, CELL).is_ok();
    took && saw && gave
}

/// Takes a permit where one is there, and gives it back.
pub fn try_with_permit<R: Wait>(rt: &R, domain: &Domain, task: &mut Task) -> bool
    requires rests { RestsIn domain.now task.old }
    ensures rests { RestsIn domain.now task.new }
{
    try_down(rt, domain, task, CELL) && up(rt, domain, task, CELL).is_ok()
}
