//! Calls of one thread that meet no other: sets that find nobody queued, and waits whose condition is set.

use crate::events::calls::{set, wait_for};
use std::sync::Wait;
use test_tasks::meetings::Part;
use wait_rule::{Domain, Task};

/// The condition that is set, and that is waited for.
const COND: u8 = 0;

/// Sets the condition, and finds no waiter.
#[derive(Clone, Copy)]
pub(crate) struct Set;

impl Part for Set {
    fn play<R: Wait>(self, rt: &R, domain: &Domain, task: &mut Task) -> bool {
        set(rt, domain, task, COND) == 0
    }
}

/// Waits for the condition, and finds it set.
#[derive(Clone, Copy)]
pub(crate) struct WaitFor;

impl Part for WaitFor {
    fn play<R: Wait>(self, rt: &R, domain: &Domain, task: &mut Task) -> bool {
        wait_for(rt, domain, task, COND)
    }
}
