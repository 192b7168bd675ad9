//! A signal by a task that owes nothing, before it and after it.

ghost use Rattle.wait_rule.specs.Says.{RestsIn};

use std::sync::Wait;
use wait_rule::{Domain, Task, send_signal};

/// Sends the task of this number a signal.
pub fn signals<R: Wait>(rt: &R, domain: &Domain, task: &mut Task, who: u8, fatal: bool)
    requires rests { RestsIn domain.now task.old }
    ensures rests { RestsIn domain.now task.new }
{
    send_signal(rt, domain, task, who, fatal);
}
