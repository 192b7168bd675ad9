//! What those do with a condition whose waits are left: they set it for one, and take what it has.

ghost use Rattle.std.specs.Prelude.{◌<◌};
ghost use Rattle.wait_model.specs.declared.layout.TheConstants.{FIRST_SIMPLE};
ghost use Rattle.wait_rule.specs.Says.{RestsIn};

use std::sync::Wait;
use wait_event::{set_and_wake, take_cond};
use wait_model::watches::Mode;
use wait_rule::{Domain, Task};

/// Sets a condition, and wakes one of those who wait for it.
pub(crate) fn set_one<R: Wait>(rt: &R, domain: &Domain, task: &mut Task, cond: u8, value: u64)
    requires rests { RestsIn domain.now task.old }
    requires cond { cond < FIRST_SIMPLE }
    ensures rests { RestsIn domain.now task.new }
{
    set_and_wake(rt, domain, task, cond, value, Mode::Normal, 1);
}

/// Takes what a condition has: 0 where it is not set.
pub(crate) fn take(domain: &Domain, task: &mut Task, cond: u8) -> u64
    requires rests { RestsIn domain.now task.old }
    requires cond { cond < FIRST_SIMPLE }
    ensures rests { RestsIn domain.now task.new }
{
    take_cond(domain, task, cond)
}
