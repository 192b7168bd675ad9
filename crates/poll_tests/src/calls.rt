//! The calls of the tests, each by a task that owes nothing, before it and after it.

ghost use Rattle.std.specs.Prelude.{◌<◌, ◌≤◌};
ghost use Rattle.wait_model.specs.declared.layout.TheConstants.{CLAIMS, FIRST_SIMPLE, VARIABLES};
ghost use Rattle.wait_rule.specs.Says.{RestsIn};
ghost use Rattle.poll_wait.specs.Seconds.{IsPolled};

use poll_wait::{PollEnd, Ready, poll_two};
use std::sync::Wait;
use var_wait::publish_var_and_wake;
use wait_event::set_and_wake;
use wait_model::tasks::SleepState;
use wait_model::watches::{Mode, Watch};
use wait_rule::{Domain, Task};

/// Waits for one of two conditions.
pub fn polls<R: Wait>(
    rt: &R,
    domain: &Domain,
    task: &mut Task,
    first: Watch,
    second: Watch,
    state: SleepState,
) -> Result<Ready, PollEnd>
    requires rests { RestsIn domain.now task.old }
    requires first { IsPolled first }
    requires second { IsPolled second }
    ensures rests { RestsIn domain.now task.new }
{
    poll_two(rt, domain, task, first, second, state)
}

/// Sets a plain condition, and wakes all who wait for it.
pub fn sets<R: Wait>(rt: &R, domain: &Domain, task: &mut Task, cond: u8, value: u64)
    requires rests { RestsIn domain.now task.old }
    requires cond { cond < FIRST_SIMPLE }
    ensures rests { RestsIn domain.now task.new }
{
    set_and_wake(rt, domain, task, cond, value, Mode::Normal, 0);
}

/// Stores a variable, and wakes all who wait for it.
pub fn stores<R: Wait>(rt: &R, domain: &Domain, task: &mut Task, var: u8, value: u64)
    requires rests { RestsIn domain.now task.old }
    requires free { CLAIMS ≤ var }
    requires there { var < VARIABLES }
    ensures rests { RestsIn domain.now task.new }
{
    publish_var_and_wake(rt, domain, task, var, value);
}
