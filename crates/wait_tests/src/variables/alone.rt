//! One task alone, and one that a signal reaches first: waits that end without a sleep.

ghost use Rattle.wait_rule.specs.Says.{RestsIn};

use crate::in_order::met_nobody;
use std::sync::Wait;
use std::test::Fail;
use var_wait::publishes::publish_var_and_wake;
use var_wait::waits::wait_var;
use wait_event::wait_events::WaitEnd;
use wait_model::queues::Walked;
use wait_model::tasks::SleepState;
use wait_rule::running::send_signal;
use wait_rule::{Domain, Task};

/// The variable of the tests.
pub(crate) const VAR: u8 = 20;

/// Publishes a value and wakes who waits for the variable to change: what the wake answers.
pub(crate) fn announce<R: Wait>(rt: &R, domain: &Domain, task: &mut Task, value: u64) -> Walked
    requires rests { RestsIn domain.now task.old }
    ensures rests { RestsIn domain.now task.new }
{
    publish_var_and_wake(rt, domain, task, VAR, value)
}

/// Waits until the variable has another value than this one: what the wait answers.
pub(crate) fn wait_for_other<R: Wait>(
    rt: &R,
    domain: &Domain,
    task: &mut Task,
    old: u64,
) -> Result<u64, WaitEnd>
    requires rests { RestsIn domain.now task.old }
    ensures rests { RestsIn domain.now task.new }
{
    wait_var(rt, domain, task, VAR, old, SleepState::Uninterruptible)
}

/// Stores another value before it waits: what the wait answers.
fn store_and_wait<R: Wait>(
    rt: &R,
    domain: &Domain,
    task: &mut Task,
    value: u64,
    old: u64,
) -> Result<u64, WaitEnd>
    requires rests { RestsIn domain.now task.old }
    ensures rests { RestsIn domain.now task.new }
{
    announce(rt, domain, task, value);
    wait_for_other(rt, domain, task, old)
}

/// A publisher alone: its look finds no member, and it makes no walk.
#[test]
fn nobody_is_walked_over(rt: HostRuntime) -> Result<(), Fail> {
    let (domain, mut task) = Domain::new(rt.alloc())?;
    let walked = announce(&rt, &domain, &mut task, 2);
    assert!(rt; met_nobody(walked, 0));
    Ok(())
}

/// A variable that has another value before the wait: this is the answer.
#[test]
fn another_value_is_answered(rt: HostRuntime) -> Result<(), Fail> {
    let (domain, mut task) = Domain::new(rt.alloc())?;
    let first = wait_for_other(&rt, &domain, &mut task, 1);
    assert!(rt; matches!(first, Ok(0)));
    let second = store_and_wait(&rt, &domain, &mut task, 7, 0);
    assert!(rt; matches!(second, Ok(7)));
    let third = store_and_wait(&rt, &domain, &mut task, 0, 7);
    assert!(rt; matches!(third, Ok(0)));
    Ok(())
}

/// A signal that is pending before the wait, whose variable has the old value: the wait answers it, with that value.
#[test]
fn signal_is_answered(rt: HostRuntime) -> Result<(), Fail> {
    let (domain, mut task) = Domain::new(rt.alloc())?;
    let mut sender = task.fork(&domain, 0)?;
    send_signal(&rt, &domain, &mut sender, task.number(), false);
    let end = wait_var(&rt, &domain, &mut task, VAR, 0, SleepState::Interruptible);
    let found = match end {
        Err(WaitEnd::Signal { seen, selected }) => seen == 0 && !selected,
        _ => false,
    };
    assert!(rt; found);
    Ok(())
}
