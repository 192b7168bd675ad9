//! Each ordered pair of calls once, by a task that none of them makes sleep: the condition is set, and the completion is
//! done for all.

ghost use Rattle.wait_rule.specs.Says.{RestsIn};

use completion_cell::completes::complete_all;
use std::sync::Wait;
use std::test::Fail;
use test_tasks::wants::begin_two;
use wait_rule::{Domain, Task};
use wq_pairs::calls::{CALLS, CELL, Call};
use wq_pairs::pairs::make_both;
use wq_user::events::set_zero;

/// A call, and then each of all.
fn after<R: Wait>(rt: &R, domain: &Domain, task: &mut Task, first: Call)
    requires rests { RestsIn domain.now task.old }
    ensures rests { RestsIn domain.now task.new }
{
    for second in &CALLS {
        make_both(rt, domain, task, first, *second);
    }
}

/// Sets the condition, completes for all, present and to come, and then makes each pair.
fn make_each<R: Wait>(rt: &R, domain: &Domain, task: &mut Task)
    requires rests { RestsIn domain.now task.old }
    ensures rests { RestsIn domain.now task.new }
{
    set_zero(rt, domain, task);
    complete_all(rt, domain, task, CELL);
    for first in &CALLS {
        after(rt, domain, task, *first);
    }
}

/// The task that made all of them is taken in.
#[test]
fn each_pair_is_made(rt: HostRuntime) -> Result<(), Fail> {
    let (domain, mut task, mut other) = begin_two(rt.alloc())?;
    make_each(&rt, &domain, &mut other);
    task.join(&domain, other);
    Ok(())
}
