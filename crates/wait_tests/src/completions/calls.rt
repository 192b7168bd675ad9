//! The calls on a completion, each by a task that owes nothing and has left no entry at any completion, before it and
//! after it.

ghost use Rattle.std.specs.Prelude.{◌<◌};
ghost use Rattle.wait_model.specs.declared.layout.TheConstants.{COMPLETIONS};
ghost use Rattle.wait_rule.specs.Says.{RestsIn};

use completion_cell::{asks, await_calls, completes};
use std::sync::Wait;
use wait_model::tasks::SleepState;
use wait_rule::{Domain, Task};

pub fn complete<R: Wait>(rt: &R, domain: &Domain, task: &mut Task, cell: u8)
    requires rests { RestsIn domain.now task.old }
    requires cell { cell < COMPLETIONS }
    ensures rests { RestsIn domain.now task.new }
{
    completes::complete(rt, domain, task, cell);
}

pub fn complete_all<R: Wait>(rt: &R, domain: &Domain, task: &mut Task, cell: u8)
    requires rests { RestsIn domain.now task.old }
    requires cell { cell < COMPLETIONS }
    ensures rests { RestsIn domain.now task.new }
{
    completes::complete_all(rt, domain, task, cell);
}

pub fn reinit<R: Wait>(rt: &R, domain: &Domain, task: &mut Task, cell: u8)
    requires rests { RestsIn domain.now task.old }
    requires cell { cell < COMPLETIONS }
    ensures rests { RestsIn domain.now task.new }
{
    asks::reinit(rt, domain, task, cell);
}

pub fn is_done<R: Wait>(rt: &R, domain: &Domain, task: &mut Task, cell: u8) -> bool
    requires rests { RestsIn domain.now task.old }
    requires cell { cell < COMPLETIONS }
    ensures rests { RestsIn domain.now task.new }
{
    asks::is_done(rt, domain, task, cell)
}

pub fn try_wait<R: Wait>(rt: &R, domain: &Domain, task: &mut Task, cell: u8) -> bool
    requires rests { RestsIn domain.now task.old }
    requires cell { cell < COMPLETIONS }
    ensures rests { RestsIn domain.now task.new }
{
    asks::try_wait(rt, domain, task, cell)
}

/// True where it took one.
pub fn takes<R: Wait>(rt: &R, domain: &Domain, task: &mut Task, cell: u8, state: SleepState) -> bool
    requires rests { RestsIn domain.now task.old }
    requires cell { cell < COMPLETIONS }
    ensures rests { RestsIn domain.now task.new }
{
    await_calls::wait_for(rt, domain, task, cell, state).is_ok()
}
