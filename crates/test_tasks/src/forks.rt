//! New tasks, of a task that has numbers to give.

ghost use Rattle.std.specs.Prelude.{◌≡◌, ◌<◌, ◌+◌};
ghost use Rattle.wait_rule.specs.Says.{RestsIn};

use wait_rule::{Domain, Task};

/// A new task, of one that has a number to give.
pub fn another(domain: &Domain, task: &mut Task) -> Task
    requires rests { RestsIn domain.now task.old }
    requires spare { 0 < task.old.view.spare }
    ensures rests { RestsIn domain.now task.new }
    ensures spare { task.new.view.spare + 1 ≡ task.old.view.spare }
    ensures other { RestsIn domain.now result }
{
    let Ok(other) = task.fork(domain, 0) else {
        unreachable!()
    };
    other
}
