//! What several of the programs do with tasks: new ones, and a wake of one that is about to sleep.

ghost use Rattle.std.specs.Prelude.{◌≡◌, ◌<◌, ◌+◌, All, IfOk};
ghost use Rattle.wait_rule.specs.Says.{IsClean, RestsIn};

use std::alloc::{AllocError, Global};
use std::hint::spin_loop;
use std::sync::Wait;
use std::thread;
use wait_model::watches::Mode;
use wait_rule::{Domain, Task, wake_task};

/// A new task, of a task that has a number to give.
pub(crate) fn another(domain: &Domain, task: &mut Task) -> Task
    requires rests { RestsIn domain.now task.old }
    requires spare { 0 < task.old.view.spare }
    ensures rests { RestsIn domain.now task.new }
    ensures spare { task.new.view.spare + 1 ≡ task.old.view.spare }
    ensures of_other { result.domain ≡ domain.now }
    ensures clean_other { IsClean result }
{
    let Ok(other) = task.fork(domain, 0) else {
        unreachable!()
    };
    other
}

/// New tasks: fewer than `count` where no number is left.
pub(crate) fn crowd(
    alloc: Global,
    domain: &Domain,
    task: &mut Task,
    count: u8,
) -> Result<Vec<Task>, AllocError>
    requires rests { RestsIn domain.now task.old }
    ensures of { IfOk result (λ _. task.new.domain ≡ domain.now) }
    ensures clean { IfOk result (λ _. IsClean task.new) }
    ensures tasks { IfOk result (λ v. All (λ t. (t.domain ≡ domain.now) × IsClean t) v.items) }
{
    let mut tasks = Vec::new(alloc);
    for _ in 0..count {
        let Ok(other) = task.fork(domain, 0) else {
            return Ok(tasks);
        };
        tasks.push(other)?;
    }
    Ok(tasks)
}

/// What a waker does that finds nobody about to sleep: it pauses, or it yields its processor.
#[derive(Clone, Copy)]
pub(crate) enum Retry {
    Pause,
    Yield,
}

/// Wakes a task as soon as it is about to sleep.
pub(crate) fn wake_up<R: Wait>(rt: &R, domain: &Domain, task: &mut Task, who: u8, retry: Retry)
    requires rests { RestsIn domain.now task.old }
    ensures rests { RestsIn domain.now task.new }
{
    for _ in rt.forever() {
        if wake_task(rt, domain, task, who, Mode::Normal) {
            return;
        }
        match retry {
            Retry::Pause => spin_loop(),
            Retry::Yield => thread::yield_now(),
        }
    }
    unreachable!()
}
