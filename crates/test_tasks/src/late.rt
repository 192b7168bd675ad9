//! What a task does to others after some yields, so that it falls between whatever steps of theirs.

ghost use Rattle.wait_rule.specs.Says.{RestsIn};

use std::sync::Wait;
use std::sync::atomic::{AtomicU64, Ordering};
use std::thread;
use wait_model::watches::Mode;
use wait_rule::{Domain, Task, send_signal, wake_task};

/// Lets other threads run, so often.
pub fn yield_often(count: u32) {
    for _ in 0..count {
        thread::yield_now();
    }
}

/// Yields so often, and sends a plain signal.
pub fn signal_late<R: Wait>(rt: &R, domain: &Domain, task: &mut Task, who: u8, late: u32) -> bool
    requires rests { RestsIn domain.now task.old }
    ensures rests { RestsIn domain.now task.new }
{
    yield_often(late);
    send_signal(rt, domain, task, who, false);
    true
}

/// Yields so often, asks the task to leave, and wakes it.
pub fn ask_late<R: Wait>(
    rt: &R,
    domain: &Domain,
    task: &mut Task,
    flag: &AtomicU64,
    who: u8,
    late: u32,
) -> bool
    requires rests { RestsIn domain.now task.old }
    ensures rests { RestsIn domain.now task.new }
{
    yield_often(late);
    flag.store(1, Ordering::SeqCst);
    wake_task(rt, domain, task, who, Mode::Normal);
    true
}

/// Yields so often, asks both tasks to leave, once more than before, and wakes them.
pub fn ask_two_late<R: Wait>(
    rt: &R,
    domain: &Domain,
    task: &mut Task,
    asked: &AtomicU64,
    whom: (u8, u8),
    late: u32,
) -> bool
    requires rests { RestsIn domain.now task.old }
    ensures rests { RestsIn domain.now task.new }
{
    yield_often(late);
    asked.fetch_add(1, Ordering::SeqCst);
    wake_task(rt, domain, task, whom.0, Mode::Normal);
    wake_task(rt, domain, task, whom.1, Mode::Normal);
    true
}
