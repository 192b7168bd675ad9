//! Tasks that meet in threads of their own, each of which plays a part and gives itself back.

ghost use Rattle.wait_rule.specs.Says.{RestsIn};

use std::sync::Wait;
use std::thread;
use std::thread::Threads;
use wait_rule::{Domain, Task};

/// What a task does in a thread of its own, which owes nothing before it and after it.
pub trait Part: Send + Drop {
    /// Whether it went as the part says.
    fn play<R: Wait>(self, rt: &R, domain: &Domain, task: &mut Task) -> bool
        requires rests { RestsIn domain.now task.old }
        ensures rests { RestsIn domain.now task.new };
}

/// A task plays its part, and gives itself back: whether it went as the part says.
fn act<R: Wait, P: Part>(rt: &R, domain: &Domain, mut task: Task, part: P) -> (Task, bool)
    requires rests { RestsIn domain.now task }
    ensures rests { RestsIn domain.now result.0 }
{
    let well = part.play(rt, domain, &mut task);
    (task, well)
}

/// Two tasks play their parts, each in a thread of its own.
pub fn meet_two<R: Threads + Wait + Sync, P: Part>(
    rt: &R,
    domain: &Domain,
    first: Task,
    second: Task,
    parts: (P, P),
) -> ((Task, bool), (Task, bool))
    requires rest { RestsIn domain.now first × RestsIn domain.now second }
    ensures rest { RestsIn domain.now result.0.0 × RestsIn domain.now result.1.0 }
{
    let (own, other) = parts;
    thread::join(
        rt,
        move || -> (Task, bool)
            requires { RestsIn domain.now first }
            ensures { RestsIn domain.entry.now result.0 }
        { act(rt, domain, first, own) },
        move || -> (Task, bool)
            requires { RestsIn domain.now second }
            ensures { RestsIn domain.entry.now result.0 }
        { act(rt, domain, second, other) },
    )
}

/// And so do four.
pub fn meet_four<R: Threads + Wait + Sync, P: Part>(
    rt: &R,
    domain: &Domain,
    firsts: (Task, Task),
    seconds: (Task, Task),
    own: (P, P),
    others: (P, P),
) -> (((Task, bool), (Task, bool)), ((Task, bool), (Task, bool)))
    requires firsts { RestsIn domain.now firsts.0 × RestsIn domain.now firsts.1 }
    requires seconds { RestsIn domain.now seconds.0 × RestsIn domain.now seconds.1 }
    ensures firsts { RestsIn domain.now result.0.0.0 × RestsIn domain.now result.0.1.0 }
    ensures seconds { RestsIn domain.now result.1.0.0 × RestsIn domain.now result.1.1.0 }
{
    thread::join(
        rt,
        move || -> ((Task, bool), (Task, bool))
            requires { RestsIn domain.now firsts.0 × RestsIn domain.now firsts.1 }
            ensures { RestsIn domain.entry.now result.0.0 × RestsIn domain.entry.now result.1.0 }
        { meet_two(rt, domain, firsts.0, firsts.1, own) },
        move || -> ((Task, bool), (Task, bool))
            requires { RestsIn domain.now seconds.0 × RestsIn domain.now seconds.1 }
            ensures { RestsIn domain.entry.now result.0.0 × RestsIn domain.entry.now result.1.0 }
        { meet_two(rt, domain, seconds.0, seconds.1, others) },
    )
}

/// A task and a new one play their parts: the task, which takes the other one in, and whether each went as its part says.
/// The new one is number 1 where the task is the first one of a new Domain. Where no number is spare, nobody plays.
pub fn two_meet<R: Threads + Wait + Sync, P: Part>(
    rt: &R,
    domain: &Domain,
    task: Task,
    parts: (P, P),
) -> (Task, [bool; 2])
    requires rests { RestsIn domain.now task }
    ensures rests { RestsIn domain.now result.0 }
{
    let mut task = task;
    let Ok(other) = task.fork(domain, 0) else {
        return (task, [false; 2]);
    };
    let ((mut task, own), (other, its)) = meet_two(rt, domain, task, other, parts);
    task.join(domain, other);
    (task, [own, its])
}

/// So do a task and three new ones, numbers 1 to 3.
pub fn four_meet<R: Threads + Wait + Sync, P: Part>(
    rt: &R,
    domain: &Domain,
    task: Task,
    own: (P, P),
    others: (P, P),
) -> (Task, [bool; 4])
    requires rests { RestsIn domain.now task }
    ensures rests { RestsIn domain.now result.0 }
{
    let mut task = task;
    let Ok(one) = task.fork(domain, 0) else {
        return (task, [false; 4]);
    };
    let Ok(two) = task.fork(domain, 0) else {
        return (task, [false; 4]);
    };
    let Ok(three) = task.fork(domain, 0) else {
        return (task, [false; 4]);
    };
    let (firsts, seconds) = ((task, one), (two, three));
    let ((first, one), (two, three)) = meet_four(rt, domain, firsts, seconds, own, others);
    let mut task = first.0;
    task.join(domain, one.0);
    task.join(domain, two.0);
    task.join(domain, three.0);
    (task, [first.1, one.1, two.1, three.1])
}
