//! Five tasks in threads of their own, again and again, in Domains whose tasks park at once when they are put asleep.

ghost use Rattle.std.specs.Prelude.{◌≤◌};
ghost use Rattle.wait_rule.specs.Says.{RestsIn};

use crate::alone::{gives, tries};
use crate::rounds::Plays;
use std::sync::Wait;
use std::test::Fail;
use std::thread;
use std::thread::Threads;
use test_tasks::forks::another;
use test_tasks::meetings::meet_four;
use test_tasks::wants::all_so;
use wait_rule::{Domain, Task};

/// How many rounds the test makes.
const ROUNDS: u32 = 300;

/// The semaphore of the tests.
pub(crate) const CELL: u8 = 5;

/// Gives four permits back: whether each was given or counted.
fn give_four<R: Wait>(rt: &R, domain: &Domain, task: Task) -> (Task, bool)
    requires rests { RestsIn domain.now task }
    ensures rests { RestsIn domain.now result.0 }
{
    let mut task = task;
    let one = gives(rt, domain, &mut task, CELL).is_ok();
    let two = gives(rt, domain, &mut task, CELL).is_ok();
    let three = gives(rt, domain, &mut task, CELL).is_ok();
    let four = gives(rt, domain, &mut task, CELL).is_ok();
    (task, one && two && three && four)
}

/// The first task gives four permits back, while four others take one each: the first, and whether each did.
fn four_take<R: Threads + Wait + Sync>(rt: &R, domain: &Domain, mut task: Task) -> (Task, [bool; 5])
    requires rests { RestsIn domain.now task }
    requires spare { 4 ≤ task.view.spare }
    ensures rests { RestsIn domain.now result.0 }
{
    let one = another(domain, &mut task);
    let two = another(domain, &mut task);
    let three = another(domain, &mut task);
    let four = another(domain, &mut task);
    let takes = (Plays::Takes, Plays::Takes);
    let ((task, gave), ((one, two), (three, four))) = thread::join(
        rt,
        move || -> (Task, bool)
            requires { RestsIn domain.now task }
            ensures { RestsIn domain.entry.now result.0 }
        { give_four(rt, domain, task) },
        move || -> (((Task, bool), (Task, bool)), ((Task, bool), (Task, bool)))
            requires { (RestsIn domain.now one × RestsIn domain.now two)
                × (RestsIn domain.now three × RestsIn domain.now four) }
            ensures { (RestsIn domain.entry.now result.0.0.0 × RestsIn domain.entry.now result.0.1.0)
                × (RestsIn domain.entry.now result.1.0.0 × RestsIn domain.entry.now result.1.1.0) }
        { meet_four(rt, domain, (one, two), (three, four), takes, takes) },
    );
    (task, [gave, one.1, two.1, three.1, four.1])
}

/// Four permits are given back, four are taken, and none is left.
#[test]
fn four_permits(rt: HostRuntime) -> Result<(), Fail> {
    for _round in 0..ROUNDS {
        let (domain, task) = Domain::with_looks(rt.alloc(), 0)?;
        let (mut task, went) = four_take(&rt, &domain, task);
        let none = !tries(&rt, &domain, &mut task, CELL);
        all_so(&[went[0], went[1], went[2], went[3], went[4], none])?;
    }
    Ok(())
}
