//! Holds of one head by four threads.

ghost use Rattle.wait_rule.specs.Says.{RestsIn};

use crate::meetings::Part;
use std::sync::Wait;
use std::test::Fail;
use std::thread::Threads;
use test_tasks::meetings::four_meet;
use test_tasks::often::Often;
use test_tasks::wants::all_so;
use wait_model::layout::FIRST_PLAIN_HEAD;
use wait_rule::queues::{draw, serving_load};
use wait_rule::{Domain, Task};
use wq_head::locks::{lock, unlock};

/// Each thread takes the head 500 times.
const HELD: Often<Part> = Often {
    part: Part::Holds,
    times: 500,
};

/// A hold of one thread.
pub(crate) fn hold<R: Wait>(rt: &R, domain: &Domain, task: &mut Task) -> bool
    requires rests { RestsIn domain.now task.old }
    ensures rests { RestsIn domain.now task.new }
{
    lock(rt, domain, task, FIRST_PLAIN_HEAD);
    unlock(rt, domain, task, false);
    true
}

/// Four threads take the head: how they went, and whether each hold served one ticket and drew one.
fn four_hold<R: Threads + Wait + Sync>(
    rt: &R,
    domain: &Domain,
    task: Task,
) -> ([bool; 4], [bool; 2])
    requires rests { RestsIn domain.now task }
{
    let two = (HELD, HELD);
    let (mut last, went) = four_meet(rt, domain, task, two, two);
    let served = serving_load(domain, &mut last, FIRST_PLAIN_HEAD);
    let drawn = draw(domain, &mut last, FIRST_PLAIN_HEAD);
    (went, [served == 2_000, drawn == 2_000])
}

/// Each hold of four threads draws one ticket and serves one, and none is lost.
#[test]
fn tickets(rt: HostRuntime) -> Result<(), Fail> {
    let (domain, task) = Domain::new(rt.alloc())?;
    let (went, seen) = four_hold(&rt, &domain, task);
    all_so(&went)?;
    all_so(&seen)
}
