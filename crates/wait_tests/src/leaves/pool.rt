//! A pool of three workers in threads of their own, to which jobs are posted one by one, and which is shut down by asking
//! each of them to leave its wait.

ghost use Rattle.wait_rule.specs.Says.{RestsIn};

use crate::leaves::conditions::{set_one, take};
use crate::meetings::rows::POOL;
use crate::meetings::{Shared, meet_often};
use std::sync::Wait;
use std::sync::atomic::Ordering;
use std::test::Fail;
use test_tasks::late::ask_late;
use wait_event::{WaitUntil, wait_event, wait_event_until};
use wait_model::tasks::{How, SleepState};
use wait_rule::{Domain, Task};

/// How many jobs are posted in a round.
const JOBS: u32 = 8;

/// The condition that has the number of the next job and 1, and the one that says that there is room for a job.
const NEXT: u8 = 0;

const ROOM: u8 = 1;

/// How all of them wait.
const HOW: How = How {
    state: SleepState::Uninterruptible,
    exclusive: true,
};

/// Makes room for the first job.
pub(crate) fn open<R: Wait>(rt: &R, domain: &Domain, task: &mut Task) -> bool
    requires rests { RestsIn domain.now task.old }
    ensures rests { RestsIn domain.now task.new }
{
    set_one(rt, domain, task, ROOM, 1);
    true
}

/// Waits until there is room, and posts a job: whether there was room.
fn post<R: Wait>(rt: &R, domain: &Domain, task: &mut Task, job: u32) -> bool
    requires rests { RestsIn domain.now task.old }
    ensures rests { RestsIn domain.now task.new }
{
    let room = wait_event(rt, domain, task, ROOM, HOW).is_ok();
    let had = take(domain, task, ROOM);
    set_one(rt, domain, task, NEXT, u64::from(job).wrapping_add(1));
    room && had == 1
}

/// Posts the jobs, and asks each worker to leave, so late.
pub(crate) fn post_all<R: Wait>(
    rt: &R,
    domain: &Domain,
    task: &mut Task,
    shared: &Shared,
    late: u32,
) -> bool
    requires rests { RestsIn domain.now task.old }
    ensures rests { RestsIn domain.now task.new }
{
    let mut well = true;
    for job in 0..JOBS {
        let posted = post(rt, domain, task, job);
        well = well && posted;
    }
    for who in [1, 2, 3] {
        ask_late(rt, domain, task, &shared.flag, who, late);
    }
    well
}

/// Does the job that it takes, if there is one, and makes room for the next one.
fn do_job<R: Wait>(rt: &R, domain: &Domain, task: &mut Task, shared: &Shared)
    requires rests { RestsIn domain.now task.old }
    ensures rests { RestsIn domain.now task.new }
{
    match take(domain, task, NEXT) {
        0 => {}
        next => {
            let digit = 1u64.wrapping_shl(((next & 0xff) as u32).wrapping_sub(1).wrapping_mul(4));
            shared.count.fetch_add(digit, Ordering::SeqCst);
            set_one(rt, domain, task, ROOM, 1);
        }
    }
}

/// Does jobs until it is asked to leave and finds none: whether no wait failed.
pub(crate) fn work<R: Wait>(rt: &R, domain: &Domain, task: &mut Task, shared: &Shared) -> bool
    requires rests { RestsIn domain.now task.old }
    ensures rests { RestsIn domain.now task.new }
{
    for _ in rt.forever() {
        let asks = || shared.asks();
        match wait_event_until(rt, domain, task, NEXT, HOW, asks) {
            WaitUntil::Over(Ok(())) => do_job(rt, domain, task, shared),
            WaitUntil::Over(Err(_)) => return false,
            WaitUntil::Left { seen, selected: _ } => return seen == 0,
        }
    }
    unreachable!()
}

/// However late the shutdown comes, each job is done once, also the last one, and each worker returns.
#[test]
fn pool_is_shut_down_with_each_job_done_once(rt: HostRuntime) -> Result<(), Fail> {
    meet_often(&rt, rt.alloc(), 200, POOL)
}
