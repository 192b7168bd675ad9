//! A number that two threads hand to and fro under a mutex and a condition variable: each adds 1 on its turn, and tells
//! the other one.

ghost use Rattle.std.specs.Prelude.{◌≡◌, true};
ghost use Rattle.wait_rule.specs.Says.{RestsIn};
ghost use Rattle.futex_table.specs.Holding.{HoldsMutex};

use crate::futexes::mutexes::{lock, unlock};
use crate::timing::time_two;
use futex_table::{cond_broadcast, cond_wait};
use std::alloc::Global;
use std::io;
use std::sync::Wait;
use std::sync::atomic::{AtomicU64, Ordering};
use std::thread::Threads;
use std::time::{Clock, Duration};
use test_tasks::meetings::Part;
use wait_model::tasks::SleepState;
use wait_rule::{Domain, Task};

/// The mutex, and the condition variable.
const LOCK: u8 = 6;

const COND: u8 = 7;

/// What both sides share: the number, and the last one.
#[derive(Clone, Copy)]
struct Monitor<'a> {
    number: &'a AtomicU64,
    last: u64,
}

/// Whose turn it is.
#[derive(Clone, Copy)]
enum Whose {
    Own,
    Other,
    Nobody,
}

/// Adds 1 to the number on the own turn.
fn add_if_own(monitor: Monitor<'_>, own: u64) -> Whose {
    let now = monitor.number.load(Ordering::SeqCst);
    if now >= monitor.last {
        return Whose::Nobody;
    }
    if now % 2 == own {
        monitor.number.store(now.wrapping_add(1), Ordering::SeqCst);
        return Whose::Own;
    }
    Whose::Other
}

/// Waits for the condition variable: whether it has the mutex behind the wait.
fn wait<R: Wait>(rt: &R, domain: &Domain, task: &mut Task) -> bool
    requires rests { RestsIn domain.now task.old }
    requires holds { HoldsMutex task.old 6 }
    ensures rests { RestsIn domain.now task.new }
    ensures holds { result ≡ true → HoldsMutex task.new 6 }
{
    let state = SleepState::Uninterruptible;
    match cond_wait(rt, domain, task, COND, LOCK, state) {
        Ok(()) => true,
        Err(_end) => false,
    }
}

/// Wakes all who wait for it.
fn broadcast<R: Wait>(rt: &R, domain: &Domain, task: &mut Task)
    requires rests { RestsIn domain.now task.old }
    requires holds { HoldsMutex task.old 6 }
    ensures rests { RestsIn domain.now task.new }
    ensures holds { HoldsMutex task.new 6 }
{
    cond_broadcast(rt, domain, task, COND, LOCK);
}

/// With the mutex, hands the number on until it is the last, and gives the mutex back: whether it came so far.
fn hand_on<R: Wait>(
    rt: &R,
    domain: &Domain,
    task: &mut Task,
    monitor: Monitor<'_>,
    own: u64,
) -> bool
    requires rests { RestsIn domain.now task.old }
    requires holds { HoldsMutex task.old 6 }
    ensures rests { RestsIn domain.now task.new }
{
    for _ in rt.forever() {
        match add_if_own(monitor, own) {
            Whose::Own => broadcast(rt, domain, task),
            Whose::Other => {
                if !wait(rt, domain, task) {
                    return false;
                }
            }
            Whose::Nobody => {
                unlock(rt, domain, task);
                return true;
            }
        }
    }
    unreachable!()
}

/// One side.
#[derive(Clone, Copy)]
struct Side<'a> {
    monitor: Monitor<'a>,
    own: u64,
}

impl Part for Side<'_> {
    fn play<R: Wait>(self, rt: &R, domain: &Domain, task: &mut Task) -> bool {
        if lock(rt, domain, task) {
            hand_on(rt, domain, task, self.monitor, self.own)
        } else {
            false
        }
    }
}

/// How long it takes to hand the number on `n` times in a Domain whose tasks look so often before they park: None where
/// a side did not come so far.
pub(crate) fn time_hands<R: Clock + Threads + Wait + Sync>(
    rt: &R,
    alloc: Global,
    looks: u32,
    n: u64,
) -> io::Result<Option<Duration>> {
    let number = AtomicU64::new(0);
    let monitor = Monitor {
        number: &number,
        last: n,
    };
    let sides = (Side { monitor, own: 0 }, Side { monitor, own: 1 });
    time_two(rt, alloc, looks, sides, 1)
}
