//! Calls on pipes that are asked to leave in threads of their own, again and again, in Domains whose tasks park at once
//! when they are put asleep.

ghost use Rattle.wait_rule.specs.Says.{RestsIn};

use crate::pipes::calls::{
    By, FULL, are_from, end_read, end_write, fill_from, get, get_by, put, put_by, take_read,
    take_write,
};
use crate::pipes::streams::{Stream, receive, send};
use std::alloc::AllocError;
use std::sync::Wait;
use std::sync::atomic::AtomicU64;
use std::test::Fail;
use test_tasks::late::ask_two_late;
use test_tasks::meetings::{Part, four_meet};
use test_tasks::wants::all_so;
use wait_leave::Until;
use wait_rule::{Domain, Task};

/// How many rounds each test makes.
const ROUNDS: u32 = 300;

/// How often a round asks.
const ASKS: u32 = 40;

/// A pipe that is empty, and one that is full.
const EMPTY: u8 = 6;

const FILLED: u8 = 7;

/// What a task does in a round. All share the count of the asks.
#[derive(Copy)]
enum Leaving<'a> {
    Rests,
    /// It sends the bytes of a stream: a call that is asked since it began is left, and made again.
    Sends {
        asked: &'a AtomicU64,
        round: u32,
    },
    /// It takes them so.
    Receives {
        asked: &'a AtomicU64,
        round: u32,
    },
    /// It asks the tasks of these numbers to leave, and wakes them.
    Asks {
        asked: &'a AtomicU64,
        whom: (u8, u8),
        late: u32,
        times: u32,
    },
    /// It reads from a pipe with no writer, until it is asked.
    LeavesEmpty(&'a AtomicU64),
    /// It fills a pipe with no reader, and writes more until it is asked.
    LeavesFull(&'a AtomicU64),
}

impl Clone for Leaving<'_> {
    fn clone(&self) -> Result<Self, AllocError> {
        Ok(*self)
    }
}

impl Part for Leaving<'_> {
    fn play<R: Wait>(self, rt: &R, domain: &Domain, task: &mut Task) -> bool {
        match self {
            Leaving::Rests => true,
            Leaving::Sends { asked, round } => {
                send(rt, domain, task, Stream::Pieces { round }, Some(asked))
            }
            Leaving::Receives { asked, round } => {
                receive(rt, domain, task, Stream::Pieces { round }, Some(asked))
            }
            Leaving::Asks {
                asked,
                whom,
                late,
                times,
            } => ask(rt, domain, task, asked, whom, late, times),
            Leaving::LeavesEmpty(asked) => leave_empty(rt, domain, task, asked),
            Leaving::LeavesFull(asked) => leave_full(rt, domain, task, asked),
        }
    }
}

/// Asks so many times, each after some yields, and wakes both tasks.
fn ask<R: Wait>(
    rt: &R,
    domain: &Domain,
    task: &mut Task,
    asked: &AtomicU64,
    whom: (u8, u8),
    late: u32,
    times: u32,
) -> bool
    requires rests { RestsIn domain.now task.old }
    ensures rests { RestsIn domain.now task.new }
{
    for time in 0..times {
        ask_two_late(rt, domain, task, asked, whom, late.wrapping_add(time) % 9);
    }
    true
}

/// Reads from a pipe whose other end nobody has, until it is asked: whether it was left, with nothing there.
fn leave_empty<R: Wait>(rt: &R, domain: &Domain, task: &mut Task, asked: &AtomicU64) -> bool
    requires rests { RestsIn domain.now task.old }
    ensures rests { RestsIn domain.now task.new }
{
    if !take_read(domain, task, EMPTY) {
        return false;
    }
    let mut buf = [0u8; 7];
    let left = get_by(rt, domain, task, EMPTY, &mut buf, By::Count(asked, 0));
    end_read(rt, domain, task, EMPTY);
    matches!(left, Until::Left { seen: 0 })
}

/// Fills a pipe whose other end nobody has, and writes on until it is asked: whether it was left, with no cell free.
fn leave_full<R: Wait>(rt: &R, domain: &Domain, task: &mut Task, asked: &AtomicU64) -> bool
    requires rests { RestsIn domain.now task.old }
    ensures rests { RestsIn domain.now task.new }
{
    if !take_write(domain, task, FILLED) {
        return false;
    }
    let mut bytes = [0u8; FULL];
    fill_from(0, &mut bytes);
    let first = put(rt, domain, task, FILLED, &bytes);
    let left = put_by(rt, domain, task, FILLED, &bytes, By::Count(asked, 0));
    end_write(rt, domain, task, FILLED);
    matches!(first, Ok(FULL)) && matches!(left, Until::Left { seen: 0 })
}

/// Whenever a writer and a reader are asked to leave their calls, the bytes come out as they went in, each once.
#[test]
fn left_calls_lose_no_byte(rt: HostRuntime) -> Result<(), Fail> {
    for round in 0..ROUNDS {
        let (domain, task) = Domain::with_looks(rt.alloc(), 0)?;
        let asked = AtomicU64::new(0);
        let asks = Leaving::Asks {
            asked: &asked,
            whom: (0, 1),
            late: round % 7,
            times: ASKS,
        };
        let sends = Leaving::Sends {
            asked: &asked,
            round,
        };
        let receives = Leaving::Receives {
            asked: &asked,
            round,
        };
        let own = (sends, receives);
        let (_task, went) = four_meet(&rt, &domain, task, own, (asks, Leaving::Rests));
        all_so(&went)?;
    }
    Ok(())
}

/// Calls that nobody ends are left once they are asked, from their sleep too; what was put before comes out.
#[test]
fn calls_are_left_from_their_sleep(rt: HostRuntime) -> Result<(), Fail> {
    for round in 0..ROUNDS {
        let (domain, task) = Domain::with_looks(rt.alloc(), 0)?;
        let asked = AtomicU64::new(0);
        let asks = Leaving::Asks {
            asked: &asked,
            whom: (2, 3),
            late: round % 9,
            times: 1,
        };
        let leaves = (Leaving::LeavesEmpty(&asked), Leaving::LeavesFull(&asked));
        let (mut task, went) = four_meet(&rt, &domain, task, (asks, Leaving::Rests), leaves);
        all_so(&went)?;
        let opened = take_read(&domain, &mut task, FILLED);
        if !opened {
            panic!(rt; "the end is free")
        }
        let mut buf = [0u8; FULL];
        let all = get(&rt, &domain, &mut task, FILLED, &mut buf);
        let in_order = are_from(0, &buf);
        let last = get(&rt, &domain, &mut task, FILLED, &mut buf);
        let seen = [matches!(all, Ok(FULL)), in_order, matches!(last, Ok(0))];
        all_so(&seen)?;
    }
    Ok(())
}
