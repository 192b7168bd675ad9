//! Threads that sleep and wake one another again and again, in Domains whose tasks park at once when they are put
//! asleep.

ghost use Rattle.wait_rule.specs.Says.{RestsIn};

use crate::meetings::Part;
use crate::scenes::{Batch, want_often};
use std::sync::Wait;
use std::test::Fail;
use std::thread;
use std::thread::Threads;
use test_tasks::meetings::{four_meet, two_meet};
use test_tasks::often::Often;
use wait_model::layout::UNINTERRUPTIBLE;
use wait_model::watches::Mode;
use wait_rule::domain::{Domain, Task};
use wait_rule::running::{schedule, wake_task};
use wait_rule::tasks::set_state;

/// How many batches a test makes, each in a Domain and by threads of its own: threads that wake each other for long
/// come to share a processor, and then no wake falls into the midst of a sleep.
const BATCHES: u32 = 100;

/// How many rounds a batch has.
const ROUNDS: u64 = 100;

/// Sleeps until woken.
fn doze<R: Wait>(rt: &R, domain: &Domain, task: &mut Task)
    requires rests { RestsIn domain.now task.old }
    ensures rests { RestsIn domain.now task.new }
{
    set_state(domain, task, UNINTERRUPTIBLE);
    schedule(rt, domain, task);
}

/// Tries to wake a task, again and again with no pause, so that a try may fall between any two steps of its sleep: true
/// where one of them has woken it.
fn wake_soon<R: Wait>(rt: &R, domain: &Domain, task: &mut Task, who: u8) -> bool
    requires rests { RestsIn domain.now task.old }
    ensures rests { RestsIn domain.now task.new }
{
    for _ in 0..1000 {
        if wake_task(rt, domain, task, who, Mode::Normal) {
            return true;
        }
    }
    false
}

/// Wakes a task as soon as it is about to sleep.
fn wake_up<R: Wait>(rt: &R, domain: &Domain, task: &mut Task, who: u8)
    requires rests { RestsIn domain.now task.old }
    ensures rests { RestsIn domain.now task.new }
{
    for _ in rt.forever() {
        if wake_soon(rt, domain, task, who) {
            return;
        }
        thread::yield_now();
    }
    unreachable!()
}

/// The one whose turn it is wakes another and sleeps. Any other sleeps until its turn comes.
fn turn<R: Wait>(rt: &R, domain: &Domain, task: &mut Task, other: u8, first: bool)
    requires rests { RestsIn domain.now task.old }
    ensures rests { RestsIn domain.now task.new }
{
    if first {
        wake_up(rt, domain, task, other);
    }
    doze(rt, domain, task);
    if !first {
        wake_up(rt, domain, task, other);
    }
}

/// What a task does in each round.
#[derive(Clone, Copy)]
pub(crate) enum Round {
    /// It sleeps.
    Sleeps,
    /// It wakes another task.
    Wakes { who: u8 },
    /// The turn goes round three tasks, and then round them the other way. So each of them is woken while each other one
    /// stays asleep.
    Turns { next: u8, last: u8, first: bool },
}

/// What a task does in one round.
pub(crate) fn go_round<R: Wait>(rt: &R, domain: &Domain, task: &mut Task, round: Round) -> bool
    requires rests { RestsIn domain.now task.old }
    ensures rests { RestsIn domain.now task.new }
{
    match round {
        Round::Sleeps => doze(rt, domain, task),
        Round::Wakes { who } => wake_up(rt, domain, task, who),
        Round::Turns { next, last, first } => {
            turn(rt, domain, task, next, first);
            turn(rt, domain, task, last, first);
        }
    }
    true
}

/// A task that does the same in each round.
fn goes(round: Round) -> Often<Part> {
    Often {
        part: Part::GoesRound(round),
        times: ROUNDS,
    }
}

/// A batch of a sleeper and its waker.
pub(crate) fn two_go<R: Threads + Wait + Sync>(rt: &R, domain: &Domain, task: Task) -> [bool; 2]
    requires rests { RestsIn domain.now task }
{
    let parts = (goes(Round::Wakes { who: 1 }), goes(Round::Sleeps));
    let (_task, went) = two_meet(rt, domain, task, parts);
    went
}

/// A wake ends the sleep of a task whose waker has a thread of its own, between whatever steps of it the wake falls.
#[test]
fn sleeps_end(rt: HostRuntime) -> Result<(), Fail> {
    want_often(&rt, rt.alloc(), Batch::TwoGo, BATCHES)
}

/// The part of one of the three.
fn in_turn(next: u8, last: u8, first: bool) -> Often<Part> {
    goes(Round::Turns { next, last, first })
}

/// A batch of three tasks that hand the turn on.
pub(crate) fn three_go<R: Threads + Wait + Sync>(rt: &R, domain: &Domain, task: Task) -> [bool; 4]
    requires rests { RestsIn domain.now task }
{
    let firsts = (in_turn(1, 2, true), in_turn(2, 0, false));
    let rests = Often {
        part: Part::Rests,
        times: 1,
    };
    let seconds = (in_turn(0, 1, false), rests);
    let (_task, went) = four_meet(rt, domain, task, firsts, seconds);
    went
}

/// A thread parks on the word of its own task, and a wake of that task wakes it.
#[test]
fn three_hand_on(rt: HostRuntime) -> Result<(), Fail> {
    want_often(&rt, rt.alloc(), Batch::ThreeGo, BATCHES)
}
