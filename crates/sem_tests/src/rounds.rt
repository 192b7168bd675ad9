//! Tasks that take permits and give them back in threads of their own, again and again, in Domains whose tasks park at
//! once when they are put asleep; a `down` that a signal ends, or that its task leaves, at each moment.

ghost use Rattle.std.specs.Prelude.{◌<◌};
ghost use Rattle.wait_rule.specs.Says.{RestsIn};

use crate::alone::tries;
use count_sem::{SemEnd, down, down_until, up};
use std::sync::Wait;
use std::sync::atomic::{AtomicU64, Ordering};
use std::test::Fail;
use test_tasks::late::{ask_late, signal_late, yield_often};
use test_tasks::meetings::{Part, four_meet};
use test_tasks::wants::all_so;
use wait_leave::Until;
use wait_model::tasks::SleepState;
use wait_rule::{Domain, Task};

/// How many rounds each test makes.
const ROUNDS: u32 = 400;

/// The semaphore of the tests.
const CELL: u8 = 5;

/// What a task does in a round. All share how many permits were taken.
#[derive(Clone, Copy)]
pub(crate) enum Plays<'a> {
    /// It takes a permit.
    Takes,
    /// It takes one, unless a signal ends that.
    TakesUnlessSignalled {
        took: &'a AtomicU64,
    },
    /// It takes one, unless it is asked to leave; where it took one it asks the other task to leave, and wakes it.
    TakesAndAsks {
        flag: &'a AtomicU64,
        took: &'a AtomicU64,
        other: &'a AtomicU64,
        who: u8,
    },
    /// It takes one, unless it is asked to leave.
    TakesUnlessAsked {
        flag: &'a AtomicU64,
        took: &'a AtomicU64,
    },
    /// It gives one back.
    Gives {
        late: u32,
    },
    /// It sends a plain signal.
    Signals {
        who: u8,
        late: u32,
    },
    /// It asks the task of this number to leave, and wakes it.
    Asks {
        flag: &'a AtomicU64,
        who: u8,
        late: u32,
    },
}

impl Part for Plays<'_> {
    fn play<R: Wait>(self, rt: &R, domain: &Domain, task: &mut Task) -> bool {
        match self {
            Plays::Takes => down(rt, domain, task, CELL, SleepState::Uninterruptible).is_ok(),
            Plays::TakesUnlessSignalled { took } => take_unless_signalled(rt, domain, task, took),
            Plays::TakesAndAsks {
                flag,
                took,
                other,
                who,
            } => take_and_ask(rt, domain, task, flag, took, other, who),
            Plays::TakesUnlessAsked { flag, took } => {
                take_until(rt, domain, task, flag, took);
                true
            }
            Plays::Gives { late } => give_late(rt, domain, task, late),
            Plays::Signals { who, late } => signal_late(rt, domain, task, who, late),
            Plays::Asks { flag, who, late } => ask_late(rt, domain, task, flag, who, late),
        }
    }
}

/// Yields so often, and gives one back.
fn give_late<R: Wait>(rt: &R, domain: &Domain, task: &mut Task, late: u32) -> bool
    requires rests { RestsIn domain.now task.old }
    ensures rests { RestsIn domain.now task.new }
{
    yield_often(late);
    up(rt, domain, task, CELL).is_ok()
}

/// Takes a permit, unless a signal ends that.
fn take_unless_signalled<R: Wait>(
    rt: &R,
    domain: &Domain,
    task: &mut Task,
    took: &AtomicU64,
) -> bool
    requires rests { RestsIn domain.now task.old }
    ensures rests { RestsIn domain.now task.new }
{
    match down(rt, domain, task, CELL, SleepState::Interruptible) {
        Ok(()) => {
            took.fetch_add(1, Ordering::SeqCst);
            true
        }
        Err(SemEnd::Interrupted) => true,
        Err(SemEnd::Worn { .. }) => false,
    }
}

/// Takes a permit, or leaves once it is asked: whether it took one.
fn take_until<R: Wait>(
    rt: &R,
    domain: &Domain,
    task: &mut Task,
    flag: &AtomicU64,
    took: &AtomicU64,
) -> bool
    requires rests { RestsIn domain.now task.old }
    ensures rests { RestsIn domain.now task.new }
{
    let asks = || flag.load(Ordering::SeqCst) != 0;
    match down_until(rt, domain, task, CELL, SleepState::Uninterruptible, asks) {
        Until::Over(Ok(())) => {
            took.fetch_add(1, Ordering::SeqCst);
            true
        }
        _ => false,
    }
}

/// Takes one, or leaves; where it took one it asks the other task to leave.
fn take_and_ask<R: Wait>(
    rt: &R,
    domain: &Domain,
    task: &mut Task,
    flag: &AtomicU64,
    took: &AtomicU64,
    other: &AtomicU64,
    who: u8,
) -> bool
    requires rests { RestsIn domain.now task.old }
    ensures rests { RestsIn domain.now task.new }
{
    if take_until(rt, domain, task, flag, took) {
        ask_late(rt, domain, task, other, who, 0)
    } else {
        true
    }
}

/// How many permits are counted, of two at most.
fn rest<R: Wait>(rt: &R, domain: &Domain, task: &mut Task) -> u64
    requires rests { RestsIn domain.now task.old }
    ensures rests { RestsIn domain.now task.new }
{
    let one = tries(rt, domain, task, CELL);
    let two = tries(rt, domain, task, CELL);
    u64::from(one) + u64::from(two)
}

/// Whenever the signal comes, each of the two permits that were given back is taken or counted, and no third: one `down`
/// that a signal may end, another that takes one, and two `up`.
#[test]
fn signal_beside_an_up_loses_and_doubles_no_permit(rt: HostRuntime) -> Result<(), Fail> {
    for round in 0..ROUNDS {
        let (domain, task) = Domain::with_looks(rt.alloc(), 0)?;
        let took = AtomicU64::new(0);
        let signals = Plays::Signals {
            who: 2,
            late: round % 7,
        };
        let gives = Plays::Gives {
            late: (round / 7) % 7,
        };
        let downs = Plays::TakesUnlessSignalled { took: &took };
        let (mut task, went) = four_meet(&rt, &domain, task, (signals, gives), (downs, gives));
        let left = rest(&rt, &domain, &mut task);
        let taken = took.load(Ordering::SeqCst);
        let balanced = taken <= 1 && left <= 2 && taken + left == 2;
        all_so(&[went[0], went[1], went[2], went[3], balanced])?;
    }
    Ok(())
}

/// Whenever the first `down` is asked to leave, one of the two gets the permit, never both and never nobody: the second
/// is asked to leave only where the first one has it. Nothing is left.
#[test]
fn left_down_beside_an_up_and_a_second_one_gets_it_or_leaves_it(
    rt: HostRuntime,
) -> Result<(), Fail> {
    let mut first_took = 0u64;
    for round in 0..ROUNDS {
        let (domain, task) = Domain::with_looks(rt.alloc(), 0)?;
        let flag = AtomicU64::new(0);
        let other = AtomicU64::new(0);
        let took = AtomicU64::new(0);
        let asks = Plays::Asks {
            flag: &flag,
            who: 2,
            late: round % 7,
        };
        let gives = Plays::Gives {
            late: (round / 7) % 7,
        };
        let leaves = Plays::TakesAndAsks {
            flag: &flag,
            took: &took,
            other: &other,
            who: 3,
        };
        let second = Plays::TakesUnlessAsked {
            flag: &other,
            took: &took,
        };
        let (mut task, went) = four_meet(&rt, &domain, task, (asks, gives), (leaves, second));
        let none = rest(&rt, &domain, &mut task) == 0;
        let one_took = took.load(Ordering::SeqCst) == 1;
        first_took = first_took.wrapping_add(other.load(Ordering::SeqCst));
        all_so(&[went[0], went[1], went[2], went[3], one_took, none])?;
    }
    all_so(&[first_took < u64::from(ROUNDS)])
}
