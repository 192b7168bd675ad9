//! Waits on futexes that their task leaves: at each moment, on one thread; and beside a wake of one and a second waiter, in
//! threads of their own, again and again, in Domains whose tasks park at once when they are put asleep.

ghost use Rattle.std.specs.Prelude.{◌≡◌};
ghost use Rattle.wait_rule.specs.Says.{RestsIn};
ghost use Rattle.wait_class.specs.Tables.{Lands};
ghost use Rattle.futex_table.specs.FutexTables.{futex_table};

use crate::calls::{sleep, wake_soon};
use futex_table::futexes::{FutexEnd, begin_futex, futex_wake};
use futex_table::leaves::{end_futex_wait_until, futex_wait_until, leave_futex_wait};
use futex_table::waits::{FutexRun, FutexStage, FutexTurn};
use std::sync::Wait;
use std::sync::atomic::{AtomicU64, Ordering};
use std::test::Fail;
use test_tasks::late::ask_late;
use test_tasks::meetings::{Part, four_meet, two_meet};
use test_tasks::wants::{all_so, begin_two};
use wait_class::runs::{stretch, woke};
use wait_class::stages::Turn;
use wait_leave::Until;
use wait_model::tasks::SleepState;
use wait_model::watches::Mode;
use wait_rule::queues::Passing;
use wait_rule::{Domain, Task, wake_task};

/// How many rounds each test by threads makes.
const ROUNDS: u32 = 300;

/// The futex, whose word is 0 throughout.
const FUTEX: u8 = 5;

const STATE: SleepState = SleepState::Uninterruptible;

/// Whether a wait was left that had found 0.
fn is_left(end: Until<Result<(), FutexEnd>>) -> bool {
    matches!(end, Until::Left { seen: 0 })
}

/// Whether a wake ended it.
fn is_woken(end: Until<Result<(), FutexEnd>>) -> bool {
    matches!(end, Until::Over(Ok(())))
}

/// What a task does in a round.
#[derive(Clone, Copy)]
enum Leaving<'a> {
    /// It wakes one who sleeps on the futex, as soon as somebody does.
    Wakes,
    /// It asks the task of this number to leave, after so many yields, and wakes it.
    Asks {
        flag: &'a AtomicU64,
        who: u8,
        late: u32,
    },
    /// It sleeps until a wake comes or it is asked to leave, and counts the wakes that it got: it passes them on.
    Passes {
        flag: &'a AtomicU64,
        wakes: &'a AtomicU64,
    },
    /// It sleeps until a wake comes.
    Sleeps(&'a AtomicU64),
    /// It sleeps where nobody wakes it, until it is asked to leave.
    Leaves(&'a AtomicU64),
}

impl Part for Leaving<'_> {
    fn play<R: Wait>(self, rt: &R, domain: &Domain, task: &mut Task) -> bool {
        match self {
            Leaving::Wakes => wake_soon(rt, domain, task),
            Leaving::Asks { flag, who, late } => ask_late(rt, domain, task, flag, who, late),
            Leaving::Passes { flag, wakes } => leave_or_pass(rt, domain, task, flag, wakes),
            Leaving::Sleeps(wakes) => sleep(rt, domain, task, STATE, wakes),
            Leaving::Leaves(flag) => leave(rt, domain, task, flag),
        }
    }
}

/// Sleeps until a wake comes or it is asked to leave. A wake is counted, and passed on.
fn leave_or_pass<R: Wait>(
    rt: &R,
    domain: &Domain,
    task: &mut Task,
    flag: &AtomicU64,
    wakes: &AtomicU64,
) -> bool
    requires rests { RestsIn domain.now task.old }
    ensures rests { RestsIn domain.now task.new }
{
    let asks = || flag.load(Ordering::SeqCst) != 0;
    let end = futex_wait_until(rt, domain, task, FUTEX, 0, STATE, asks);
    if is_woken(end) {
        wakes.fetch_add(1, Ordering::SeqCst);
        return wake_soon(rt, domain, task);
    }
    is_left(end)
}

/// Sleeps until it is asked to leave: whether it was left.
fn leave<R: Wait>(rt: &R, domain: &Domain, task: &mut Task, flag: &AtomicU64) -> bool
    requires rests { RestsIn domain.now task.old }
    ensures rests { RestsIn domain.now task.new }
{
    let asks = || flag.load(Ordering::SeqCst) != 0;
    is_left(futex_wait_until(rt, domain, task, FUTEX, 0, STATE, asks))
}

/// Whenever the wait is asked to leave, the second waiter gets the one wake: the wait that was left did not get it, or
/// has passed it on. Each wake was got by exactly one, and nobody sleeps then.
#[test]
fn left_waiter_loses_no_wake(rt: HostRuntime) -> Result<(), Fail> {
    for round in 0..ROUNDS {
        let (domain, task) = Domain::with_looks(rt.alloc(), 0)?;
        let (flag, passed) = (AtomicU64::new(0), AtomicU64::new(0));
        let wakes = AtomicU64::new(0);
        let asks = Leaving::Asks {
            flag: &flag,
            who: 1,
            late: round % 30,
        };
        let passes = Leaving::Passes {
            flag: &flag,
            wakes: &passed,
        };
        let sleeps = Leaving::Sleeps(&wakes);
        let own = (Leaving::Wakes, passes);
        let (mut task, [one, two, three, four]) = four_meet(
            &rt,
            &domain,
            task,
            own,
            (sleeps, asks),
        );
        let nobody = futex_wake(&rt, &domain, &mut task, FUTEX, 8) == 0;
        let got = wakes.load(Ordering::SeqCst) == 1;
        let few = passed.load(Ordering::SeqCst) <= 1;
        all_so(&[one, two, three, four, nobody, got, few])?;
    }
    Ok(())
}

/// A wait that nobody wakes is left once it is asked, from its sleep too; nobody sleeps then.
#[test]
fn futex_wait_is_left_from_its_sleep(rt: HostRuntime) -> Result<(), Fail> {
    for round in 0..ROUNDS {
        let (domain, task) = Domain::with_looks(rt.alloc(), 0)?;
        let flag = AtomicU64::new(0);
        let asks = Leaving::Asks {
            flag: &flag,
            who: 1,
            late: round % 8,
        };
        let leaves = Leaving::Leaves(&flag);
        let (mut task, [one, two]) = two_meet(&rt, &domain, task, (asks, leaves));
        let nobody = futex_wake(&rt, &domain, &mut task, FUTEX, 8) == 0;
        all_so(&[one, two, nobody])?;
    }
    Ok(())
}

/// Goes on with a wait by one stretch, or looks whether it was woken. Who parks for a lock that it passed on is woken.
fn go_on(domain: &Domain, task: &mut Task, run: &mut FutexRun, last: FutexTurn) -> FutexTurn
    requires of { task.old.domain ≡ domain.now }
    requires waiting { Lands futex_table task.old run.old last }
    ensures of { task.new.domain ≡ domain.now }
    ensures waiting { Lands futex_table task.new run.new result }
{
    let mut passing = Passing::none();
    let next = match last {
        Turn::Again(stage) | Turn::Locked(stage) => stretch(domain, task, run, stage, &mut passing),
        Turn::Asleep(stage) => {
            if woke(domain, task, run, stage) {
                Turn::Again(stage)
            } else {
                Turn::Asleep(stage)
            }
        }
        Turn::Done(_) => last,
    };
    passing.wake(domain);
    passing.end();
    next
}

/// Leaves a wait where it stands, or answers where it is over. One that sleeps was woken.
fn leave_at<R: Wait>(
    rt: &R,
    domain: &Domain,
    task: &mut Task,
    run: &mut FutexRun,
    last: FutexTurn,
) -> Until<Result<(), FutexEnd>>
    requires of { task.old.domain ≡ domain.now }
    requires waiting { Lands futex_table task.old run.old last }
{
    let mut at = last;
    for _ in rt.forever() {
        match at {
            Turn::Again(stage) | Turn::Locked(stage) => {
                return leave_futex_wait(rt, domain, task, run, stage);
            }
            Turn::Asleep(_) => at = go_on(domain, task, run, at),
            Turn::Done(outcome) => return end_futex_wait_until(task, run, outcome),
        }
    }
    unreachable!()
}

/// Whether a wait has drawn no ticket of a lock there, so that another task can take the lock.
fn is_free(at: FutexTurn) -> bool {
    !matches!(
        at,
        Turn::Again(FutexStage::Turn) | Turn::Again(FutexStage::OffTurn)
    )
}

/// A wait goes on by so many stretches, roused again and again, and then the other task wakes one, or does not, and the
/// wait is left: whether the wake was for it, or it was left, and nobody sleeps then.
fn leave_after<R: Wait>(
    rt: &R,
    domain: &Domain,
    task: &mut Task,
    other: &mut Task,
    stretches: u32,
    wakes: bool,
) -> bool
    requires rest { RestsIn domain.now task.old × RestsIn domain.now other.old }
{
    let who = task.number();
    let mut run = begin_futex(task, FUTEX, 0, SleepState::Interruptible);
    let mut at = Turn::Again(FutexStage::First);
    for _ in 0..stretches {
        at = go_on(domain, task, &mut run, at);
        wake_task(rt, domain, other, who, Mode::Normal);
    }
    let got = wakes && is_free(at) && futex_wake(rt, domain, other, FUTEX, 1) == 1;
    let end = leave_at(rt, domain, task, &mut run, at);
    let nobody = futex_wake(rt, domain, other, FUTEX, 8) == 0;
    nobody && if got { is_woken(end) } else { is_left(end) }
}

/// At each moment of a wait: one that was woken says so, and one that was not is left.
#[test]
fn futex_wait_is_left_at_each_moment(rt: HostRuntime) -> Result<(), Fail> {
    for stretches in 0..16 {
        for wakes in [false, true] {
            let (domain, mut task, mut other) = begin_two(rt.alloc())?;
            let so = leave_after(&rt, &domain, &mut task, &mut other, stretches, wakes);
            all_so(&[so])?;
        }
    }
    Ok(())
}
