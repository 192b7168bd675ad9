//! Mutexes and condition variables whose waits their task leaves, in threads of their own, again and again, in Domains
//! whose tasks park at once when they are put asleep.

ghost use Rattle.std.specs.Prelude.{◌≡◌};
ghost use Rattle.wait_rule.specs.Says.{RestsIn};
ghost use Rattle.futex_table.specs.{Holding.HoldsMutex, LockLeaves.is_held_until, LockLeaves.is_locked_until};

use crate::calls::{broadcast, lock, open, unlock};
use crate::tallies::add_plainly;
use futex_table::cond_vars::CondEnd;
use futex_table::futexes::futex_wake;
use futex_table::lock_leaves::{cond_wait_until, mutex_lock_until};
use futex_table::mutexes::mutex_try;
use std::sync::Wait;
use std::sync::atomic::{AtomicU64, Ordering};
use std::test::Fail;
use test_tasks::late::{ask_two_late, yield_often};
use test_tasks::meetings::{Part, four_meet};
use test_tasks::often::play_often;
use test_tasks::wants::all_so;
use wait_leave::Until;
use wait_model::tasks::SleepState;
use wait_rule::{Domain, Task};
use wq_head::Worn;

/// How many rounds each test makes, and how often each task adds in a round.
const ROUNDS: u32 = 200;

const ADDS: u32 = 5;

/// The mutex and the condition variable of `calls`.
const LOCK: u8 = 6;

const COND: u8 = 7;

/// What the tasks of a round share.
#[derive(Clone, Copy)]
struct Shared<'a> {
    /// To this the tasks add with the mutex, by a load and a store.
    tally: &'a AtomicU64,
    /// What they meant to add, and how often they left.
    added: &'a AtomicU64,
    left: &'a AtomicU64,
    /// Asks who waits for the condition variable to leave.
    flag: &'a AtomicU64,
}

/// Takes the mutex and adds, or leaves the lock at so many questions: whether it did one of both.
#[derive(Clone, Copy)]
struct Counts<'a> {
    shared: Shared<'a>,
    patience: u64,
}

impl Part for Counts<'_> {
    fn play<R: Wait>(self, rt: &R, domain: &Domain, task: &mut Task) -> bool {
        let (questions, patience) = (AtomicU64::new(0), self.patience);
        let asks = || questions.fetch_add(1, Ordering::SeqCst) >= patience;
        let end = mutex_lock_until(rt, domain, task, LOCK, asks);
        if has_locked(end) {
            add_and_unlock(rt, domain, task, self.shared);
            return true;
        }
        count_left(end, self.shared)
    }
}

/// What a task does in a round.
#[derive(Clone, Copy)]
enum Locking<'a> {
    /// It takes the mutex and adds, or leaves the lock, again and again.
    Counts(Counts<'a>),
    /// With the mutex it waits for the condition variable, until it is woken or asked to leave, and adds.
    Waits(Shared<'a>),
    /// With the mutex it wakes all who wait, after so many yields.
    Tells {
        shared: Shared<'a>,
        late: u32,
    },
    /// It asks the tasks of these numbers to leave, after so many yields, and wakes them.
    Asks {
        shared: Shared<'a>,
        who: (u8, u8),
        late: u32,
    },
}

impl Part for Locking<'_> {
    fn play<R: Wait>(self, rt: &R, domain: &Domain, task: &mut Task) -> bool {
        match self {
            Locking::Counts(counts) => play_often(rt, domain, task, counts, ADDS),
            Locking::Waits(shared) => wait_once(rt, domain, task, shared),
            Locking::Tells { shared, late } => tell_late(rt, domain, task, shared, late),
            Locking::Asks { shared, who, late } => {
                ask_two_late(rt, domain, task, shared.flag, who, late)
            }
        }
    }
}

/// Whether a lock took the mutex.
pub(crate) fn has_locked(end: Until<Result<(), Worn>>) -> bool
    ensures { result ≡ is_locked_until end }
{
    matches!(end, Until::Over(Ok(())))
}

/// Counts a lock that was left: whether it was, and found the mutex taken.
fn count_left(end: Until<Result<(), Worn>>, shared: Shared<'_>) -> bool {
    shared.left.fetch_add(1, Ordering::SeqCst);
    matches!(end, Until::Left { seen: 0 })
}

/// Whether a wait has the mutex behind it.
pub(crate) fn has_mutex(end: Until<Result<(), CondEnd>>) -> bool
    ensures { result ≡ is_held_until end }
{
    match end {
        Until::Over(Err(CondEnd::Worn { held, .. })) => held,
        _ => true,
    }
}

/// Adds, and gives the mutex back.
fn add_and_unlock<R: Wait>(rt: &R, domain: &Domain, task: &mut Task, shared: Shared<'_>)
    requires rests { RestsIn domain.now task.old }
    requires holds { HoldsMutex task.old 6 }
    ensures rests { RestsIn domain.now task.new }
{
    add_plainly(shared.tally);
    shared.added.fetch_add(1, Ordering::SeqCst);
    unlock(rt, domain, task);
}

/// With the mutex, waits and adds: also where the wait was left, since the mutex is held then.
fn wait_and_add<R: Wait>(rt: &R, domain: &Domain, task: &mut Task, shared: Shared<'_>) -> bool
    requires rests { RestsIn domain.now task.old }
    requires holds { HoldsMutex task.old 6 }
    ensures rests { RestsIn domain.now task.new }
{
    let asks = || shared.flag.load(Ordering::SeqCst) != 0;
    let state = SleepState::Uninterruptible;
    let end = cond_wait_until(rt, domain, task, COND, LOCK, state, asks);
    if has_mutex(end) {
        add_and_unlock(rt, domain, task, shared);
        return true;
    }
    false
}

/// The same, from the lock on.
fn wait_once<R: Wait>(rt: &R, domain: &Domain, task: &mut Task, shared: Shared<'_>) -> bool
    requires rests { RestsIn domain.now task.old }
    ensures rests { RestsIn domain.now task.new }
{
    if lock(rt, domain, task) {
        wait_and_add(rt, domain, task, shared)
    } else {
        false
    }
}

/// Yields so often, and wakes all who wait, with the mutex, in which it adds too.
fn tell_late<R: Wait>(
    rt: &R,
    domain: &Domain,
    task: &mut Task,
    shared: Shared<'_>,
    late: u32,
) -> bool
    requires rests { RestsIn domain.now task.old }
    ensures rests { RestsIn domain.now task.new }
{
    yield_often(late);
    if lock(rt, domain, task) {
        broadcast(rt, domain, task);
        add_and_unlock(rt, domain, task, shared);
        return true;
    }
    false
}

/// Whatever the order of the steps, each lock that was not left adds once, no add is lost, and nobody has the mutex in
/// the end.
#[test]
fn tally_of_four_that_leave(rt: HostRuntime) -> Result<(), Fail> {
    for round in 0..ROUNDS {
        let (domain, mut task) = Domain::with_looks(rt.alloc(), 0)?;
        let (tally, added) = (AtomicU64::new(0), AtomicU64::new(0));
        let (left, flag) = (AtomicU64::new(0), AtomicU64::new(0));
        let shared = Shared {
            tally: &tally,
            added: &added,
            left: &left,
            flag: &flag,
        };
        open(&rt, &domain, &mut task);
        let waits = Locking::Counts(Counts {
            shared,
            patience: 1_000_000,
        });
        let leaves = Locking::Counts(Counts {
            shared,
            patience: u64::from(round % 40),
        });
        let (mut task, [one, two, three, four]) = four_meet(
            &rt,
            &domain,
            task,
            (waits, leaves),
            (leaves, leaves),
        );
        let exact = tally.load(Ordering::SeqCst) == added.load(Ordering::SeqCst);
        let tries = added
            .load(Ordering::SeqCst)
            .saturating_add(left.load(Ordering::SeqCst));
        let all = tries == 20;
        let free = mutex_try(&domain, &mut task, LOCK);
        all_so(&[one, two, three, four, exact, all, free])?;
    }
    Ok(())
}

/// Two tasks wait with a limit, and a third wakes them, earlier or later: each has the mutex behind its wait, left or
/// not, so no add is lost, and nobody waits or has the mutex in the end.
#[test]
fn waits_with_a_limit_have_the_mutex(rt: HostRuntime) -> Result<(), Fail> {
    for round in 0..ROUNDS {
        let (domain, mut task) = Domain::with_looks(rt.alloc(), 0)?;
        let (tally, added) = (AtomicU64::new(0), AtomicU64::new(0));
        let (left, flag) = (AtomicU64::new(0), AtomicU64::new(0));
        let shared = Shared {
            tally: &tally,
            added: &added,
            left: &left,
            flag: &flag,
        };
        open(&rt, &domain, &mut task);
        let tells = Locking::Tells {
            shared,
            late: round % 7,
        };
        let asks = Locking::Asks {
            shared,
            who: (1, 2),
            late: (round / 7) % 9,
        };
        let waits = Locking::Waits(shared);
        let (mut task, [one, two, three, four]) = four_meet(
            &rt,
            &domain,
            task,
            (tells, waits),
            (waits, asks),
        );
        let exact = tally.load(Ordering::SeqCst) == 3;
        let nobody = futex_wake(&rt, &domain, &mut task, COND, 8) == 0;
        let free = mutex_try(&domain, &mut task, LOCK);
        all_so(&[one, two, three, four, exact, nobody, free])?;
    }
    Ok(())
}
