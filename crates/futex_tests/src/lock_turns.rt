//! Locks of a mutex that take turns on one thread, by stretches, in an order that a number draws: what an executor does;
//! and locks that are left by stretches, at each moment.

ghost use Rattle.std.specs.Prelude.{◌≡◌};
ghost use Rattle.wait_rule.specs.{PassedLocks.PassesNone, Says.RestsIn};
ghost use Rattle.wait_class.specs.declared.stages.Turn.TheVariants as turn;
ghost use Rattle.futex_table.specs.{Holding.HoldsMutex, LockStretches.IsLockUnderWay};

use crate::calls::open;
use crate::left_locks::has_locked;
use crate::turns::{is_free_lock, open_and_take};
use futex_table::futexes::futex_wake;
use futex_table::lock_stretches::{
    MutexTurn, begin_mutex_lock, end_mutex_lock_until, stretch_mutex_lock, stretch_mutex_lock_out,
    woke_mutex_lock,
};
use futex_table::mutexes::{mutex_try, mutex_unlock};
use std::sync::Wait;
use std::test::Fail;
use test_tasks::draws::next_number;
use test_tasks::wants::{all_so, begin_two};
use wait_class::stages::Turn;
use wait_leave::Until;
use wait_model::watches::Mode;
use wait_rule::queues::Passing;
use wait_rule::{Domain, Task, wake_task};
use wq_head::Worn;

/// The mutex of `calls`.
const LOCK: u8 = 6;

/// How many orders are played, and how many turns each has.
const ORDERS: u32 = 120;

const TURNS: u32 = 400;

/// What the tasks of one order did: whether one is in its critical section, whether two ever were, and how often each
/// has come out of it.
#[derive(Clone, Copy)]
struct Sections {
    inside: bool,
    met: bool,
    adds: (u32, u32),
}

/// Whether a lock has taken the mutex there.
fn is_inside(at: MutexTurn) -> bool {
    matches!(at, Turn::Done(Until::Over(Ok(()))))
}

/// Whether a lock has drawn no ticket there, so that another task of the thread can wait for the lock of the head.
fn is_free(at: MutexTurn) -> bool {
    match at {
        Turn::Again(stage) | Turn::Locked(stage) => is_free_lock(stage),
        _ => true,
    }
}

/// One stretch of a lock, which is asked to leave or is not, or a look whether it was woken.
fn go_on_by(
    domain: &Domain,
    task: &mut Task,
    last: MutexTurn,
    asks: bool,
    passing: &mut Passing,
) -> MutexTurn
    requires of { task.old.domain ≡ domain.now }
    requires passes { PassesNone passing.old }
    requires waiting { IsLockUnderWay 6 task.old last }
    ensures of { task.new.domain ≡ domain.now }
    ensures waiting { IsLockUnderWay 6 task.new result }
{
    match last {
        Turn::Again(stage) | Turn::Locked(stage) => {
            if asks {
                return stretch_mutex_lock_out(domain, task, LOCK, stage, passing);
            }
            stretch_mutex_lock(domain, task, LOCK, stage, passing)
        }
        Turn::Asleep(stage) => {
            if woke_mutex_lock(domain, task, LOCK, stage) {
                return Turn::Again(stage);
            }
            Turn::Asleep(stage)
        }
        Turn::Done(_) => last,
    }
}

/// Goes on with a lock by one stretch, which is asked to leave or is not, or looks whether it was woken. Who parks for a
/// lock that it passed on is woken.
fn go_on(domain: &Domain, task: &mut Task, last: MutexTurn, asks: bool) -> MutexTurn
    requires of { task.old.domain ≡ domain.now }
    requires waiting { IsLockUnderWay 6 task.old last }
    ensures of { task.new.domain ≡ domain.now }
    ensures waiting { IsLockUnderWay 6 task.new result }
{
    let mut passing = Passing::none();
    let next = go_on_by(domain, task, last, asks, &mut passing);
    passing.wake(domain);
    passing.end();
    next
}

/// Gives the mutex back where the lock took it, and begins anew.
fn come_out<R: Wait>(
    rt: &R,
    domain: &Domain,
    task: &mut Task,
    answer: Until<Result<(), Worn>>,
) -> MutexTurn
    requires of { task.old.domain ≡ domain.now }
    requires over { IsLockUnderWay 6 task.old (turn.Done answer) }
    ensures of { task.new.domain ≡ domain.now }
    ensures waiting { IsLockUnderWay 6 task.new result }
{
    if has_locked(end_mutex_lock_until(task, LOCK, answer)) {
        mutex_unlock(rt, domain, task, LOCK);
    }
    Turn::Again(begin_mutex_lock(task, LOCK))
}

/// One turn of a task: it goes on with its lock, or comes out of its critical section where it `may`.
fn take_turn<R: Wait>(
    rt: &R,
    domain: &Domain,
    task: &mut Task,
    at: MutexTurn,
    may: bool,
) -> MutexTurn
    requires of { task.old.domain ≡ domain.now }
    requires waiting { IsLockUnderWay 6 task.old at }
    ensures of { task.new.domain ≡ domain.now }
    ensures waiting { IsLockUnderWay 6 task.new result }
{
    match at {
        Turn::Done(answer) => {
            if may {
                come_out(rt, domain, task, answer)
            } else {
                at
            }
        }
        _ => go_on(domain, task, at, false),
    }
}

/// What a turn from here to there does to the sections: one more is in its own, or one came out.
fn count_turn(sections: Sections, from: MutexTurn, to: MutexTurn) -> Sections {
    let (was, is) = (is_inside(from), is_inside(to));
    Sections {
        inside: if was == is { sections.inside } else { is },
        met: sections.met || (is && !was && sections.inside),
        adds: sections.adds,
    }
}

/// One more for a task that came out.
fn came_out(adds: u32, from: MutexTurn, to: MutexTurn) -> u32 {
    if is_inside(from) && !is_inside(to) {
        adds.wrapping_add(1)
    } else {
        adds
    }
}

/// One turn of an order: the first task goes on, or the second, as the number says, and where each stands then.
fn play_turn<R: Wait>(
    rt: &R,
    domain: &Domain,
    first: &mut Task,
    second: &mut Task,
    ats: (MutexTurn, MutexTurn),
    seed: u32,
) -> (MutexTurn, MutexTurn)
    requires of { (first.old.domain ≡ domain.now) × (second.old.domain ≡ domain.now) }
    requires one { IsLockUnderWay 6 first.old ats.0 }
    requires two { IsLockUnderWay 6 second.old ats.1 }
    ensures of { (first.new.domain ≡ domain.now) × (second.new.domain ≡ domain.now) }
    ensures one { IsLockUnderWay 6 first.new result.0 }
    ensures two { IsLockUnderWay 6 second.new result.1 }
{
    let may = seed % 7 < 3;
    if seed % 2 == 0 {
        let next = take_turn(rt, domain, first, ats.0, may && is_free(ats.1));
        return (next, ats.1);
    }
    let next = take_turn(rt, domain, second, ats.1, may && is_free(ats.0));
    (ats.0, next)
}

/// What a turn does to the sections and to how often each came out: one of the two stands where it stood.
fn count_both(
    sections: Sections,
    from: (MutexTurn, MutexTurn),
    to: (MutexTurn, MutexTurn),
) -> Sections {
    let first = count_turn(sections, from.0, to.0);
    let both = count_turn(first, from.1, to.1);
    Sections {
        adds: (
            came_out(sections.adds.0, from.0, to.0),
            came_out(sections.adds.1, from.1, to.1),
        ),
        ..both
    }
}

/// Plays one order of two tasks that take the mutex again and again.
fn play_two<R: Wait>(
    rt: &R,
    domain: &Domain,
    first: &mut Task,
    second: &mut Task,
    seed: u32,
) -> Sections
    requires rest { RestsIn domain.now first.old × RestsIn domain.now second.old }
{
    let one = Turn::Again(begin_mutex_lock(first, LOCK));
    let two = Turn::Again(begin_mutex_lock(second, LOCK));
    let mut ats = (one, two);
    let mut seed = seed;
    let mut sections = Sections {
        inside: false,
        met: false,
        adds: (0, 0),
    };
    for _ in 0..TURNS {
        seed = next_number(seed);
        let next = play_turn(rt, domain, first, second, ats, seed);
        sections = count_both(sections, ats, next);
        ats = next;
    }
    sections
}

/// In whatever order two tasks go on by stretches, at most one is in its critical section, and both come out of it
/// again and again.
#[test]
fn two_locks_take_turns(rt: HostRuntime) -> Result<(), Fail> {
    for order in 1..ORDERS {
        let (domain, mut task, mut other) = begin_two(rt.alloc())?;
        open(&rt, &domain, &mut task);
        let sections = play_two(&rt, &domain, &mut task, &mut other, order * 7919);
        let (one, two) = sections.adds;
        all_so(&[!sections.met, one > 3, two > 3])?;
    }
    Ok(())
}

/// Leaves a lock where it stands, by stretches to its end. One that sleeps was woken.
fn leave_at<R: Wait>(
    rt: &R,
    domain: &Domain,
    task: &mut Task,
    last: MutexTurn,
) -> Until<Result<(), Worn>>
    requires of { task.old.domain ≡ domain.now }
    requires waiting { IsLockUnderWay 6 task.old last }
{
    let mut at = last;
    for _ in rt.forever() {
        match at {
            Turn::Done(answer) => return end_mutex_lock_until(task, LOCK, answer),
            _ => at = go_on(domain, task, at, true),
        }
    }
    unreachable!()
}

/// Whether a lock was left that had found the mutex taken.
fn is_left(end: Until<Result<(), Worn>>) -> bool {
    matches!(end, Until::Left { seen: 0 })
}

/// A lock goes on by so many stretches, roused again and again by a waker, while the other task has the mutex; and then
/// that gives it back, or does not, and the lock is left. Whether it took the mutex only where that was given back, was left
/// otherwise, and the mutex is free exactly where it was given back and not taken; and nobody sleeps then.
fn leave_after<R: Wait>(
    rt: &R,
    domain: &Domain,
    task: &mut Task,
    other: &mut Task,
    waker: &mut Task,
    stretches: u32,
    gives: bool,
) -> bool
    requires rest { RestsIn domain.now task.old × RestsIn domain.now other.old }
    requires waker { RestsIn domain.now waker.old }
    requires holds { HoldsMutex other.old 6 }
{
    let who = task.number();
    let mut at = Turn::Again(begin_mutex_lock(task, LOCK));
    for _ in 0..stretches {
        at = go_on(domain, task, at, false);
        wake_task(rt, domain, waker, who, Mode::Normal);
    }
    let gave = gives && is_free(at);
    if gave {
        mutex_unlock(rt, domain, other, LOCK);
    }
    let end = leave_at(rt, domain, task, at);
    let took = has_locked(end);
    let nobody = futex_wake(rt, domain, other, LOCK, 8) == 0;
    let free = mutex_try(domain, other, LOCK);
    nobody && (took || is_left(end)) && (gave || !took) && free == (gave && !took)
}

/// At each moment of a lock: one that is left has not taken the mutex, and one that took it was not left.
#[test]
fn lock_is_left_at_each_moment(rt: HostRuntime) -> Result<(), Fail> {
    for stretches in 0..20 {
        for gives in [false, true] {
            let (domain, mut task, mut other) = begin_two(rt.alloc())?;
            open_and_take(&rt, &domain, &mut other);
            let mut waker = task.fork(&domain, 0)?;
            let so = leave_after(
                &rt, &domain, &mut task, &mut other, &mut waker, stretches, gives,
            );
            all_so(&[so])?;
        }
    }
    Ok(())
}
