//! Waits for a condition variable that take turns on one thread, by stretches: beside a signal at each moment, in a
//! monitor of two in an order that a number draws, and left at each moment.

ghost use Rattle.std.specs.Prelude.{◌≡◌};
ghost use Rattle.wait_rule.specs.Queues.{IsIdle};
ghost use Rattle.wait_rule.specs.Says.{IsClean, IsUp, RestsIn};
ghost use Rattle.wait_class.specs.declared.stages.Turn.TheVariants as turn;
ghost use Rattle.futex_table.specs.{CondStretches.IsCondUnderWay, Holding.HoldsMutex};
ghost use Rattle.futex_tests.specs.CondTasks.{IsInMonitor, IsTestedCond, tested_cond};

use crate::calls::{open, signal, try_lock, unlock};
use crate::left_locks::has_mutex;
use crate::monitors::{Whose, add_if_own};
use crate::turns::{is_free_lock, is_free_wait, open_and_take};
use futex_table::cond_stretches::{
    CondStage, CondStop, CondTurn, CondWait, begin_cond_wait, end_cond_wait, end_cond_wait_until,
    stretch_cond_wait, stretch_cond_wait_out, woke_cond_wait,
};
use futex_table::cond_vars::{CondEnd, cond_broadcast};
use futex_table::mutexes::mutex_try;
use futex_table::waits::FutexStage;
use std::sync::Wait;
use std::sync::atomic::{AtomicU64, Ordering};
use std::test::Fail;
use test_tasks::draws::next_number;
use test_tasks::ends::end_both;
use test_tasks::wants::{all_so, begin_two};
use wait_class::stages::Turn;
use wait_leave::Until;
use wait_model::layout::FIRST_PLAIN_HEAD;
use wait_model::tasks::SleepState;
use wait_model::watches::Mode;
use wait_rule::queues::Passing;
use wait_rule::{Domain, Task, wake_task};
use wq_head::Rousing;
use wq_head::looks::active;
use wq_head::wakes::WakeStage;

/// The mutex and the condition variable of `calls`, and the head of that.
const LOCK: u8 = 6;

const COND: u8 = 7;

const HEAD: u16 = FIRST_PLAIN_HEAD + 7;

/// The wait of the tests.
const WAIT: CondWait = CondWait {
    cond: COND,
    lock: LOCK,
    state: SleepState::Uninterruptible,
};

/// More stretches than a wait has before its task is asleep, and than a round of one that is roused again and again.
const MOMENTS: u32 = 32;

/// More turns than a wait has left that was signalled or is asked to leave. No test goes on until the end, since a wait
/// whose signal was lost would sleep for ever.
const REST: u32 = 100;

/// How many orders of the monitor are played, and how many turns each has: more than it takes until the number is the
/// last.
const ORDERS: u32 = 100;

const TURNS: u32 = 1200;

const LAST: u64 = 12;

/// A wait that is about to begin.
fn begin(task: &Task) -> CondTurn
    requires clean { IsClean task.now }
    requires holds { HoldsMutex task.now 6 }
    ensures waiting { IsTestedCond task.now result }
{
    Turn::Again(begin_cond_wait(task, WAIT))
}

/// Looks whether a wait that was put asleep was woken.
fn look(domain: &Domain, task: &mut Task, stage: CondStage) -> CondTurn
    requires of { task.old.domain ≡ domain.now }
    requires asleep { IsCondUnderWay tested_cond task.old (turn.Asleep stage) }
    ensures of { task.new.domain ≡ domain.now }
    ensures stands { IsCondUnderWay tested_cond task.new result }
    ensures waiting { IsTestedCond task.old (turn.Asleep stage) → IsTestedCond task.new result }
{
    if woke_cond_wait(domain, task, WAIT, stage) {
        return Turn::Again(stage);
    }
    Turn::Asleep(stage)
}

/// One stretch of a wait. Whom it woke is roused, and who parks for a lock that it passed on.
fn stretch(domain: &Domain, task: &mut Task, stage: CondStage) -> CondTurn
    requires of { task.old.domain ≡ domain.now }
    requires waiting { IsTestedCond task.old (turn.Again stage) }
    ensures of { task.new.domain ≡ domain.now }
    ensures waiting { IsTestedCond task.new result }
{
    let (mut rousing, mut passing) = (Rousing::new(), Passing::none());
    let next = stretch_cond_wait(domain, task, WAIT, stage, &mut rousing, &mut passing);
    end_both(domain, rousing, passing);
    next
}

/// The same of one that is asked to leave.
fn stretch_out(domain: &Domain, task: &mut Task, stage: CondStage) -> CondTurn
    requires of { task.old.domain ≡ domain.now }
    requires waiting { IsCondUnderWay tested_cond task.old (turn.Again stage) }
    ensures of { task.new.domain ≡ domain.now }
    ensures waiting { IsCondUnderWay tested_cond task.new result }
{
    let (mut rousing, mut passing) = (Rousing::new(), Passing::none());
    let next = stretch_cond_wait_out(domain, task, WAIT, stage, &mut rousing, &mut passing);
    end_both(domain, rousing, passing);
    next
}

/// Goes on with a wait by one stretch, or looks whether it was woken.
fn go_on(domain: &Domain, task: &mut Task, last: CondTurn) -> CondTurn
    requires of { task.old.domain ≡ domain.now }
    requires waiting { IsTestedCond task.old last }
    ensures of { task.new.domain ≡ domain.now }
    ensures waiting { IsTestedCond task.new result }
{
    match last {
        Turn::Again(stage) | Turn::Locked(stage) => stretch(domain, task, stage),
        Turn::Asleep(stage) => look(domain, task, stage),
        Turn::Done(_) => last,
    }
}

/// The same with one that is asked to leave.
fn go_out(domain: &Domain, task: &mut Task, last: CondTurn) -> CondTurn
    requires of { task.old.domain ≡ domain.now }
    requires waiting { IsCondUnderWay tested_cond task.old last }
    ensures of { task.new.domain ≡ domain.now }
    ensures waiting { IsCondUnderWay tested_cond task.new result }
{
    match last {
        Turn::Again(stage) | Turn::Locked(stage) => stretch_out(domain, task, stage),
        Turn::Asleep(stage) => look(domain, task, stage),
        Turn::Done(_) => last,
    }
}

/// Whether a wait has drawn no ticket there, so that another task of the thread can wait for the lock of a head.
fn is_free(at: CondTurn) -> bool {
    match at {
        Turn::Again(stage) | Turn::Locked(stage) => is_free_at(stage),
        _ => true,
    }
}

fn is_free_at(stage: CondStage) -> bool {
    match stage {
        CondStage::First => true,
        CondStage::Give(_, _, at) => !matches!(at, WakeStage::FirstTurn | WakeStage::NextTurn),
        CondStage::Wait(_, at) => is_free_wait(at),
        CondStage::Lock(_, at) => is_free_lock(at),
    }
}

/// Signals with the mutex, where nobody has it, and gives it back: how many it woke. None: it did not signal.
fn signal_alone<R: Wait>(rt: &R, domain: &Domain, task: &mut Task) -> Option<u32>
    requires rests { RestsIn domain.now task.old }
    ensures rests { RestsIn domain.now task.new }
{
    if !try_lock(domain, task) {
        return None;
    }
    let woken = signal(rt, domain, task);
    unlock(rt, domain, task);
    Some(woken)
}

/// Signals where it has not done so and can, at this moment of the wait: what came of it, then or before.
fn signal_at<R: Wait>(
    rt: &R,
    domain: &Domain,
    task: &mut Task,
    moment: CondTurn,
    told: Option<u32>,
) -> Option<u32>
    requires rests { RestsIn domain.now task.old }
    ensures rests { RestsIn domain.now task.new }
{
    if told.is_some() || !is_free(moment) {
        return told;
    }
    signal_alone(rt, domain, task)
}

/// Wakes the task of this number, as a walk would, where it is to.
fn rouse_if<R: Wait>(rt: &R, domain: &Domain, task: &mut Task, who: u8, is_to: bool)
    requires rests { RestsIn domain.now task.old }
    ensures rests { RestsIn domain.now task.new }
{
    if !is_to {
        return;
    }
    wake_task(rt, domain, task, who, Mode::Normal);
}

/// Begins a wait, and goes on with it by so many stretches; the other task rouses it behind each, or does not.
fn reach<R: Wait>(
    rt: &R,
    domain: &Domain,
    task: &mut Task,
    other: &mut Task,
    stretches: u32,
    rouses: bool,
) -> CondTurn
    requires rests { RestsIn domain.now task.old }
    requires holds { HoldsMutex task.old 6 }
    requires other { RestsIn domain.now other.old }
    ensures of { task.new.domain ≡ domain.now }
    ensures waiting { IsTestedCond task.new result }
    ensures other { RestsIn domain.now other.new }
{
    let who = task.number();
    let mut at = begin(task);
    for _ in 0..stretches {
        at = go_on(domain, task, at);
        rouse_if(rt, domain, other, who, rouses);
    }
    at
}

/// Goes on with a wait to its end, while the other task signals as soon as it can.
fn end_by_signal<R: Wait>(
    rt: &R,
    domain: &Domain,
    task: &mut Task,
    other: &mut Task,
    last: CondTurn,
) -> CondTurn
    requires of { task.old.domain ≡ domain.now }
    requires waiting { IsTestedCond task.old last }
    requires other { RestsIn domain.now other.old }
    ensures of { task.new.domain ≡ domain.now }
    ensures waiting { IsTestedCond task.new result }
    ensures other { RestsIn domain.now other.new }
{
    let mut at = last;
    let mut told = None;
    for _ in 0..REST {
        told = signal_at(rt, domain, other, at, told);
        at = go_on(domain, task, at);
    }
    at
}

/// Whether a task has the mutex, which another one cannot take, and no entry is queued for the condition variable: a
/// broadcast would pass over that of a task that is awake.
fn has_it_alone<R: Wait>(rt: &R, domain: &Domain, task: &mut Task, other: &mut Task) -> bool
    requires of { task.old.domain ≡ domain.now }
    requires up { IsUp task.old }
    requires idle { IsIdle task.old }
    requires holds { HoldsMutex task.old 6 }
    requires other { RestsIn domain.now other.old }
{
    let free = mutex_try(domain, other, LOCK);
    let woken = cond_broadcast(rt, domain, task, COND, LOCK);
    let queued = active(domain, task, HEAD);
    !free && woken == 0 && !queued
}

/// Whether a wait that nobody asked to leave was ended by a signal, with the mutex.
fn is_well_over<R: Wait>(
    rt: &R,
    domain: &Domain,
    task: &mut Task,
    other: &mut Task,
    at: CondTurn,
) -> bool
    requires of { task.old.domain ≡ domain.now }
    requires waiting { IsTestedCond task.old at }
    requires other { RestsIn domain.now other.old }
{
    match at {
        Turn::Done(CondStop::Over(answer)) => match end_cond_wait(task, WAIT, answer) {
            Ok(()) => has_it_alone(rt, domain, task, other),
            Err(_end) => false,
        },
        _ => false,
    }
}

/// Whether a wait is over there.
fn is_over(at: CondTurn) -> bool {
    matches!(at, Turn::Done(_))
}

/// A signal at any moment at which the mutex is free, thus behind the load of the condition's word, ends the wait, and
/// nothing else does. Until a wait has given the mutex back none can come.
#[test]
fn signal_at_each_moment(rt: HostRuntime) -> Result<(), Fail> {
    for stretches in 0..MOMENTS {
        for rouses in [false, true] {
            let (domain, mut task, mut other) = begin_two(rt.alloc())?;
            open_and_take(&rt, &domain, &mut task);
            let at = reach(&rt, &domain, &mut task, &mut other, stretches, rouses);
            let early = is_over(at);
            let end = end_by_signal(&rt, &domain, &mut task, &mut other, at);
            let well = is_well_over(&rt, &domain, &mut task, &mut other, end);
            all_so(&[!early, well])?;
        }
    }
    Ok(())
}

/// With the mutex: on the own turn adds, signals and gives the mutex back, and on that of the other one begins to wait.
/// None: it is outside.
fn act<R: Wait>(
    rt: &R,
    domain: &Domain,
    task: &mut Task,
    number: &AtomicU64,
    own: u64,
) -> Option<CondTurn>
    requires rests { RestsIn domain.now task.old }
    requires holds { HoldsMutex task.old 6 }
    ensures of { task.new.domain ≡ domain.now }
    ensures stands { IsInMonitor task.new result }
{
    match add_if_own(number, own, LAST) {
        Whose::Own => {
            signal(rt, domain, task);
            unlock(rt, domain, task);
            None
        }
        Whose::Other => Some(begin(task)),
        Whose::Nobody => {
            unlock(rt, domain, task);
            None
        }
    }
}

/// Takes the mutex where nobody has it, and acts.
fn come_in<R: Wait>(
    rt: &R,
    domain: &Domain,
    task: &mut Task,
    number: &AtomicU64,
    own: u64,
) -> Option<CondTurn>
    requires rests { RestsIn domain.now task.old }
    ensures of { task.new.domain ≡ domain.now }
    ensures stands { IsInMonitor task.new result }
{
    if try_lock(domain, task) {
        return act(rt, domain, task, number, own);
    }
    None
}

/// Acts behind a wait, which has the mutex. One that ended otherwise stays where it is, and the number too.
fn come_back<R: Wait>(
    rt: &R,
    domain: &Domain,
    task: &mut Task,
    at: CondTurn,
    number: &AtomicU64,
    own: u64,
) -> Option<CondTurn>
    requires of { task.old.domain ≡ domain.now }
    requires waiting { IsTestedCond task.old at }
    ensures of { task.new.domain ≡ domain.now }
    ensures stands { IsInMonitor task.new result }
{
    match at {
        Turn::Done(CondStop::Over(answer)) => match end_cond_wait(task, WAIT, answer) {
            Ok(()) => act(rt, domain, task, number, own),
            Err(_end) => Some(at),
        },
        _ => Some(at),
    }
}

/// One turn of a task: a stretch of its wait; or it acts, where it is not in one and the other task has no ticket out.
fn take_turn<R: Wait>(
    rt: &R,
    domain: &Domain,
    task: &mut Task,
    at: Option<CondTurn>,
    number: &AtomicU64,
    own: u64,
) -> Option<CondTurn>
    requires of { task.old.domain ≡ domain.now }
    requires stands { IsInMonitor task.old at }
    ensures of { task.new.domain ≡ domain.now }
    ensures stands { IsInMonitor task.new result }
{
    match at {
        None => come_in(rt, domain, task, number, own),
        Some(last) => {
            if is_over(last) {
                come_back(rt, domain, task, last, number, own)
            } else {
                Some(go_on(domain, task, last))
            }
        }
    }
}

/// Whether a task goes on by stretches there, for which it waits for nobody.
fn is_stretching(at: Option<CondTurn>) -> bool {
    match at {
        None => false,
        Some(last) => !is_over(last),
    }
}

/// Whether a task has the mutex there: before the store that gives it back, or behind its wait.
fn is_inside(at: Option<CondTurn>) -> bool {
    matches!(
        at,
        Some(Turn::Again(CondStage::First)) | Some(Turn::Done(CondStop::Over(_)))
    )
}

/// Whether a task may have its turn, since it goes on by a stretch, or the other one has no ticket out.
fn may_go(at: Option<CondTurn>, other: Option<CondTurn>) -> bool {
    if is_stretching(at) {
        return true;
    }
    match other {
        None => true,
        Some(last) => is_free(last),
    }
}

/// One turn of an order: the first task goes on, or the second, as the number says, and where each stands then.
fn play_turn<R: Wait>(
    rt: &R,
    domain: &Domain,
    first: &mut Task,
    second: &mut Task,
    ats: (Option<CondTurn>, Option<CondTurn>),
    number: &AtomicU64,
    is_first: bool,
) -> (Option<CondTurn>, Option<CondTurn>)
    requires of { (first.old.domain ≡ domain.now) × (second.old.domain ≡ domain.now) }
    requires one { IsInMonitor first.old ats.0 }
    requires two { IsInMonitor second.old ats.1 }
    ensures of { (first.new.domain ≡ domain.now) × (second.new.domain ≡ domain.now) }
    ensures one { IsInMonitor first.new result.0 }
    ensures two { IsInMonitor second.new result.1 }
{
    if is_first {
        if may_go(ats.0, ats.1) {
            return (take_turn(rt, domain, first, ats.0, number, 0), ats.1);
        }
        return ats;
    }
    if may_go(ats.1, ats.0) {
        return (ats.0, take_turn(rt, domain, second, ats.1, number, 1));
    }
    ats
}

/// Plays one order of two tasks that hand the number to and fro: whether both were inside at once, and whether both are
/// outside in the end.
fn play_two<R: Wait>(
    rt: &R,
    domain: &Domain,
    first: &mut Task,
    second: &mut Task,
    number: &AtomicU64,
    seed: u32,
) -> (bool, bool)
    requires rest { RestsIn domain.now first.old × RestsIn domain.now second.old }
{
    let mut ats = (None, None);
    let mut seed = seed;
    let mut met = false;
    for _ in 0..TURNS {
        seed = next_number(seed);
        ats = play_turn(rt, domain, first, second, ats, number, seed % 2 == 0);
        met = met || (is_inside(ats.0) && is_inside(ats.1));
    }
    (met, ats.0.is_none() && ats.1.is_none())
}

/// In whatever order two tasks go on by stretches, each adds on its turn alone, at most one is inside, and both come
/// out once the number is the last.
#[test]
fn two_waits_take_turns(rt: HostRuntime) -> Result<(), Fail> {
    for order in 0..ORDERS {
        let (domain, mut task, mut other) = begin_two(rt.alloc())?;
        open(&rt, &domain, &mut task);
        let number = AtomicU64::new(0);
        let (met, out) = play_two(
            &rt,
            &domain,
            &mut task,
            &mut other,
            &number,
            (order + 1) * 7919,
        );
        let last = number.load(Ordering::SeqCst) == LAST;
        all_so(&[!met, last, out])?;
    }
    Ok(())
}

/// Leaves a wait where it stands, by stretches to its end; the other task rouses it before.
fn leave_at<R: Wait>(
    rt: &R,
    domain: &Domain,
    task: &mut Task,
    other: &mut Task,
    last: CondTurn,
) -> CondTurn
    requires of { task.old.domain ≡ domain.now }
    requires waiting { IsCondUnderWay tested_cond task.old last }
    requires other { RestsIn domain.now other.old }
    ensures of { task.new.domain ≡ domain.now }
    ensures waiting { IsCondUnderWay tested_cond task.new result }
    ensures other { RestsIn domain.now other.new }
{
    let who = task.number();
    wake_task(rt, domain, other, who, Mode::Normal);
    let mut at = last;
    for _ in 0..REST {
        at = go_out(domain, task, at);
    }
    at
}

/// Whether a wait has no entry queued there, and looks at the condition's word before it queues one.
fn is_to_look(at: CondTurn) -> bool {
    matches!(
        at,
        Turn::Again(CondStage::Give(_, _, _)) | Turn::Again(CondStage::Wait(_, FutexStage::First))
    )
}

/// Whether a wait that is asked to leave there is over all the same, for what came of a signal: it was woken, or it is
/// to find the condition changed. One that is awake with an entry queued was not selected, and is left.
fn is_to_end(at: CondTurn, told: Option<u32>) -> bool {
    match told {
        None => false,
        Some(woken) => woken == 1 || is_to_look(at),
    }
}

/// Whether a wait ended as is due: by a signal, or left.
fn is_due(end: Until<Result<(), CondEnd>>, over: bool) -> bool {
    if over {
        return matches!(end, Until::Over(Ok(())));
    }
    matches!(end, Until::Left { seen: 0 })
}

/// The same of a wait that is over, and that it has the mutex.
fn is_well_left<R: Wait>(
    rt: &R,
    domain: &Domain,
    task: &mut Task,
    other: &mut Task,
    at: CondTurn,
    over: bool,
) -> bool
    requires of { task.old.domain ≡ domain.now }
    requires waiting { IsCondUnderWay tested_cond task.old at }
    requires other { RestsIn domain.now other.old }
{
    match at {
        Turn::Done(CondStop::Over(answer)) => {
            let end = end_cond_wait_until(task, WAIT, answer);
            has_mutex(end) && is_due(end, over) && has_it_alone(rt, domain, task, other)
        }
        _ => false,
    }
}

/// A wait goes on by so many stretches, and is left there, behind a signal or without one: whether it ends as is due.
fn leave_after<R: Wait>(
    rt: &R,
    domain: &Domain,
    task: &mut Task,
    other: &mut Task,
    stretches: u32,
    rouses: bool,
    signals: bool,
) -> bool
    requires rests { RestsIn domain.now task.old }
    requires holds { HoldsMutex task.old 6 }
    requires other { RestsIn domain.now other.old }
{
    let at = reach(rt, domain, task, other, stretches, rouses);
    let told = if signals {
        signal_at(rt, domain, other, at, None)
    } else {
        None
    };
    let end = leave_at(rt, domain, task, other, at);
    is_well_left(rt, domain, task, other, end, is_to_end(at, told))
}

/// A wait that is asked to leave at any moment, behind a signal or not, ends with the mutex, and no entry of it stays.
/// It is left where no signal came, and over where one woke it or came before it looked at the condition.
#[test]
fn wait_is_left_at_each_moment(rt: HostRuntime) -> Result<(), Fail> {
    for stretches in 0..MOMENTS {
        for (rouses, signals) in [(false, false), (false, true), (true, false), (true, true)] {
            let (domain, mut task, mut other) = begin_two(rt.alloc())?;
            open_and_take(&rt, &domain, &mut task);
            let well = leave_after(
                &rt, &domain, &mut task, &mut other, stretches, rouses, signals,
            );
            all_so(&[well])?;
        }
    }
    Ok(())
}
