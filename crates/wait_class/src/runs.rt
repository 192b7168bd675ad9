//! Calls that wait, by stretches, for who may not wait, and to their ends.

ghost use Rattle.std.specs.Prelude.{◌≡◌, ◌≤◌, MatchBool, true};
ghost use Rattle.wait_rule.specs.{PassedLocks.PassesNone, Says.IsUp};
ghost use Rattle.wq_head.specs.declared.locks.TheConstants.{LOOKS};
ghost use Rattle.wait_class.specs.declared.stages.Turn.TheVariants as turn;
ghost use Rattle.wait_class.specs.{Handing.LastGiven, UnderWay.Came, UnderWay.IsUnderWay, Wholes.HasRested};
ghost use Rattle.wait_class.specs.Tables.{Advances, IsAsleepAt, IsAt, IsStop, LooksAwake, Turned, falls};

use crate::events::advance;
use crate::machines::Machine;
use crate::stages::{Run, Turn};
use std::sync::Wait;
use wait_model::heads::head_of;
use wait_model::layout::RUNNING;
use wait_rule::queues::Passing;
use wait_rule::tasks::{awake, set_state};
use wait_rule::{Domain, Task, wait_up};
use wq_head::locks;

/// More turns than a stretch has: at most six events are left before its first turn, and fewer after each.
const STRETCH: u8 = 7;

/// Goes on with a wait from a stage up to the next one at which no head is held, for who may not wait: an executor, or
/// a caller from another language. Again: it has made an event, or a try to sleep failed and is counted, and it goes on
/// there at once, by the next call. Locked: its ticket is not served yet, as its last look showed (`run.served`), and it
/// goes on there when another number of the head is served. Asleep: it was put asleep, and goes on there once `woke` has
/// answered true. Done: the wait is over. It wakes no thread: `passing` has the lock that it gave back, or none, for
/// whoever made the stretch.
pub fn stretch<C: Machine>(
    domain: &Domain,
    task: &mut Task,
    run: &mut Run<C>,
    stage: C::Stage,
    passing: &mut Passing,
) -> Turn<C::Stage, C::Outcome>
    requires of { task.old.domain ≡ domain.now }
    requires passes { PassesNone passing.old }
    requires at { IsAt C.table task.old run.old stage }
    ensures of { task.new.domain ≡ domain.now }
    ensures turned { Turned C.table task.old task.new run.old run.new stage result }
    ensures stops { IsStop C.table result }
    ensures given { LastGiven task.old task.new passing.new.head }
    ensures under { (c : _) → IsUnderWay C.table c task.old run.old (turn.Again stage)
        → IsUnderWay C.table c task.new run.new result }
    ensures came { (start : _) → (f : _) → (s : _) → Advances C.table start task.old f run.old s (turn.Again stage)
        → Came C.table start task.new f run.new s result }
{
    C::lawful();
    let mut at = stage;
    for _turn in 0..STRETCH {
        match advance(domain, task, run, at, passing) {
            Turn::Again(next) => {
                if C::is_free(next) {
                    return Turn::Again(next);
                }
                at = next;
            }
            turn => return turn,
        }
    }
    unreachable!()
}

/// Looks whether a wait that was put asleep was woken: true where it may go on at `stage`.
pub fn woke<C: Machine>(domain: &Domain, task: &mut Task, run: &Run<C>, stage: C::Stage) -> bool
    requires of { task.old.domain ≡ domain.now }
    requires asleep { IsAsleepAt C.table task.old run.now stage }
    ensures of { task.new.domain ≡ domain.now }
    ensures looked { LooksAwake task.old task.new result }
    ensures advances { MatchBool result (Advances C.table task.old task.new run.now run.now stage (turn.Again stage))
        (Advances C.table task.old task.new run.now run.now stage (turn.Asleep stage)) }
    ensures under { (c : _) → IsUnderWay C.table c task.old run.now (turn.Asleep stage)
        → MatchBool result (IsUnderWay C.table c task.new run.now (turn.Again stage))
        (IsUnderWay C.table c task.new run.now (turn.Asleep stage)) }
    ensures came { (start : _) → (f : _) → (s : _) → Advances C.table start task.old f run.now s (turn.Asleep stage)
        → MatchBool result (Advances C.table start task.new f run.now s (turn.Again stage))
        (Advances C.table start task.new f run.now s (turn.Asleep stage)) }
{
    C::lawful();
    let _ = (*run, stage);
    awake(domain, task)
}

/// Waits until a wait that was put asleep was woken.
#[inline(always)]
pub fn rise<R: Wait, C: Machine>(
    rt: &R,
    domain: &Domain,
    task: &mut Task,
    run: &Run<C>,
    stage: C::Stage,
)
    requires of { task.old.domain ≡ domain.now }
    requires asleep { IsAsleepAt C.table task.old run.now stage }
    ensures of { task.new.domain ≡ domain.now }
    ensures rises { Advances C.table task.old task.new run.now run.now stage (turn.Again stage) }
{
    C::lawful();
    let _ = (*run, stage);
    task.told();
    wait_up(rt, domain, task);
    task.told();
}

/// Between two looks at a ticket that is not served yet: some times nothing, and then the thread parks.
#[inline(always)]
pub fn pause<R: Wait, C: Machine>(
    rt: &R,
    domain: &Domain,
    run: &Run<C>,
    stage: C::Stage,
    looks: u32,
) -> u32
    requires fits { C.table.Fits run.now.of }
    ensures { result ≤ LOOKS }
{
    C::lawful();
    locks::pause(rt, domain, head_of(run.of.watch(stage)), run.served, looks)
}

/// Makes the event of a wait at a stage as `advance` does, and wakes the threads that park for the lock that it gave
/// back.
#[inline(always)]
pub fn event<C: Machine>(
    domain: &Domain,
    task: &mut Task,
    run: &mut Run<C>,
    stage: C::Stage,
) -> Turn<C::Stage, C::Outcome>
    requires of { task.old.domain ≡ domain.now }
    requires at { IsAt C.table task.old run.old stage }
    ensures turned { Turned C.table task.old task.new run.old run.new stage result }
    ensures falls { falls C.table stage result ≡ true }
{
    C::lawful();
    let mut passing = Passing::none();
    let turn = advance(domain, task, run, stage, &mut passing);
    passing.wake(domain);
    passing.end();
    turn
}

/// Makes the event of a wait at a stage, and where a head is held then the one behind it.
#[inline(always)]
fn two_events<C: Machine>(
    domain: &Domain,
    task: &mut Task,
    run: &mut Run<C>,
    stage: C::Stage,
) -> Turn<C::Stage, C::Outcome>
    requires of { task.old.domain ≡ domain.now }
    requires at { IsAt C.table task.old run.old stage }
    ensures { Advances C.table task.old task.new run.old run.new stage result }
{
    C::lawful();
    match event(domain, task, run, stage) {
        Turn::Again(next) => {
            if C::is_free(next) {
                return Turn::Again(next);
            }
            event(domain, task, run, next)
        }
        turn => turn,
    }
}

/// Makes the event of a wait at a stage, and where a head is held then up to two behind it. Behind a lock the stages
/// that follow are few, and the compiler knows them here, where a loop would look anew what is done at each.
#[inline(always)]
fn three_events<C: Machine>(
    domain: &Domain,
    task: &mut Task,
    run: &mut Run<C>,
    stage: C::Stage,
) -> Turn<C::Stage, C::Outcome>
    requires of { task.old.domain ≡ domain.now }
    requires at { IsAt C.table task.old run.old stage }
    ensures { Advances C.table task.old task.new run.old run.new stage result }
{
    C::lawful();
    match event(domain, task, run, stage) {
        Turn::Again(next) => {
            if C::is_free(next) {
                return Turn::Again(next);
            }
            two_events(domain, task, run, next)
        }
        turn => turn,
    }
}

/// Goes on with a wait from a stage to its end: waits for locks, and sleeps.
#[inline(never)]
fn run_from<R: Wait, C: Machine>(
    rt: &R,
    domain: &Domain,
    task: &mut Task,
    run: &mut Run<C>,
    stage: C::Stage,
) -> C::Outcome
    requires of { task.old.domain ≡ domain.now }
    requires at { IsAt C.table task.old run.old stage }
    ensures { Advances C.table task.old task.new run.old run.new stage (turn.Done result) }
{
    C::lawful();
    let mut at = stage;
    let mut looks = 0;
    for _ in rt.forever() {
        match three_events(domain, task, run, at) {
            Turn::Again(next) => {
                looks = 0;
                at = next;
            }
            Turn::Asleep(next) => {
                rise(rt, domain, task, run, next);
                at = next;
            }
            Turn::Locked(next) => {
                looks = pause(rt, domain, run, next, looks);
                at = next;
            }
            Turn::Done(outcome) => return outcome,
        }
    }
    unreachable!()
}

/// Goes on with a wait from a stage to its end: waits for locks, and sleeps. Its first event is made apart, so that a
/// wait that is over with it takes no more than that event.
#[inline(always)]
pub fn run<R: Wait, C: Machine>(
    rt: &R,
    domain: &Domain,
    task: &mut Task,
    run: &mut Run<C>,
    stage: C::Stage,
) -> C::Outcome
    requires of { task.old.domain ≡ domain.now }
    requires at { IsAt C.table task.old run.old stage }
    ensures { Advances C.table task.old task.new run.old run.new stage (turn.Done result) }
{
    C::lawful();
    match event(domain, task, run, stage) {
        Turn::Again(next) => run_from(rt, domain, task, run, next),
        Turn::Locked(next) => run_from(rt, domain, task, run, next),
        Turn::Asleep(next) => {
            rise(rt, domain, task, run, next);
            run_from(rt, domain, task, run, next)
        }
        Turn::Done(outcome) => outcome,
    }
}

/// Stores RUNNING where no place was left, since the task may still be in the state in which it would have slept.
#[inline(always)]
pub fn rest(domain: &Domain, task: &mut Task, worn: bool)
    requires of { task.old.domain ≡ domain.now }
    requires up { worn ≡ true → IsUp task.old }
    ensures { HasRested task.old task.new worn }
{
    if worn {
        set_state(domain, task, RUNNING);
    }
}
