//! A wait is left: from one stage, by stretches, and to its end.

ghost use Rattle.std.specs.Prelude.{◌≡◌, ◌⊎◌, Some, true};
ghost use Rattle.wait_model.specs.declared.layout.TheConstants.{HEADS};
ghost use Rattle.wait_rule.specs.PassedLocks.{PassesNone};
ghost use Rattle.wait_class.specs.Handing.{LastGiven};
ghost use Rattle.wait_class.specs.Tables.{IsAt, IsStop, Lands, SleepsNot, falls};
ghost use Rattle.wait_class.specs.declared.stages.Turn.TheVariants as turn;
ghost use Rattle.wait_leave.specs.Leaves.{Leaves, StaysUp};
ghost use Rattle.wait_leave.specs.OnTheWay.{IsAsked, IsOnWay, OnTheWay};

use crate::exits::Exit;
use crate::leavable::Leavable;
use std::sync::Wait;
use wait_class::events::advance;
use wait_class::runs::{event, pause, rise};
use wait_class::stages::{Run, Turn};
use wait_model::layout::RUNNING;
use wait_rule::queues::Passing;
use wait_rule::tasks::set_state;
use wait_rule::{Domain, Task};

/// More turns than a stretch has: at most six events are left before its first turn, and fewer after each.
const STRETCH: u8 = 7;

/// Goes out of a stage by its exit: it makes no event, but stores RUNNING where the exit wants that.
#[inline(always)]
fn go_out<C: Leavable>(
    domain: &Domain,
    task: &mut Task,
    call: &mut Run<C>,
    stage: C::Stage,
    exit: Exit<C::Stage, C::Outcome>,
)
    requires of { task.old.domain ≡ domain.now }
    requires at { IsAt C.table task.old call.old stage }
    requires exits { C.exits.exit call.old.of stage ≡ Some exit }
    ensures leaves { Leaves C.table C.exits task.old task.new call.old call.new stage exit.to }
    ensures given { LastGiven task.old task.new HEADS }
    ensures falls { falls C.table stage exit.to ≡ true }
    ensures awake { SleepsNot task.old task.new }
{
    C::lawful();
    C::may_leave();
    call.of = call.of.asked();
    if exit.rests {
        set_state(domain, task, RUNNING);
    }
}

/// Asks a wait at a stage to leave, between two stretches. With an answer it goes on there, by the next stretch, or it is
/// over. Without one it goes on as it was, since its ticket is drawn or it goes to its end anyhow; it is asked again
/// behind the next stretch. It makes no event, never sleeps, and takes no time.
pub fn ask<C: Leavable>(
    domain: &Domain,
    task: &mut Task,
    call: &mut Run<C>,
    stage: C::Stage,
) -> Option<Turn<C::Stage, C::Outcome>>
    requires of { task.old.domain ≡ domain.now }
    requires at { IsAt C.table task.old call.old stage }
    ensures asked { IsAsked C.table C.exits task.old task.new call.old call.new stage result }
    ensures awake { SleepsNot task.old task.new }
{
    match call.of.exit(stage) {
        Some(exit) => {
            go_out(domain, task, call, stage, exit);
            Some(exit.to)
        }
        None => None,
    }
}

/// Makes a turn of a wait that is asked to leave: it goes out of a stage that has an exit, and makes its event at
/// another, which is no sleep.
#[inline(always)]
fn turn_out<C: Leavable>(
    domain: &Domain,
    task: &mut Task,
    call: &mut Run<C>,
    stage: C::Stage,
    passing: &mut Passing,
) -> Turn<C::Stage, C::Outcome>
    requires of { task.old.domain ≡ domain.now }
    requires passes { PassesNone passing.old }
    requires at { IsAt C.table task.old call.old stage }
    ensures of { task.new.domain ≡ domain.now }
    ensures lands { Lands C.table task.new call.new result }
    ensures way { OnTheWay (Unit {0}) C.table C.exits task.old call.old stage task.new call.new result }
    ensures passes { PassesNone passing.new ⊎ IsStop C.table result }
    ensures falls { falls C.table stage result ≡ true }
    ensures given { LastGiven task.old task.new passing.new.head }
    ensures up { StaysUp result }
    ensures awake { SleepsNot task.old task.new }
{
    C::lawful();
    C::may_leave();
    let found = call.of.exit(stage);
    match found {
        Some(exit) => {
            go_out(domain, task, call, stage, exit);
            exit.to
        }
        None => advance(domain, task, call, stage, passing),
    }
}

/// Goes on by one stretch with a wait that is asked to leave, as `stretch` does with another: out of each stage that has
/// an exit, also in a hold. It never sleeps.
pub fn stretch_out<C: Leavable>(
    domain: &Domain,
    task: &mut Task,
    call: &mut Run<C>,
    stage: C::Stage,
    passing: &mut Passing,
) -> Turn<C::Stage, C::Outcome>
    requires of { task.old.domain ≡ domain.now }
    requires passes { PassesNone passing.old }
    requires at { IsAt C.table task.old call.old stage }
    ensures of { task.new.domain ≡ domain.now }
    ensures lands { Lands C.table task.new call.new result }
    ensures stops { IsStop C.table result }
    ensures given { LastGiven task.old task.new passing.new.head }
    ensures awake { SleepsNot task.old task.new }
    ensures way { OnTheWay (Unit {0}) C.table C.exits task.old call.old stage task.new call.new result }
    ensures under { (c : _) → IsOnWay (Unit {0}) C.table C.exits c task.old call.old (turn.Again stage)
        → IsOnWay (Unit {0}) C.table C.exits c task.new call.new result }
{
    C::lawful();
    C::may_leave();
    let mut at = stage;
    for _turn in 0..STRETCH {
        match turn_out(domain, task, call, at, passing) {
            Turn::Again(next) => {
                if C::is_free(next) {
                    return Turn::Again(next);
                }
                at = next;
            }
            turn => return turn,
        }
    }
    unreachable!()
}

/// Makes a turn of a wait that is asked to leave, and wakes the threads that park for the lock that it gave back.
#[inline(always)]
fn event_out<C: Leavable>(
    domain: &Domain,
    task: &mut Task,
    call: &mut Run<C>,
    stage: C::Stage,
) -> Turn<C::Stage, C::Outcome>
    requires of { task.old.domain ≡ domain.now }
    requires at { IsAt C.table task.old call.old stage }
    ensures of { task.new.domain ≡ domain.now }
    ensures lands { Lands C.table task.new call.new result }
    ensures way { OnTheWay (Unit {0}) C.table C.exits task.old call.old stage task.new call.new result }
    ensures up { StaysUp result }
    ensures awake { SleepsNot task.old task.new }
{
    let mut passing = Passing::none();
    let turn = turn_out(domain, task, call, stage, &mut passing);
    passing.wake(domain);
    passing.end();
    turn
}

/// Leaves a wait, from a stage at which its task is awake: goes on to the first stage that has an exit, and out of it, to
/// the end of the wait. It waits for locks alone, and never sleeps.
pub fn leave<R: Wait, C: Leavable>(
    rt: &R,
    domain: &Domain,
    task: &mut Task,
    call: &mut Run<C>,
    stage: C::Stage,
) -> C::Outcome
    requires of { task.old.domain ≡ domain.now }
    requires at { IsAt C.table task.old call.old stage }
    ensures way { OnTheWay (Unit {0}) C.table C.exits task.old call.old stage task.new call.new (turn.Done result) }
    ensures awake { SleepsNot task.old task.new }
{
    C::lawful();
    C::may_leave();
    let mut at = stage;
    let mut looks = 0;
    for _ in rt.forever() {
        match event_out(domain, task, call, at) {
            Turn::Again(next) => {
                looks = 0;
                at = next;
            }
            Turn::Asleep(_) => unreachable!(),
            Turn::Locked(next) => {
                looks = pause(rt, domain, call, next, looks);
                at = next;
            }
            Turn::Done(outcome) => return outcome,
        }
    }
    unreachable!()
}

/// Goes on with a wait from a stage to its end, and asks before each event whether it is to leave, so also before it
/// goes asleep and once it was woken: from the first `true` on it leaves.
pub fn run_asked<R: Wait, C: Leavable, Q: Fn() -> bool>(
    rt: &R,
    domain: &Domain,
    task: &mut Task,
    call: &mut Run<C>,
    stage: C::Stage,
    asks: Q,
) -> C::Outcome
    requires of { task.old.domain ≡ domain.now }
    requires at { IsAt C.table task.old call.old stage }
    requires asks { Q.IsAlwaysCallable asks }
    ensures { OnTheWay (Q.post asks true) C.table C.exits task.old call.old stage task.new call.new (turn.Done result) }
{
    C::lawful();
    C::may_leave();
    let mut at = stage;
    let mut looks = 0;
    for _ in rt.forever() {
        let asked = asks();
        if asked {
            return leave(rt, domain, task, call, at);
        }
        match event(domain, task, call, at) {
            Turn::Again(next) => {
                looks = 0;
                at = next;
            }
            Turn::Asleep(next) => {
                rise(rt, domain, task, call, next);
                at = next;
            }
            Turn::Locked(next) => {
                looks = pause(rt, domain, call, next, looks);
                at = next;
            }
            Turn::Done(outcome) => return outcome,
        }
    }
    unreachable!()
}
