//! One stretch of each kind of wait: it goes on, or looks whether the task that was put asleep was woken.

ghost use Rattle.std.specs.Prelude.{◌≡◌, true};
ghost use Rattle.wait_class.specs.Tables.{IsAt, Lands};
ghost use Rattle.wait_leave.specs.OnTheWay.{OnTheWay};
ghost use Rattle.wait_rule.specs.PassedLocks.{PassesNone};
ghost use Rattle.wq_checked.specs.Outs.{OnFrom, WentOutBehind, WentOutOf};
ghost use Rattle.wq_checked.specs.Stages.{StandsBy, StretchesOn};

use wait_class::runs;
use wait_class::stages::{Run, Turn};
use wait_leave::{Leavable, ask, stretch_out};
use wait_rule::queues::Passing;
use wait_rule::{Domain, Task};

/// Goes on by one stretch from where an exit led, and is asked to leave at each further stage that has an exit.
fn on_from<C: Leavable>(
    domain: &Domain,
    task: &mut Task,
    run: &mut Run<C>,
    to: Turn<C::Stage, C::Outcome>,
    passing: &mut Passing,
) -> Turn<C::Stage, C::Outcome>
    requires of { task.old.domain ≡ domain.now }
    requires passes { PassesNone passing.old }
    requires lands { Lands C.table task.old run.old to }
    ensures of { task.new.domain ≡ domain.now }
    ensures on { OnFrom C.table C.exits task.old task.new run.old run.new to result }
{
    match to {
        Turn::Again(stage) => stretch_out(domain, task, run, stage, passing),
        Turn::Asleep(_) => to,
        Turn::Locked(_) => to,
        Turn::Done(_) => to,
    }
}

/// Goes on by one stretch, which is asked to leave where it stands and at each further stage that has an exit.
fn stretch_asked<C: Leavable>(
    domain: &Domain,
    task: &mut Task,
    run: &mut Run<C>,
    stage: C::Stage,
    passing: &mut Passing,
) -> Turn<C::Stage, C::Outcome>
    requires of { task.old.domain ≡ domain.now }
    requires passes { PassesNone passing.old }
    requires at { IsAt C.table task.old run.old stage }
    ensures of { task.new.domain ≡ domain.now }
    ensures goes { OnTheWay (Unit {0}) C.table C.exits task.old run.old stage task.new run.new result }
    ensures asks { WentOutOf C.table C.exits task.old task.new run.old run.new stage result }
{
    C::lawful();
    C::may_leave();
    match ask(domain, task, run, stage) {
        Some(to) => on_from(domain, task, run, to, passing),
        None => stretch_out(domain, task, run, stage, passing),
    }
}

/// Goes on by one stretch, which is asked to leave or is not.
fn stretch_on<C: Leavable>(
    domain: &Domain,
    task: &mut Task,
    run: &mut Run<C>,
    stage: C::Stage,
    asks: bool,
    passing: &mut Passing,
) -> Turn<C::Stage, C::Outcome>
    requires of { task.old.domain ≡ domain.now }
    requires passes { PassesNone passing.old }
    requires at { IsAt C.table task.old run.old stage }
    ensures of { task.new.domain ≡ domain.now }
    ensures goes { OnTheWay (asks ≡ true) C.table C.exits task.old run.old stage task.new run.new result }
    ensures asks { asks ≡ true → WentOutOf C.table C.exits task.old task.new run.old run.new stage result }
{
    if asks {
        stretch_asked(domain, task, run, stage, passing)
    } else {
        runs::stretch(domain, task, run, stage, passing)
    }
}

/// A wait. One that was put asleep is not asked: it makes no event until its task was woken.
pub(crate) fn ground_turn<C: Leavable>(
    domain: &Domain,
    task: &mut Task,
    run: &mut Run<C>,
    last: Turn<C::Stage, C::Outcome>,
    asks: bool,
    passing: &mut Passing,
) -> Turn<C::Stage, C::Outcome>
    requires of { task.old.domain ≡ domain.now }
    requires passes { PassesNone passing.old }
    requires stands { StandsBy C.table task.old run.old last }
    ensures of { task.new.domain ≡ domain.now }
    ensures goes { StretchesOn asks C.table C.exits task.old task.new run.old run.new last result }
    ensures asks { asks ≡ true → WentOutBehind C.table C.exits task.old task.new run.old run.new last result }
{
    match last {
        Turn::Again(stage) => stretch_on(domain, task, run, stage, asks, passing),
        Turn::Locked(stage) => stretch_on(domain, task, run, stage, asks, passing),
        Turn::Asleep(stage) => {
            if runs::woke(domain, task, run, stage) {
                Turn::Again(stage)
            } else {
                Turn::Asleep(stage)
            }
        }
        Turn::Done(_) => unreachable!(),
    }
}
