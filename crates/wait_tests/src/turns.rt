//! One turn of a wait that others take turns with on one thread.

ghost use Rattle.wait_rule.specs.PassedLocks.{PassesNone};
ghost use Rattle.wait_tests.specs.TurnTasks.{TurnsIn};

use wait_class::machines::Machine;
use wait_class::runs::{stretch, woke};
use wait_class::stages::{Run, Turn};
use wait_rule::queues::Passing;
use wait_rule::{Domain, Task};

/// One stretch of a wait, or a look whether it was woken.
fn turn<C: Machine>(
    domain: &Domain,
    task: &mut Task,
    run: &mut Run<C>,
    last: Turn<C::Stage, C::Outcome>,
    passing: &mut Passing,
) -> Turn<C::Stage, C::Outcome>
    requires passes { PassesNone passing.old }
    requires waiting { TurnsIn domain.now C.table task.old run.old last }
    ensures waiting { TurnsIn domain.now C.table task.new run.new result }
{
    C::lawful();
    match last {
        Turn::Again(stage) => stretch(domain, task, run, stage, passing),
        Turn::Locked(stage) => stretch(domain, task, run, stage, passing),
        Turn::Asleep(stage) => {
            if woke(domain, task, run, stage) {
                Turn::Again(stage)
            } else {
                Turn::Asleep(stage)
            }
        }
        Turn::Done(outcome) => Turn::Done(outcome),
    }
}

/// Goes on with a wait by one stretch, or looks whether it was woken. Who parks for a lock that it passed on is woken.
pub(crate) fn go_on<C: Machine>(
    domain: &Domain,
    task: &mut Task,
    run: &mut Run<C>,
    last: Turn<C::Stage, C::Outcome>,
) -> Turn<C::Stage, C::Outcome>
    requires waiting { TurnsIn domain.now C.table task.old run.old last }
    ensures waiting { TurnsIn domain.now C.table task.new run.new result }
{
    let mut passing = Passing::none();
    let next = turn(domain, task, run, last, &mut passing);
    passing.wake(domain);
    passing.end();
    next
}

/// Goes on by so many turns, where nobody else goes on.
pub(crate) fn go_often<C: Machine>(
    domain: &Domain,
    task: &mut Task,
    run: &mut Run<C>,
    last: Turn<C::Stage, C::Outcome>,
    turns: u32,
) -> Turn<C::Stage, C::Outcome>
    requires waiting { TurnsIn domain.now C.table task.old run.old last }
    ensures waiting { TurnsIn domain.now C.table task.new run.new result }
{
    let mut at = last;
    for _ in 0..turns {
        at = go_on(domain, task, run, at);
    }
    at
}
