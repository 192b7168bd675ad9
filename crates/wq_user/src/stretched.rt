//! A task that waits by stretches, none of which waits for anybody: it owes nothing once the wait is over.

ghost use Rattle.std.specs.Prelude.{◌≡◌, MatchBool};
ghost use Rattle.wait_rule.specs.{PassedLocks.PassesNone, Says.IsUp, Says.RestsIn};
ghost use Rattle.wait_class.specs.declared.stages.Turn.TheVariants as turn;
ghost use Rattle.wait_class.specs.Tables.{Advances, CallTable, IsAsleepAt, IsAt, IsStop, Lands, Turned};
ghost use Rattle.wait_class.specs.UnderWay.{IsUnderWay};

use completion_cell::await_calls::{begin_await, end_await};
use completion_cell::awaits::{AwaitCall, AwaitStage};
use std::marker::PhantomData;
use std::sync::Wait;
use var_wait::waits::{begin_var, end_var};
use wait_class::machines::Machine;
use wait_class::runs::{stretch, woke};
use wait_class::stages::{Run, Turn};
use wait_event::wait_events::{begin_wait, end_wait};
use wait_event::waits::{WaitCall, WaitStage};
use wait_model::tasks::{How, SleepState};
use wait_rule::queues::Passing;
use wait_rule::{Domain, Task};

/// Waits of one kind, by the two calls that go on with one.
pub(crate) trait Stretched {
    type Call: Copy;

    type Stage: Copy;

    type Outcome: Copy;

    ghost table: { CallTable Self.Call Self.Stage Self.Outcome };

    /// Makes one stretch. `passing` has the lock that it gave back, or none.
    fn stretch(
        domain: &Domain,
        task: &mut Task,
        run: &mut Run<Self::Call>,
        stage: Self::Stage,
        passing: &mut Passing,
    ) -> Turn<Self::Stage, Self::Outcome>
        requires of { task.old.domain ≡ domain.now }
        requires passes { PassesNone passing.old }
        requires at { IsAt table task.old run.old stage }
        ensures of { task.new.domain ≡ domain.now }
        ensures turned { Turned table task.old task.new run.old run.new stage result }
        ensures stops { IsStop table result }
        ensures under { (c : _) → IsUnderWay table c task.old run.old (turn.Again stage)
            → IsUnderWay table c task.new run.new result };

    /// Looks whether a wait that was put asleep was woken.
    fn woke(domain: &Domain, task: &mut Task, run: &Run<Self::Call>, stage: Self::Stage) -> bool
        requires of { task.old.domain ≡ domain.now }
        requires asleep { IsAsleepAt table task.old run.now stage }
        ensures of { task.new.domain ≡ domain.now }
        ensures advances { MatchBool result (Advances table task.old task.new run.now run.now stage (turn.Again stage))
            (Advances table task.old task.new run.now run.now stage (turn.Asleep stage)) }
        ensures under { (c : _) → IsUnderWay table c task.old run.now (turn.Asleep stage)
            → MatchBool result (IsUnderWay table c task.new run.now (turn.Again stage))
            (IsUnderWay table c task.new run.now (turn.Asleep stage)) };
}

/// The waits of a class, by the calls that go on with one of any class.
pub(crate) struct OfClass<C> {
    of: PhantomData<C>,
}

impl<C: Machine> Stretched for OfClass<C> {
    type Call = C;

    type Stage = C::Stage;

    type Outcome = C::Outcome;

    ghost table = { C.table };

    fn stretch(
        domain: &Domain,
        task: &mut Task,
        run: &mut Run<C>,
        stage: C::Stage,
        passing: &mut Passing,
    ) -> Turn<C::Stage, C::Outcome> {
        stretch(domain, task, run, stage, passing)
    }

    fn woke(domain: &Domain, task: &mut Task, run: &Run<C>, stage: C::Stage) -> bool {
        woke(domain, task, run, stage)
    }
}

/// Makes one stretch, and wakes who parks for the lock that it gave back.
fn one_stretch<W: Stretched>(
    domain: &Domain,
    task: &mut Task,
    run: &mut Run<W::Call>,
    stage: W::Stage,
) -> Turn<W::Stage, W::Outcome>
    requires of { task.old.domain ≡ domain.now }
    requires at { IsAt W.table task.old run.old stage }
    ensures of { task.new.domain ≡ domain.now }
    ensures lands { Lands W.table task.new run.new result }
    ensures under { (c : _) → IsUnderWay W.table c task.old run.old (turn.Again stage)
        → IsUnderWay W.table c task.new run.new result }
{
    let mut passing = Passing::none();
    let turn = W::stretch(domain, task, run, stage, &mut passing);
    passing.wake(domain);
    passing.end();
    turn
}

/// Looks again and again until a wait that was put asleep was woken.
fn doze<R: Wait, W: Stretched>(
    rt: &R,
    domain: &Domain,
    task: &mut Task,
    run: &Run<W::Call>,
    stage: W::Stage,
)
    requires of { task.old.domain ≡ domain.now }
    requires asleep { IsAsleepAt W.table task.old run.now stage }
    ensures of { task.new.domain ≡ domain.now }
    ensures at { IsAt W.table task.new run.now stage }
    ensures under { (c : _) → IsUnderWay W.table c task.old run.now (turn.Asleep stage)
        → IsUnderWay W.table c task.new run.now (turn.Again stage) }
{
    for _ in rt.forever() {
        if W::woke(domain, task, run, stage) {
            return;
        }
    }
}

/// Goes on with a wait to its end by stretches.
pub(crate) fn go_on<R: Wait, W: Stretched>(
    rt: &R,
    domain: &Domain,
    task: &mut Task,
    run: &mut Run<W::Call>,
    stage: W::Stage,
) -> W::Outcome
    requires of { task.old.domain ≡ domain.now }
    requires at { IsAt W.table task.old run.old stage }
    ensures of { task.new.domain ≡ domain.now }
    ensures up { IsUp task.new }
    ensures under { (c : _) → IsUnderWay W.table c task.old run.old (turn.Again stage)
        → IsUnderWay W.table c task.new run.new (turn.Done result) }
{
    let mut at = stage;
    for _ in rt.forever() {
        match one_stretch::<W>(domain, task, run, at) {
            Turn::Again(next) => at = next,
            Turn::Locked(next) => at = next,
            Turn::Asleep(next) => {
                doze::<R, W>(rt, domain, task, run, next);
                at = next;
            }
            Turn::Done(outcome) => return outcome,
        }
    }
    unreachable!()
}

/// Waits for condition 0: true where it was set, and false where a signal ended the wait, or no place was left.
pub fn wait_cond<R: Wait>(rt: &R, domain: &Domain, task: &mut Task, how: How) -> bool
    requires rests { RestsIn domain.now task.old }
    ensures rests { RestsIn domain.now task.new }
{
    let mut wait = begin_wait(task, 0, how);
    let outcome = go_on::<R, OfClass<WaitCall>>(rt, domain, task, &mut wait, WaitStage::First);
    end_wait(task, &wait, outcome).is_ok()
}

/// Waits until variable 0 differs from `old`: true where it did.
pub fn wait_var<R: Wait>(
    rt: &R,
    domain: &Domain,
    task: &mut Task,
    old: u64,
    state: SleepState,
) -> bool
    requires rests { RestsIn domain.now task.old }
    ensures rests { RestsIn domain.now task.new }
{
    let mut wait = begin_var(task, 0, old, state);
    let outcome = go_on::<R, OfClass<WaitCall>>(rt, domain, task, &mut wait, WaitStage::First);
    end_var(task, &wait, outcome).is_ok()
}

/// Waits until completion 0 is done, and takes one: true where it took one.
pub fn take<R: Wait>(rt: &R, domain: &Domain, task: &mut Task, state: SleepState) -> bool
    requires rests { RestsIn domain.now task.old }
    ensures rests { RestsIn domain.now task.new }
{
    let mut wait = begin_await(task, 0, state);
    let outcome = go_on::<R, OfClass<AwaitCall>>(rt, domain, task, &mut wait, AwaitStage::First);
    end_await(task, &wait, outcome).is_ok()
}
