//! One task alone: what each call answers where nobody else is there, as rows of steps.

ghost use Rattle.std.specs.Prelude.{◌<◌};
ghost use Rattle.wait_model.specs.declared.layout.TheConstants.{COMPLETIONS};
ghost use Rattle.wait_rule.specs.Says.{RestsIn};

use completion_cell::complete_all;
use count_sem::{SemEnd, SemFull, down, try_down, up};
use std::alloc::Global;
use std::process::Abort;
use std::sync::Wait;
use std::test::Fail;
use test_tasks::signals::signals;
use wait_model::tasks::SleepState;
use wait_rule::{Domain, Task};

/// The semaphore of the tests.
const CELL: u8 = 3;

/// Gives a permit back.
pub(crate) fn gives<R: Wait>(
    rt: &R,
    domain: &Domain,
    task: &mut Task,
    cell: u8,
) -> Result<(), SemFull>
    requires rests { RestsIn domain.now task.old }
    requires cell { cell < COMPLETIONS }
    ensures rests { RestsIn domain.now task.new }
{
    up(rt, domain, task, cell)
}

/// Takes a permit where one is there: whether it took one.
pub(crate) fn tries<R: Wait>(rt: &R, domain: &Domain, task: &mut Task, cell: u8) -> bool
    requires rests { RestsIn domain.now task.old }
    requires cell { cell < COMPLETIONS }
    ensures rests { RestsIn domain.now task.new }
{
    try_down(rt, domain, task, cell)
}

/// What the task does, and what it is answered.
#[derive(Clone, Copy)]
enum Step {
    /// It gives a permit back, which is counted; or the count is at its end, this number.
    Gives(Option<u32>),
    /// It takes a permit where one is there: whether it took one.
    Tries(bool),
    /// It takes a permit, unless a signal ends that: whether it took one.
    Takes(SleepState, bool),
    /// It sends itself a signal: whether a fatal one.
    Signals(bool),
    /// It makes the count its end.
    Fills,
}

/// Makes a step, and answers whether it was answered as it says.
fn is_so<R: Wait>(rt: &R, domain: &Domain, task: &mut Task, step: Step) -> bool
    requires rests { RestsIn domain.now task.old }
    ensures rests { RestsIn domain.now task.new }
{
    match step {
        Step::Gives(end) => match gives(rt, domain, task, CELL) {
            Ok(()) => end.is_none(),
            Err(SemFull { count }) => end == Some(count),
        },
        Step::Tries(took) => tries(rt, domain, task, CELL) == took,
        Step::Takes(state, took) => match down(rt, domain, task, CELL, state) {
            Ok(()) => took,
            Err(SemEnd::Interrupted) => !took,
            Err(SemEnd::Worn { .. }) => false,
        },
        Step::Signals(fatal) => {
            let who = task.number();
            signals(rt, domain, task, who, fatal);
            true
        }
        Step::Fills => {
            complete_all(rt, domain, task, CELL);
            true
        }
    }
}

/// Makes steps one after another in a new Domain. They are counted from 0.
fn play<R: Abort + Wait>(rt: &R, alloc: Global, steps: &[Step]) -> Result<(), Fail> {
    let (domain, mut task) = Domain::new(alloc)?;
    let mut at: u64 = 0;
    for step in steps {
        let went = is_so(rt, &domain, &mut task, *step);
        assert!(rt; went, "step {at}, counted from 0");
        at = at.saturating_add(1);
    }
    Ok(())
}

const TWO: &[Step] = &[
    Step::Gives(None),
    Step::Gives(None),
    Step::Tries(true),
    Step::Tries(true),
    Step::Tries(false),
];

/// What was given back twice is there twice, and not a third time.
#[test]
fn two_permits_are_taken_and_no_third(rt: HostRuntime) -> Result<(), Fail> {
    play(&rt, rt.alloc(), TWO)
}

const SIGNALLED: &[Step] = &[
    Step::Signals(false),
    Step::Takes(SleepState::Interruptible, false),
    Step::Gives(None),
    Step::Takes(SleepState::Interruptible, true),
    Step::Tries(false),
];

/// A signal that is pending ends a `down` that finds no permit, and none that finds one.
#[test]
fn signal_ends_the_down_that_finds_none(rt: HostRuntime) -> Result<(), Fail> {
    play(&rt, rt.alloc(), SIGNALLED)
}

const KILLED: &[Step] = &[
    Step::Signals(false),
    Step::Gives(None),
    Step::Takes(SleepState::Killable, true),
    Step::Signals(true),
    Step::Takes(SleepState::Killable, false),
    Step::Tries(false),
];

/// A fatal signal ends a killable `down` that finds no permit; a plain one that is pending ends none that finds one.
#[test]
fn fatal_signal_ends_a_killable_down(rt: HostRuntime) -> Result<(), Fail> {
    play(&rt, rt.alloc(), KILLED)
}

/// The end of the count.
const END: u32 = 4_294_967_295;

const FULL: &[Step] = &[
    Step::Fills,
    Step::Gives(Some(END)),
    Step::Takes(SleepState::Uninterruptible, true),
    Step::Gives(Some(END)),
    Step::Tries(true),
    Step::Tries(true),
];

/// A count at its end stands for permits without end: none is taken of it, and none is added.
#[test]
fn count_at_its_end_is_full_and_stays(rt: HostRuntime) -> Result<(), Fail> {
    play(&rt, rt.alloc(), FULL)
}
