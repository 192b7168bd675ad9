//! An advance of each kind of call that is under way: one stretch, what it leaves under way, and what it tells.

ghost use Rattle.std.specs.Prelude.{◌≡◌, ◌<◌, ◌||◌, [], Bool, true, None};
ghost use Rattle.wait_rule.specs.{Known.Known, PassedLocks.PassesNone, Bits.taken_bits};
ghost use Rattle.wq_head.specs.Roused.{tasks_in};
ghost use Rattle.wait_model.specs.declared.layout.TheConstants.{BIT_WORDS, WORD_BITS};
ghost use Rattle.wait_model.specs.declared.watches.Watch.{Watch};
ghost use Rattle.wait_model.specs.declared.watches.Watch.TheVariants as watch;
ghost use Rattle.wq_checked.specs.{Kept.keeps_in, Kinds.KeepsTaken, Outs.WentOut, Reasons.stopped_reason};
ghost use Rattle.wq_checked.specs.declared.calls.Running.{Running as TheRunning};
ghost use Rattle.wq_checked.specs.Calls.{CameFrom, IsRunningSound, Rouses, WentOn};
ghost use Rattle.wq_checked.specs.Advancing.{cell_left, cell_shown, left_by, shown_of_wait, swake_left, swake_shown};
ghost use Rattle.wq_checked.specs.Advancing.{wake_left, wake_shown, worn_by};
ghost use Rattle.wq_checked.specs.declared.calls.Running.TheVariants as running;

use crate::calls::{Answer, Progress, Running};
use crate::kept_bits::KeptBits;
use crate::kinds::Kind;
use crate::locks::refused;
use crate::stretches::ground_turn;
use completion_cell::cell_turns::{CellRun, CellStage, CellTurn, cell_stretch};
use swait_queue::swake_turns::{SwakeRun, SwakeStage, SwakeTurn, swake_stretch};
use wait_class::runs::rest;
use wait_class::stages::{Run, Turn};
use wait_rule::queues::Passing;
use wait_rule::{Domain, Task};
use wq_head::Rousing;
use wq_head::wakes::{WakeRun, WakeStage, WakeTurn, wake_stretch};

/// Notes a bit that was taken.
pub(crate) fn note(kept: &mut KeptBits, word: u8, bit: u8, took: bool)
    requires word { word < BIT_WORDS }
    requires bit { bit < WORD_BITS }
    ensures { (c : Watch)
        → keeps_in kept.new c ≡ (taken_bits (watch.Bit word bit) took c || keeps_in kept.old c) }
{
    if took {
        kept.put(word, bit);
    }
}

/// Whether a wait ended so that it may have left a state stored.
fn is_worn<C: Kind>(run: Run<C>, turn: Turn<C::Stage, C::Outcome>) -> bool
    ensures { result ≡ worn_by C.kind run turn }
{
    match turn {
        Turn::Done(outcome) => run.of.is_worn(outcome),
        _ => false,
    }
}

/// Notes the bit or the page that a wait has got.
fn note_end<C: Kind>(call: C, turn: Turn<C::Stage, C::Outcome>, kept: &mut KeptBits)
    requires fits { C.table.Fits call }
    ensures { KeepsTaken C.table C.kind call turn kept.old kept.new }
{
    if let Turn::Done(outcome) = turn {
        call.note_taken(outcome, kept);
    }
}

/// What a stretch of a wait leaves under way, and what it tells.
fn wait_leaves<C: Kind>(run: Run<C>, turn: Turn<C::Stage, C::Outcome>) -> (Running, Progress)
    ensures left { result.0 ≡ left_by C.kind run turn }
    ensures shown { result.1 ≡ shown_of_wait C.kind run turn }
{
    match turn {
        Turn::Again(_) => (C::now(run, turn), Progress::Again),
        Turn::Locked(_) => refused(C::now(run, turn)),
        Turn::Asleep(_) => (C::now(run, turn), Progress::Park),
        Turn::Done(outcome) => (Running::Idle, Progress::Done(run.of.answer(outcome))),
    }
}

/// A wait.
pub(crate) fn wait_on<C: Kind>(
    domain: &Domain,
    task: &mut Task,
    kept: &mut KeptBits,
    run: Run<C>,
    last: Turn<C::Stage, C::Outcome>,
    asks: bool,
    passing: &mut Passing,
) -> (Running, Progress)
    requires of { task.old.domain ≡ domain.now }
    requires passes { PassesNone passing.old }
    requires sound { IsRunningSound (C.kind.now run last) kept.old task.old }
    ensures of { task.new.domain ≡ domain.now }
    ensures sound { IsRunningSound result.0 kept.new task.new }
    ensures goes { (may : Bool) (start : Known) (first : TheRunning)
        → CameFrom may start first task.old (C.kind.now run last)
        → WentOn (asks || may) start first task.new result.0 result.1 }
    ensures asks { asks ≡ true → WentOut task.old (C.kind.now run last) task.new result.0 result.1 }
{
    C::is_kind();
    let call = run.of;
    let mut run = run;
    let turn = ground_turn(domain, task, &mut run, last, asks, passing);
    rest(domain, task, is_worn(run, turn));
    note_end(call, turn, kept);
    wait_leaves(run, turn)
}

fn wake_leaves(run: WakeRun, turn: WakeTurn) -> (Running, Progress)
    ensures left { result.0 ≡ wake_left run turn }
    ensures shown { result.1 ≡ wake_shown run turn }
{
    match turn {
        WakeTurn::Locked(next) => refused(Running::Wake(run, next)),
        WakeTurn::Broken => (Running::Wake(run, WakeStage::Next), Progress::Again),
        WakeTurn::Done(walked) => (Running::Idle, Progress::Done(Answer::Walked(walked))),
        WakeTurn::Starved(_) => (Running::Starved, Progress::Starved),
    }
}

fn swake_leaves(run: SwakeRun, turn: SwakeTurn) -> (Running, Progress)
    ensures left { result.0 ≡ swake_left run turn }
    ensures shown { result.1 ≡ swake_shown run turn }
{
    match turn {
        SwakeTurn::Locked => refused(Running::Swake(run, SwakeStage::Turn)),
        SwakeTurn::Done(selected) => (Running::Idle, Progress::Done(Answer::Selected(selected))),
        SwakeTurn::Starved(_) => (Running::Starved, Progress::Starved),
    }
}

fn cell_leaves(run: CellRun, turn: CellTurn) -> (Running, Progress)
    ensures left { result.0 ≡ cell_left run turn }
    ensures shown { result.1 ≡ cell_shown run turn }
{
    match turn {
        CellTurn::Locked => refused(Running::Cell(run, CellStage::Turn)),
        CellTurn::Done(hit) => (Running::Idle, Progress::Done(Answer::Cell(hit))),
        CellTurn::Starved(_) => (Running::Starved, Progress::Starved),
    }
}

/// The call that is under way, by one stretch, which is asked to leave a wait or is not. What is no wait goes on
/// as it was, by one hold at most: whose threads are to be roused then is put into `rousing`.
pub(crate) fn go_on(
    domain: &Domain,
    task: &mut Task,
    kept: &mut KeptBits,
    running: Running,
    asks: bool,
    rousing: &mut Rousing,
    passing: &mut Passing,
) -> (Running, Progress)
    requires of { task.old.domain ≡ domain.now }
    requires passes { PassesNone passing.old }
    requires none { tasks_in rousing.old ≡ [] }
    requires under { stopped_reason running ≡ None }
    requires sound { IsRunningSound running kept.old task.old }
    ensures of { task.new.domain ≡ domain.now }
    ensures sound { IsRunningSound result.0 kept.new task.new }
    ensures goes { (may : Bool) (start : Known) (first : TheRunning) → CameFrom may start first task.old running
        → WentOn (asks || may) start first task.new result.0 result.1 }
    ensures asks { asks ≡ true → WentOut task.old running task.new result.0 result.1 }
    ensures rouses { Rouses running task.old task.new rousing.new }
{
    match running {
        Running::Event(run, last) => wait_on(domain, task, kept, run, last, asks, passing),
        Running::Bit(run, last) => wait_on(domain, task, kept, run, last, asks, passing),
        Running::Lock(run, last) => wait_on(domain, task, kept, run, last, asks, passing),
        Running::Page(run, last) => wait_on(domain, task, kept, run, last, asks, passing),
        Running::Await(run, last) => wait_on(domain, task, kept, run, last, asks, passing),
        Running::Wake(run, stage) => {
            let mut run = run;
            let turn = wake_stretch(domain, task, &mut run, stage, rousing, passing);
            wake_leaves(run, turn)
        }
        Running::Swake(run, stage) => {
            let mut run = run;
            let turn = swake_stretch(domain, task, &mut run, stage, rousing, passing);
            swake_leaves(run, turn)
        }
        Running::Cell(run, stage) => {
            let mut run = run;
            let turn = cell_stretch(domain, task, &mut run, stage, rousing, passing);
            cell_leaves(run, turn)
        }
        _ => unreachable!(),
    }
}
