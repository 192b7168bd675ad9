//! Calls on completions by stretches, for who may not wait, and their way to the end.

ghost use Rattle.std.specs.Prelude.{◌≡◌, ◌<◌, [], false, MatchBool, MatchResult};
ghost use Rattle.wait_model.specs.declared.layout.TheConstants.{COMPLETIONS};
ghost use Rattle.wait_rule.specs.{LeftEntries.LeftOff, Known.Known, PassedLocks.PassesNone, Says.IsFree, Says.IsUp};
ghost use Rattle.wq_head.specs.Roused.{IsRousing, RousesNone, tasks_in};
ghost use Rattle.completion_cell.specs.declared.cell_turns.CellStage.TheVariants as stages;
ghost use Rattle.completion_cell.specs.CellTurns.{HasCellStarved, HasCellTurned, HoldsForCell, IsAtCell, IsFreshCell, IsCellOver, CellRests, peeks_first};
ghost use Rattle.completion_cell.specs.CellTurns.{EndsByLoad, FoundServed, PassedByCell, cell_head};

use crate::asks::{is_done_hold, reinit_hold, try_wait_hold};
use crate::completes::{complete_all_hold, complete_hold};
use std::hint::spin_loop;
use std::sync::Wait;
use wait_model::heads::head_of;
use wait_model::watches::Watch;
use wait_rule::counts::done_load;
use wait_rule::queues::Passing;
use wait_rule::tries::FailedTries;
use wait_rule::{Domain, Task};
use wq_head::locks::pause;
use wq_head::{Rousing, draw_lock, lock_turn};

/// A call on a completion that waits for nobody but a lock, by its name.
#[derive(Clone, Copy)]
pub enum CellCall {
    Complete,
    CompleteAll,
    IsDone,
    Reinit,
    TryWait,
}

/// Where a call stands between two of its stretches: before it, or with the ticket of its lock drawn.
#[derive(Clone, Copy)]
pub enum CellStage {
    First,
    Turn,
}

/// What a stretch of a call did: another ticket is served, and it goes on at `Turn`; it is over, with the answer of
/// `is_done` or `try_wait`, or true; or `TRIES` tries to wake one task failed, and it does not end.
#[derive(Clone, Copy)]
pub enum CellTurn {
    Locked,
    Done(bool),
    Starved(FailedTries),
}

/// The numbers of a call under way.
#[derive(Clone, Copy)]
pub struct CellRun {
    pub call: CellCall,
    pub cell: u8,
    /// The number of the ticket that is drawn, and the one that was found served last.
    pub ticket: u64,
    pub served: u64,
}

impl CellRun {
    /// A call that has not begun, on completion `cell`, below `COMPLETIONS`.
    pub fn new(call: CellCall, cell: u8) -> CellRun
        ensures { IsFreshCell result call cell }
    {
        CellRun {
            call,
            cell,
            ticket: 0,
            served: 0,
        }
    }
}

/// Goes on with a call by one look at its ticket, and by its hold where that is served, for who may not wait for a
/// lock: an executor, or a caller from another language. It waits for nobody and wakes no thread: `rousing`, in which
/// none is left before, names the tasks that were put asleep and that this stretch has woken, in the order of their
/// wakes, for the caller to rouse. Locked: the ticket is drawn and not served; the call goes on at `Turn` once another
/// number of the head is served, no head is held, and in between the task makes nothing else. Done: the call is over,
/// as by the function of its name. Starved: the word of one task changed before each of `TRIES` tries to wake it, which
/// no run comes to; the head is held then, and the call does not end. `passing`, in which no lock is left before, has
/// the one that was given back, for the caller to wake the threads that park for it.
pub fn cell_stretch(
    domain: &Domain,
    task: &mut Task,
    run: &mut CellRun,
    stage: CellStage,
    rousing: &mut Rousing,
    passing: &mut Passing,
) -> CellTurn
    requires of { task.old.domain ≡ domain.now }
    requires passes { PassesNone passing.old }
    requires at { (start : Known) × IsAtCell start task.old run.old stage }
    requires none { tasks_in rousing.old ≡ [] }
    ensures of { task.new.domain ≡ domain.now }
    ensures turned { (start : Known) → IsAtCell start task.old run.old stage
        → HasCellTurned start task.new run.old run.new result }
    ensures rests { CellRests task.new run.new result }
    ensures refused { FoundServed task.new run.new result }
    ensures passes { PassedByCell task.new run.new result passing.new.head }
    ensures rouses { IsRousing task.old task.new rousing.new }
{
    if !draw_turn(domain, task, run, stage) {
        return CellTurn::Done(false);
    }
    let head = head_of(Watch::Done { cell: run.cell });
    match lock_turn(domain, task, head, run.ticket) {
        Err(served) => {
            run.served = served;
            CellTurn::Locked
        }
        Ok(()) => match hold(domain, task, *run, rousing, passing) {
            Ok(yes) => CellTurn::Done(yes),
            Err(failed) => CellTurn::Starved(failed),
        },
    }
}

/// Draws the ticket of the call's lock, unless it is drawn: false where the call is over before.
fn draw_turn(domain: &Domain, task: &mut Task, run: &mut CellRun, stage: CellStage) -> bool
    requires of { task.old.domain ≡ domain.now }
    requires at { (start : Known) × IsAtCell start task.old run.old stage }
    ensures of { task.new.domain ≡ domain.now }
    ensures fresh { IsFreshCell run.new run.old.call run.old.cell }
    ensures drawn { (start : Known) → IsAtCell start task.old run.old stage
        → MatchBool result (IsAtCell start task.new run.new stages.Turn)
        (IsCellOver run.old.call run.old.cell false start task.new) }
    ensures ends { result ≡ false → EndsByLoad task.new run.new.cell }
    ensures rouses { RousesNone task.old task.new }
{
    match stage {
        CellStage::First => begin(domain, task, run),
        CellStage::Turn => true,
    }
}

/// Whether the call loads the count before it locks, and is over where that is 0.
fn peeks_first(call: CellCall) -> bool
    ensures { result ≡ peeks_first call }
{
    match call {
        CellCall::IsDone => true,
        CellCall::TryWait => true,
        _ => false,
    }
}

/// The first steps of a call up to its ticket: false where it is over before that.
fn begin(domain: &Domain, task: &mut Task, run: &mut CellRun) -> bool
    requires of { task.old.domain ≡ domain.now }
    requires up { IsUp task.old }
    requires free { IsFree task.old }
    requires there { run.old.cell < COMPLETIONS }
    requires left { LeftOff run.old.cell task.old }
    ensures of { task.new.domain ≡ domain.now }
    ensures fresh { IsFreshCell run.new run.old.call run.old.cell }
    ensures drawn { MatchBool result (IsAtCell task.old task.new run.new stages.Turn)
        (IsCellOver run.old.call run.old.cell false task.old task.new) }
    ensures ends { result ≡ false → EndsByLoad task.new run.new.cell }
    ensures rouses { RousesNone task.old task.new }
{
    task.told();
    let head = head_of(Watch::Done { cell: run.cell });
    if !peeks_first(run.call) {
        run.ticket = draw_lock(domain, task, head);
        return true;
    }
    if done_load(domain, task, run.cell) == 0 {
        return false;
    }
    run.ticket = draw_lock(domain, task, head);
    true
}

/// The hold of a call.
fn hold(
    domain: &Domain,
    task: &mut Task,
    run: CellRun,
    rousing: &mut Rousing,
    passing: &mut Passing,
) -> Result<bool, FailedTries>
    requires of { task.old.domain ≡ domain.now }
    requires passes { PassesNone passing.old }
    requires there { run.cell < COMPLETIONS }
    requires holds { (start : Known) × HoldsForCell run.call run.cell start task.old }
    requires none { tasks_in rousing.old ≡ [] }
    ensures of { task.new.domain ≡ domain.now }
    ensures over { (start : Known) → HoldsForCell run.call run.cell start task.old
        → MatchResult result (λ hit. IsCellOver run.call run.cell hit start task.new) (HasCellStarved run.cell task.new) }
    ensures passes { MatchResult result (λ _. passing.new.head ≡ cell_head run.cell) (λ _. PassesNone passing.new) }
    ensures rouses { IsRousing task.old task.new rousing.new }
{
    match run.call {
        CellCall::Complete => complete_hold(domain, task, run.cell, rousing, passing),
        CellCall::CompleteAll => complete_all_hold(domain, task, run.cell, rousing, passing),
        CellCall::IsDone => Ok(is_done_hold(domain, task, run.cell, passing)),
        CellCall::Reinit => Ok(reinit_hold(domain, task, run.cell, passing)),
        CellCall::TryWait => Ok(try_wait_hold(domain, task, run.cell, passing)),
    }
}

/// Makes a call to its end: its answer, or true.
pub(crate) fn run_cell<R: Wait>(
    rt: &R,
    domain: &Domain,
    task: &mut Task,
    call: CellCall,
    cell: u8,
) -> bool
    requires of { task.old.domain ≡ domain.now }
    requires up { IsUp task.old }
    requires free { IsFree task.old }
    requires there { cell < COMPLETIONS }
    requires left { LeftOff cell task.old }
    ensures { IsCellOver call cell result task.old task.new }
{
    let head = head_of(Watch::Done { cell });
    let mut rousing = Rousing::new();
    let mut passing = Passing::none();
    let mut run = CellRun::new(call, cell);
    let mut stage = CellStage::First;
    let mut looks = 0;
    for _ in rt.forever() {
        let turn = cell_stretch(domain, task, &mut run, stage, &mut rousing, &mut passing);
        passing.wake(domain);
        rousing.rouse_all(domain);
        match turn {
            CellTurn::Locked => {
                looks = pause(rt, domain, head, run.served, looks);
                stage = CellStage::Turn;
            }
            CellTurn::Done(yes) => {
                passing.end();
                rousing.end();
                return yes;
            }
            CellTurn::Starved(_) => {
                for _ in rt.forever() {
                    spin_loop();
                }
                unreachable!()
            }
        }
    }
    unreachable!()
}
