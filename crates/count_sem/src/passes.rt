//! A permit handed on: what a `down` does in its last hold that was given a permit and found that more are counted.

ghost use Rattle.std.specs.Prelude.{◌≡◌, ◌≤◌, [], IfErr, IfOk, MatchBool, MatchResult, Ok};
ghost use Rattle.wait_model.specs.declared.layout.TheConstants.{FIRST_SIMPLE_HEAD};
ghost use Rattle.wait_rule.specs.{PassedLocks.PassesNone, Queues.IsWholeBook, Says.IsClean, Says.IsUp, Tried.IsStarved};
ghost use Rattle.wq_head.specs.{Holds.IsHolding, Looks.Looks, Roused.IsRousing, Roused.tasks_in, Selects.ShowsNoEntry};
ghost use Rattle.wait_class.specs.{Tables.Advances, Tables.IsEnded, UnderWay.IsUnderWay};
ghost use Rattle.wait_class.specs.declared.stages.Turn.TheVariants as turn;
ghost use Rattle.count_sem.specs.declared.downs.DownOutcome.TheVariants as outcome;
ghost use Rattle.count_sem.specs.declared.downs.DownStage.TheVariants as stage;
ghost use Rattle.wait_leave.specs.OnTheWay.{IsOnWay, OnTheWay};
ghost use Rattle.wait_leave.specs.declared.exits.Until.TheVariants as until;
ghost use Rattle.completion_cell.specs.CellTurns.{cell_head};
ghost use Rattle.count_sem.specs.{DownEnds.EndsDown, DownLeaves.EndsDownUntil, DownLeaves.down_exits};
ghost use Rattle.count_sem.specs.{Downs.IsFreshDown, Downs.down_table, Passes.HasPassedOn, Passes.HasWaiter};

use crate::downs::DownRun;
use crate::ups::lower_one;
use std::hint::spin_loop;
use std::sync::Wait;
use wait_model::heads::head_of;
use wait_model::watches::Watch;
use wait_rule::queues::Passing;
use wait_rule::tries::FailedTries;
use wait_rule::{Domain, Task};
use wq_head::locks::give_back;
use wq_head::{Member, Members, Rousing, members, select_tries};

/// Whether an entry is queued at the simple head that the task holds.
fn finds_waiter(domain: &Domain, task: &mut Task, head: u16) -> bool
    requires of { task.old.domain ≡ domain.now }
    requires up { IsUp task.old }
    requires held { IsHolding task.old }
    requires head { head ≡ task.old.at }
    requires simple { FIRST_SIMPLE_HEAD ≤ head }
    ensures looks { Looks task.old task.new }
    ensures whole { IsWholeBook task.new }
    ensures tells { MatchBool result (HasWaiter task.new) (ShowsNoEntry task.new) }
{
    let mut list = Members::new();
    let count = members(domain, task, head, &mut list);
    for i in 0..count {
        if let Member::Entry { .. } = list.at(i) {
            return true;
        }
    }
    false
}

/// Goes on with a `down` that has ended as `Passing`, to the end of its hold, for who may not wait: where an entry is
/// queued, one permit is taken of the count, and then given to the first, which is woken and taken off; then the head
/// is given back. While a semaphore is used by these calls alone nobody is queued then. `rousing`, in which none is
/// left before, names the task that was put asleep and that this call has woken, for the caller to rouse; `passing` has
/// the lock that was given back. Err: its word changed before each of `TRIES` tries to wake it, which no run comes to;
/// the head is held then, and the call does not end. Who owed nothing when its `down` began owes nothing, and the
/// answer is Ok of that call, also where it was asked to leave.
pub fn hand_on(
    domain: &Domain,
    task: &mut Task,
    wait: &DownRun,
    rousing: &mut Rousing,
    passing: &mut Passing,
) -> Result<(), FailedTries>
    requires of { task.old.domain ≡ domain.now }
    requires passes { PassesNone passing.old }
    requires ended { IsEnded down_table task.old wait.now outcome.Passing }
    requires none { tasks_in rousing.old ≡ [] }
    ensures passed { IfOk result (λ _. HasPassedOn task.old task.new wait.now.of) }
    ensures starved { IfErr result (λ failed. IsStarved failed) }
    ensures passes { MatchResult result (λ _. passing.new.head ≡ cell_head wait.now.of.cell)
        (λ _. PassesNone passing.new) }
    ensures rouses { IsRousing task.old task.new rousing.new }
    ensures clean { (c : _) → IsUnderWay down_table c task.old wait.now (turn.Done outcome.Passing)
        → IfOk result (λ _. IsClean task.new) }
    ensures ends { (start : _) → (f : _) → (cell : _) → (state : _) → IsFreshDown f.of cell state
        → Advances down_table start task.old f wait.now stage.First (turn.Done outcome.Passing)
        → IfOk result (λ _. EndsDown start task.new cell state (Ok tt)) }
    ensures clean_out { (c : _)
        → IsOnWay (Unit {0}) down_table down_exits c task.old wait.now (turn.Done outcome.Passing)
        → IfOk result (λ _. IsClean task.new) }
    ensures ends_out { (start : _) → (f : _) → (cell : _) → (state : _) → IsFreshDown f.of cell state
        → OnTheWay (Unit {0}) down_table down_exits start f stage.First task.old wait.now (turn.Done outcome.Passing)
        → IfOk result (λ _. EndsDownUntil (Unit {0}) start task.new cell state (until.Over (Ok tt))) }
{
    let cell = wait.of.cell;
    let head = head_of(Watch::Done { cell });
    if finds_waiter(domain, task, head) {
        lower_one(domain, task, cell, wait.of.count);
        select_tries(domain, task, head, 1, rousing)?;
        passing.put(give_back(domain, task, true));
        return Ok(());
    }
    passing.put(give_back(domain, task, false));
    Ok(())
}

/// The same for who may wait: the threads are woken, and it ends.
pub(crate) fn pass<R: Wait>(rt: &R, domain: &Domain, task: &mut Task, wait: &DownRun)
    requires of { task.old.domain ≡ domain.now }
    requires ended { IsEnded down_table task.old wait.now outcome.Passing }
    ensures { HasPassedOn task.old task.new wait.now.of }
{
    let mut rousing = Rousing::new();
    let mut passing = Passing::none();
    match hand_on(domain, task, wait, &mut rousing, &mut passing) {
        Ok(()) => {
            passing.wake(domain);
            rousing.rouse_all(domain);
            passing.end();
            rousing.end();
        }
        Err(_) => {
            for _ in rt.forever() {
                spin_loop();
            }
            unreachable!()
        }
    }
}
