//! The calls that make a completion done: by one, and for good.

ghost use Rattle.std.specs.Prelude.{◌≡◌, ◌<◌, ◌+◌, [], MatchBool, MatchResult};
ghost use Rattle.wait_model.specs.declared.layout.TheConstants.{COMPLETIONS};
ghost use Rattle.wait_model.specs.declared.watches.Mode.TheVariants as mode;
ghost use Rattle.wait_model.specs.declared.watches.Watch.TheVariants as watch;
ghost use Rattle.wait_rule.specs.{Counts.StoresCount, HandedPermits.StaysOff, LeftEntries.LeftOff, Known.Known};
ghost use Rattle.wait_rule.specs.{PassedLocks.PassesNone, Says.IsFree, Says.IsUp, Stays.Carries};
ghost use Rattle.wait_event.specs.Conds.{set_change};
ghost use Rattle.wq_head.specs.Roused.{IsRousing, tasks_in};
ghost use Rattle.completion_cell.specs.declared.cell_turns.CellCall.TheVariants as call;
ghost use Rattle.completion_cell.specs.Asks.{HasCountedDone};
ghost use Rattle.completion_cell.specs.CellTurns.{HasCellStarved, HoldsForCell, IsCellOver, cell_head};
ghost use Rattle.completion_cell.specs.Completes.{HasCompleted, HasCompletedAll, RaisesOne};

use crate::cell_turns::{CellCall, run_cell};
use std::sync::Wait;
use wait_model::heads::head_of;
use wait_model::layout::ALL_DONE;
use wait_model::watches::Watch;
use wait_rule::counts::{done_load, done_store};
use wait_rule::queues::Passing;
use wait_rule::tries::FailedTries;
use wait_rule::{Domain, Task};
use wq_head::locks::give_back;
use wq_head::{Rousing, select_tries};

/// Raises the count that the hold has loaded by one; a count at its end stays.
fn raise_one(domain: &Domain, task: &mut Task, cell: u8, count: u32) -> bool
    requires of { task.old.domain ≡ domain.now }
    requires up { IsUp task.old }
    requires cell { cell < COMPLETIONS }
    requires counted { HasCountedDone task.old cell count }
    ensures stores { MatchBool result (StoresCount task.old task.new cell (count + 1)) (task.new ≡ task.old) }
    ensures raises { RaisesOne count result }
{
    if u64::from(count) == ALL_DONE {
        return false;
    }
    done_store(domain, task, cell, count + 1);
    true
}

/// The hold of `complete`, whose lock is taken.
pub(crate) fn complete_hold(
    domain: &Domain,
    task: &mut Task,
    cell: u8,
    rousing: &mut Rousing,
    passing: &mut Passing,
) -> Result<bool, FailedTries>
    requires of { task.old.domain ≡ domain.now }
    requires passes { PassesNone passing.old }
    requires cell { cell < COMPLETIONS }
    requires holds { (start : Known) × HoldsForCell call.Complete cell start task.old }
    requires none { tasks_in rousing.old ≡ [] }
    ensures of { task.new.domain ≡ domain.now }
    ensures over { (start : Known) → HoldsForCell call.Complete cell start task.old
        → MatchResult result (λ hit. IsCellOver call.Complete cell hit start task.new) (HasCellStarved cell task.new) }
    ensures passes { MatchResult result (λ _. passing.new.head ≡ cell_head cell) (λ _. PassesNone passing.new) }
    ensures rouses { IsRousing task.old task.new rousing.new }
{
    let count = done_load(domain, task, cell);
    raise_one(domain, task, cell, count);
    let selected = select_tries(domain, task, head_of(Watch::Done { cell }), 1, rousing)?;
    passing.put(give_back(domain, task, selected == 1));
    Ok(true)
}

/// The hold of `complete_all`, whose lock is taken.
pub(crate) fn complete_all_hold(
    domain: &Domain,
    task: &mut Task,
    cell: u8,
    rousing: &mut Rousing,
    passing: &mut Passing,
) -> Result<bool, FailedTries>
    requires of { task.old.domain ≡ domain.now }
    requires passes { PassesNone passing.old }
    requires cell { cell < COMPLETIONS }
    requires holds { (start : Known) × HoldsForCell call.CompleteAll cell start task.old }
    requires none { tasks_in rousing.old ≡ [] }
    ensures of { task.new.domain ≡ domain.now }
    ensures over { (start : Known) → HoldsForCell call.CompleteAll cell start task.old
        → MatchResult result (λ hit. IsCellOver call.CompleteAll cell hit start task.new) (HasCellStarved cell task.new) }
    ensures passes { MatchResult result (λ _. passing.new.head ≡ cell_head cell) (λ _. PassesNone passing.new) }
    ensures rouses { IsRousing task.old task.new rousing.new }
{
    done_store(domain, task, cell, ALL_DONE as u32);
    select_tries(domain, task, head_of(Watch::Done { cell }), 0, rousing)?;
    passing.put(give_back(domain, task, false));
    Ok(true)
}

/// Completes completion `cell`, below `COMPLETIONS`, for one waiter (kernel/sched/completion.c, `complete`): in one
/// hold of its head the count is raised by one, unless it is at its end, 4294967295, and the first waiter is woken and
/// taken off its queue. So the permit that it makes is handed on, unless nobody is queued (`permits_are_handed_on` of
/// `wait_rule::laws`). The task holds no lock; its state, its entries and its bookmark stay, and what it owes. Its last
/// hold of the completion's head, if there was one, left its own entry off, and so does this call. It leaves nobody
/// asleep to whom it owes a wake (`laws::complete_loses_none`).
pub fn complete<R: Wait>(rt: &R, domain: &Domain, task: &mut Task, cell: u8)
    requires of { task.old.domain ≡ domain.now }
    requires up { IsUp task.old }
    requires free { IsFree task.old }
    requires cell { cell < COMPLETIONS }
    requires left { LeftOff cell task.old }
    ensures completed { HasCompleted task.old task.new cell }
    ensures up { IsUp task.new }
    ensures free { IsFree task.new }
    ensures carries { Carries (set_change (watch.Done cell) mode.Normal task.new.at) task.old task.new }
    ensures off { StaysOff task.old task.new }
{
    run_cell(rt, domain, task, CellCall::Complete, cell);
}

/// Completes completion `cell`, below `COMPLETIONS`, for all waiters, those to come as well (kernel/sched/completion.c,
/// `complete_all`): in one hold of its head the count becomes its end, 4294967295, and all waiters are woken and taken
/// off their queue. The rest is as in `complete` (`laws::complete_all_loses_none`).
pub fn complete_all<R: Wait>(rt: &R, domain: &Domain, task: &mut Task, cell: u8)
    requires of { task.old.domain ≡ domain.now }
    requires up { IsUp task.old }
    requires free { IsFree task.old }
    requires cell { cell < COMPLETIONS }
    requires left { LeftOff cell task.old }
    ensures completed { HasCompletedAll task.old task.new cell }
    ensures up { IsUp task.new }
    ensures free { IsFree task.new }
    ensures carries { Carries (set_change (watch.Done cell) mode.Normal task.new.at) task.old task.new }
    ensures off { StaysOff task.old task.new }
{
    run_cell(rt, domain, task, CellCall::CompleteAll, cell);
}
