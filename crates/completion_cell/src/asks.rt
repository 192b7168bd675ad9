//! The calls that wait for nobody but a lock, and wake nobody: a count is asked, taken where it is there, and cleared.

ghost use Rattle.std.specs.Prelude.{◌≡◌, ◌<◌, ◌-◌, MatchBool};
ghost use Rattle.wait_model.specs.declared.layout.TheConstants.{COMPLETIONS, ALL_DONE};
ghost use Rattle.wait_rule.specs.{Counts.StoresCount, HandedPermits.StaysOff, LeftEntries.LeftOff, Known.Known};
ghost use Rattle.wait_rule.specs.{PassedLocks.PassesNone, Says.IsFree, Says.IsUp, Stays.Carries};
ghost use Rattle.wait_event.specs.Entries.{hold_change};
ghost use Rattle.wq_head.specs.Roused.{RousesNone};
ghost use Rattle.completion_cell.specs.declared.cell_turns.CellCall.TheVariants as call;
ghost use Rattle.completion_cell.specs.CellTurns.{HoldsForCell, IsCellOver, cell_head};
ghost use Rattle.completion_cell.specs.Asks.{HasAsked, HasTriedCell, HasReset, HasCountedDone, TakesOne};

use crate::cell_turns::{CellCall, run_cell};
use std::sync::Wait;
use wait_model::layout::ALL_DONE;
use wait_rule::counts::{done_load, done_store};
use wait_rule::queues::Passing;
use wait_rule::{Domain, Task};
use wq_head::locks::give_back;

/// The hold of `is_done`, whose lock is taken.
pub(crate) fn is_done_hold(
    domain: &Domain,
    task: &mut Task,
    cell: u8,
    passing: &mut Passing,
) -> bool
    requires of { task.old.domain ≡ domain.now }
    requires passes { PassesNone passing.old }
    requires cell { cell < COMPLETIONS }
    requires holds { (start : Known) × HoldsForCell call.IsDone cell start task.old }
    ensures of { task.new.domain ≡ domain.now }
    ensures over { (start : Known) → HoldsForCell call.IsDone cell start task.old
        → IsCellOver call.IsDone cell result start task.new }
    ensures passes { passing.new.head ≡ cell_head cell }
    ensures rouses { RousesNone task.old task.new }
{
    let _ = cell;
    passing.put(give_back(domain, task, false));
    true
}

/// The hold of `reinit`, whose lock is taken.
pub(crate) fn reinit_hold(domain: &Domain, task: &mut Task, cell: u8, passing: &mut Passing) -> bool
    requires of { task.old.domain ≡ domain.now }
    requires passes { PassesNone passing.old }
    requires cell { cell < COMPLETIONS }
    requires holds { (start : Known) × HoldsForCell call.Reinit cell start task.old }
    ensures of { task.new.domain ≡ domain.now }
    ensures over { (start : Known) → HoldsForCell call.Reinit cell start task.old
        → IsCellOver call.Reinit cell result start task.new }
    ensures passes { passing.new.head ≡ cell_head cell }
    ensures rouses { RousesNone task.old task.new }
{
    done_store(domain, task, cell, 0);
    passing.put(give_back(domain, task, false));
    true
}

/// Whether completion `cell`, below `COMPLETIONS`, is done (kernel/sched/completion.c, `completion_done`): false
/// exactly where its count is loaded as 0, without the lock. Else a hold of its head waits out a `complete` that is
/// under way. The task holds no lock; its state, its entries and its bookmark stay, and what it owes. Its last hold of
/// the completion's head, if there was one, left its own entry off, and so does this call.
pub fn is_done<R: Wait>(rt: &R, domain: &Domain, task: &mut Task, cell: u8) -> bool
    requires of { task.old.domain ≡ domain.now }
    requires up { IsUp task.old }
    requires free { IsFree task.old }
    requires cell { cell < COMPLETIONS }
    requires left { LeftOff cell task.old }
    ensures asked { HasAsked task.old task.new cell result }
    ensures up { IsUp task.new }
    ensures free { IsFree task.new }
    ensures carries { Carries (hold_change task.new.at) task.old task.new }
    ensures off { StaysOff task.old task.new }
{
    run_cell(rt, domain, task, CellCall::IsDone, cell)
}

/// Clears the count of completion `cell`, below `COMPLETIONS` (include/linux/completion.h, `reinit_completion`), in a
/// hold of its head. The rest is as in `is_done`.
pub fn reinit<R: Wait>(rt: &R, domain: &Domain, task: &mut Task, cell: u8)
    requires of { task.old.domain ≡ domain.now }
    requires up { IsUp task.old }
    requires free { IsFree task.old }
    requires cell { cell < COMPLETIONS }
    requires left { LeftOff cell task.old }
    ensures reset { HasReset task.old task.new cell }
    ensures up { IsUp task.new }
    ensures free { IsFree task.new }
    ensures carries { Carries (hold_change task.new.at) task.old task.new }
    ensures off { StaysOff task.old task.new }
{
    run_cell(rt, domain, task, CellCall::Reinit, cell);
}

/// Takes one of the count that the hold has loaded, unless there is none; a count at its end stays.
pub fn take_one(domain: &Domain, task: &mut Task, cell: u8, count: u32) -> bool
    requires of { task.old.domain ≡ domain.now }
    requires up { IsUp task.old }
    requires cell { cell < COMPLETIONS }
    requires counted { HasCountedDone task.old cell count }
    ensures stores { MatchBool result (StoresCount task.old task.new cell (count - 1)) (task.new ≡ task.old) }
    ensures took { TakesOne count result }
{
    if count == 0 || u64::from(count) == ALL_DONE {
        return false;
    }
    done_store(domain, task, cell, count - 1);
    true
}

/// The hold of `try_wait`, whose lock is taken.
pub(crate) fn try_wait_hold(
    domain: &Domain,
    task: &mut Task,
    cell: u8,
    passing: &mut Passing,
) -> bool
    requires of { task.old.domain ≡ domain.now }
    requires passes { PassesNone passing.old }
    requires cell { cell < COMPLETIONS }
    requires holds { (start : Known) × HoldsForCell call.TryWait cell start task.old }
    ensures of { task.new.domain ≡ domain.now }
    ensures over { (start : Known) → HoldsForCell call.TryWait cell start task.old
        → IsCellOver call.TryWait cell result start task.new }
    ensures passes { passing.new.head ≡ cell_head cell }
    ensures rouses { RousesNone task.old task.new }
{
    let count = done_load(domain, task, cell);
    take_one(domain, task, cell, count);
    passing.put(give_back(domain, task, false));
    count != 0
}

/// Takes one of completion `cell`, below `COMPLETIONS`, where one is there (kernel/sched/completion.c,
/// `try_wait_for_completion`): false exactly where the deciding load found its count 0, the one without the lock or the
/// one in the hold. A count at its end, 4294967295, stays. The rest is as in `is_done`.
pub fn try_wait<R: Wait>(rt: &R, domain: &Domain, task: &mut Task, cell: u8) -> bool
    requires of { task.old.domain ≡ domain.now }
    requires up { IsUp task.old }
    requires free { IsFree task.old }
    requires cell { cell < COMPLETIONS }
    requires left { LeftOff cell task.old }
    ensures tried { HasTriedCell task.old task.new cell result }
    ensures up { IsUp task.new }
    ensures free { IsFree task.new }
    ensures carries { Carries (hold_change task.new.at) task.old task.new }
    ensures off { StaysOff task.old task.new }
{
    run_cell(rt, domain, task, CellCall::TryWait, cell)
}
