//! The calls on semaphores that wait for nobody but a lock: a permit given back, and one taken where it is there.

ghost use Rattle.std.specs.Prelude.{◌≡◌, ◌<◌, ◌+◌, ◌-◌};
ghost use Rattle.wait_model.specs.declared.layout.TheConstants.{COMPLETIONS};
ghost use Rattle.wait_model.specs.declared.watches.Mode.TheVariants as mode;
ghost use Rattle.wait_model.specs.declared.watches.Watch.TheVariants as watch;
ghost use Rattle.wait_rule.specs.{Counts.StoresCount, HandedPermits.StaysOff, Known.Known, LeftEntries.LeftOff};
ghost use Rattle.wait_rule.specs.{Says.IsFree, Says.IsUp, Stays.Carries};
ghost use Rattle.wait_event.specs.{Conds.set_change, Entries.hold_change};
ghost use Rattle.completion_cell.specs.Asks.{HasCountedDone};
ghost use Rattle.count_sem.specs.declared.ups.TheConstants.{FULL};
ghost use Rattle.count_sem.specs.Ups.{FoundNobody, HasRaised, HasTakenPermit};

use completion_cell::asks::take_one;
use std::sync::Wait;
use wait_model::heads::head_of;
use wait_model::watches::Watch;
use wait_rule::counts::{done_load, done_store};
use wait_rule::{Domain, Task};
use wq_head::locks::{lock, unlock};
use wq_head::{Rousing, select};

/// The count from which on no permit more is counted: one less than its end, which stands for permits without end.
pub const FULL: u32 = 4_294_967_294;

/// A permit was not counted: nobody was queued, and the count was `count`, at least `FULL`. Nothing changes.
#[derive(Clone, Copy)]
pub struct SemFull {
    pub count: u32,
}

/// Takes a permit of semaphore `cell`, below `COMPLETIONS`, where one is there (kernel/locking/semaphore.c,
/// `down_trylock`): false exactly where its count was loaded as 0, in a hold of its head. A count at its end,
/// 4294967295, stays. The task holds no lock; its state, its entries and its bookmark stay, and what it owes. Its last
/// hold of the semaphore's head, if there was one, left its own entry off, and so does this call.
pub fn try_down<R: Wait>(rt: &R, domain: &Domain, task: &mut Task, cell: u8) -> bool
    requires of { task.old.domain ≡ domain.now }
    requires up { IsUp task.old }
    requires free { IsFree task.old }
    requires cell { cell < COMPLETIONS }
    requires left { LeftOff cell task.old }
    ensures tried { HasTakenPermit task.old task.new cell result }
    ensures up { IsUp task.new }
    ensures free { IsFree task.new }
    ensures carries { Carries (hold_change task.new.at) task.old task.new }
    ensures off { StaysOff task.old task.new }
{
    task.told();
    lock(rt, domain, task, head_of(Watch::Done { cell }));
    let count = done_load(domain, task, cell);
    take_one(domain, task, cell, count);
    unlock(rt, domain, task, false);
    count != 0
}

/// One is added to the count that the hold has loaded, which is not full.
fn add_one(domain: &Domain, task: &mut Task, cell: u8, count: u32)
    requires of { task.old.domain ≡ domain.now }
    requires up { IsUp task.old }
    requires cell { cell < COMPLETIONS }
    requires counted { HasCountedDone task.old cell count }
    requires below { count < FULL }
    ensures { StoresCount task.old task.new cell (count + 1) }
{
    done_store(domain, task, cell, count + 1);
}

/// One is taken of the count that the hold has loaded, which is not 0.
#[inline(always)]
pub(crate) fn lower_one(domain: &Domain, task: &mut Task, cell: u8, count: u32)
    requires of { task.old.domain ≡ domain.now }
    requires up { IsUp task.old }
    requires cell { cell < COMPLETIONS }
    requires counted { HasCountedDone task.old cell count }
    requires some { 0 < count }
    ensures { StoresCount task.old task.new cell (count - 1) }
{
    done_store(domain, task, cell, count - 1);
}

/// In a hold that has seen nobody queued: one permit more is counted, unless there are too many, and the head is given
/// back.
fn raise<R: Wait>(rt: &R, domain: &Domain, task: &mut Task, cell: u8) -> Result<(), SemFull>
    requires of { task.old.domain ≡ domain.now }
    requires cell { cell < COMPLETIONS }
    requires up { IsUp task.old }
    requires found { (start : Known) × FoundNobody start task.old cell }
    ensures raised { (start : Known) → FoundNobody start task.old cell → HasRaised start task.new cell result }
    ensures up { IsUp task.new }
    ensures free { IsFree task.new }
    ensures carries { (start : Known) → FoundNobody start task.old cell
        → Carries (set_change (watch.Done cell) mode.Normal task.new.at) start task.new }
    ensures off { (start : Known) → FoundNobody start task.old cell → StaysOff start task.new }
{
    let count = done_load(domain, task, cell);
    if count >= FULL {
        unlock(rt, domain, task, false);
        return Err(SemFull { count });
    }
    add_one(domain, task, cell, count);
    unlock(rt, domain, task, false);
    Ok(())
}

/// Gives a permit of semaphore `cell`, below `COMPLETIONS`, back (kernel/locking/semaphore.c, `up`): in one hold of its
/// head the first who waits is given it, woken and taken off its queue; and only where nobody waits the count is raised
/// by one. Full: nobody was queued, and the count was loaded as 4294967294 at least. The rest is as in `try_down`.
pub fn up<R: Wait>(rt: &R, domain: &Domain, task: &mut Task, cell: u8) -> Result<(), SemFull>
    requires of { task.old.domain ≡ domain.now }
    requires up { IsUp task.old }
    requires free { IsFree task.old }
    requires cell { cell < COMPLETIONS }
    requires left { LeftOff cell task.old }
    ensures raised { HasRaised task.old task.new cell result }
    ensures up { IsUp task.new }
    ensures free { IsFree task.new }
    ensures carries { Carries (set_change (watch.Done cell) mode.Normal task.new.at) task.old task.new }
    ensures off { StaysOff task.old task.new }
{
    let head = head_of(Watch::Done { cell });
    let mut rousing = Rousing::new();
    task.told();
    lock(rt, domain, task, head);
    if select(rt, domain, task, head, 1, &mut rousing) == 1 {
        unlock(rt, domain, task, true);
        rousing.rouse_all(domain);
        rousing.end();
        return Ok(());
    }
    rousing.rouse_all(domain);
    rousing.end();
    raise(rt, domain, task, cell)
}
