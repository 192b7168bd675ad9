//! The task that waits for the workers.

ghost use Rattle.std.specs.Prelude.{◌≡◌, IfErr, MatchResult};
ghost use Rattle.copy_ends.specs.Copied.{AwaitsWorker, ControlEnds, Controlled, IsControlEnd, ReadTally};
ghost use Rattle.copy_ends.specs.Did.{IsIdler};
ghost use Rattle.flow_copy.specs.Workers.{ControllerGoes, LosesWait, ReadsLocked};

use bit_wait::BitEnd;
use completion_cell::await_calls::wait_for;
use copy_plan::{COUNTED_PAGE, ENDED_CELL};
use page_lock::{add_tally, lock_page, unlock_page};
use std::sync::Wait;
use wait_event::wait_events::WaitEnd;
use wait_model::tasks::SleepState;
use wait_rule::{Domain, Task};

/// Waits, uninterruptibly, until each of `workers` workers has completed `ENDED_CELL`, and then reads the tally of page
/// `COUNTED_PAGE` while it keeps the page: it answers what it found there. Worn: a wait found no place; Interrupted
/// never comes. The task owes nothing, and so it is afterwards.
pub fn controller_task<R: Wait>(
    rt: &R,
    domain: &Domain,
    task: &mut Task,
    workers: u8,
) -> Result<u64, BitEnd>
    requires of { task.old.domain ≡ domain.now }
    requires idler { IsIdler task.old }
    ensures controlled { Controlled task.old task.new }
    ensures ends { ControlEnds workers task.old task.new result }
    ensures goes { ControllerGoes workers task.old task.new result }
{
    for ended in 0..workers {
        let _ = ended;
        await_one(rt, domain, task)?;
    }
    read_tally(rt, domain, task)
}

/// Waits until one more worker has ended.
fn await_one<R: Wait>(rt: &R, domain: &Domain, task: &mut Task) -> Result<(), BitEnd>
    requires of { task.old.domain ≡ domain.now }
    requires idler { IsIdler task.old }
    ensures controlled { Controlled task.old task.new }
    ensures ends { MatchResult result (λ _. AwaitsWorker task.old task.new) (IsControlEnd task.new) }
    ensures loses { IfErr result (LosesWait task.old task.new) }
{
    match wait_for(rt, domain, task, ENDED_CELL, SleepState::Uninterruptible) {
        Ok(()) => Ok(()),
        Err(WaitEnd::Worn { head, place }) => Err(BitEnd::Worn { head, place }),
        Err(WaitEnd::Signal { seen, .. }) => Err(BitEnd::Interrupted { seen }),
    }
}

/// Locks the page, and reads its tally.
fn read_tally<R: Wait>(rt: &R, domain: &Domain, task: &mut Task) -> Result<u64, BitEnd>
    requires of { task.old.domain ≡ domain.now }
    requires idler { IsIdler task.old }
    ensures controlled { Controlled task.old task.new }
    ensures ends { MatchResult result (ReadTally task.old task.new) (IsControlEnd task.new) }
    ensures goes { ReadsLocked task.old task.new result }
{
    task.told();
    lock_page(rt, domain, task, COUNTED_PAGE, SleepState::Uninterruptible)?;
    let total = add_tally(domain, task, COUNTED_PAGE, 0);
    task.told();
    unlock_page(rt, domain, task, COUNTED_PAGE);
    Ok(total)
}
