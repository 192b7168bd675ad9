//! Single steps on the done counts of completions.

ghost use Rattle.std.specs.Prelude.{◌≡◌, ◌<◌};
ghost use Rattle.wait_model.specs.declared.layout.TheConstants.{COMPLETIONS};
ghost use Rattle.wait_model.specs.declared.steps.Step.TheVariants as step;
ghost use Rattle.wait_model.specs.declared.watches.Watch.TheVariants as watch;
ghost use Rattle.wait_rule.specs.declared.journal.Item.TheVariants as item;
ghost use Rattle.wait_rule.specs.{CountPlays.count_loaded_play, CountPlays.count_stored_play, Says.IsUp, Says.added};
ghost use Rattle.wait_rule.specs.{Queues.IsAgreedHold, Stays.Carries, Stays.unchanged};
ghost use Rattle.wait_rule.specs.Counts.{FindsCount, MayStoreCount, StoresCount};

use crate::domain::{Domain, Task};
use crate::journal::{Ask, Journal};
use atomic_table::Play;
use wait_model::positions::cond_at;
use wait_model::watches::Watch;

/// A load of a done count.
pub struct LoadCount;

impl Play<Ask, Journal> for LoadCount {
    ghost then = { count_loaded_play };
}

/// A store of a done count.
pub struct StoreCount;

impl Play<Ask, Journal> for StoreCount {
    ghost then = { count_stored_play };
}

/// Loads the done count of completion `cell`, below `COMPLETIONS` (`struct completion`, its field `done`). It has 32
/// bits. In a hold of the completion's head it is what the hold has loaded or stored last, and as for each test of a
/// watch no word differs from its member bit.
pub fn done_load(domain: &Domain, task: &mut Task, cell: u8) -> u32
    requires of { task.old.domain ≡ domain.now }
    requires up { IsUp task.old }
    requires cell { cell < COMPLETIONS }
    requires agreed { IsAgreedHold task.old }
    ensures step { task.new ≡ added task.old (item.Made (step.Load (watch.Done cell) result)) }
    ensures finds { FindsCount task.old cell result }
    ensures carries { Carries unchanged task.old task.new }
{
    let at = cond_at(Watch::Done { cell }) as usize;
    domain.table.shared.load::<LoadCount>(&mut task.seat, at) as u32
}

/// Stores the done count of completion `cell`, below `COMPLETIONS`, in a hold of its head (kernel/sched/completion.c):
/// 0, its end 4294967295, or one more or one less than the hold has loaded or stored last. A store that raises the
/// count or is its end publishes; every other one consumes. What it replaced stands in the history.
pub fn done_store(domain: &Domain, task: &mut Task, cell: u8, done: u32)
    requires of { task.old.domain ≡ domain.now }
    requires up { IsUp task.old }
    requires cell { cell < COMPLETIONS }
    requires may { MayStoreCount task.old cell done }
    ensures { StoresCount task.old task.new cell done }
{
    let at = cond_at(Watch::Done { cell }) as usize;
    domain
        .table
        .shared
        .store::<StoreCount>(&mut task.seat, at, u64::from(done));
}
