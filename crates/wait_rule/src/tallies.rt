//! The adds to tallies. Each page has one: a word that a task adds to while it keeps the page's bit. No add here is a
//! step of a history.

ghost use Rattle.std.specs.Prelude.{◌≡◌, ◌<◌};
ghost use Rattle.wait_model.specs.declared.layout.TheConstants.{PAGES};
ghost use Rattle.wait_model.specs.declared.watches.Watch.TheVariants as watch;
ghost use Rattle.wait_rule.specs.declared.journal.Item.TheVariants as item;
ghost use Rattle.wait_rule.specs.{Bits.KeepsBitOf, LookCounts.Looked, Stays.Carries, Stays.unchanged};
ghost use Rattle.wait_rule.specs.TallyPlays.{tally_added_play};
ghost use Rattle.wait_rule.specs.Says.{FindsTally, IsUp, added, told_of};

use crate::domain::{Domain, Task};
use crate::journal::{Ask, Journal};
use atomic_table::Play;
use wait_model::positions::tally_at;

/// An amount that is added to a tally.
pub struct AddTally;

impl Play<Ask, Journal> for AddTally {
    ghost then = { tally_added_play };
}

/// Adds `amount` to the tally of page `page`, below `PAGES`, by one atomic add, and answers the number that it found:
/// the sum of all amounts that tasks added to it before, modulo 2^64. A task that has joined all others finds them in
/// the lists that it has. It keeps bit 0 of the bit word of that number, which is the lock of the page.
pub fn tally_add(domain: &Domain, task: &mut Task, page: u8, amount: u64) -> u64
    requires of { task.old.domain ≡ domain.now }
    requires up { IsUp task.old }
    requires page { page < PAGES }
    requires keeps { KeepsBitOf task.old (watch.Bit page 0) }
    ensures step { task.new ≡ added task.old (item.Tally page amount result) }
    ensures finds { FindsTally task.old.view page result }
    ensures told { told_of task.new ≡ told_of task.old }
    ensures carries { Carries unchanged task.old task.new }
    ensures looked { Looked 0 task.old task.new }
{
    let at = tally_at(page) as usize;
    domain
        .table
        .shared
        .fetch_add::<AddTally>(&mut task.seat, at, amount)
}
