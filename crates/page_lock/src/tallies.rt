//! The adds to the tally of a page, by who keeps the page.

ghost use Rattle.std.specs.Prelude.{◌≡◌, ◌<◌};
ghost use Rattle.wait_model.specs.declared.layout.TheConstants.{BIT_WORDS};
ghost use Rattle.wait_model.specs.declared.watches.Watch.TheVariants as watch;
ghost use Rattle.wait_rule.specs.declared.journal.Item.TheVariants as item;
ghost use Rattle.wait_rule.specs.{Bits.KeepsBitOf, LookCounts.Looked, Stays.Carries, Stays.unchanged};
ghost use Rattle.wait_rule.specs.Says.{FindsTally, IsUp, added, told_of};
ghost use Rattle.bit_wait.specs.Holders.{IsHolder};

use wait_rule::tallies::tally_add;
use wait_rule::{Domain, Task};

/// Adds `amount` to the tally of page `page`, below `BIT_WORDS`, which the task keeps by its own history, by one atomic
/// add, and answers the tally before. The tally is the sum of all amounts that tasks added to it, modulo 2^64
/// (`wait_rule::laws::tallies_are_sums`). An amount of 0 reads it. Nothing else of the task changes: it keeps the page,
/// and who was a holder of the page, which owes nothing but the page, is one still.
pub fn add_tally(domain: &Domain, task: &mut Task, page: u8, amount: u64) -> u64
    requires of { task.old.domain ≡ domain.now }
    requires up { IsUp task.old }
    requires page { page < BIT_WORDS }
    requires keeps { KeepsBitOf task.old (watch.Bit page 0) }
    ensures step { task.new ≡ added task.old (item.Tally page amount result) }
    ensures finds { FindsTally task.old.view page result }
    ensures told { told_of task.new ≡ told_of task.old }
    ensures carries { Carries unchanged task.old task.new }
    ensures holder { IsHolder task.old (watch.Bit page 0) → IsHolder task.new (watch.Bit page 0) }
    ensures looked { Looked 0 task.old task.new }
{
    tally_add(domain, task, page, amount)
}
