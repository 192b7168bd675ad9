//! The call that takes a page where it is clear.

ghost use Rattle.std.specs.Prelude.{◌≡◌, ◌<◌, MatchBool};
ghost use Rattle.wait_model.specs.declared.layout.TheConstants.{BIT_WORDS};
ghost use Rattle.wait_model.specs.declared.watches.Watch.TheVariants as watch;
ghost use Rattle.wait_rule.specs.{Bits.SetsBit, Says.IsClean, Says.IsUp, Queues.IsAgreedHold};
ghost use Rattle.bit_wait.specs.{Holders.IsHolder, Tries.HasTriedBit};

use bit_wait::test_and_set;
use wait_rule::{Domain, Task};

/// Takes page `page`, below `BIT_WORDS`, where it is clear: sets bit 0 of its bit word in one atomic or
/// (`trylock_page`, include/linux/pagemap.h). False exactly where the exchange found the bit set: some task keeps the
/// page then, or a walk has taken it for one that waits, and nothing changes. Where it is true the task keeps the page.
/// It waits for nobody, and needs no idle task. Who owed nothing is a holder of the page then, which owes nothing but
/// the page, or owes nothing still.
pub fn try_lock_page(domain: &Domain, task: &mut Task, page: u8) -> bool
    requires of { task.old.domain ≡ domain.now }
    requires up { IsUp task.old }
    requires page { page < BIT_WORDS }
    requires agreed { IsAgreedHold task.old }
    ensures tried { HasTriedBit task.old task.new page 0 result }
    ensures sets { SetsBit task.old task.new (watch.Bit page 0) result }
    ensures holder { IsClean task.old
        → MatchBool result (IsHolder task.new (watch.Bit page 0)) (IsClean task.new) }
{
    test_and_set(domain, task, page, 0)
}
