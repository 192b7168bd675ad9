//! Tallies on one thread, by a task that has the lists of all tasks.

ghost use Rattle.std.specs.Prelude.{◌≡◌, ◌<◌, ◌+◌, ◌-◌, ◌%◌, ◌^◌, IfSome};
ghost use Rattle.wait_model.specs.declared.layout.TheConstants.{PAGES, TASKS};
ghost use Rattle.wait_rule.specs.Says.{newcomer};

use crate::scenes::{Alone, want};
use std::test::Fail;
use wait_model::words::bit_at;
use wait_rule::bits::bit_set;
use wait_rule::domain::{Domain, Task};
use wait_rule::tallies::tally_add;

/// Adds two amounts to the tally of a page, which nobody has taken yet, and reads it: their sum, modulo 2^64. None
/// where the page was taken.
pub(crate) fn count_up(
    domain: &Domain,
    task: &mut Task,
    page: u8,
    one: u64,
    two: u64,
) -> Option<u64>
    requires new { task.old ≡ newcomer domain.now 0 1 (TASKS - 1) }
    requires page { page < PAGES }
    ensures { IfSome result (λ n. n ≡ (one + two) % 2 ^ 64) }
{
    if bit_at(bit_set(domain, task, page, 0), 0) {
        return None;
    }
    tally_add(domain, task, page, one);
    tally_add(domain, task, page, two);
    Some(tally_add(domain, task, page, 0))
}

/// What was added to a page is read back.
#[test]
fn reads_the_sum(rt: HostRuntime) -> Result<(), Fail> {
    want(&rt, rt.alloc(), Alone::Sums)
}

/// A tally wraps: it is a sum modulo 2^64.
#[test]
fn wraps(rt: HostRuntime) -> Result<(), Fail> {
    want(&rt, rt.alloc(), Alone::SumsWrap)
}
