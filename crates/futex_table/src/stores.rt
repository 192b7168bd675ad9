//! A store of a word with a wake behind it.

ghost use Rattle.std.specs.Prelude.{◌≡◌, ◌<◌, false};
ghost use Rattle.wait_model.specs.declared.layout.TheConstants.{FIRST_SIMPLE};
ghost use Rattle.wait_model.specs.declared.watches.Mode.TheVariants as mode;
ghost use Rattle.wait_model.specs.declared.watches.Watch.TheVariants as watch;
ghost use Rattle.wait_rule.specs.{Queues.IsIdle, Says.IsUp, Stays.Carries};
ghost use Rattle.wait_event.specs.Conds.{HasSet, set_change};
ghost use Rattle.futex_table.specs.{Holding.OthersStayHeld, Holding.holds_mutex, TallyUses.StoresWord};

use std::sync::Wait;
use wait_model::queues::Walked;
use wait_model::watches::{Mode, Watch};
use wait_rule::queues::publish;
use wait_rule::{Domain, Task};
use wq_head::wake;

/// Stores `value` in word `word`, below `FIRST_SIMPLE`, and wakes those who wait for it with NORMAL and this count, as
/// `wait_event::set_and_wake` does.
pub fn store_and_wake<R: Wait>(
    rt: &R,
    domain: &Domain,
    task: &mut Task,
    word: u8,
    value: u64,
    count: u32,
) -> Walked
    requires of { task.old.domain ≡ domain.now }
    requires up { IsUp task.old }
    requires idle { IsIdle task.old }
    requires word { word < FIRST_SIMPLE }
    ensures set { HasSet task.old task.new word value mode.Normal count result }
    ensures up { IsUp task.new }
    ensures idle { IsIdle task.new }
    ensures carries { Carries (set_change (watch.Plain word) mode.Normal task.new.at) task.old task.new }
    ensures free { holds_mutex task.new word ≡ false }
    ensures others { OthersStayHeld word task.old task.new }
    ensures stores { StoresWord task.old task.new word value }
{
    task.told();
    let watch = Watch::Plain { cond: word };
    publish(domain, task, watch, value);
    wake(rt, domain, task, watch, Mode::Normal, count)
}
