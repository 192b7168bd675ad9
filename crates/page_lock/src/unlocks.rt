//! The call that gives a page back, and hands it to who waits for it.

ghost use Rattle.std.specs.Prelude.{◌≡◌, ◌<◌};
ghost use Rattle.wait_model.specs.declared.layout.TheConstants.{BIT_WORDS};
ghost use Rattle.wait_model.specs.declared.watches.Watch.TheVariants as watch;
ghost use Rattle.wait_rule.specs.{Bits.KeepsBitOf, Queues.IsIdle};
ghost use Rattle.wait_rule.specs.Says.{IsClean, IsUp, told_of, TriesNone};
ghost use Rattle.bit_wait.specs.{Holders.IsHolder, Clears.GivesBack, Clears.HasClearedBit};

use bit_wait::clear_and_wake_bit;
use std::sync::Wait;
use wait_model::queues::Walked;
use wait_rule::{Domain, Task};

/// Gives back page `page`, below `BIT_WORDS`, which the task keeps by its own history (`unlock_page`, mm/filemap.c):
/// clears the page's bit, looks for members of its head without the lock, and walks only where there may be some;
/// `holds` is 0 exactly where that look showed none. The walk wakes those who wait for the bit without taking it, and
/// takes the page for the first who waits for the page: it sets the bit in that task's name, tells it by the flag of
/// its entry, wakes it whatever its state, and takes its entry off. So the page may be kept by another task as soon as
/// the call is over, and this one is kept out as any other.
///
/// It ends as `Spent` where a waiter got the page, or was woken to take it; as `Stopped` where the walk came to one who
/// waits for the page and found the bit set, by somebody who took it since the clear and whose own unlock walks again;
/// and as `End` behind the last member, or where the look showed none. The task is idle, has no entry queued by which
/// it would try a bit itself, and is idle afterwards; it keeps the page no more, and owes nothing of it; a holder that
/// owed nothing else owes nothing. So it leaves nobody asleep (`laws::unlock_page_loses_none`).
pub fn unlock_page<R: Wait>(rt: &R, domain: &Domain, task: &mut Task, page: u8) -> Walked
    requires of { task.old.domain ≡ domain.now }
    requires up { IsUp task.old }
    requires idle { IsIdle task.old }
    requires page { page < BIT_WORDS }
    requires keeps { KeepsBitOf task.old (watch.Bit page 0) }
    requires tries { TriesNone (told_of task.old) }
    ensures cleared { HasClearedBit task.old task.new page 0 result }
    ensures up { IsUp task.new }
    ensures idle { IsIdle task.new }
    ensures gives { GivesBack task.old task.new (watch.Bit page 0) }
    ensures clean { IsHolder task.old (watch.Bit page 0) → IsClean task.new }
{
    clear_and_wake_bit(rt, domain, task, page, 0)
}
