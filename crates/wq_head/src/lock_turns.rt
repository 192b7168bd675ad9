//! The lock of a head for who may not wait: its ticket is drawn, and looked at from time to time.

ghost use Rattle.std.specs.Prelude.{◌≡◌, ◌<◌, IfErr, MatchResult};
ghost use Rattle.wait_model.specs.declared.layout.TheConstants.{HEADS};
ghost use Rattle.wait_rule.specs.{Known.Known, Says.IsUp, Says.IsFree};
ghost use Rattle.wq_head.specs.LockTurns.{AwaitsLock, FindsOther, TookLock};

use wait_rule::queues::{draw, lock_step, serving_load};
use wait_rule::{Domain, Task};

/// Draws a ticket of the lock of head `head`, below `HEADS`: its number. `lock_turn` takes the lock by it, and in
/// between the task makes nothing else; whoever draws after it waits until it has held the head.
pub fn draw_lock(domain: &Domain, task: &mut Task, head: u16) -> u64
    requires of { task.old.domain ≡ domain.now }
    requires up { IsUp task.old }
    requires free { IsFree task.old }
    requires head { head < HEADS }
    ensures of { task.new.domain ≡ domain.now }
    ensures awaits { AwaitsLock task.old task.new head result }
{
    draw(domain, task, head)
}

/// One look at the ticket of head `head`, below `HEADS`, that `draw_lock` has drawn. Where it is served the task takes
/// the lock, for a hold that is part of no walk, as `lock` does. Err is the number that is served in its place: then
/// the task waits on, and looks again once another one is.
pub fn lock_turn(domain: &Domain, task: &mut Task, head: u16, ticket: u64) -> Result<(), u64>
    requires of { task.old.domain ≡ domain.now }
    requires head { head < HEADS }
    requires awaits { (start : Known) × AwaitsLock start task.old head ticket }
    ensures of { task.new.domain ≡ domain.now }
    ensures turned { (start : Known) → AwaitsLock start task.old head ticket
        → MatchResult result (λ _. TookLock start task.new head) (λ _. AwaitsLock start task.new head ticket) }
    ensures other { IfErr result (λ served. FindsOther task.old task.new head ticket served) }
{
    let served = serving_load(domain, task, head);
    if served != ticket {
        return Err(served);
    }
    lock_step(domain, task, head, None);
    Ok(())
}
