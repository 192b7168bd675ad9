//! Bytes that workers pass on, and count in the tally of a page.

ghost use Rattle.std.specs.Prelude.{◌≡◌, ◌<◌, IfErr, MatchResult};
ghost use Rattle.wait_model.specs.declared.layout.TheConstants.{PIPES};
ghost use Rattle.wait_rule.specs.{Pipes.write_end, PipeSays.writing};
ghost use Rattle.wait_pipe.specs.Pieces.{IsSettled};
ghost use Rattle.copy_turns.specs.Turns.{CountedAll, HandedAll, HandedFront};
ghost use Rattle.copy_turns.specs.Work.{Apart, IsAtWork, IsOwnHalt, Locks};
ghost use Rattle.flow_copy.specs.{PageWaits.PageWaits, Workers.CountsBytes, Workers.HandsBytes};

use bit_wait::BitEnd;
use copy_plan::COUNTED_PAGE;
use copy_plan::stop::Halt;
use copy_turns::{is_killed, put_whole};
use page_lock::{add_tally, lock_page, unlock_page};
use std::sync::Wait;
use wait_model::tasks::SleepState;
use wait_rule::{Domain, Task};

/// Locks the page of the copy, and waits for it interruptibly: where a signal ended a wait the own ones are taken, and it
/// waits again unless a fatal one was among them.
fn lock_counted<R: Wait>(rt: &R, domain: &Domain, task: &mut Task) -> Result<(), Halt>
    requires of { task.old.domain ≡ domain.now }
    requires work { IsAtWork task.old }
    ensures waits { PageWaits task.old task.new result }
    ensures locks { MatchResult result (λ _. Locks task.old task.new) (λ _. Apart task.old task.new) }
    ensures cause { IfErr result (IsOwnHalt task.old task.new) }
{
    for _ in rt.forever() {
        task.told();
        match lock_page(rt, domain, task, COUNTED_PAGE, SleepState::Interruptible) {
            Ok(()) => return Ok(()),
            Err(BitEnd::Worn { head, place }) => return Err(Halt::Worn { head, place }),
            Err(BitEnd::Interrupted { .. }) => {
                if is_killed(domain, task) {
                    return Err(Halt::Killed);
                }
            }
        }
    }
    unreachable!()
}

/// Adds `amount` to the tally of the page of the copy, and locks the page for it.
pub(crate) fn count<R: Wait>(
    rt: &R,
    domain: &Domain,
    task: &mut Task,
    amount: u64,
) -> Result<(), Halt>
    requires of { task.old.domain ≡ domain.now }
    requires work { IsAtWork task.old }
    ensures counts { MatchResult result (λ _. CountedAll amount task.old task.new) (λ _. Apart task.old task.new) }
    ensures cause { IfErr result (IsOwnHalt task.old task.new) }
    ensures goes { CountsBytes amount task.old task.new result }
{
    lock_counted(rt, domain, task)?;
    add_tally(domain, task, COUNTED_PAGE, amount);
    task.told();
    unlock_page(rt, domain, task, COUNTED_PAGE);
    Ok(())
}

/// Puts all the bytes into pipe `pipe`, and counts them.
pub(crate) fn hand_on<R: Wait>(
    rt: &R,
    domain: &Domain,
    task: &mut Task,
    pipe: u8,
    bytes: &[u8],
) -> Result<(), Halt>
    requires of { task.old.domain ≡ domain.now }
    requires work { IsAtWork task.old }
    requires pipe { pipe < PIPES }
    requires settled { IsSettled (writing pipe task.old) }
    ensures handed { MatchResult result (λ _. HandedAll (write_end pipe) task.old task.new bytes.now)
        (λ halt. HandedFront (write_end pipe) task.old task.new bytes.now halt) }
    ensures goes { HandsBytes (write_end pipe) task.old task.new bytes.now result }
{
    put_whole(rt, domain, task, pipe, bytes)?;
    count(rt, domain, task, bytes.len() as u64)
}
