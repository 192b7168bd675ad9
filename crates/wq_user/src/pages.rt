//! Page 2 and its tally: a task that takes the page, adds to the tally and gives the page back. It owes nothing after
//! it, and is taken in.

ghost use Rattle.std.specs.Prelude.{◌≡◌, MatchBool};
ghost use Rattle.wait_model.specs.declared.watches.Watch.TheVariants as watch;
ghost use Rattle.bit_wait.specs.Holders.{IsHolder};
ghost use Rattle.wait_rule.specs.Says.{IsClean, RestsIn};
ghost use Rattle.wq_user.specs.Joining.{IsUpIn};

use page_lock::{add_tally, lock_page, try_lock_page, unlock_page};
use std::sync::Wait;
use wait_model::tasks::SleepState;
use wait_rule::{Domain, Task};

/// The page.
const PAGE: u8 = 2;

/// Takes the page: true where it was clear.
pub fn take_page(domain: &Domain, task: &mut Task) -> bool
    requires rests { RestsIn domain.now task.old }
    ensures of { task.new.domain ≡ domain.now }
    ensures holder { MatchBool result (IsHolder task.new (watch.Bit 2 0)) (IsClean task.new) }
{
    try_lock_page(domain, task, PAGE)
}

/// Adds to its tally: the tally before.
pub fn add_to_page(domain: &Domain, task: &mut Task, amount: u64) -> u64
    requires of { task.old.domain ≡ domain.now }
    requires holder { IsHolder task.old (watch.Bit 2 0) }
    ensures of { task.new.domain ≡ domain.now }
    ensures holder { IsHolder task.new (watch.Bit 2 0) }
{
    add_tally(domain, task, PAGE, amount)
}

/// Gives it back, to who waits for it: how many holds of its head that took.
pub fn give_page<R: Wait>(rt: &R, domain: &Domain, task: &mut Task) -> u32
    requires of { task.old.domain ≡ domain.now }
    requires holder { IsHolder task.old (watch.Bit 2 0) }
    ensures rests { RestsIn domain.now task.new }
{
    unlock_page(rt, domain, task, PAGE).holds
}

/// Waits until it has the page, and gives it back: true where it had it.
pub fn hold_page<R: Wait>(rt: &R, domain: &Domain, task: &mut Task) -> bool
    requires rests { RestsIn domain.now task.old }
    ensures rests { RestsIn domain.now task.new }
{
    match lock_page(rt, domain, task, PAGE, SleepState::Killable) {
        Ok(()) => {
            unlock_page(rt, domain, task, PAGE);
            true
        }
        Err(_end) => false,
    }
}

/// Takes the page, adds to its tally and gives the page back: the tally before, and None where the page was taken.
pub fn count_in_page<R: Wait>(rt: &R, domain: &Domain, task: &mut Task, amount: u64) -> Option<u64>
    requires rests { RestsIn domain.now task.old }
    ensures rests { RestsIn domain.now task.new }
{
    if !try_lock_page(domain, task, PAGE) {
        return None;
    }
    let before = add_tally(domain, task, PAGE, amount);
    unlock_page(rt, domain, task, PAGE);
    Some(before)
}

/// Counts in the page, and then is taken in by another task.
pub fn count_and_join<R: Wait>(
    rt: &R,
    domain: &Domain,
    into: &mut Task,
    mut task: Task,
    amount: u64,
) -> Option<u64>
    requires into { IsUpIn domain.now into.old }
    requires rests { RestsIn domain.now task }
    ensures into { IsUpIn domain.now into.new }
{
    let before = count_in_page(rt, domain, &mut task, amount);
    into.join(domain, task);
    before
}
