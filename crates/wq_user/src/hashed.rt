//! Bits and variables: a task that takes a bit and gives it back, one that waits until it is clear, one that waits for
//! a variable to change, and one that changes it. Each owes nothing after it. Bit 16 of word 2 and variable 16 have the
//! same head.

ghost use Rattle.std.specs.Prelude.{◌≡◌, MatchBool};
ghost use Rattle.wait_model.specs.declared.watches.Watch.TheVariants as watch;
ghost use Rattle.bit_wait.specs.Holders.{IsHolder};
ghost use Rattle.wait_rule.specs.Says.{IsClean, RestsIn};

use bit_wait::{clear_and_wake_bit, test_and_set, wait_on_bit, wait_on_bit_lock};
use std::sync::Wait;
use var_wait::publishes::publish_var_and_wake;
use var_wait::waits::wait_var;
use wait_model::tasks::SleepState;
use wait_rule::tasks::set_state;
use wait_rule::{Domain, Task};
use wq_head::{Members, lock, members, unlock};

/// The bit and the variable.
const WORD: u8 = 2;

const BIT: u8 = 16;

const VAR: u8 = 16;

/// Their head.
const HEAD: u16 = 0;

/// Takes the bit: true where it was clear.
pub fn take_bit(domain: &Domain, task: &mut Task) -> bool
    requires rests { RestsIn domain.now task.old }
    ensures of { task.new.domain ≡ domain.now }
    ensures holder { MatchBool result (IsHolder task.new (watch.Bit 2 16)) (IsClean task.new) }
{
    test_and_set(domain, task, WORD, BIT)
}

/// Gives it back, and wakes who waits for it: how many holds of its head that took.
pub fn give_bit<R: Wait>(rt: &R, domain: &Domain, task: &mut Task) -> u32
    requires of { task.old.domain ≡ domain.now }
    requires holder { IsHolder task.old (watch.Bit 2 16) }
    ensures rests { RestsIn domain.now task.new }
{
    clear_and_wake_bit(rt, domain, task, WORD, BIT).holds
}

/// Waits until it has the bit, and gives it back: true where it had it.
pub fn hold_bit<R: Wait>(rt: &R, domain: &Domain, task: &mut Task) -> bool
    requires rests { RestsIn domain.now task.old }
    ensures rests { RestsIn domain.now task.new }
{
    match wait_on_bit_lock(rt, domain, task, WORD, BIT, SleepState::Killable) {
        Ok(()) => {
            clear_and_wake_bit(rt, domain, task, WORD, BIT);
            true
        }
        Err(_end) => false,
    }
}

/// Waits until the bit is clear: true where it was.
pub fn wait_until_clear<R: Wait>(rt: &R, domain: &Domain, task: &mut Task) -> bool
    requires rests { RestsIn domain.now task.old }
    ensures rests { RestsIn domain.now task.new }
{
    let over = wait_on_bit(rt, domain, task, WORD, BIT, SleepState::Uninterruptible).is_ok();
    set_state(domain, task, 0);
    over
}

/// Waits until the variable is not 0, and answers its value.
pub fn wait_until_changed<R: Wait>(rt: &R, domain: &Domain, task: &mut Task) -> u64
    requires rests { RestsIn domain.now task.old }
    ensures rests { RestsIn domain.now task.new }
{
    wait_var(rt, domain, task, VAR, 0, SleepState::Uninterruptible).unwrap_or(0)
}

/// Stores a value in the variable, and wakes who waits for it to change: how many tasks that woke.
pub fn change<R: Wait>(rt: &R, domain: &Domain, task: &mut Task, value: u64) -> u32
    requires rests { RestsIn domain.now task.old }
    ensures rests { RestsIn domain.now task.new }
{
    publish_var_and_wake(rt, domain, task, VAR, value).woken
}

/// How many members stand at the head of both, in one hold.
pub fn count_members<R: Wait>(rt: &R, domain: &Domain, task: &mut Task) -> usize
    requires rests { RestsIn domain.now task.old }
    ensures rests { RestsIn domain.now task.new }
{
    let mut list = Members::new();
    lock(rt, domain, task, HEAD);
    let count = members(domain, task, HEAD, &mut list);
    unlock(rt, domain, task, false);
    count
}
