//! A task that keeps a bit while it sets a condition and waits for it: in between it owes nothing but the bit, and
//! after it gave that back nothing.

ghost use Rattle.std.specs.Prelude.{◌≡◌};
ghost use Rattle.wait_model.specs.declared.watches.Watch.TheVariants as watch;
ghost use Rattle.bit_wait.specs.Holders.{IsHolder};
ghost use Rattle.wait_rule.specs.Says.{RestsIn};

use crate::hashed::{give_bit, take_bit};
use std::sync::Wait;
use wait_event::conds::set_and_wake;
use wait_event::wait_events::wait_event;
use wait_model::tasks::{How, SleepState};
use wait_model::watches::Mode;
use wait_rule::{Domain, Task};

/// Sets condition 0, and wakes all who wait for it: how many they were.
pub fn set_with_bit<R: Wait>(rt: &R, domain: &Domain, task: &mut Task) -> u32
    requires of { task.old.domain ≡ domain.now }
    requires holder { IsHolder task.old (watch.Bit 2 16) }
    ensures of { task.new.domain ≡ domain.now }
    ensures holder { IsHolder task.new (watch.Bit 2 16) }
{
    set_and_wake(rt, domain, task, 0, 1, Mode::Normal, 0).woken
}

/// Waits until condition 0 is set: true where it was.
#[tactic(auto, unfolding(wait_rule::specs::Stays::with_bits))]
pub fn wait_with_bit<R: Wait>(rt: &R, domain: &Domain, task: &mut Task) -> bool
    requires of { task.old.domain ≡ domain.now }
    requires holder { IsHolder task.old (watch.Bit 2 16) }
    ensures of { task.new.domain ≡ domain.now }
    ensures holder { IsHolder task.new (watch.Bit 2 16) }
{
    let how = How {
        state: SleepState::Uninterruptible,
        exclusive: false,
    };
    wait_event(rt, domain, task, 0, how).is_ok()
}

/// Takes the bit, makes both calls, and gives it back: how many holds of the bit's head that took. None where
/// another task keeps the bit.
pub fn work_with_bit<R: Wait>(rt: &R, domain: &Domain, task: &mut Task) -> Option<u32>
    requires rests { RestsIn domain.now task.old }
    ensures rests { RestsIn domain.now task.new }
{
    if !take_bit(domain, task) {
        return None;
    }
    set_with_bit(rt, domain, task);
    wait_with_bit(rt, domain, task);
    Some(give_bit(rt, domain, task))
}
