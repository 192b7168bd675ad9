//! Two tasks that take one bit and give it back in threads of their own, again and again, in Domains whose tasks park
//! at once when they are put asleep.

ghost use Rattle.std.specs.Prelude.{◌≡◌, MatchBool};
ghost use Rattle.wait_model.specs.declared.watches.Watch.TheVariants as watch;
ghost use Rattle.wait_rule.specs.Says.{IsClean, RestsIn};
ghost use Rattle.bit_wait.specs.Holders.{IsHolder};

use crate::bits::alone::unlock;
use crate::meetings::rows::BIT_TURNS;
use crate::meetings::{ROUNDS, meet_often};
use bit_wait::lock_calls::wait_on_bit_lock;
use std::sync::Wait;
use std::test::Fail;
use wait_model::tasks::SleepState;
use wait_rule::{Domain, Task};

/// Waits until it has taken the bit: true where it has.
pub(crate) fn lock_in_turn<R: Wait>(rt: &R, domain: &Domain, task: &mut Task) -> bool
    requires rests { RestsIn domain.now task.old }
    ensures of { task.new.domain ≡ domain.now }
    ensures holder { MatchBool result (IsHolder task.new (watch.Bit 0 0)) (IsClean task.new) }
{
    match wait_on_bit_lock(rt, domain, task, 0, 0, SleepState::Uninterruptible) {
        Ok(()) => true,
        Err(_) => false,
    }
}

/// Takes the bit and gives it back: whether it took it.
fn take_turn<R: Wait>(rt: &R, domain: &Domain, task: &mut Task) -> bool
    requires rests { RestsIn domain.now task.old }
    ensures rests { RestsIn domain.now task.new }
{
    if lock_in_turn(rt, domain, task) {
        unlock(rt, domain, task, 0, 0);
        return true;
    }
    false
}

/// Two turns one after the other.
pub(crate) fn take_turns<R: Wait>(rt: &R, domain: &Domain, task: &mut Task) -> bool
    requires rests { RestsIn domain.now task.old }
    ensures rests { RestsIn domain.now task.new }
{
    let first = take_turn(rt, domain, task);
    let second = take_turn(rt, domain, task);
    first && second
}

/// Whatever the order of the steps, each task takes the bit each time, and in the end it is clear.
#[test]
fn two_take_one_bit_in_turn(rt: HostRuntime) -> Result<(), Fail> {
    meet_often(&rt, rt.alloc(), ROUNDS, BIT_TURNS)
}
