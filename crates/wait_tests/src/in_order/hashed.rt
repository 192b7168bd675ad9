//! Waits for a bit and for a page with their ends, and a wait for a variable with its.

ghost use Rattle.std.specs.Prelude.{◌≡◌};
ghost use Rattle.wait_model.specs.declared.watches.Watch.TheVariants as watch;
ghost use Rattle.wait_rule.specs.Says.{RestsIn};
ghost use Rattle.bit_wait.specs.Holders.{IsHolder};

use super::met_nobody;
use crate::bits::lock_threads::lock_in_turn;
use crate::pages::alone::{give, take};
use crate::variables::alone::{announce, wait_for_other};
use bit_wait::{clear_and_wake_bit, wait_on_bit};
use std::sync::Wait;
use std::test::Fail;
use test_tasks::wants::all_so;
use wait_model::queues::Walked;
use wait_model::tasks::SleepState;
use wait_rule::tasks::set_state;
use wait_rule::{Domain, Task};

/// How all of them wait.
const STATE: SleepState = SleepState::Uninterruptible;

/// Waits until bit 0 of word 0 is clear: true where it was.
fn wait_for_bit<R: Wait>(rt: &R, domain: &Domain, task: &mut Task) -> bool
    requires rests { RestsIn domain.now task.old }
    ensures rests { RestsIn domain.now task.new }
{
    let over = wait_on_bit(rt, domain, task, 0, 0, STATE).is_ok();
    set_state(domain, task, 0);
    over
}

/// Gives it back: what the wake answers.
fn give_bit<R: Wait>(rt: &R, domain: &Domain, task: &mut Task) -> Walked
    requires of { task.old.domain ≡ domain.now }
    requires holder { IsHolder task.old (watch.Bit 0 0) }
    ensures rests { RestsIn domain.now task.new }
{
    clear_and_wake_bit(rt, domain, task, 0, 0)
}

#[test]
fn bit_then_page(rt: HostRuntime) -> Result<(), Fail> {
    let (domain, mut task) = Domain::new(rt.alloc())?;
    let over = wait_for_bit(&rt, &domain, &mut task);
    if !lock_in_turn(&rt, &domain, &mut task) {
        panic!(rt; "the bit is clear")
    }
    let given = give_bit(&rt, &domain, &mut task);
    if !take(&rt, &domain, &mut task, 1) {
        panic!(rt; "the page is clear")
    }
    let unlocked = give(&rt, &domain, &mut task, 1);
    let seen = [over, met_nobody(given, 0), met_nobody(unlocked, 0)];
    all_so(&seen)
}

#[test]
fn variable_then_its_change(rt: HostRuntime) -> Result<(), Fail> {
    let (domain, mut task) = Domain::new(rt.alloc())?;
    let seen = wait_for_other(&rt, &domain, &mut task, 1);
    let walked = announce(&rt, &domain, &mut task, 2);
    let seen = [matches!(seen, Ok(0)), met_nobody(walked, 0)];
    all_so(&seen)
}
