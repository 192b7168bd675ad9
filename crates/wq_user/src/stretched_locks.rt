//! A wait to take a bit that goes on by stretches: a task keeps the bit, or owes nothing, once the wait is over.

ghost use Rattle.std.specs.Prelude.{◌≡◌, MatchBool};
ghost use Rattle.wait_model.specs.declared.watches.Watch.TheVariants as watch;
ghost use Rattle.wait_rule.specs.Says.{IsClean, RestsIn};
ghost use Rattle.bit_wait.specs.{Holders.IsHolder, LockTables.lock_table};

use crate::stretched::{Stretched, go_on};
use bit_wait::clear_and_wake_bit;
use bit_wait::lock_calls::{begin_lock, end_lock, stretch_lock, woke_lock};
use bit_wait::lock_waits::{LockBit, LockOutcome, LockRun, LockTest};
use std::sync::Wait;
use wait_class::frame_stages::{Framed, Stage};
use wait_class::stages::Turn;
use wait_model::tasks::SleepState;
use wait_rule::queues::Passing;
use wait_rule::{Domain, Task};

/// Waits to take a bit.
struct LockWaits {}

impl Stretched for LockWaits {
    type Call = Framed<LockBit>;

    type Stage = Stage<LockTest>;

    type Outcome = LockOutcome;

    ghost table = { lock_table };

    fn stretch(
        domain: &Domain,
        task: &mut Task,
        wait: &mut LockRun,
        stage: Stage<LockTest>,
        passing: &mut Passing,
    ) -> Turn<Stage<LockTest>, LockOutcome> {
        stretch_lock(domain, task, wait, stage, passing)
    }

    fn woke(domain: &Domain, task: &mut Task, wait: &LockRun, stage: Stage<LockTest>) -> bool {
        woke_lock(domain, task, wait, stage)
    }
}

/// Takes bit 1 of bit word 0 by stretches: true where the task keeps it.
pub fn take_bit<R: Wait>(rt: &R, domain: &Domain, task: &mut Task, state: SleepState) -> bool
    requires rests { RestsIn domain.now task.old }
    ensures of { task.new.domain ≡ domain.now }
    ensures holder { MatchBool result (IsHolder task.new (watch.Bit 0 1)) (IsClean task.new) }
{
    let mut wait = begin_lock(task, 0, 1, state);
    let outcome = go_on::<R, LockWaits>(rt, domain, task, &mut wait, Stage::Test(LockTest::First));
    match end_lock(domain, task, &wait, outcome) {
        Ok(()) => true,
        Err(_) => false,
    }
}

/// Takes bit 1 of bit word 0 by stretches, and gives it back: true where it took it.
pub fn hold_bit<R: Wait>(rt: &R, domain: &Domain, task: &mut Task, state: SleepState) -> bool
    requires rests { RestsIn domain.now task.old }
    ensures rests { RestsIn domain.now task.new }
{
    if take_bit(rt, domain, task, state) {
        clear_and_wake_bit(rt, domain, task, 0, 1);
        return true;
    }
    false
}
