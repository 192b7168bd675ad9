//! Waits for a bit and for a page that go on by stretches: a task owes nothing, or keeps the page, once the wait is over.

ghost use Rattle.std.specs.Prelude.{◌≡◌, ◌<◌, MatchBool};
ghost use Rattle.wait_model.specs.declared.layout.TheConstants.{BIT_WORDS};
ghost use Rattle.wait_model.specs.declared.watches.Watch.TheVariants as watch;
ghost use Rattle.wait_rule.specs.Says.{IsClean, RestsIn};
ghost use Rattle.bit_wait.specs.{BitTables.bit_table, Holders.IsHolder};

use crate::stretched::{OfClass, Stretched, go_on};
use bit_wait::wait_calls::{begin_bit, end_bit, stretch_bit, woke_bit};
use bit_wait::waits::{BitOutcome, BitRun, BitTest, WaitBit};
use page_lock::unlock_page;
use page_lock::wait_calls::{begin_page, end_page};
use page_lock::waits::{LockPage, PageStage};
use std::sync::Wait;
use wait_class::frame_stages::{Framed, Stage};
use wait_class::stages::Turn;
use wait_model::tasks::SleepState;
use wait_rule::queues::Passing;
use wait_rule::{Domain, Task};

/// Waits until a bit is clear.
struct BitWaits {}

impl Stretched for BitWaits {
    type Call = Framed<WaitBit>;

    type Stage = Stage<BitTest>;

    type Outcome = BitOutcome;

    ghost table = { bit_table };

    fn stretch(
        domain: &Domain,
        task: &mut Task,
        wait: &mut BitRun,
        stage: Stage<BitTest>,
        passing: &mut Passing,
    ) -> Turn<Stage<BitTest>, BitOutcome> {
        stretch_bit(domain, task, wait, stage, passing)
    }

    fn woke(domain: &Domain, task: &mut Task, wait: &BitRun, stage: Stage<BitTest>) -> bool {
        woke_bit(domain, task, wait, stage)
    }
}

/// Waits until bit 0 of bit word 0 is clear: true where it was seen clear.
pub fn look<R: Wait>(rt: &R, domain: &Domain, task: &mut Task, state: SleepState) -> bool
    requires rests { RestsIn domain.now task.old }
    ensures rests { RestsIn domain.now task.new }
{
    let mut wait = begin_bit(task, 0, 0, state);
    let outcome = go_on::<R, BitWaits>(rt, domain, task, &mut wait, Stage::Test(BitTest::First));
    end_bit(domain, task, &wait, outcome).is_ok()
}

/// Takes a page by stretches: true where the task keeps it.
pub fn lock<R: Wait>(rt: &R, domain: &Domain, task: &mut Task, page: u8, state: SleepState) -> bool
    requires rests { RestsIn domain.now task.old }
    requires page { page < BIT_WORDS }
    ensures of { task.new.domain ≡ domain.now }
    ensures holder { MatchBool result (IsHolder task.new (watch.Bit page 0)) (IsClean task.new) }
{
    let mut wait = begin_page(task, page, state);
    let outcome = go_on::<R, OfClass<LockPage>>(rt, domain, task, &mut wait, PageStage::First);
    match end_page(task, &wait, outcome) {
        Ok(()) => true,
        Err(_) => false,
    }
}

/// Takes page 0 by stretches, and gives it back: true where it took it.
pub fn hold<R: Wait>(rt: &R, domain: &Domain, task: &mut Task, state: SleepState) -> bool
    requires rests { RestsIn domain.now task.old }
    ensures rests { RestsIn domain.now task.new }
{
    if lock(rt, domain, task, 0, state) {
        unlock_page(rt, domain, task, 0);
        return true;
    }
    false
}
