//! A wait for a page and the task that gives it back on one thread, which goes on with one of them at a time.

ghost use Rattle.std.specs.Prelude.{◌≡◌};
ghost use Rattle.wait_model.specs.declared.watches.Watch.TheVariants as watch;
ghost use Rattle.wait_rule.specs.Says.{IsClean};
ghost use Rattle.bit_wait.specs.Holders.{IsHolder};

use crate::pages::alone::{give, take};
use crate::turns::go_often;
use page_lock::wait_calls::begin_page;
use page_lock::waits::{PageOutcome, PageStage};
use std::sync::Wait;
use std::test::Fail;
use wait_class::stages::Turn;
use wait_model::tasks::SleepState;
use wait_rule::{Domain, Task};

/// How many turns the wait has at most before the page is given back, and how many after it.
const BEFORE: u32 = 24;

const AFTER: u32 = 40;

/// Plays one order, by how many turns the wait has before the page is given back: whether it ended with the page taken,
/// so that nobody else can take it.
fn play<R: Wait>(rt: &R, domain: &Domain, holder: &mut Task, waiter: &mut Task, turns: u32) -> bool
    requires of { (holder.old.domain ≡ domain.now) × (waiter.old.domain ≡ domain.now) }
    requires holder { IsHolder holder.old (watch.Bit 0 0) }
    requires waiter { IsClean waiter.old }
{
    let mut run = begin_page(waiter, 0, SleepState::Uninterruptible);
    let begins = Turn::Again(PageStage::First);
    let at = go_often(domain, waiter, &mut run, begins, turns);
    give(rt, domain, holder, 0);
    let at = go_often(domain, waiter, &mut run, at, AFTER);
    matches!(at, Turn::Done(PageOutcome::Over))
}

/// Wherever the wait is when the page is given back, it has the page in the end: it took it itself, or was handed it.
#[test]
fn waits_take_the_page_in_each_order(rt: HostRuntime) -> Result<(), Fail> {
    for turns in 0..BEFORE {
        let (domain, mut holder) = Domain::new(rt.alloc())?;
        let mut waiter = holder.fork(&domain, 0)?;
        if !take(&rt, &domain, &mut holder, 0) {
            panic!(rt; "the page is clear")
        }
        assert!(rt; play(&rt, &domain, &mut holder, &mut waiter, turns));
    }
    Ok(())
}
