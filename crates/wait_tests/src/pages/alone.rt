//! One task alone: it does not wait for a page that is clear. And the calls of tests, for who owes nothing.

ghost use Rattle.std.specs.Prelude.{◌≡◌, ◌<◌, MatchBool};
ghost use Rattle.wait_model.specs.declared.layout.TheConstants.{BIT_WORDS};
ghost use Rattle.wait_model.specs.declared.watches.Watch.TheVariants as watch;
ghost use Rattle.wait_rule.specs.Says.{IsClean, RestsIn};
ghost use Rattle.bit_wait.specs.Holders.{IsHolder};

use crate::in_order::met_nobody;
use bit_wait::BitEnd;
use page_lock::tallies::add_tally;
use page_lock::unlocks::unlock_page;
use page_lock::wait_calls::lock_page;
use std::sync::Wait;
use std::test::Fail;
use test_tasks::wants::all_so;
use wait_model::queues::Walked;
use wait_model::tasks::SleepState;
use wait_rule::running::send_signal;
use wait_rule::{Domain, Task};

/// Waits until it has taken a page, and no signal ends the wait: true where it has.
pub(crate) fn take<R: Wait>(rt: &R, domain: &Domain, task: &mut Task, page: u8) -> bool
    requires rests { RestsIn domain.now task.old }
    requires page { page < BIT_WORDS }
    ensures of { task.new.domain ≡ domain.now }
    ensures holder { MatchBool result (IsHolder task.new (watch.Bit page 0)) (IsClean task.new) }
{
    match lock_page(rt, domain, task, page, SleepState::Uninterruptible) {
        Ok(()) => true,
        Err(_) => false,
    }
}

/// Gives it back: how the walk ended.
pub(crate) fn give<R: Wait>(rt: &R, domain: &Domain, task: &mut Task, page: u8) -> Walked
    requires of { task.old.domain ≡ domain.now }
    requires holder { IsHolder task.old (watch.Bit page 0) }
    requires page { page < BIT_WORDS }
    ensures rests { RestsIn domain.now task.new }
{
    unlock_page(rt, domain, task, page)
}

/// Adds to the tally of a page that the task keeps: the tally before.
pub(crate) fn add(domain: &Domain, task: &mut Task, page: u8, amount: u64) -> u64
    requires of { task.old.domain ≡ domain.now }
    requires holder { IsHolder task.old (watch.Bit page 0) }
    requires page { page < BIT_WORDS }
    ensures of { task.new.domain ≡ domain.now }
    ensures holder { IsHolder task.new (watch.Bit page 0) }
{
    add_tally(domain, task, page, amount)
}

/// A page that is clear is taken at once; nobody waits for it when it is given back.
#[test]
fn clear_page_is_taken_at_once(rt: HostRuntime) -> Result<(), Fail> {
    let (domain, mut task) = Domain::new(rt.alloc())?;
    if !take(&rt, &domain, &mut task, 1) {
        panic!(rt; "the page is clear")
    }
    let walked = give(&rt, &domain, &mut task, 1);
    assert!(rt; met_nobody(walked, 0));
    Ok(())
}

/// A signal that is pending ends a wait for a page that is set, in a state that admits it, before the task sleeps: what
/// the test-and-set of the hold found is told, and the page is with its holder still.
#[test]
fn pending_signal_ends_the_wait(rt: HostRuntime) -> Result<(), Fail> {
    let (domain, mut task) = Domain::new(rt.alloc())?;
    let mut other = task.fork(&domain, 0)?;
    if !take(&rt, &domain, &mut task, 3) {
        panic!(rt; "the page is clear")
    }
    let number = other.number();
    send_signal(&rt, &domain, &mut other, number, false);
    let end = lock_page(&rt, &domain, &mut other, 3, SleepState::Interruptible);
    assert!(rt; matches!(end, Err(BitEnd::Interrupted { seen: 1 })));
    let walked = give(&rt, &domain, &mut task, 3);
    let seen = [walked.selected == 0, take(&rt, &domain, &mut other, 3)];
    all_so(&seen)
}
