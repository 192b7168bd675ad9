//! Killable waits under plain and fatal signals, and a lock of a page that a signal ends, in threads of their own,
//! again and again, in Domains whose tasks park at once when they are put asleep.

ghost use Rattle.wait_rule.specs.Says.{RestsIn};

use super::interrupted;
use crate::meetings::rows::{FATAL_SIGNAL, PLAIN_SIGNAL};
use crate::meetings::{Part, ROUNDS, Shared, both, meet_often};
use crate::pages::alone::{give, take};
use page_lock::lock_page;
use std::sync::Wait;
use std::test::Fail;
use std::thread;
use test_tasks::meetings::meet_two;
use test_tasks::wants::all_so;
use wait_model::tasks::SleepState;
use wait_model::watches::Mode;
use wait_rule::{Domain, Task, send_signal, wake_task};

/// The page.
const PAGE: u8 = 3;

/// Wakes task `who` until a wake has met it, in mid-wait, and raises a signal at it then.
pub(crate) fn wake_then_signal<R: Wait>(
    rt: &R,
    domain: &Domain,
    task: &mut Task,
    who: u8,
    fatal: bool,
) -> bool
    requires rests { RestsIn domain.now task.old }
    ensures rests { RestsIn domain.now task.new }
{
    for _ in rt.forever() {
        if wake_task(rt, domain, task, who, Mode::Normal) {
            send_signal(rt, domain, task, who, fatal);
            return true;
        }
        thread::yield_now();
    }
    unreachable!()
}

/// A plain signal that is pending ends no killable wait: it sleeps until its condition is set.
#[test]
fn killable_wait_sleeps_on_under_a_plain_signal(rt: HostRuntime) -> Result<(), Fail> {
    meet_often(&rt, rt.alloc(), ROUNDS, PLAIN_SIGNAL)
}

/// A fatal signal ends a killable wait that has slept, for a condition that nobody sets.
#[test]
fn fatal_signal_ends_a_wait_that_slept(rt: HostRuntime) -> Result<(), Fail> {
    meet_often(&rt, rt.alloc(), ROUNDS, FATAL_SIGNAL)
}

/// Waits for the page, which stays with its holder: true where a signal ended the wait, and the page's word held 1.
pub(crate) fn lock_in_vain<R: Wait>(rt: &R, domain: &Domain, task: &mut Task) -> bool
    requires rests { RestsIn domain.now task.old }
    ensures rests { RestsIn domain.now task.new }
{
    match lock_page(rt, domain, task, PAGE, SleepState::Interruptible) {
        Ok(()) => {
            give(rt, domain, task, PAGE);
            false
        }
        Err(end) => interrupted(Err(end)) == Some(1),
    }
}

/// A signal ends a lock of a page that has slept; the page is with its holder still, and nobody waits for it.
#[test]
fn signal_ends_a_lock_that_slept(rt: HostRuntime) -> Result<(), Fail> {
    for _round in 0..ROUNDS {
        let (domain, mut holder) = Domain::with_looks(rt.alloc(), 0)?;
        let waiter = holder.fork(&domain, 0)?;
        let sender = holder.fork(&domain, 0)?;
        if !take(&rt, &domain, &mut holder, PAGE) {
            panic!(rt; "the page is clear")
        }
        let sends = Part::WakesThenSignals {
            who: waiter.number(),
            fatal: false,
        };
        let shared = Shared::new(0);
        let parts = both((Part::LocksInVain, sends), &shared);
        let (waited, sent) = meet_two(&rt, &domain, waiter, sender, parts);
        let walked = give(&rt, &domain, &mut holder, PAGE);
        all_so(&[waited.1, sent.1, walked.selected == 0, walked.woken == 0])?;
    }
    Ok(())
}
