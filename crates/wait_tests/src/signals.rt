//! Waits that a signal ends: one that is pending before, so that they end before they sleep, and one that comes in
//! mid-wait, from another thread.

pub(crate) mod threads;

ghost use Rattle.wait_rule.specs.Says.{RestsIn};

use crate::bits::alone::take;
use crate::completions::calls::takes;
use bit_wait::{BitEnd, wait_on_bit, wait_on_bit_lock};
use std::sync::Wait;
use std::test::Fail;
use swait_queue::swait_event;
use wait_event::{WaitEnd, wait_event};
use wait_model::layout::FIRST_SIMPLE;
use wait_model::tasks::{How, SleepState};
use wait_rule::{Domain, Task, send_signal};

/// Whether a signal ended a wait whose condition was not set, and which no wake had selected.
fn is_signalled(end: Result<(), WaitEnd>) -> bool {
    matches!(
        end,
        Err(WaitEnd::Signal {
            seen: 0,
            selected: false
        })
    )
}

/// What the word of the bit held where a signal ended a wait for it.
fn interrupted(end: Result<(), BitEnd>) -> Option<u64> {
    match end {
        Err(BitEnd::Interrupted { seen }) => Some(seen),
        _ => None,
    }
}

/// A new task sends a plain signal to this one: false where no number is spare.
pub(crate) fn get_signal<R: Wait>(rt: &R, domain: &Domain, task: &mut Task) -> bool
    requires rests { RestsIn domain.now task.old }
    ensures rests { RestsIn domain.now task.new }
{
    match task.fork(domain, 0) {
        Ok(mut sender) => {
            send_signal(rt, domain, &mut sender, task.number(), false);
            true
        }
        Err(_none) => false,
    }
}

/// What is waited for.
#[derive(Clone, Copy)]
enum Waits {
    ForBit,
    ToTakeBit,
    ForCompletion,
    InSimpleQueue,
    Killable,
}

/// A wait, and whether the signal that ends it is fatal.
struct Row {
    name: &'static str,
    waits: Waits,
    fatal: bool,
}

const ROWS: &[Row] = &[
    // A wait for a bit that is set tells what its word held, and so does one that is to take it.
    Row {
        name: "signal_ends_a_wait_for_a_bit",
        waits: Waits::ForBit,
        fatal: false,
    },
    Row {
        name: "signal_ends_a_wait_that_takes_a_bit",
        waits: Waits::ToTakeBit,
        fatal: true,
    },
    // A wait for a completion that nobody made ends without one.
    Row {
        name: "signal_ends_a_wait_for_a_completion",
        waits: Waits::ForCompletion,
        fatal: false,
    },
    // One in a simple queue tells that its condition was not set.
    Row {
        name: "signal_ends_a_wait_in_a_simple_queue",
        waits: Waits::InSimpleQueue,
        fatal: false,
    },
    // A fatal signal ends a killable wait.
    Row {
        name: "fatal_signal_ends_a_killable_wait",
        waits: Waits::Killable,
        fatal: true,
    },
];

/// Waits, under a signal that its state admits: whether the wait ended so.
fn is_ended<R: Wait>(rt: &R, domain: &Domain, task: &mut Task, waits: Waits) -> bool
    requires rests { RestsIn domain.now task.old }
{
    let light = SleepState::Interruptible;
    let killable = SleepState::Killable;
    match waits {
        Waits::ForBit => interrupted(wait_on_bit(rt, domain, task, 2, 5, light)) == Some(32),
        Waits::ToTakeBit => interrupted(wait_on_bit_lock(rt, domain, task, 2, 5, killable))
            == Some(32),
        Waits::ForCompletion => !takes(rt, domain, task, 3, light),
        Waits::InSimpleQueue => is_signalled(swait_event(
            rt,
            domain,
            task,
            FIRST_SIMPLE as u8,
            light,
        )),
        Waits::Killable => is_signalled(wait_event(
            rt,
            domain,
            task,
            1,
            How {
                state: killable,
                exclusive: false,
            },
        )),
    }
}

/// Each wait, beside a task that keeps the bit.
#[test]
fn signal_ends_each_wait(rt: HostRuntime) -> Result<(), Fail> {
    for row in ROWS {
        let (domain, mut keeper) = Domain::new(rt.alloc())?;
        let mut waiter = keeper.fork(&domain, 0)?;
        let mut sender = keeper.fork(&domain, 0)?;
        let taken = take(&domain, &mut keeper, 2, 5);
        send_signal(&rt, &domain, &mut sender, waiter.number(), row.fatal);
        let ended = is_ended(&rt, &domain, &mut waiter, row.waits);
        assert!(rt; taken && ended, "{}", row.name);
    }
    Ok(())
}
