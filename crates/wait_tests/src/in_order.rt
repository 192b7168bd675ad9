//! The calls of each crate, one after the other by one task alone in one Domain, with all that each of them answers.
//! Where nothing else is said the waits are uninterruptible and not exclusive.

mod entries;
mod events;
mod hashed;
mod simple;

use std::test::Fail;
use wait_model::layout::FIRST_PLAIN_HEAD;
use wait_model::queues::{End, Walked};
use wait_model::watches::{Mode, Watch};
use wait_rule::Domain;
use wq_head::{lock, unlock, wake};

/// Whether a walk of so many holds came to its end and woke nobody.
pub(crate) fn met_nobody(walked: Walked, holds: u32) -> bool {
    walked.selected == 0
        && walked.woken == 0
        && walked.holds == holds
        && matches!(walked.end, End::End)
}

/// A hold of a head, and a wake there.
#[test]
fn hold_then_wake(rt: HostRuntime) -> Result<(), Fail> {
    let (domain, mut task) = Domain::new(rt.alloc())?;
    lock(&rt, &domain, &mut task, FIRST_PLAIN_HEAD);
    unlock(&rt, &domain, &mut task, false);
    let watch = Watch::Plain { cond: 0 };
    let walked = wake(&rt, &domain, &mut task, watch, Mode::Normal, 0);
    assert!(rt; met_nobody(walked, 1));
    Ok(())
}
