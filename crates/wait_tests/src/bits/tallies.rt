//! The tally of a page, to which two threads add while they keep the page's bit: in the end it is the sum.

ghost use Rattle.std.specs.Prelude.{◌≡◌, ◌<◌};
ghost use Rattle.wait_model.specs.declared.layout.TheConstants.{PAGES};
ghost use Rattle.wait_model.specs.declared.watches.Watch.TheVariants as watch;
ghost use Rattle.wait_rule.specs.Says.{RestsIn};
ghost use Rattle.bit_wait.specs.Holders.{IsHolder};

use crate::bits::alone::{lock, unlock};
use crate::meetings::rows::BIT_TALLY;
use crate::meetings::{ROUNDS, meet_often};
use std::sync::Wait;
use std::test::Fail;
use std::thread;
use wait_rule::tallies::tally_add;
use wait_rule::{Domain, Task};

/// How often each task adds in a round, and to the tally of which page.
const ADDS: u64 = 25;

const PAGE: u8 = 3;

/// Adds to the tally of a page whose bit the task keeps, and answers the number before.
fn add(domain: &Domain, task: &mut Task, page: u8, amount: u64) -> u64
    requires of { task.old.domain ≡ domain.now }
    requires holder { IsHolder task.old (watch.Bit page 0) }
    requires page { page < PAGES }
    ensures of { task.new.domain ≡ domain.now }
    ensures holder { IsHolder task.new (watch.Bit page 0) }
{
    tally_add(domain, task, page, amount)
}

/// Takes the page's bit, adds to its tally and gives the bit back, as soon as the bit is clear.
fn add_once<R: Wait>(rt: &R, domain: &Domain, task: &mut Task, amount: u64)
    requires rests { RestsIn domain.now task.old }
    ensures rests { RestsIn domain.now task.new }
{
    for _ in rt.forever() {
        if lock(domain, task, PAGE, 0) {
            add(domain, task, PAGE, amount);
            unlock(rt, domain, task, PAGE, 0);
            return;
        }
        thread::yield_now();
    }
    unreachable!()
}

/// The same again and again.
pub(crate) fn add_often<R: Wait>(rt: &R, domain: &Domain, task: &mut Task, amount: u64) -> bool
    requires rests { RestsIn domain.now task.old }
    ensures rests { RestsIn domain.now task.new }
{
    for _ in 0..ADDS {
        add_once(rt, domain, task, amount);
    }
    true
}

/// Whatever the order of the steps, the tally is in the end what both have added, modulo 2^64.
#[test]
fn two_add_to_one_tally(rt: HostRuntime) -> Result<(), Fail> {
    meet_often(&rt, rt.alloc(), ROUNDS, BIT_TALLY)
}
