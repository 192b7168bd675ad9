//! Tasks that take one page and give it back in threads of their own, again and again, in Domains whose tasks park at
//! once when they are put asleep.

ghost use Rattle.wait_rule.specs.Says.{RestsIn};

use crate::meetings::rows::{PAGE_OF_FOUR, PAGE_OF_TWO};
use crate::meetings::{ROUNDS, meet_often};
use crate::pages::alone::{add, give, take};
use page_lock::tries::try_lock_page;
use std::sync::Wait;
use std::test::Fail;
use wait_rule::{Domain, Task};

/// The page.
const PAGE: u8 = 3;

/// Takes the page, adds 1 to its tally, and gives it back: whether it took it.
fn add_once<R: Wait>(rt: &R, domain: &Domain, task: &mut Task) -> bool
    requires rests { RestsIn domain.now task.old }
    ensures rests { RestsIn domain.now task.new }
{
    if !take(rt, domain, task, PAGE) {
        return false;
    }
    add(domain, task, PAGE, 1);
    give(rt, domain, task, PAGE);
    true
}

/// The same `n` times.
pub(crate) fn add_often<R: Wait>(rt: &R, domain: &Domain, task: &mut Task, n: u64) -> bool
    requires rests { RestsIn domain.now task.old }
    ensures rests { RestsIn domain.now task.new }
{
    for _ in 0..n {
        add_once(rt, domain, task);
    }
    true
}

/// The tally in the end, when each has given the page back: None where the page is set still.
pub(crate) fn last_tally(domain: &Domain, task: &mut Task) -> Option<u64>
    requires rests { RestsIn domain.now task.old }
{
    if try_lock_page(domain, task, PAGE) {
        return Some(add(domain, task, PAGE, 0));
    }
    None
}

/// Whatever the order of the steps, each task takes the page each time, and the tally is what both have added.
#[test]
fn two_take_one_page_in_turn(rt: HostRuntime) -> Result<(), Fail> {
    meet_often(&rt, rt.alloc(), ROUNDS, PAGE_OF_TWO)
}

/// Four tasks lock the page so often and add 1 each time: the joined tally is the number of all adds.
#[test]
fn tally_of_four(rt: HostRuntime) -> Result<(), Fail> {
    meet_often(&rt, rt.alloc(), 5, PAGE_OF_FOUR)
}
