//! Waits for a page and for a bit that are asked to leave in threads of their own, beside one that takes it first and
//! gives it back, and a second one that waits for it, again and again, in Domains whose tasks park at once when they are
//! put asleep.

ghost use Rattle.std.specs.Prelude.{◌≡◌};
ghost use Rattle.wait_model.specs.declared.watches.Watch.TheVariants as watch;
ghost use Rattle.wait_rule.specs.Says.{RestsIn};
ghost use Rattle.bit_wait.specs.Holders.{IsHolder};

use crate::bits::alone::{lock, unlock};
use crate::meetings::rows::HOLDERS;
use crate::meetings::{ROUNDS, Shared, meet_often};
use crate::pages::alone::{give, take};
use bit_wait::lock_calls::wait_on_bit_lock;
use bit_wait::lock_leaves::wait_on_bit_lock_until;
use bit_wait::wait_leaves::wait_on_bit_until;
use page_lock::leaves::lock_page_until;
use page_lock::tries::try_lock_page;
use std::sync::Wait;
use std::test::Fail;
use wait_leave::Until;
use wait_model::tasks::SleepState;
use wait_rule::tasks::set_state;
use wait_rule::{Domain, Task};

/// The page, and the bit.
const PAGE: u8 = 3;

const WORD: u8 = 5;

const BIT: u8 = 7;

/// How all of them wait.
const STATE: SleepState = SleepState::Uninterruptible;

/// Keeps the page for a yield, and gives it back: whether it kept it alone.
fn keep_page<R: Wait>(rt: &R, domain: &Domain, task: &mut Task, shared: &Shared) -> bool
    requires of { task.old.domain ≡ domain.now }
    requires holder { IsHolder task.old (watch.Bit 3 0) }
    ensures rests { RestsIn domain.now task.new }
{
    let alone = shared.keeps_alone();
    give(rt, domain, task, PAGE);
    alone
}

/// The same of the bit.
fn keep_bit<R: Wait>(rt: &R, domain: &Domain, task: &mut Task, shared: &Shared) -> bool
    requires of { task.old.domain ≡ domain.now }
    requires holder { IsHolder task.old (watch.Bit 5 7) }
    ensures rests { RestsIn domain.now task.new }
{
    let alone = shared.keeps_alone();
    unlock(rt, domain, task, WORD, BIT);
    alone
}

/// Waits for the page, and gives it back: whether it kept it alone.
pub(crate) fn page_turn<R: Wait>(rt: &R, domain: &Domain, task: &mut Task, shared: &Shared) -> bool
    requires rests { RestsIn domain.now task.old }
    ensures rests { RestsIn domain.now task.new }
{
    if take(rt, domain, task, PAGE) {
        return keep_page(rt, domain, task, shared);
    }
    false
}

/// The same of the bit.
pub(crate) fn bit_turn<R: Wait>(rt: &R, domain: &Domain, task: &mut Task, shared: &Shared) -> bool
    requires rests { RestsIn domain.now task.old }
    ensures rests { RestsIn domain.now task.new }
{
    match wait_on_bit_lock(rt, domain, task, WORD, BIT, STATE) {
        Ok(()) => keep_bit(rt, domain, task, shared),
        Err(_) => false,
    }
}

/// The same of the page until it is asked to leave: whether it kept the page alone, or was left with the page set.
pub(crate) fn page_until<R: Wait>(rt: &R, domain: &Domain, task: &mut Task, shared: &Shared) -> bool
    requires rests { RestsIn domain.now task.old }
    ensures rests { RestsIn domain.now task.new }
{
    let asks = || shared.asks();
    match lock_page_until(rt, domain, task, PAGE, STATE, asks) {
        Until::Over(Ok(())) => keep_page(rt, domain, task, shared),
        Until::Over(Err(_)) => false,
        Until::Left { seen } => seen == 1,
    }
}

/// And of the bit.
pub(crate) fn bit_until<R: Wait>(rt: &R, domain: &Domain, task: &mut Task, shared: &Shared) -> bool
    requires rests { RestsIn domain.now task.old }
    ensures rests { RestsIn domain.now task.new }
{
    let asks = || shared.asks();
    match wait_on_bit_lock_until(rt, domain, task, WORD, BIT, STATE, asks) {
        Until::Over(Ok(())) => keep_bit(rt, domain, task, shared),
        Until::Over(Err(_)) => false,
        Until::Left { seen } => seen == 128,
    }
}

/// Waits until the bit is clear, or it is asked to leave: whether it was, or the wait was left with the bit set.
pub(crate) fn sees_clear<R: Wait>(rt: &R, domain: &Domain, task: &mut Task, shared: &Shared) -> bool
    requires rests { RestsIn domain.now task.old }
    ensures rests { RestsIn domain.now task.new }
{
    let asks = || shared.asks();
    let end = wait_on_bit_until(rt, domain, task, WORD, BIT, STATE, asks);
    set_state(domain, task, 0);
    match end {
        Until::Over(end) => end.is_ok(),
        Until::Left { seen } => seen == 128,
    }
}

/// Whether the page and the bit are clear, and nobody is woken where they are given back.
pub(crate) fn is_clear<R: Wait>(rt: &R, domain: &Domain, task: &mut Task) -> bool
    requires rests { RestsIn domain.now task.old }
{
    if !try_lock_page(domain, task, PAGE) {
        return false;
    }
    let none = give(rt, domain, task, PAGE).holds == 0;
    lock(domain, task, WORD, BIT) && unlock(rt, domain, task, WORD, BIT) == 0 && none
}

/// Whenever the wait is asked to leave, each of the other two gets the page or the bit in its turn, no two keep it at
/// once, and in the end it is clear and no entry stands in its queue.
#[test]
fn left_taker_keeps_nothing_from_others(rt: HostRuntime) -> Result<(), Fail> {
    meet_often(&rt, rt.alloc(), ROUNDS / 3, HOLDERS)
}
