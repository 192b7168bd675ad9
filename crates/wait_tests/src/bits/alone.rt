//! One task alone: it takes a bit once, and does not wait for a bit that is clear.

ghost use Rattle.std.specs.Prelude.{◌≡◌, ◌<◌, true, MatchBool};
ghost use Rattle.wait_model.specs.declared.layout.TheConstants.{BIT_WORDS, WORD_BITS};
ghost use Rattle.wait_model.specs.declared.watches.Watch.TheVariants as watch;
ghost use Rattle.wait_rule.specs.{Bits.KeepsBitOf, Says.IsClean, Says.RestsIn};
ghost use Rattle.bit_wait.specs.Holders.{IsHolder};
ghost use Rattle.wq_head.specs.Readied.{IsUpAndIdle};

use bit_wait::clears::clear_and_wake_bit;
use bit_wait::lock_calls::wait_on_bit_lock;
use bit_wait::tries::test_and_set;
use bit_wait::wait_calls::wait_on_bit;
use std::sync::Wait;
use std::test::Fail;
use test_tasks::wants::all_so;
use wait_model::tasks::SleepState;
use wait_rule::bits::bit_clear;
use wait_rule::{Domain, Task};

/// Takes a bit: true where it was clear.
pub(crate) fn take(domain: &Domain, task: &mut Task, word: u8, bit: u8) -> bool
    requires of { task.old.domain ≡ domain.now }
    requires rest { IsUpAndIdle task.old }
    requires word { word < BIT_WORDS }
    requires bit { bit < WORD_BITS }
    ensures of { task.new.domain ≡ domain.now }
    ensures rest { IsUpAndIdle task.new }
    ensures keeps { result ≡ true → KeepsBitOf task.new (watch.Bit word bit) }
{
    test_and_set(domain, task, word, bit)
}

/// Gives a bit back.
pub(crate) fn give(domain: &Domain, task: &mut Task, word: u8, bit: u8)
    requires of { task.old.domain ≡ domain.now }
    requires rest { IsUpAndIdle task.old }
    requires word { word < BIT_WORDS }
    requires bit { bit < WORD_BITS }
    requires keeps { KeepsBitOf task.old (watch.Bit word bit) }
    ensures of { task.new.domain ≡ domain.now }
    ensures rest { IsUpAndIdle task.new }
{
    bit_clear(domain, task, word, bit);
}

/// Takes a bit, for who owes nothing: true where it was clear.
pub(crate) fn lock(domain: &Domain, task: &mut Task, word: u8, bit: u8) -> bool
    requires rests { RestsIn domain.now task.old }
    requires word { word < BIT_WORDS }
    requires bit { bit < WORD_BITS }
    ensures of { task.new.domain ≡ domain.now }
    ensures holder { MatchBool result (IsHolder task.new (watch.Bit word bit)) (IsClean task.new) }
{
    test_and_set(domain, task, word, bit)
}

/// Gives it back and wakes who waits for it: how many holds that took.
pub(crate) fn unlock<R: Wait>(rt: &R, domain: &Domain, task: &mut Task, word: u8, bit: u8) -> u32
    requires of { task.old.domain ≡ domain.now }
    requires holder { IsHolder task.old (watch.Bit word bit) }
    requires word { word < BIT_WORDS }
    requires bit { bit < WORD_BITS }
    ensures rests { RestsIn domain.now task.new }
{
    clear_and_wake_bit(rt, domain, task, word, bit).holds
}

/// Who took a bit and gave it back owes nothing; nobody waited for it, so it took no lock.
#[test]
fn takes_no_lock_for_nobody(rt: HostRuntime) -> Result<(), Fail> {
    let (domain, mut task) = Domain::new(rt.alloc())?;
    let mut worker = task.fork(&domain, 0)?;
    if lock(&domain, &mut worker, 5, 0) {
        assert!(rt; unlock(&rt, &domain, &mut worker, 5, 0) == 0);
        task.join(&domain, worker);
        assert!(rt; lock(&domain, &mut task, 5, 0));
        return Ok(());
    }
    panic!(rt; "the bit is clear")
}

/// A bit is taken once, until it is given back; the other bits of its word, and the last bit of all, are others.
#[test]
fn takes_a_bit_once(rt: HostRuntime) -> Result<(), Fail> {
    let (domain, mut task) = Domain::new(rt.alloc())?;
    let seen = [
        take(&domain, &mut task, 127, 63),
        !take(&domain, &mut task, 127, 63),
    ];
    all_so(&seen)?;
    if !take(&domain, &mut task, 5, 63) {
        panic!(rt; "the bit is clear")
    }
    let seen = [
        !take(&domain, &mut task, 5, 63),
        take(&domain, &mut task, 5, 0),
    ];
    all_so(&seen)
}

/// After it was given back the bit is clear.
#[test]
fn gives_a_bit_back(rt: HostRuntime) -> Result<(), Fail> {
    let (domain, mut task) = Domain::new(rt.alloc())?;
    if take(&domain, &mut task, 0, 0) {
        give(&domain, &mut task, 0, 0);
        assert!(rt; take(&domain, &mut task, 0, 0));
        return Ok(());
    }
    panic!(rt; "the bit is clear")
}

/// A wait for a bit that is clear ends at its first look.
#[test]
fn waits_for_no_clear_bit(rt: HostRuntime) -> Result<(), Fail> {
    let (domain, mut task) = Domain::new(rt.alloc())?;
    assert!(rt; wait_on_bit(&rt, &domain, &mut task, 0, 0, SleepState::Uninterruptible).is_ok());
    Ok(())
}

/// A wait for a clear bit takes it at its first try.
#[test]
fn takes_a_clear_bit_at_once(rt: HostRuntime) -> Result<(), Fail> {
    let (domain, mut task) = Domain::new(rt.alloc())?;
    let seen = [
        wait_on_bit_lock(&rt, &domain, &mut task, 127, 63, SleepState::Killable).is_ok(),
        !take(&domain, &mut task, 127, 63),
        take(&domain, &mut task, 127, 62),
    ];
    all_so(&seen)
}
