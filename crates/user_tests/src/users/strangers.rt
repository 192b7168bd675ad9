//! Strangers at one head: a task that waits for a bit and one that waits for a variable, each in a thread of its own,
//! and who gives the bit back and changes the variable, again and again, in Domains whose tasks park at once when they
//! are put asleep.

ghost use Rattle.std.specs.Prelude.{◌≡◌};
ghost use Rattle.wait_model.specs.declared.watches.Watch.TheVariants as watch;
ghost use Rattle.bit_wait.specs.Holders.{IsHolder};
ghost use Rattle.wait_rule.specs.Says.{RestsIn};

use crate::meetings::Part;
use std::sync::Wait;
use std::test::Fail;
use std::thread;
use std::thread::Threads;
use test_tasks::meetings::meet_two;
use test_tasks::wants::{all_so, begin_two};
use wait_rule::{Domain, Task};
use wq_user::hashed::{
    change, count_members, give_bit, take_bit, wait_until_changed, wait_until_clear,
};
use wq_user::kept::work_with_bit;

/// How many rounds the test makes.
const ROUNDS: u32 = 300;

/// Who changes the variable looks a million times at most whether the waiters are there.
const DEPTH: u8 = 20;

/// What the variable is changed to.
pub(crate) const VALUE: u64 = 7;

/// Looks at most 2^depth times whether both waiters stand at their head: true once they do.
fn see_both<R: Wait>(rt: &R, domain: &Domain, task: &mut Task, depth: u8) -> bool
    requires rests { RestsIn domain.now task.old }
    ensures rests { RestsIn domain.now task.new }
{
    if depth == 0 {
        return count_members(rt, domain, task) == 2;
    }
    see_both(rt, domain, task, depth - 1) || see_both(rt, domain, task, depth - 1)
}

/// Changes the variable once both waiters are queued.
pub(crate) fn change_once<R: Wait>(rt: &R, domain: &Domain, task: &mut Task) -> bool
    requires rests { RestsIn domain.now task.old }
    ensures rests { RestsIn domain.now task.new }
{
    see_both(rt, domain, task, DEPTH);
    change(rt, domain, task, VALUE);
    true
}

/// Waits for the bit, and gives the task back: true where it was clear.
fn clear_once<R: Wait>(rt: &R, domain: &Domain, mut task: Task) -> (Task, bool)
    requires rests { RestsIn domain.now task }
    ensures rests { RestsIn domain.now result.0 }
{
    let over = wait_until_clear(rt, domain, &mut task);
    (task, over)
}

/// One who changes the variable and one who waits for that, each in a thread of its own, while the bit is kept, which is
/// given back after both have ended.
fn meet_and_give<R: Threads + Wait + Sync>(
    rt: &R,
    domain: &Domain,
    mut holder: Task,
    changer: Task,
    waiter: Task,
) -> (Task, ((Task, bool), (Task, bool)))
    requires holder { (holder.domain ≡ domain.now) × IsHolder holder (watch.Bit 2 16) }
    requires rest { RestsIn domain.now changer × RestsIn domain.now waiter }
    ensures rests { RestsIn domain.now result.0 }
    ensures rest { RestsIn domain.now result.1.0.0 × RestsIn domain.now result.1.1.0 }
{
    let parts = (Part::Changes, Part::SeesChange);
    let met = meet_two(rt, domain, changer, waiter, parts);
    give_bit(rt, domain, &mut holder);
    (holder, met)
}

/// The same beside one who waits for the bit.
fn meet_all<R: Threads + Wait + Sync>(
    rt: &R,
    domain: &Domain,
    holder: Task,
    changer: Task,
    waiter: Task,
    stranger: Task,
) -> ((Task, ((Task, bool), (Task, bool))), (Task, bool))
    requires holder { (holder.domain ≡ domain.now) × IsHolder holder (watch.Bit 2 16) }
    requires rest { RestsIn domain.now changer × RestsIn domain.now waiter × RestsIn domain.now stranger }
    ensures rests { RestsIn domain.now result.0.0 × RestsIn domain.now result.1.0 }
    ensures rest { RestsIn domain.now result.0.1.0.0 × RestsIn domain.now result.0.1.1.0 }
{
    thread::join(
        rt,
        move || -> (Task, ((Task, bool), (Task, bool)))
            requires { (holder.domain ≡ domain.now) × IsHolder holder (watch.Bit 2 16)
                × RestsIn domain.now changer × RestsIn domain.now waiter }
            ensures { RestsIn domain.entry.now result.0 × RestsIn domain.entry.now result.1.0.0
                × RestsIn domain.entry.now result.1.1.0 }
        { meet_and_give(rt, domain, holder, changer, waiter) },
        move || -> (Task, bool)
            requires { RestsIn domain.now stranger }
            ensures { RestsIn domain.entry.now result.0 }
        { clear_once(rt, domain, stranger) },
    )
}

/// Whichever entry stands first at the head: who waits for the variable is woken and done while the bit is set, and who
/// waits for the bit once that is given back. All tasks are taken in.
#[test]
fn strangers_on_one_head(rt: HostRuntime) -> Result<(), Fail> {
    for _round in 0..ROUNDS {
        let (domain, mut task) = Domain::with_looks(rt.alloc(), 0)?;
        let mut holder = task.fork(&domain, 0)?;
        let changer = task.fork(&domain, 0)?;
        let waiter = task.fork(&domain, 0)?;
        let stranger = task.fork(&domain, 0)?;
        if !take_bit(&domain, &mut holder) {
            panic!(rt; "the bit is clear")
        }
        let (met, over) = meet_all(&rt, &domain, holder, changer, waiter, stranger);
        all_so(&[met.1.0.1, met.1.1.1, over.1])?;
        task.join(&domain, met.0);
        task.join(&domain, met.1.0.0);
        task.join(&domain, met.1.1.0);
        task.join(&domain, over.0);
    }
    Ok(())
}

/// Who takes a bit and gives it back, and who changes a variable for nobody, takes no lock, and can be taken in.
#[test]
fn hashed_parts_of_one_task(rt: HostRuntime) -> Result<(), Fail> {
    let (domain, mut task, mut other) = begin_two(rt.alloc())?;
    if !take_bit(&domain, &mut other) {
        panic!(rt; "the bit is clear")
    }
    let seen = [
        give_bit(&rt, &domain, &mut other) == 0,
        wait_until_clear(&rt, &domain, &mut other),
        change(&rt, &domain, &mut other, 3) == 0,
        wait_until_changed(&rt, &domain, &mut other) == 3,
        count_members(&rt, &domain, &mut other) == 0,
    ];
    all_so(&seen)?;
    task.join(&domain, other);
    Ok(())
}

/// Who keeps a bit sets a condition and waits for it, gives the bit back, and can be taken in.
#[test]
fn bit_is_kept_over_other_calls(rt: HostRuntime) -> Result<(), Fail> {
    let (domain, mut task, mut other) = begin_two(rt.alloc())?;
    let Some(holds) = work_with_bit(&rt, &domain, &mut other) else {
        panic!(rt; "the bit is clear")
    };
    assert!(rt; holds == 0);
    task.join(&domain, other);
    Ok(())
}
