//! A task that waits for condition 0 by one call, and one that sets it: each owes nothing after it, and is taken in.

ghost use Rattle.std.specs.Prelude.{◌≡◌};
ghost use Rattle.wait_event.specs.Entries.{HasWokenEntry, MayRemove};
ghost use Rattle.wait_rule.specs.Says.{RestsIn};
ghost use Rattle.wait_rule.specs.Stays.{Carries, unchanged};
ghost use Rattle.wq_user.specs.Joining.{IsUpIn};

use std::sync::Wait;
use wait_event::conds::{set_and_wake, take_cond};
use wait_event::entries::{add_entry, remove_entry};
use wait_event::wait_events::wait_event;
use wait_event::woken_waits::wait_woken;
use wait_model::queues::Form;
use wait_model::tasks::{How, SleepState};
use wait_model::watches::{Kind, Mode, Watch};
use wait_rule::queues::cond_load;
use wait_rule::{Domain, Task};

/// Waits until condition 0 is set: true where it was, and false where a signal ended the wait, or no place was left.
pub fn wait_for_zero<R: Wait>(rt: &R, domain: &Domain, task: &mut Task, state: SleepState) -> bool
    requires rests { RestsIn domain.now task.old }
    ensures rests { RestsIn domain.now task.new }
{
    let how = How {
        state,
        exclusive: false,
    };
    wait_event(rt, domain, task, 0, how).is_ok()
}

/// Sets condition 0 and wakes all who wait for it: how many they were.
pub fn set_zero<R: Wait>(rt: &R, domain: &Domain, task: &mut Task) -> u32
    requires rests { RestsIn domain.now task.old }
    ensures rests { RestsIn domain.now task.new }
{
    set_and_wake(rt, domain, task, 0, 1, Mode::Normal, 0).woken
}

/// Waits for condition 0 as one whom a wake may select: true where it was set.
pub fn wait_to_be_selected<R: Wait>(
    rt: &R,
    domain: &Domain,
    task: &mut Task,
    state: SleepState,
) -> bool
    requires rests { RestsIn domain.now task.old }
    ensures rests { RestsIn domain.now task.new }
{
    let how = How {
        state,
        exclusive: true,
    };
    wait_event(rt, domain, task, 0, how).is_ok()
}

/// Adds an entry for condition 0, and takes it off again: true where there was a place for it.
pub fn come_and_go<R: Wait>(rt: &R, domain: &Domain, task: &mut Task) -> bool
    requires rests { RestsIn domain.now task.old }
    ensures rests { RestsIn domain.now task.new }
{
    match add_entry(rt, domain, task, 0, Kind::Default, Form::Tail) {
        Ok(()) => {
            remove_entry(rt, domain, task);
            true
        }
        Err(_worn) => false,
    }
}

/// Waits for condition 0 by the flag of an entry: loads the condition, and where it is not set waits for the flag once.
/// True where there was a place for the entry.
pub fn hear_zero<R: Wait>(rt: &R, domain: &Domain, task: &mut Task, state: SleepState) -> bool
    requires rests { RestsIn domain.now task.old }
    ensures rests { RestsIn domain.now task.new }
{
    match add_entry(rt, domain, task, 0, Kind::Woken, Form::Front) {
        Ok(()) => {
            hear(rt, domain, task, state);
            remove_entry(rt, domain, task);
            true
        }
        Err(_worn) => false,
    }
}

/// Waits for the flag once, where the condition is not set.
fn hear<R: Wait>(rt: &R, domain: &Domain, task: &mut Task, state: SleepState)
    requires of { task.old.domain ≡ domain.now }
    requires may { MayRemove task.old }
    requires running { task.old.book.state ≡ 0 }
    requires entry { HasWokenEntry task.old }
    ensures may { MayRemove task.new }
    ensures carries { Carries unchanged task.old task.new }
{
    if cond_load(domain, task, Watch::Plain { cond: 0 }) == 0 {
        wait_woken(rt, domain, task, state);
    }
}

/// Takes condition 0.
pub fn take_zero(domain: &Domain, task: &mut Task) -> u64
    requires rests { RestsIn domain.now task.old }
    ensures rests { RestsIn domain.now task.new }
{
    take_cond(domain, task, 0)
}

/// Waits, and then is taken in by another task.
pub fn wait_and_join<R: Wait>(rt: &R, domain: &Domain, task: &mut Task, mut other: Task)
    requires into { IsUpIn domain.now task.old }
    requires rests { RestsIn domain.now other }
    ensures into { IsUpIn domain.now task.new }
{
    wait_for_zero(rt, domain, &mut other, SleepState::Killable);
    task.join(domain, other);
}
