//! A task that waits by parts, for a condition, a variable, a bit and at a simple queue, and leaves the wait as it likes:
//! it owes nothing after it. And a wake where nothing was set.

ghost use Rattle.std.specs.Prelude.{◌≡◌};
ghost use Rattle.wait_class.specs.Posts.{Keeps, own_of};
ghost use Rattle.wait_event.specs.Prepares.{MayFinish, MayPrepare};
ghost use Rattle.wait_model.specs.Watches.{IsThere};
ghost use Rattle.wait_rule.specs.Says.{RestsIn};

use std::sync::Wait;
use wait_event::prepares::{finish_wait, prepare_event, prepare_exclusive, prepare_to_wait};
use wait_model::tasks::{How, SleepState};
use wait_model::watches::{Kind, Mode, Watch};
use wait_rule::queues::cond_load;
use wait_rule::{Domain, Task, schedule};
use wq_head::wake;

/// Sleeps until it is woken, unless this watch is set already.
fn sleep_unless_set<R: Wait>(
    rt: &R,
    domain: &Domain,
    task: &mut Task,
    kind: Kind,
    watch: Watch,
    state: SleepState,
)
    requires of { task.old.domain ≡ domain.now }
    requires there { IsThere watch }
    requires again { MayPrepare task.old watch kind state }
    requires may { MayFinish task.old }
    ensures of { task.new.domain ≡ domain.now }
    ensures again { MayPrepare task.new watch kind state }
    ensures may { MayFinish task.new }
    ensures keeps { Keeps (own_of task.old) task.old task.new }
{
    let _ = (kind, state);
    if watch.misses(cond_load(domain, task, watch)) {
        schedule(rt, domain, task);
    }
}

/// Waits once for condition 0, by parts: prepares, loads the condition, sleeps where it is not set, and finishes. True
/// where there was a place for the entry.
pub fn wait_by_parts<R: Wait>(rt: &R, domain: &Domain, task: &mut Task, state: SleepState) -> bool
    requires rests { RestsIn domain.now task.old }
    ensures rests { RestsIn domain.now task.new }
{
    let watch = Watch::Plain { cond: 0 };
    let queued = prepare_to_wait(rt, domain, task, Kind::Autoremove, watch, state).is_ok();
    sleep_unless_set(rt, domain, task, Kind::Autoremove, watch, state);
    finish_wait(rt, domain, task);
    queued
}

/// Waits for variable 20 to differ from `old`, by parts: prepares, loads it, sleeps where it does not, prepares once
/// more, loads it, and finishes. True where it differed then.
pub fn wait_for_change<R: Wait>(rt: &R, domain: &Domain, task: &mut Task, old: u64) -> bool
    requires rests { RestsIn domain.now task.old }
    ensures rests { RestsIn domain.now task.new }
{
    let watch = Watch::Var { var: 20, old };
    let state = SleepState::Interruptible;
    let how = How {
        state,
        exclusive: false,
    };
    let first = prepare_event(rt, domain, task, Kind::Var, watch, how);
    sleep_unless_set(rt, domain, task, Kind::Var, watch, state);
    let second = prepare_event(rt, domain, task, Kind::Var, watch, how);
    let now = cond_load(domain, task, watch);
    finish_wait(rt, domain, task);
    first.is_ok() && second.is_ok() && now != old
}

/// Looks for bit 3 of word 2 to be clear, by parts: prepares and loads it twice without a sleep between, gives up, and
/// finishes. True where it found the bit clear.
pub fn look_for_bit<R: Wait>(rt: &R, domain: &Domain, task: &mut Task) -> bool
    requires rests { RestsIn domain.now task.old }
    ensures rests { RestsIn domain.now task.new }
{
    let watch = Watch::Bit { word: 2, bit: 3 };
    let state = SleepState::Uninterruptible;
    let first = prepare_to_wait(rt, domain, task, Kind::Bit, watch, state).is_ok();
    let was = cond_load(domain, task, watch);
    let second = prepare_to_wait(rt, domain, task, Kind::Bit, watch, state).is_ok();
    let now = cond_load(domain, task, watch);
    finish_wait(rt, domain, task);
    first && second && !(watch.misses(was) && watch.misses(now))
}

/// Waits for condition 50, whose queue is a simple one, by parts: prepares, loads it, sleeps where it is not set,
/// prepares once more, and finishes. True where there was a place for the entry.
pub fn wait_at_simple<R: Wait>(rt: &R, domain: &Domain, task: &mut Task) -> bool
    requires rests { RestsIn domain.now task.old }
    ensures rests { RestsIn domain.now task.new }
{
    let watch = Watch::Plain { cond: 50 };
    let state = SleepState::Interruptible;
    let first = prepare_exclusive(rt, domain, task, Kind::Simple, watch, state).is_ok();
    sleep_unless_set(rt, domain, task, Kind::Simple, watch, state);
    let second = prepare_exclusive(rt, domain, task, Kind::Simple, watch, state).is_ok();
    finish_wait(rt, domain, task);
    first && second
}

/// Waits for condition 1 by an entry that no wake takes off, by parts, and leaves it by a finish.
pub fn wait_by_default<R: Wait>(rt: &R, domain: &Domain, task: &mut Task) -> bool
    requires rests { RestsIn domain.now task.old }
    ensures rests { RestsIn domain.now task.new }
{
    let watch = Watch::Plain { cond: 1 };
    let state = SleepState::Killable;
    let first = prepare_to_wait(rt, domain, task, Kind::Default, watch, state).is_ok();
    sleep_unless_set(rt, domain, task, Kind::Default, watch, state);
    let second = prepare_to_wait(rt, domain, task, Kind::Default, watch, state).is_ok();
    finish_wait(rt, domain, task);
    first && second
}

/// Wakes all who wait for condition 0: how many were woken.
pub fn wake_zero<R: Wait>(rt: &R, domain: &Domain, task: &mut Task) -> u32
    requires rests { RestsIn domain.now task.old }
    ensures rests { RestsIn domain.now task.new }
{
    wake(rt, domain, task, Watch::Plain { cond: 0 }, Mode::Normal, 0).woken
}
