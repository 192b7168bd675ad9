//! A wait that is put together from parts, and ends before it sleeps; and the wake without a store before it.

ghost use Rattle.std.specs.Prelude.{◌≡◌};
ghost use Rattle.wait_model.specs.declared.tasks.SleepState.TheVariants as states;
ghost use Rattle.wait_model.specs.declared.watches.Kind.TheVariants as kinds;
ghost use Rattle.wait_model.specs.declared.watches.Watch.TheVariants as watch;
ghost use Rattle.wait_event.specs.Prepares.{MayPrepare};
ghost use Rattle.wait_rule.specs.Says.{RestsIn};

use std::sync::Wait;
use wait_event::prepares::{finish_wait, prepare_to_wait};
use wait_model::tasks::SleepState;
use wait_model::watches::{Kind, Mode, Watch};
use wait_rule::{Domain, Task};
use wq_head::wake;

/// Prepares to wait for condition 0, and finishes: true where there was a place for the entry.
fn once<R: Wait>(rt: &R, domain: &Domain, task: &mut Task) -> bool
    requires of { task.old.domain ≡ domain.now }
    requires may { MayPrepare task.old (watch.Plain 0) kinds.Autoremove states.Uninterruptible }
    ensures of { task.new.domain ≡ domain.now }
    ensures may { MayPrepare task.new (watch.Plain 0) kinds.Autoremove states.Uninterruptible }
{
    let state = SleepState::Uninterruptible;
    let watch = Watch::Plain { cond: 0 };
    let queued = prepare_to_wait(rt, domain, task, Kind::Autoremove, watch, state).is_ok();
    finish_wait(rt, domain, task);
    queued
}

/// The same `n` times: true where there was a place each time.
pub(crate) fn repeat_parts<R: Wait>(rt: &R, domain: &Domain, task: &mut Task, n: u64) -> bool
    requires rests { RestsIn domain.now task.old }
{
    let mut all = true;
    for _ in 0..n {
        if !once(rt, domain, task) {
            all = false;
        }
    }
    all
}

/// Wakes who waits for condition 0, `n` times: true where nobody did.
pub(crate) fn repeat_wakes<R: Wait>(rt: &R, domain: &Domain, task: &mut Task, n: u64) -> bool
    requires rests { RestsIn domain.now task.old }
{
    let mut woken: u32 = 0;
    for _ in 0..n {
        woken |= wake(rt, domain, task, Watch::Plain { cond: 0 }, Mode::Normal, 0).woken;
    }
    woken == 0
}
