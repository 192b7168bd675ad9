//! A task that queues its entry of slot 0 for condition 0, sleeps until it is woken, and takes its entry off.

ghost use Rattle.std.specs.Prelude.{◌≡◌, ◌<◌, IfOk, IfErr, Some};
ghost use Rattle.wait_model.specs.declared.watches.Watch.TheVariants as watch;
ghost use Rattle.wait_model.specs.Watches.{head_of};
ghost use Rattle.wait_rule.specs.Says.{IsClean, IsUp, OwesBut, RestsIn, no_excuse};
ghost use Rattle.wait_rule.specs.Stays.{Carries, take_off_change};
ghost use Rattle.wq_head.specs.{Holds.IsHolding, Readied.IsPlainKind};
ghost use Rattle.wq_user.specs.Waiting.{HasQueuedOwn, IsWaiting};

use std::sync::Wait;
use wait_model::heads::head_of;
use wait_model::layout::UNINTERRUPTIBLE;
use wait_model::tasks::Sleep;
use wait_model::watches::{Kind, Watch};
use wait_model::words::entry_of;
use wait_rule::queues::entry_load;
use wait_rule::tasks::set_state;
use wait_rule::{Domain, Task, schedule};
use wq_head::{Worn, add_tail, lock, remove, unlock};

/// Queues the own entry at the tail of the head of condition 0. Worn comes where the head has no place left, and then
/// the task owes nothing still.
#[tactic(auto, unfolding(wait_model::specs::Watches::head_of))]
pub fn queue<R: Wait>(rt: &R, domain: &Domain, task: &mut Task, kind: Kind) -> Result<(), Worn>
    requires rests { RestsIn domain.now task.old }
    requires kind { IsPlainKind kind }
    ensures of { task.new.domain ≡ domain.now }
    ensures queued { IfOk result (λ _. IsWaiting task.new) }
    ensures running { IfOk result (λ _. task.new.book.state ≡ 0) }
    ensures worn { IfErr result (λ _. IsClean task.new) }
{
    let head = head_of(Watch::Plain { cond: 0 });
    lock(rt, domain, task, head);
    let added = add_own(domain, task, kind);
    unlock(rt, domain, task, false);
    added
}

/// Adds the own entry in a hold of its head.
#[tactic(auto, unfolding(wait_model::specs::Watches::head_of))]
fn add_own(domain: &Domain, task: &mut Task, kind: Kind) -> Result<(), Worn>
    requires of { task.old.domain ≡ domain.now }
    requires up { IsUp task.old }
    requires held { IsHolding task.old }
    requires at { task.old.at ≡ head_of (watch.Plain 0) }
    requires owes { OwesBut no_excuse task.old }
    requires kind { IsPlainKind kind }
    ensures of { task.new.domain ≡ domain.now }
    ensures up { IsUp task.new }
    ensures held { IsHolding task.new }
    ensures at { task.new.at ≡ task.old.at }
    ensures state { task.new.book.state ≡ task.old.book.state }
    ensures queued { IfOk result (λ _. HasQueuedOwn task.new) }
    ensures worn { IfErr result (λ _. OwesBut no_excuse task.new) }
{
    let watch = Watch::Plain { cond: 0 };
    add_tail(domain, task, 0, kind, false, watch)
}

/// Stores the state in which the task is to sleep.
pub fn prepare(domain: &Domain, task: &mut Task)
    requires of { task.old.domain ≡ domain.now }
    requires waiting { IsWaiting task.old }
    requires running { task.old.book.state ≡ 0 }
    ensures of { task.new.domain ≡ domain.now }
    ensures waiting { IsWaiting task.new }
{
    set_state(domain, task, UNINTERRUPTIBLE);
}

/// Sleeps until the task is woken, if it is to sleep.
pub fn sleep<R: Wait>(rt: &R, domain: &Domain, task: &mut Task) -> Sleep
    requires of { task.old.domain ≡ domain.now }
    requires waiting { IsWaiting task.old }
    ensures of { task.new.domain ≡ domain.now }
    ensures waiting { IsWaiting task.new }
    ensures running { task.new.book.state ≡ 0 }
{
    schedule(rt, domain, task)
}

/// Takes the own entry off in a hold of its head, if it is still queued.
fn take_off(domain: &Domain, task: &mut Task)
    requires of { task.old.domain ≡ domain.now }
    requires up { IsUp task.old }
    requires held { IsHolding task.old }
    requires at { task.old.at ≡ head_of (watch.Plain 0) }
    requires entry { HasQueuedOwn task.old }
    ensures of { task.new.domain ≡ domain.now }
    ensures up { IsUp task.new }
    ensures held { IsHolding task.new }
    ensures at { task.new.at ≡ task.old.at }
    ensures state { task.new.book.state ≡ task.old.book.state }
    ensures owes { OwesBut no_excuse task.new }
{
    let who = task.number();
    let word = entry_load(domain, task, who, 0);
    match entry_of(word.0) {
        None => {}
        Some(_) => remove(domain, task, who, 0),
    }
}

/// Leaves the queue. The task owes nothing after it.
#[tactic(auto, unfolding(wait_model::specs::Watches::head_of))]
pub fn leave<R: Wait>(rt: &R, domain: &Domain, task: &mut Task)
    requires of { task.old.domain ≡ domain.now }
    requires waiting { IsWaiting task.old }
    requires running { task.old.book.state ≡ 0 }
    ensures rests { RestsIn domain.now task.new }
{
    let head = head_of(Watch::Plain { cond: 0 });
    lock(rt, domain, task, head);
    take_off(domain, task);
    unlock(rt, domain, task, false);
}
