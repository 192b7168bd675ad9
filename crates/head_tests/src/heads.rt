//! Wait queues: holds of heads, adds and removes, and wakes.

ghost use Rattle.std.specs.Prelude.{◌≡◌, ◌<◌};
ghost use Rattle.wait_model.specs.declared.layout.TheConstants.{PRIORITY_TASKS};
ghost use Rattle.head_tests.specs.Ready.{IsReadyIn};

mod cases;
mod errands;
pub(crate) mod leaving;
pub(crate) mod listed;
mod many;
pub(crate) mod pages;
mod scripts;
pub(crate) mod sleepers;
mod strangers;
pub(crate) mod tickets;
pub mod turns;
mod waiting;

use crate::scenes::{Alone, Seen, want, want_all};
use std::sync::Wait;
use std::test::Fail;
use wait_model::layout::FIRST_PLAIN_HEAD;
use wait_model::watches::{Kind, Watch};
use wait_rule::{Domain, Task};
use wq_head::adds::{add_front, add_priority, add_tail, remove};
use wq_head::locks::{lock, unlock};
use wq_head::looks::has_members;

/// Whether a second hold of a free head shows no member.
pub(crate) fn holds_twice<R: Wait>(rt: &R, domain: &Domain, task: &mut Task) -> bool
    requires ready { IsReadyIn domain.now task.old }
{
    lock(rt, domain, task, FIRST_PLAIN_HEAD);
    unlock(rt, domain, task, false);
    lock(rt, domain, task, FIRST_PLAIN_HEAD);
    let has = has_members(domain, task, FIRST_PLAIN_HEAD);
    unlock(rt, domain, task, false);
    !has
}

/// A free head is locked at once.
#[test]
fn alone(rt: HostRuntime) -> Result<(), Fail> {
    want(&rt, rt.alloc(), Alone::HoldsTwice)
}

/// Where an entry is added.
#[derive(Clone, Copy)]
pub(crate) enum Place {
    Front,
    Tail,
    Prior,
}

/// Adds the own entry, at the tail exclusive, and looks for a member.
pub(crate) fn adds<R: Wait>(rt: &R, domain: &Domain, task: &mut Task, place: Place) -> [bool; 2]
    requires ready { IsReadyIn domain.now task.old }
    requires few { task.old.view.number < PRIORITY_TASKS }
{
    lock(rt, domain, task, FIRST_PLAIN_HEAD);
    let watch = Watch::Plain { cond: 0 };
    let added = match place {
        Place::Front => add_front(domain, task, 0, Kind::Autoremove, watch),
        Place::Tail => add_tail(domain, task, 0, Kind::Default, true, watch),
        Place::Prior => add_priority(domain, task, 0, Kind::Default, watch),
    };
    let seen = [added.is_ok(), has_members(domain, task, FIRST_PLAIN_HEAD)];
    unlock(rt, domain, task, false);
    seen
}

/// What was added is a member of its head.
#[test]
fn added_is_member(rt: HostRuntime) -> Result<(), Fail> {
    want_all(&rt, rt.alloc(), Seen::AddsInFront)
}

/// What was added at the tail, exclusive, is a member too.
#[test]
fn added_at_tail(rt: HostRuntime) -> Result<(), Fail> {
    want_all(&rt, rt.alloc(), Seen::AddsAtTail)
}

/// What was added with priority is a member too.
#[test]
fn added_with_priority(rt: HostRuntime) -> Result<(), Fail> {
    want_all(&rt, rt.alloc(), Seen::AddsWithPriority)
}

/// Whether the own entry is no member once it was added and removed.
pub(crate) fn removes_added<R: Wait>(rt: &R, domain: &Domain, task: &mut Task) -> bool
    requires ready { IsReadyIn domain.now task.old }
    requires first { task.old.view.number ≡ 0 }
{
    lock(rt, domain, task, FIRST_PLAIN_HEAD);
    let watch = Watch::Plain { cond: 0 };
    let Ok(()) = add_front(domain, task, 0, Kind::Autoremove, watch) else {
        return false;
    };
    remove(domain, task, 0, 0);
    let has = has_members(domain, task, FIRST_PLAIN_HEAD);
    unlock(rt, domain, task, false);
    !has
}

/// What was removed in the same hold is no member.
#[test]
fn removed_is_no_member(rt: HostRuntime) -> Result<(), Fail> {
    want(&rt, rt.alloc(), Alone::RemovesAdded)
}
