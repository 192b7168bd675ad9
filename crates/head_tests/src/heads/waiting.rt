//! What tasks do at the head of condition 0, for tests: they queue their entry of slot 0 there, and take it off. And
//! a count of the members of all heads.

ghost use Rattle.std.specs.Prelude.{◌≡◌};
ghost use Rattle.wait_model.specs.{declared.layout.TheConstants.FIRST_PLAIN_HEAD, Tasks.IsState};
ghost use Rattle.wait_rule.specs.Says.{IsUp};
ghost use Rattle.wq_head.specs.{Holds.IsHolding, Readied.IsPlainKind, Readied.StaysInHold};
ghost use Rattle.head_tests.specs.Ready.{IsFreeIn, IsReadyIn};

use std::sync::Wait;
use wait_model::heads::head_of;
use wait_model::layout::{FIRST_PLAIN_HEAD, TASKS};
use wait_model::watches::{Kind, Watch};
use wait_model::words::entry_of;
use wait_rule::queues::{entry_load, mark_load};
use wait_rule::tasks::set_state;
use wait_rule::{Domain, Task};
use wq_head::adds::{add_tail, remove};
use wq_head::locks::{lock, unlock};

/// Queues the own entry at the tail, and stores a state in the same hold: false where there is no place.
pub(crate) fn queue_own<R: Wait>(
    rt: &R,
    domain: &Domain,
    task: &mut Task,
    kind: Kind,
    exclusive: bool,
    state: u32,
) -> bool
    requires ready { IsReadyIn domain.now task.old }
    requires kind { IsPlainKind kind }
    requires state { IsState state }
    ensures there { IsFreeIn domain.now task.new }
{
    lock(rt, domain, task, FIRST_PLAIN_HEAD);
    let watch = Watch::Plain { cond: 0 };
    let queued = add_tail(domain, task, 0, kind, exclusive, watch).is_ok();
    set_state(domain, task, state);
    unlock(rt, domain, task, false);
    queued
}

/// Takes the own entry off where it is queued in this hold's head: true where it was.
fn take_off(domain: &Domain, task: &mut Task) -> bool
    requires of { task.old.domain ≡ domain.now }
    requires up { IsUp task.old }
    requires held { IsHolding task.old }
    requires at { task.old.at ≡ FIRST_PLAIN_HEAD }
    ensures { StaysInHold task.old task.new }
{
    let who = task.number();
    let word = entry_load(domain, task, who, 0);
    match entry_of(word.0) {
        None => false,
        Some(entry) => {
            if head_of(entry.watch) == FIRST_PLAIN_HEAD {
                remove(domain, task, who, 0);
                true
            } else {
                false
            }
        }
    }
}

/// Takes the own entry off where it is still queued: true where it was.
pub(crate) fn leave<R: Wait>(rt: &R, domain: &Domain, task: &mut Task) -> bool
    requires there { IsFreeIn domain.now task.old }
    ensures there { IsFreeIn domain.now task.new }
{
    lock(rt, domain, task, FIRST_PLAIN_HEAD);
    let queued = take_off(domain, task);
    unlock(rt, domain, task, false);
    queued
}

/// How many entries are queued, and how many bookmarks are out, at all heads together.
pub(crate) fn count_members(domain: &Domain, task: &mut Task) -> (u32, u32)
    requires of { task.old.domain ≡ domain.now }
    requires up { IsUp task.old }
    ensures of { task.new.domain ≡ domain.now }
    ensures up { IsUp task.new }
{
    let mut entries: u32 = 0;
    let mut marks: u32 = 0;
    for number in 0..TASKS {
        let who = number as u8;
        let first = entry_load(domain, task, who, 0).queued();
        let second = entry_load(domain, task, who, 1).queued();
        let mark = mark_load(domain, task, who) != 0;
        entries = entries.saturating_add(u32::from(first));
        entries = entries.saturating_add(u32::from(second));
        marks = marks.saturating_add(u32::from(mark));
    }
    (entries, marks)
}
