//! The list of a head's members.

ghost use Rattle.head_tests.specs.Ready.{IsFreeIn, IsReadyIn};

use crate::heads::strangers::queue_for;
use crate::heads::waiting::queue_own;
use crate::scenes::{Beside, want_beside};
use std::sync::Wait;
use std::test::Fail;
use wait_model::layout::{FIRST_PLAIN_HEAD, RUNNING};
use wait_model::watches::{Kind, Watch};
use wait_rule::{Domain, Task};
use wq_head::lists::{Member, Members};
use wq_head::locks::{lock, unlock};
use wq_head::looks::members;

/// Whether a member is the entry of slot 0 of a task, and its word shows an entry.
fn is_entry_of(member: Member, who: u8) -> bool {
    match member {
        Member::Entry { task, slot, word } => task == who && slot == 0 && word.queued(),
        Member::Mark { .. } => false,
    }
}

/// Whether a hold shows that the head has these two members, in their order.
fn shows_two<R: Wait>(rt: &R, domain: &Domain, task: &mut Task, first: u8, second: u8) -> bool
    requires there { IsFreeIn domain.now task.old }
{
    let mut list = Members::new();
    lock(rt, domain, task, FIRST_PLAIN_HEAD);
    let count = members(domain, task, FIRST_PLAIN_HEAD, &mut list);
    unlock(rt, domain, task, false);
    count == 2 && is_entry_of(list.at(0), first) && is_entry_of(list.at(1), second)
}

/// Queues the entry of one task at the tail, and then that of another at the front.
pub(crate) fn queues_two<R: Wait>(
    rt: &R,
    domain: &Domain,
    task: &mut Task,
    other: &mut Task,
) -> [bool; 3]
    requires ready { IsReadyIn domain.now task.old × IsReadyIn domain.now other.old }
{
    let watch = Watch::Plain { cond: 0 };
    [
        queue_own(rt, domain, task, Kind::Default, false, RUNNING),
        queue_for(rt, domain, other, Kind::Autoremove, watch),
        shows_two(rt, domain, task, 1, 0),
    ]
}

/// Who was added at the front stands before who was added at the tail.
#[test]
fn members_in_order(rt: HostRuntime) -> Result<(), Fail> {
    want_beside(&rt, rt.alloc(), Beside::QueuesTwo)
}
