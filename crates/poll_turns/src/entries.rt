//! What is done in a hold of a head: the first entry is queued or taken off, and the head given back. `poll_wait` does so
//! with the second.

ghost use Rattle.std.specs.Prelude.{◌≡◌};
ghost use Rattle.wait_model.specs.{Tasks.state_mask, Watches.head_of, Watches.kind_for};
ghost use Rattle.wait_rule.specs.{HandedPermits.OwesNoPermit, PassedLocks.PassesNone};
ghost use Rattle.wait_rule.specs.Says.{IsUp, MayStore, told_of};
ghost use Rattle.wait_class.specs.Posts.{own_of};
ghost use Rattle.wait_event.specs.{PartSteps.IsAtHead, PartSteps.ParesPart, Prepares.IsPart};
ghost use Rattle.wq_head.specs.Holds.{IsHolding};
ghost use Rattle.poll_wait.specs.Polls.{IsPoll};
ghost use Rattle.poll_turns.specs.PollSteps.{GivesHoldBack, JoinsFirst};

use poll_wait::turns::Poll;
use wait_class::queueing::{add_by, is_first, own_entry, wait_form};
use wait_model::heads::head_of;
use wait_model::tasks::How;
use wait_rule::queues::Passing;
use wait_rule::tasks::set_state;
use wait_rule::{Domain, Task};
use wq_head::locks::give_back;
use wq_head::{Worn, remove};

/// Gives the head back, and leaves to the caller to wake the threads that park for it.
pub(crate) fn pass_on(domain: &Domain, task: &mut Task, passing: &mut Passing)
    requires of { task.old.domain ≡ domain.now }
    requires up { IsUp task.old }
    requires held { IsHolding task.old }
    requires permits { OwesNoPermit task.old }
    requires passes { PassesNone passing.old }
    ensures of { task.new.domain ≡ domain.now }
    ensures gives { GivesHoldBack task.old task.new }
    ensures passes { passing.new.head ≡ task.old.at }
{
    passing.put(give_back(domain, task, false));
}

/// In a hold of its head: queues the first entry at the front unless it is queued, and stores the state. Worn comes where
/// no place is left for it.
pub(crate) fn join_first(domain: &Domain, task: &mut Task, poll: Poll) -> Result<bool, Worn>
    requires of { task.old.domain ≡ domain.now }
    requires up { IsUp task.old }
    requires held { IsHolding task.old }
    requires poll { IsPoll poll }
    requires head { head_of poll.first ≡ task.old.at }
    requires may { MayStore (state_mask poll.state) task.old }
    requires home { IsPart poll.first (kind_for poll.first) ((told_of task.old).bits.stored (own_of task.old)) }
    ensures joins { JoinsFirst poll task.old task.new result }
    ensures held { IsHolding task.new }
{
    if own_entry(domain, task).is_some() {
        set_state(domain, task, poll.state.mask());
        return Ok(false);
    }
    let bare = poll.first.bare();
    let how = How {
        state: poll.state,
        exclusive: false,
    };
    let first = is_first(domain, task, head_of(bare), false);
    match add_by(domain, task, wait_form(how), poll.first.kind(), bare) {
        Ok(()) => {
            set_state(domain, task, poll.state.mask());
            Ok(first)
        }
        Err(worn) => {
            own_entry(domain, task);
            Err(worn)
        }
    }
}

/// In a hold of its head: takes the first entry off where it is queued.
pub(crate) fn pare_first(domain: &Domain, task: &mut Task) -> bool
    requires of { task.old.domain ≡ domain.now }
    requires up { IsUp task.old }
    requires held { IsHolding task.old }
    requires home { IsAtHead task.old }
    ensures pares { ParesPart task.old task.new result }
    ensures held { IsHolding task.new }
{
    if own_entry(domain, task).is_some() {
        let me = task.number();
        remove(domain, task, me, 0);
        return true;
    }
    false
}
