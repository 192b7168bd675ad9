//! One turn of a task that waits for two conditions: both entries are queued, both conditions loaded, and the task
//! sleeps, or has an answer.

ghost use Rattle.std.specs.Prelude.{◌≡◌, Err, Some};
ghost use Rattle.wait_rule.specs.{Says.IsFree, Says.IsUp, Stays.Carries, Stays.unchanged};
ghost use Rattle.wait_class.specs.Posts.{IsOut};
ghost use Rattle.poll_wait.specs.Polls.{
  AsksSignal,
  EndsLast,
  EndsQueueing,
  EndsTurn,
  HasBoth,
  IsPoll,
  LeavesBoth,
  MayTurn,
  QueuesBoth,
  loaded,
  pair_change,
  ready_of,
  with_both,
};
ghost use Rattle.poll_wait.specs.Seconds.{IsSecondOut};
ghost use Rattle.poll_wait.specs.TurnSteps.{EndsSo, TurnCarries, worn_end};

use crate::seconds::{join_second, leave_second};
use std::sync::Wait;
use thiserror::Error;
use wait_event::{finish_wait, prepare_to_wait};
use wait_model::task_words::pending_state;
use wait_model::tasks::SleepState;
use wait_model::watches::Watch;
use wait_rule::queues::cond_load;
use wait_rule::tasks::load_own;
use wait_rule::{Domain, Task, schedule};
use wq_head::Worn;

/// Which of the two conditions was found set, and the value that its last load found.
#[derive(Clone, Copy, Debug, Drop)]
pub enum Ready {
    First { value: u64 },
    Second { value: u64 },
}

/// Why a wait for two conditions ended though neither was set. Signal: the look behind the last loads showed a signal
/// that its state admits, and those loads found `first` and `second`. Worn: no place was left at head `head`, where a
/// member stands at `place`, and the loads after it found neither set.
#[derive(Clone, Copy, Debug, Drop, Error)]
pub enum PollEnd {
    #[error("a signal ended the wait for two conditions")]
    Signal { first: u64, second: u64 },
    #[error("head {head} has no place left: a member stands at place {place}")]
    Worn { head: u16, place: u64 },
}

/// What a task waits for: two watches, and the state in which it sleeps.
#[derive(Clone, Copy)]
pub struct Poll {
    pub first: Watch,
    pub second: Watch,
    pub state: SleepState,
}

/// What the two loads found.
#[derive(Clone, Copy)]
pub struct Loads {
    pub first: u64,
    pub second: u64,
}

impl Poll {
    /// Which condition the loads found set: the first where it is, else the second where that is.
    pub fn ready(self, loads: Loads) -> Option<Ready>
        ensures { result ≡ ready_of self loads }
    {
        if !self.first.misses(loads.first) {
            return Some(Ready::First { value: loads.first });
        }
        if !self.second.misses(loads.second) {
            return Some(Ready::Second {
                value: loads.second,
            });
        }
        None
    }
}

/// Loads both conditions, the first one first.
pub fn load_both(domain: &Domain, task: &mut Task, poll: Poll) -> Loads
    requires of { task.old.domain ≡ domain.now }
    requires up { IsUp task.old }
    requires free { IsFree task.old }
    requires poll { IsPoll poll }
    ensures loaded { task.new ≡ loaded poll result task.old }
    ensures carries { Carries unchanged task.old task.new }
{
    let first = cond_load(domain, task, poll.first);
    let second = cond_load(domain, task, poll.second);
    Loads { first, second }
}

/// Whether a signal is pending that the state admits. It looks only where the state admits any.
fn asks_signal(domain: &Domain, task: &mut Task, state: SleepState) -> bool
    requires of { task.old.domain ≡ domain.now }
    requires up { IsUp task.old }
    ensures asks { AsksSignal state task.old task.new result }
    ensures carries { Carries unchanged task.old task.new }
{
    if state.looks() {
        let own = load_own(domain, task);
        return pending_state(state.mask(), own);
    }
    false
}

/// Queues both entries: the first by a prepare, and then the second. Worn comes where no place is left for one of them.
fn queue_both<R: Wait>(rt: &R, domain: &Domain, task: &mut Task, poll: Poll) -> Result<(), Worn>
    requires of { task.old.domain ≡ domain.now }
    requires poll { IsPoll poll }
    requires may { MayTurn poll task.old }
    ensures queues { EndsQueueing poll task.old task.new result }
    ensures has { HasBoth poll task.new }
    ensures carries { TurnCarries task.old task.new }
{
    match prepare_to_wait(rt, domain, task, poll.first.kind(), poll.first, poll.state) {
        Ok(()) => join_second(rt, domain, task, poll.second),
        Err(worn) => Err(worn),
    }
}

/// Takes both entries off, where they are queued: the first by a finish, and then the second.
fn leave_both<R: Wait>(rt: &R, domain: &Domain, task: &mut Task, poll: Poll)
    requires of { task.old.domain ≡ domain.now }
    requires poll { IsPoll poll }
    requires has { HasBoth poll task.old }
    ensures left { LeavesBoth task.old task.new }
    ensures up { IsUp task.new }
    ensures out { IsOut task.new }
    ensures out_second { IsSecondOut task.new }
    ensures carries { Carries (pair_change task.old.view.number (with_both task.old.view.number) (λ x. x) (λ σ. 0)
        task.new.at) task.old task.new }
{
    let _ = poll;
    finish_wait(rt, domain, task);
    leave_second(rt, domain, task);
}

/// The answer of a poll that found no place, by its last loads.
fn worn_end(poll: Poll, loads: Loads, worn: Worn) -> Result<Ready, PollEnd>
    ensures { result ≡ worn_end poll loads worn }
{
    match poll.ready(loads) {
        Some(ready) => Ok(ready),
        None => Err(PollEnd::Worn {
            head: worn.head,
            place: worn.place,
        }),
    }
}

/// The rest of a turn whose entries are both queued: it loads both conditions, and sleeps where neither is set and no
/// signal is pending.
fn sleep_unless<R: Wait>(
    rt: &R,
    domain: &Domain,
    task: &mut Task,
    poll: Poll,
) -> Option<Result<Ready, PollEnd>>
    requires of { task.old.domain ≡ domain.now }
    requires poll { IsPoll poll }
    requires has { HasBoth poll task.old }
    ensures goes { (old : _) → QueuesBoth poll old task.old → EndsTurn poll old task.new result }
    ensures ends { EndsSo poll task.old task.new result }
{
    let loads = load_both(domain, task, poll);
    if let Some(ready) = poll.ready(loads) {
        leave_both(rt, domain, task, poll);
        return Some(Ok(ready));
    }
    if asks_signal(domain, task, poll.state) {
        leave_both(rt, domain, task, poll);
        return Some(Err(PollEnd::Signal {
            first: loads.first,
            second: loads.second,
        }));
    }
    schedule(rt, domain, task);
    None
}

/// The rest of a turn in which no place was left for one of the entries.
fn leave_worn<R: Wait>(
    rt: &R,
    domain: &Domain,
    task: &mut Task,
    poll: Poll,
    worn: Worn,
) -> Result<Ready, PollEnd>
    requires of { task.old.domain ≡ domain.now }
    requires poll { IsPoll poll }
    requires has { HasBoth poll task.old }
    ensures goes { (old : _) → EndsQueueing poll old task.old (Err worn) → EndsLast poll old task.new result }
    ensures ends { EndsSo poll task.old task.new (Some result) }
{
    let seen = load_both(domain, task, poll);
    leave_both(rt, domain, task, poll);
    worn_end(poll, seen, worn)
}

/// One turn: it queues both entries unless they are, loads both conditions, and sleeps where neither is set. None: it
/// slept, and goes on.
pub(crate) fn turn<R: Wait>(
    rt: &R,
    domain: &Domain,
    task: &mut Task,
    poll: Poll,
) -> Option<Result<Ready, PollEnd>>
    requires of { task.old.domain ≡ domain.now }
    requires poll { IsPoll poll }
    requires may { MayTurn poll task.old }
    ensures goes { EndsTurn poll task.old task.new result }
    ensures ends { EndsSo poll task.old task.new result }
{
    match queue_both(rt, domain, task, poll) {
        Ok(()) => sleep_unless(rt, domain, task, poll),
        Err(worn) => Some(leave_worn(rt, domain, task, poll, worn)),
    }
}
