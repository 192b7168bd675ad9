//! Tallies under mutexes: a word to which tasks add one while they hold a mutex, and what a task reads there that joins
//! the others. A tally is a condition variable whose signals are the adds (`cond_signal`, `cond_broadcast`).

ghost use Rattle.std.specs.Prelude.{◌≡◌, ◌≢◌, ◌<◌, ◌≤◌, ◌+◌, IfErr, IfOk};
ghost use Rattle.wait_model.specs.declared.layout.TheConstants.{FIRST_SIMPLE};
ghost use Rattle.wait_model.specs.declared.watches.Watch.TheVariants as watch;
ghost use Rattle.wait_model.specs.declared.steps.Step.TheVariants as step;
ghost use Rattle.wait_rule.specs.declared.journal.Item.TheVariants as item;
ghost use Rattle.wait_rule.specs.{Journals.joined_with, Journals.left_with, Queues.IsIdle, Stays.Carries};
ghost use Rattle.wait_rule.specs.Stays.{unchanged};
ghost use Rattle.wait_rule.specs.Says.{IsClean, IsShown, IsUp, added, newcomer, seen_with};
ghost use Rattle.futex_table.specs.Holding.{HoldsMutex, StayHeld};
ghost use Rattle.futex_table.specs.TalliedTasks.{
  CutOffTallied,
  HasReadTally,
  JoinsTallied,
  LeftTallied,
  ReadsAllAdds,
  StayTallied,
};

use wait_model::watches::Watch;
use wait_rule::queues::cond_load;
use wait_rule::{Domain, NoTask, Task};

/// Loads tally `tally`, below `FIRST_SIMPLE`, under mutex `lock`, which the task holds. The two differ. The task is
/// idle, and so it is afterwards.
pub fn tally_read(domain: &Domain, task: &mut Task, tally: u8, lock: u8) -> u64
    requires of { task.old.domain ≡ domain.now }
    requires up { IsUp task.old }
    requires idle { IsIdle task.old }
    requires tally { tally < FIRST_SIMPLE }
    requires apart { tally ≢ lock }
    requires held { HoldsMutex task.old lock }
    ensures loads { task.new ≡ added task.old (item.Made (step.Load (watch.Plain tally) result)) }
    ensures up { IsUp task.new }
    ensures idle { IsIdle task.new }
    ensures carries { Carries unchanged task.old task.new }
    ensures held { StayHeld task.old task.new }
    ensures holds { HoldsMutex task.new lock }
    ensures tallied { StayTallied lock task.old task.new }
    ensures read { HasReadTally task.new lock tally result }
{
    let _ = lock;
    cond_load(domain, task, Watch::Plain { cond: tally })
}

/// Cuts a task off this one, as `Task::fork` does, with `share` further numbers of its own to give out: it has added to
/// no tally, and this one keeps what is known of each, with the numbers that are left.
pub fn tally_fork(domain: &Domain, task: &mut Task, share: u8) -> Result<Task, NoTask>
    requires of { task.old.domain ≡ domain.now }
    requires up { IsUp task.old }
    ensures room { IfOk result (λ t. 1 + share ≤ task.old.view.spare) }
    ensures new { IfOk result
        (λ t. t ≡ newcomer task.old.domain task.old.view.next (task.old.view.next + 1) share) }
    ensures old { IfOk result (λ t. task.new ≡ seen_with task.old (left_with share task.old.view)) }
    ensures none { IfErr result (λ e. (e.spare ≡ task.old.view.spare) × (task.old.view.spare < 1 + share)) }
    ensures same { IfErr result (λ e. task.new ≡ task.old) }
    ensures of { task.new.domain ≡ domain.now }
    ensures clean { IsClean task.old → IsClean task.new }
    ensures new_of { IfOk result (λ t. t.domain ≡ domain.now) }
    ensures new_clean { IfOk result (λ t. IsClean t) }
    ensures new_tallied { IfOk result (λ t. CutOffTallied (1 + share) task.old t) }
    ensures tallied { IfOk result (λ t. LeftTallied (1 + share) task.old task.new) }
{
    task.fork(domain, share)
}

/// Takes in the history of a task that is done, as `Task::join` does: the adds to a tally of both. Where the two have
/// all numbers of the Domain between them, what this task has read in the tally, while it held the mutex, is the number
/// of adds of all tasks, modulo 2^64.
pub fn tally_join(domain: &Domain, task: &mut Task, other: Task)
    requires of { (task.old.domain ≡ domain.now) × (other.domain ≡ domain.now) }
    requires up { IsUp task.old }
    requires clean { IsClean other }
    ensures joined { task.new ≡ seen_with task.old (joined_with task.old.view other.view) }
    ensures law { IsShown task.new.view }
    ensures of { task.new.domain ≡ domain.now }
    ensures up { IsUp task.new }
    ensures clean { IsClean task.old → IsClean task.new }
    ensures tallied { JoinsTallied task.old other task.new }
    ensures reads { ReadsAllAdds task.old other }
{
    task.join(domain, other);
}
