//! Entries that a task adds by itself and removes again, for who looks and sleeps in its own way.

ghost use Rattle.std.specs.Prelude.{◌≡◌, ◌<◌, true, Some, IfErr, IfOk};
ghost use Rattle.wait_model.specs.declared.layout.TheConstants.{FIRST_SIMPLE, PRIORITY_TASKS};
ghost use Rattle.wait_model.specs.declared.watches.Kind.TheVariants as kinds;
ghost use Rattle.wait_model.specs.Queues.{is_priority};
ghost use Rattle.wait_rule.specs.{Members.IsOwnKind, Stays.Carries};
ghost use Rattle.wait_rule.specs.Says.{AsksNoPage, IsFree, IsUp, told_of};
ghost use Rattle.wait_class.specs.Posts.{IsOut, own_of};
ghost use Rattle.wait_event.specs.Entries.{EndsAdd, HasRemovedOwn, HasWokenEntry, MayRemove};
ghost use Rattle.wait_event.specs.Entries.{add_change, hold_change, remove_change};

use std::sync::Wait;
use wait_class::queueing::{add_by, own_entry};
use wait_model::heads::head_of;
use wait_model::queues::Form;
use wait_model::watches::{Entry, Kind, Watch};
use wait_model::words::entry_of;
use wait_rule::queues::kept_entry;
use wait_rule::{Domain, Task};
use wq_head::{Worn, lock, remove, unlock};

/// Queues the own entry of slot 0 for condition `cond`, below `FIRST_SIMPLE`, in a hold of its own: at the front
/// (kernel/sched/wait.c, `add_wait_queue`), exclusive at the tail (`add_wait_queue_exclusive`), or with priority
/// (`add_wait_queue_priority`), for a task whose number is below `PRIORITY_TASKS`. The kind is Default, whose task a
/// wake wakes, or Woken, whose flag a wake sets before that (`woken_waits`): only the task itself takes the entry off.
/// With Woken the task asks for no page, as one that owes nothing: both wait by the flag word. The task is in any
/// state, holds no lock, and its entry is off. Worn comes exactly where no place is left for the entry, and then it is
/// off still. The task's state, its bookmark and its other entry stay, and what it owes.
pub fn add_entry<R: Wait>(
    rt: &R,
    domain: &Domain,
    task: &mut Task,
    cond: u8,
    kind: Kind,
    form: Form,
) -> Result<(), Worn>
    requires of { task.old.domain ≡ domain.now }
    requires up { IsUp task.old }
    requires free { IsFree task.old }
    requires full { cond < FIRST_SIMPLE }
    requires own { IsOwnKind kind }
    requires few { is_priority form ≡ true → task.old.view.number < PRIORITY_TASKS }
    requires out { IsOut task.old }
    requires asks { kind ≡ kinds.Woken → AsksNoPage task.old }
    ensures added { EndsAdd task.old task.new cond kind form result }
    ensures up { IsUp task.new }
    ensures free { IsFree task.new }
    ensures stands { IfOk result (λ _. MayRemove task.new) }
    ensures woken { IfOk result (λ _. kind ≡ kinds.Woken → HasWokenEntry task.new) }
    ensures carries { IfOk result (λ _. Carries (add_change (own_of task.old) task.new.at) task.old task.new) }
    ensures same { IfErr result (λ _. Carries (hold_change task.new.at) task.old task.new) }
{
    task.told();
    let watch = Watch::Plain { cond };
    lock(rt, domain, task, head_of(watch));
    let added = add_by(domain, task, form, kind, watch);
    unlock(rt, domain, task, false);
    added
}

/// The own entry of slot 0, which stands as the task queued it.
fn standing_entry(domain: &Domain, task: &mut Task) -> Entry
    requires of { task.old.domain ≡ domain.now }
    requires may { MayRemove task.old }
    ensures same { task.new ≡ task.old }
    ensures stands { (told_of task.old).bits.stored (own_of task.old) ≡ Some result }
{
    match entry_of(kept_entry(domain, task, 0).0) {
        Some(entry) => entry,
        None => unreachable!(),
    }
}

/// Takes the own entry of slot 0 off its queue, in a hold of its head (kernel/sched/wait.c, `remove_wait_queue`). It is
/// one that the task added and that nobody else takes off; so it stands. The task holds no lock. Its state, its
/// bookmark and its other entry stay, and what it owes.
pub fn remove_entry<R: Wait>(rt: &R, domain: &Domain, task: &mut Task)
    requires of { task.old.domain ≡ domain.now }
    requires may { MayRemove task.old }
    ensures removed { HasRemovedOwn task.old task.new }
    ensures up { IsUp task.new }
    ensures free { IsFree task.new }
    ensures out { IsOut task.new }
    ensures carries { Carries (remove_change (own_of task.old) task.new.at) task.old task.new }
{
    task.told();
    let entry = standing_entry(domain, task);
    let number = task.number();
    lock(rt, domain, task, head_of(entry.watch));
    own_entry(domain, task);
    remove(domain, task, number, 0);
    unlock(rt, domain, task, false);
}
