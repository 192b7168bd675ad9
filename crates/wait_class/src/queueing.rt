//! The own entry: how it is looked at, and how it is added in a hold, by its form.

ghost use Rattle.std.specs.Prelude.{◌≡◌, ◌<◌, not, true, Some, None, IfOk, IfErr};
ghost use Rattle.wait_class.specs.Posts.{HasSeenOwn};
ghost use Rattle.wait_class.specs.Queueing.{IsForBy, TellsFirst, form_entry, wait_form};
ghost use Rattle.wait_model.specs.Queues.{is_priority};
ghost use Rattle.wait_model.specs.Watches.{head_of, is_simple};
ghost use Rattle.wait_model.specs.declared.layout.TheConstants.{FIRST_DONE_HEAD, PRIORITY_TASKS};
ghost use Rattle.wait_model.specs.declared.watches.Kind.TheVariants as kinds;
ghost use Rattle.wait_rule.specs.{Ends.WasWorn, Queues.index, Stays.Carries, Stays.only_looks};
ghost use Rattle.wait_rule.specs.Says.{AsksNoPage, IsUp, told_of};
ghost use Rattle.wq_head.specs.{Holds.IsHolding, Looks.Looks};
ghost use Rattle.wq_head.specs.Adds.{HasAdded, IsFormPlace, IsFormWorn};

use wait_model::queues::Form;
use wait_model::tasks::How;
use wait_model::watches::{Entry, Kind, Watch};
use wait_model::words::entry_of;
use wait_rule::queues::entry_load;
use wait_rule::{Domain, Task};
use wq_head::{Worn, add_front, add_priority, add_tail, has_members};

/// Loads the own entry of slot 0.
#[inline(always)]
pub fn own_entry(domain: &Domain, task: &mut Task) -> Option<Entry>
    requires of { task.old.domain ≡ domain.now }
    requires up { IsUp task.old }
    ensures { HasSeenOwn task.old task.new result }
{
    let me = task.number();
    let word = entry_load(domain, task, me, 0);
    entry_of(word.0)
}

/// Where a wait puts its entry: an exclusive one at the tail, every other one at the front.
#[inline(always)]
pub fn wait_form(how: How) -> Form
    ensures { result ≡ wait_form how }
{
    if how.exclusive {
        Form::Tail
    } else {
        Form::Front
    }
}

/// Queues the own entry of slot 0, which is off, by its form, at the head that the task holds. One of kind Simple has
/// the form Tail, and is not exclusive; the watch is no completion. One of kind Woken is queued by a task that asks for
/// no page. Worn comes exactly where no place is left for it, and then nothing changes.
#[inline(always)]
pub fn add_by(
    domain: &Domain,
    task: &mut Task,
    form: Form,
    kind: Kind,
    watch: Watch,
) -> Result<(), Worn>
    requires of { task.old.domain ≡ domain.now }
    requires up { IsUp task.old }
    requires held { IsHolding task.old }
    requires head { head_of watch ≡ task.old.at }
    requires few { is_priority form ≡ true → task.old.view.number < PRIORITY_TASKS }
    requires plain { IsForBy form watch kind }
    requires low { head_of watch < FIRST_DONE_HEAD }
    requires asks { kind ≡ kinds.Woken → AsksNoPage task.old }
    requires out { (told_of task.old).bits.stored (index task.old.view.number 0) ≡ None }
    ensures queued { IfOk result (λ _. HasAdded (IsFormPlace form) task.old task.new 0 (form_entry form watch kind)) }
    ensures worn { IfErr result (λ w. IsFormWorn form task.old task.new w) }
    ensures held { IsHolding task.new }
    ensures at { task.new.at ≡ task.old.at }
    ensures noted { IfErr result (λ w. WasWorn task.new.view.number task.new.view.items w.head w.place) }
    ensures same { IfErr result (λ w. Carries only_looks task.old task.new) }
{
    match form {
        Form::Front => add_front(domain, task, 0, kind, watch),
        Form::Tail => add_tail(domain, task, 0, kind, has_flags(kind), watch),
        Form::Priority => add_priority(domain, task, 0, kind, watch),
    }
}

/// Whether entries of this kind have flags: simple ones have none, and are not exclusive.
fn has_flags(kind: Kind) -> bool
    ensures { result ≡ not (is_simple kind) }
{
    match kind {
        Kind::Simple => false,
        _ => true,
    }
}

/// Whether the head that the task holds has no member, where that is asked for; else false.
pub fn is_first(domain: &Domain, task: &mut Task, head: u16, asked: bool) -> bool
    requires of { task.old.domain ≡ domain.now }
    requires up { IsUp task.old }
    requires held { IsHolding task.old }
    requires head { head ≡ task.old.at }
    ensures looks { Looks task.old task.new }
    ensures tells { TellsFirst asked task.new result }
    ensures held { IsHolding task.new }
{
    if asked {
        return !has_members(domain, task, head);
    }
    false
}
