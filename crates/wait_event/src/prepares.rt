//! Preparing to wait and finishing, for who puts a wait together from parts.

ghost use Rattle.std.specs.Prelude.{◌≡◌, ◌⊎◌, false, true};
ghost use Rattle.wait_model.specs.declared.watches.Kind.TheVariants as kinds;
ghost use Rattle.wait_model.specs.{Tasks.state_mask, Watches.head_of};
ghost use Rattle.wait_event.specs.Prepares.{BeginsOwing, CarriesPrepare, EndsExclusive, EndsPart, EndsPrepare};
ghost use Rattle.wait_event.specs.Prepares.{HasFinished, IsPart, MayFinish, MayPrepare, SuitsWait};
ghost use Rattle.wait_event.specs.Prepares.{answers_first, finish_change, with_first, with_none, with_signal};
ghost use Rattle.wait_event.specs.PartSteps.{Heeds, IsAtHead, JoinsPart, ParesPart, asks_one, unsignalled};
ghost use Rattle.wait_class.specs.Posts.{Keeps, own_of};
ghost use Rattle.wait_rule.specs.{Queues.IsTold, Stays.Carries};
ghost use Rattle.wait_rule.specs.Says.{AsksNoPage, IsUp, MayStore, told_of};
ghost use Rattle.wq_head.specs.Holds.{IsHolding};

use std::sync::Wait;
use wait_class::queueing::{add_by, is_first, own_entry, wait_form};
use wait_model::heads::head_of;
use wait_model::layout::RUNNING;
use wait_model::task_words::pending_state;
use wait_model::tasks::{How, SleepState};
use wait_model::watches::{Kind, Watch};
use wait_rule::tasks::{load_own, set_state};
use wait_rule::{Domain, Task};
use wq_head::{Worn, lock, remove, unlock};

/// What a prepare that looks for a signal did: the entry is queued and the state stored, or a signal was pending that
/// the state admits, and the entry is off.
#[derive(Clone, Copy)]
pub enum Prepared {
    Queued,
    Signal,
}

/// What a prepare queues: an entry of this kind for this watch, at the tail where `how` is exclusive and else at the
/// front; which state it stores; and whether it looks for a signal first.
#[derive(Clone, Copy)]
pub(crate) struct Part {
    kind: Kind,
    watch: Watch,
    how: How,
    asks: bool,
}

impl Part {
    /// Whether it answers that its entry is the first one: an exclusive prepare that looks for no signal.
    #[inline(always)]
    fn answers_first(self) -> bool
        ensures { result ≡ answers_first self }
    {
        self.how.exclusive && !self.asks
    }

    /// Whether it looks for a signal: in a state that admits one.
    #[inline(always)]
    fn asks_one(self) -> bool
        ensures { result ≡ asks_one self }
    {
        self.asks && self.how.state.looks()
    }
}

/// In a hold: whether a signal is pending that the state admits, where the prepare looks for one.
#[inline(always)]
fn heeds(domain: &Domain, task: &mut Task, part: Part) -> bool
    requires of { task.old.domain ≡ domain.now }
    requires up { IsUp task.old }
    requires held { IsHolding task.old }
    ensures heeds { Heeds part task.old task.new result }
    ensures held { IsHolding task.new }
{
    if part.asks_one() {
        let own = load_own(domain, task);
        return pending_state(part.how.state.mask(), own);
    }
    false
}

/// In a hold of its head: takes the own entry of slot 0 off where it is queued, and answers whether it was.
#[inline(always)]
fn pare(domain: &Domain, task: &mut Task) -> bool
    requires of { task.old.domain ≡ domain.now }
    requires up { IsUp task.old }
    requires held { IsHolding task.old }
    requires home { IsAtHead task.old }
    ensures pares { ParesPart task.old task.new result }
    ensures held { IsHolding task.new }
{
    if own_entry(domain, task).is_some() {
        let me = task.number();
        remove(domain, task, me, 0);
        return true;
    }
    false
}

/// In a hold of its head: queues the own entry unless it is, and stores the state. True where this call queued it as the
/// first, and the prepare answers that. Worn comes where no place is left for the entry, and then no state is stored.
fn join(domain: &Domain, task: &mut Task, part: Part) -> Result<bool, Worn>
    requires of { task.old.domain ≡ domain.now }
    requires up { IsUp task.old }
    requires held { IsHolding task.old }
    requires head { head_of part.watch ≡ task.old.at }
    requires may { MayStore (state_mask part.how.state) task.old }
    requires home { IsPart part.watch part.kind ((told_of task.old).bits.stored (own_of task.old)) }
    requires suits { SuitsWait part.watch part.kind part.how }
    requires asks { part.kind ≡ kinds.Woken → AsksNoPage task.old }
    ensures joins { JoinsPart part task.old task.new result }
    ensures held { IsHolding task.new }
{
    if own_entry(domain, task).is_some() {
        set_state(domain, task, part.how.state.mask());
        return Ok(false);
    }
    let watch = part.watch.bare();
    let first = is_first(domain, task, head_of(watch), part.answers_first());
    match add_by(domain, task, wait_form(part.how), part.kind, watch) {
        Ok(()) => {
            set_state(domain, task, part.how.state.mask());
            Ok(first)
        }
        Err(worn) => {
            own_entry(domain, task);
            Err(worn)
        }
    }
}

/// Prepares to wait in one hold: whether the entry was queued as the first, where it answers that, or None for a signal.
fn prepare<R: Wait>(
    rt: &R,
    domain: &Domain,
    task: &mut Task,
    part: Part,
) -> Result<Option<bool>, Worn>
    requires of { task.old.domain ≡ domain.now }
    requires may { MayPrepare task.old part.watch part.kind part.how.state }
    requires suits { SuitsWait part.watch part.kind part.how }
    requires asks { part.kind ≡ kinds.Woken → AsksNoPage task.old }
    ensures ends { EndsPart task.old task.new part result }
    ensures may { MayFinish task.new }
    ensures again { MayPrepare task.new part.watch part.kind part.how.state }
    ensures keeps { Keeps (own_of task.old) task.old task.new }
    ensures begins { BeginsOwing task.old task.new }
    ensures carries { CarriesPrepare task.old task.new part.how.state (with_none result) }
{
    task.told();
    lock(rt, domain, task, head_of(part.watch));
    if heeds(domain, task, part) {
        pare(domain, task);
        unlock(rt, domain, task, false);
        task.told();
        return Ok(None);
    }
    let joined = join(domain, task, part);
    unlock(rt, domain, task, false);
    task.told();
    unsignalled(joined)
}

/// The answer of a prepare that found no signal, by that of its add.
fn unsignalled(joined: Result<bool, Worn>) -> Result<Option<bool>, Worn>
    ensures { result ≡ unsignalled joined }
{
    match joined {
        Ok(first) => Ok(Some(first)),
        Err(worn) => Err(worn),
    }
}

/// Prepares to wait in one hold (kernel/sched/wait.c, `prepare_to_wait_event`; for a simple queue
/// kernel/sched/swait.c, `prepare_to_swait_event`): where a signal is pending that the state admits the own entry of
/// slot 0 is taken off, and the answer is Signal. Else it is queued, unless it is, and the state stored, and the answer
/// is Queued: an exclusive entry goes to the tail, every other one to the front. Worn comes exactly where the entry was
/// off and no place is left for it. After Signal and Worn the entry is off and the state as it was, and after each
/// answer the task may finish, or prepare again.
///
/// The kind suits the watch: `Default`, `Autoremove` and `Woken` a plain condition below `FIRST_SIMPLE`, `Simple` one
/// from there on, which is exclusive, since a simple queue has its entries in the order in which they came, `Bit` a bit
/// and `Var` a variable, neither exclusive. The task holds no lock, is RUNNING or in this state, and has no entry queued
/// but one of this kind for this watch. With `Woken` it asks for no page.
pub fn prepare_event<R: Wait>(
    rt: &R,
    domain: &Domain,
    task: &mut Task,
    kind: Kind,
    watch: Watch,
    how: How,
) -> Result<Prepared, Worn>
    requires of { task.old.domain ≡ domain.now }
    requires may { MayPrepare task.old watch kind how.state }
    requires suits { SuitsWait watch kind how }
    requires asks { kind ≡ kinds.Woken → AsksNoPage task.old }
    ensures ends { EndsPrepare task.old task.new watch kind how true result }
    ensures may { MayFinish task.new }
    ensures again { MayPrepare task.new watch kind how.state }
    ensures keeps { Keeps (own_of task.old) task.old task.new }
    ensures begins { BeginsOwing task.old task.new }
    ensures carries { CarriesPrepare task.old task.new how.state result }
{
    let part = Part {
        kind,
        watch,
        how,
        asks: true,
    };
    match prepare(rt, domain, task, part) {
        Ok(Some(_first)) => Ok(Prepared::Queued),
        Ok(None) => Ok(Prepared::Signal),
        Err(worn) => Err(worn),
    }
}

/// Prepares to wait without a look for a signal, and not exclusively (kernel/sched/wait.c, `prepare_to_wait`). The rest
/// is as in `prepare_event`.
pub fn prepare_to_wait<R: Wait>(
    rt: &R,
    domain: &Domain,
    task: &mut Task,
    kind: Kind,
    watch: Watch,
    state: SleepState,
) -> Result<(), Worn>
    requires of { task.old.domain ≡ domain.now }
    requires may { MayPrepare task.old watch kind state }
    requires suits { SuitsWait watch kind (record { state = state; exclusive = false }) }
    requires asks { kind ≡ kinds.Woken → AsksNoPage task.old }
    ensures ends { EndsPrepare task.old task.new watch kind (record { state = state; exclusive = false }) false
        (with_signal result) }
    ensures may { MayFinish task.new }
    ensures again { MayPrepare task.new watch kind state }
    ensures keeps { Keeps (own_of task.old) task.old task.new }
    ensures begins { BeginsOwing task.old task.new }
    ensures carries { CarriesPrepare task.old task.new state (with_signal result) }
{
    let part = Part {
        kind,
        watch,
        how: How {
            state,
            exclusive: false,
        },
        asks: false,
    };
    match prepare(rt, domain, task, part) {
        Ok(Some(_first)) => Ok(()),
        Ok(None) => unreachable!(),
        Err(worn) => Err(worn),
    }
}

/// Prepares an exclusive wait without a look for a signal (kernel/sched/wait.c, `prepare_to_wait_exclusive`; for a
/// simple queue kernel/sched/swait.c, `prepare_to_swait_exclusive`): its entry goes to the tail. True exactly where this
/// call queued the entry and its hold found no entry and no bookmark of the head before it. The rest is as in
/// `prepare_event`.
pub fn prepare_exclusive<R: Wait>(
    rt: &R,
    domain: &Domain,
    task: &mut Task,
    kind: Kind,
    watch: Watch,
    state: SleepState,
) -> Result<bool, Worn>
    requires of { task.old.domain ≡ domain.now }
    requires may { MayPrepare task.old watch kind state }
    requires suits { SuitsWait watch kind (record { state = state; exclusive = true }) }
    requires asks { kind ≡ kinds.Woken → AsksNoPage task.old }
    ensures ends { EndsExclusive task.old task.new watch kind state result }
    ensures may { MayFinish task.new }
    ensures again { MayPrepare task.new watch kind state }
    ensures keeps { Keeps (own_of task.old) task.old task.new }
    ensures begins { BeginsOwing task.old task.new }
    ensures carries { CarriesPrepare task.old task.new state (with_first result) }
{
    let part = Part {
        kind,
        watch,
        how: How {
            state,
            exclusive: true,
        },
        asks: false,
    };
    match prepare(rt, domain, task, part) {
        Ok(Some(first)) => Ok(first),
        Ok(None) => unreachable!(),
        Err(worn) => Err(worn),
    }
}

/// Finishes a wait that was put together from parts (kernel/sched/wait.c, `finish_wait`; for a simple queue
/// kernel/sched/swait.c, `finish_swait`): stores RUNNING, looks at the own entry of slot 0 without the lock, and takes
/// it off in a hold of its head only where it is queued. Afterwards the task is RUNNING, and the entry off. The entry is
/// of any kind, for any watch but a completion; the task holds no lock, and is in any state.
pub fn finish_wait<R: Wait>(rt: &R, domain: &Domain, task: &mut Task)
    requires of { task.old.domain ≡ domain.now }
    requires may { MayFinish task.old }
    ensures finished { HasFinished task.old task.new }
    ensures carries { Carries (finish_change (own_of task.old) task.new.at) task.old task.new }
{
    task.told();
    take_off(rt, domain, task);
    task.told();
}

/// Stores RUNNING, and takes the entry off if it is queued.
fn take_off<R: Wait>(rt: &R, domain: &Domain, task: &mut Task)
    requires of { task.old.domain ≡ domain.now }
    requires may { MayFinish task.old }
    ensures { HasFinished task.old task.new }
{
    set_state(domain, task, RUNNING);
    match own_entry(domain, task) {
        None => {}
        Some(entry) => {
            lock(rt, domain, task, head_of(entry.watch));
            pare(domain, task);
            unlock(rt, domain, task, false);
        }
    }
}
