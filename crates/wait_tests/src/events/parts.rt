//! Waits that are put together from parts: of each kind, beside a wake, and in threads.

ghost use Rattle.std.specs.Prelude.{◌≡◌, false};
ghost use Rattle.wait_model.specs.declared.tasks.SleepState.TheVariants as states;
ghost use Rattle.wait_model.specs.declared.watches.Kind.TheVariants as kinds;
ghost use Rattle.wait_model.specs.declared.watches.Watch.TheVariants as watch;
ghost use Rattle.wait_model.specs.Watches.{IsThere};
ghost use Rattle.wait_event.specs.Prepares.{SuitsWait, exclusive_in};
ghost use Rattle.wait_rule.specs.Says.{IsClean, RestsIn};

use crate::meetings::rows::{VALUES_BY_TURNS, WAITERS_BY_TURNS};
use crate::meetings::{ROUNDS, meet_often};
use crate::variables::alone::VAR;
use std::sync::Wait;
use std::test::Fail;
use test_tasks::wants::all_so;
use wait_event::prepares::{
    Prepared, finish_wait, prepare_event, prepare_exclusive, prepare_to_wait,
};
use wait_model::tasks::{How, SleepState};
use wait_model::watches::{Kind, Mode, Watch};
use wait_rule::queues::cond_load;
use wait_rule::{Domain, Task, schedule};
use wq_head::wake;

/// Prepares twice, the second time in the state of the first, and finishes: true where both queued the entry, or found
/// it queued.
fn prepare_twice<R: Wait>(
    rt: &R,
    domain: &Domain,
    task: &mut Task,
    kind: Kind,
    watch: Watch,
    how: How,
) -> bool
    requires rests { RestsIn domain.now task.old }
    requires suits { SuitsWait watch kind how }
    requires sort { kind ≡ kinds.Woken → ⊥ }
    ensures rests { RestsIn domain.now task.new }
{
    let first = prepare_event(rt, domain, task, kind, watch, how);
    let second = prepare_event(rt, domain, task, kind, watch, how);
    finish_wait(rt, domain, task);
    matches!(first, Ok(Prepared::Queued)) && matches!(second, Ok(Prepared::Queued))
}

/// The same once, with an entry whose flag a wake sets.
fn prepare_for_flag<R: Wait>(rt: &R, domain: &Domain, task: &mut Task) -> bool
    requires rests { RestsIn domain.now task.old }
    ensures rests { RestsIn domain.now task.new }
{
    let watch = Watch::Plain { cond: 47 };
    let queued = prepare_to_wait(rt, domain, task, Kind::Woken, watch, SleepState::Killable);
    finish_wait(rt, domain, task);
    queued.is_ok()
}

/// An interruptible wait.
fn how_in(exclusive: bool) -> How
    ensures { result.exclusive ≡ exclusive }
{
    How {
        state: SleepState::Interruptible,
        exclusive,
    }
}

/// Prepares exclusively for condition 0 with an entry of this kind, wakes all by the other task, prepares again, and
/// finishes: whether each prepare queued the entry as the first, and how many tasks the wake woke.
fn prepare_around_wake<R: Wait>(
    rt: &R,
    domain: &Domain,
    task: &mut Task,
    waker: &mut Task,
    kind: Kind,
) -> (bool, u32, bool)
    requires of { (task.old.domain ≡ domain.now) × (waker.old.domain ≡ domain.now) }
    requires clean { IsClean task.old × IsClean waker.old }
    requires suits { SuitsWait (watch.Plain 0) kind (exclusive_in states.Interruptible) }
    requires sort { kind ≡ kinds.Woken → ⊥ }
    ensures of { (task.new.domain ≡ domain.now) × (waker.new.domain ≡ domain.now) }
    ensures clean { IsClean task.new × IsClean waker.new }
{
    let watch = Watch::Plain { cond: 0 };
    let first = prepare_exclusive(rt, domain, task, kind, watch, SleepState::Interruptible);
    let woken = wake(rt, domain, waker, watch, Mode::Normal, 0).woken;
    let second = prepare_exclusive(rt, domain, task, kind, watch, SleepState::Interruptible);
    finish_wait(rt, domain, task);
    (matches!(first, Ok(true)), woken, matches!(second, Ok(true)))
}

/// Waits for a watch by parts, as long as it takes: the value that it loaded last.
pub(crate) fn wait_in_turns<R: Wait>(
    rt: &R,
    domain: &Domain,
    task: &mut Task,
    kind: Kind,
    watch: Watch,
    state: SleepState,
) -> u64
    requires rests { RestsIn domain.now task.old }
    requires there { IsThere watch }
    requires suits { SuitsWait watch kind (record { state = state; exclusive = false }) }
    requires sort { kind ≡ kinds.Woken → ⊥ }
    ensures rests { RestsIn domain.now task.new }
{
    let _first = prepare_to_wait(rt, domain, task, kind, watch, state);
    for _ in rt.forever() {
        let value = cond_load(domain, task, watch);
        if !watch.misses(value) {
            finish_wait(rt, domain, task);
            return value;
        }
        schedule(rt, domain, task);
        let _again = prepare_to_wait(rt, domain, task, kind, watch, state);
    }
    unreachable!()
}

/// Waits for condition 0 by parts: true where it was set.
pub(crate) fn wait_by_turns<R: Wait>(rt: &R, domain: &Domain, task: &mut Task) -> bool
    requires rests { RestsIn domain.now task.old }
    ensures rests { RestsIn domain.now task.new }
{
    let watch = Watch::Plain { cond: 0 };
    wait_in_turns(
        rt,
        domain,
        task,
        Kind::Default,
        watch,
        SleepState::Uninterruptible,
    ) == 1
}

/// Waits by parts until the variable is 2, by what it saw before each time: whether it saw that.
pub(crate) fn see_by_turns<R: Wait>(rt: &R, domain: &Domain, task: &mut Task) -> bool
    requires rests { RestsIn domain.now task.old }
    ensures rests { RestsIn domain.now task.new }
{
    let state = SleepState::Uninterruptible;
    let watch = Watch::Var { var: VAR, old: 0 };
    let first = wait_in_turns(rt, domain, task, Kind::Var, watch, state);
    let second = if first == 1 {
        let watch = Watch::Var { var: VAR, old: 1 };
        wait_in_turns(rt, domain, task, Kind::Var, watch, state)
    } else {
        first
    };
    second == 2
}

/// A prepare queues an entry of each kind for a watch that suits it, and once more leaves it queued.
#[test]
fn parts_of_each_kind(rt: HostRuntime) -> Result<(), Fail> {
    let (domain, mut task) = Domain::new(rt.alloc())?;
    let cond = Watch::Plain { cond: 0 };
    let simple = Watch::Plain { cond: 63 };
    let bit = Watch::Bit { word: 127, bit: 63 };
    let var = Watch::Var { var: 127, old: 5 };
    let seen = [
        prepare_twice(&rt, &domain, &mut task, Kind::Default, cond, how_in(false)),
        prepare_twice(
            &rt,
            &domain,
            &mut task,
            Kind::Autoremove,
            cond,
            how_in(true),
        ),
        prepare_twice(&rt, &domain, &mut task, Kind::Simple, simple, how_in(true)),
        prepare_twice(&rt, &domain, &mut task, Kind::Bit, bit, how_in(false)),
        prepare_twice(&rt, &domain, &mut task, Kind::Var, var, how_in(false)),
        prepare_for_flag(&rt, &domain, &mut task),
    ];
    all_so(&seen)
}

/// A wake takes an entry of kind Autoremove off, so the next prepare queues it again; it leaves one of kind Default.
#[test]
fn kinds_around_a_wake(rt: HostRuntime) -> Result<(), Fail> {
    let (domain, mut task) = Domain::new(rt.alloc())?;
    let mut waker = task.fork(&domain, 0)?;
    let taken = prepare_around_wake(&rt, &domain, &mut task, &mut waker, Kind::Autoremove);
    let left = prepare_around_wake(&rt, &domain, &mut task, &mut waker, Kind::Default);
    let seen = [taken.0, taken.1 == 1, taken.2, left.0, left.1 == 1, !left.2];
    all_so(&seen)
}

/// Whatever the order of the steps, waits by parts end, and the waker takes their tasks in.
#[test]
fn turns_are_joined(rt: HostRuntime) -> Result<(), Fail> {
    meet_often(&rt, rt.alloc(), ROUNDS, WAITERS_BY_TURNS)
}

/// And so do those for a variable, with its last value.
#[test]
fn turns_see_each_value(rt: HostRuntime) -> Result<(), Fail> {
    meet_often(&rt, rt.alloc(), ROUNDS, VALUES_BY_TURNS)
}
