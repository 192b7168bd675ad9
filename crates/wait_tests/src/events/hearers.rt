//! Two tasks that wait by the flags of their entries, and a waker, on one thread, which goes on with one of them at a
//! time.

ghost use Rattle.std.specs.Prelude.{◌≡◌};
ghost use Rattle.wait_model.specs.declared.tasks.SleepState.TheVariants as states;
ghost use Rattle.wait_tests.specs.EventTasks.{IsHearer, IsHearingOn};
ghost use Rattle.wait_event.specs.WokenWaits.{IsHearing, IsHearingAsleep, LandsHearing};
ghost use Rattle.wait_rule.specs.Says.{RestsIn};

use crate::events::flags::{enter, is_set};
use std::sync::Wait;
use std::test::Fail;
use test_tasks::draws::next_number;
use wait_event::conds::set_and_wake;
use wait_event::woken_waits::{WokenStage, WokenTurn, begin_woken, stretch_woken, woke_woken};
use wait_model::tasks::SleepState;
use wait_model::watches::Mode;
use wait_rule::{Domain, Task};

/// How many orders are tried.
const ORDERS: u32 = 400;

/// How many turns an order has: a wait has five events, and the condition is set long before the last turn.
const TURNS: u32 = 300;

/// Goes on by one event: a load of the condition, where no wait is under way, and else one of the wait for the flag.
fn go_on(domain: &Domain, task: &mut Task, last: Option<WokenTurn>) -> Option<WokenTurn>
    requires of { task.old.domain ≡ domain.now }
    requires hears { IsHearingOn task.old last }
    ensures of { task.new.domain ≡ domain.now }
    ensures hears { IsHearingOn task.new result }
{
    match last {
        None => test(domain, task),
        Some(turn) => wait_on(domain, task, turn),
    }
}

/// Goes on with a wait.
fn wait_on(domain: &Domain, task: &mut Task, turn: WokenTurn) -> Option<WokenTurn>
    requires of { task.old.domain ≡ domain.now }
    requires lands { LandsHearing task.old states.Interruptible turn }
    ensures of { task.new.domain ≡ domain.now }
    ensures hears { IsHearingOn task.new result }
{
    match turn {
        WokenTurn::Again(stage) => step(domain, task, stage),
        WokenTurn::Asleep => look(domain, task),
        WokenTurn::Done => None,
    }
}

/// Loads the condition, and begins a wait where it is not set.
fn test(domain: &Domain, task: &mut Task) -> Option<WokenTurn>
    requires of { task.old.domain ≡ domain.now }
    requires hearer { IsHearer task.old }
    ensures of { task.new.domain ≡ domain.now }
    ensures hears { IsHearingOn task.new result }
{
    if is_set(domain, task) {
        None
    } else {
        let stage = begin_woken(task, SleepState::Interruptible);
        Some(WokenTurn::Again(stage))
    }
}

/// Makes an event of a wait.
fn step(domain: &Domain, task: &mut Task, stage: WokenStage) -> Option<WokenTurn>
    requires of { task.old.domain ≡ domain.now }
    requires hears { IsHearing task.old states.Interruptible stage }
    ensures of { task.new.domain ≡ domain.now }
    ensures hears { IsHearingOn task.new result }
{
    let turn = stretch_woken(domain, task, SleepState::Interruptible, stage);
    Some(turn)
}

/// Looks whether the task was woken.
fn look(domain: &Domain, task: &mut Task) -> Option<WokenTurn>
    requires of { task.old.domain ≡ domain.now }
    requires asleep { IsHearingAsleep task.old states.Interruptible }
    ensures of { task.new.domain ≡ domain.now }
    ensures hears { IsHearingOn task.new result }
{
    if woke_woken(domain, task, SleepState::Interruptible) {
        Some(WokenTurn::Again(WokenStage::Run))
    } else {
        Some(WokenTurn::Asleep)
    }
}

/// Plays one order: whether no task sleeps or is in a wait then.
fn play<R: Wait>(
    rt: &R,
    domain: &Domain,
    waker: &mut Task,
    first: &mut Task,
    second: &mut Task,
    seed: u32,
) -> bool
    requires rests { RestsIn domain.now waker.old }
    requires of { (first.old.domain ≡ domain.now) × (second.old.domain ≡ domain.now) }
    requires hear { IsHearer first.old × IsHearer second.old }
{
    let mut one_at = None;
    let mut two_at = None;
    let mut seed = seed;
    let mut set = false;
    for turn in 0..TURNS {
        seed = next_number(seed);
        match seed % 5 {
            0 | 1 => one_at = go_on(domain, first, one_at),
            3 | 4 => two_at = go_on(domain, second, two_at),
            _ => {}
        }
        if !set && (seed % 32 == 2 || turn == 100) {
            set_and_wake(rt, domain, waker, 0, 1, Mode::Normal, 0);
            set = true;
        }
    }
    ends(domain, first, one_at) && ends(domain, second, two_at)
}

/// Whether a task comes to a load that finds the condition set in its next events.
fn ends(domain: &Domain, task: &mut Task, last: Option<WokenTurn>) -> bool
    requires of { task.old.domain ≡ domain.now }
    requires hears { IsHearingOn task.old last }
{
    let mut at = last;
    for _ in 0..8 {
        at = go_on(domain, task, at);
    }
    at.is_none()
}

/// Whatever the order, both tasks find the condition set.
#[test]
fn hearers_end_in_each_order(rt: HostRuntime) -> Result<(), Fail> {
    for order in 0..ORDERS {
        let (domain, mut waker) = Domain::new(rt.alloc())?;
        let mut first = waker.fork(&domain, 0)?;
        let mut second = waker.fork(&domain, 0)?;
        if !enter(&rt, &domain, &mut first) || !enter(&rt, &domain, &mut second) {
            panic!(rt; "the queue is empty")
        }
        assert!(rt; play(&rt, &domain, &mut waker, &mut first, &mut second, order + 1));
    }
    Ok(())
}
