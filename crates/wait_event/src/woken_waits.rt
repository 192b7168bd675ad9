//! Waits for the flag of an own entry of kind Woken: by stretches, for who may not wait, and as whole calls. A wait
//! holds no head, so each of its events is a stretch.

ghost use Rattle.std.specs.Prelude.{◌≡◌, MatchBool};
ghost use Rattle.wait_rule.specs.{Queues.IsTold, Says.IsFree, Says.IsUp, Stays.Carries, Stays.unchanged};
ghost use Rattle.wait_event.specs.Entries.{HasWokenEntry, MayRemove};
ghost use Rattle.wait_event.specs.WokenWaits.{EndsWoken, Hears, IsHearing, IsHearingAsleep};
ghost use Rattle.wait_event.specs.declared.woken_waits.WokenStage.TheVariants as stage;
ghost use Rattle.wait_event.specs.declared.woken_waits.WokenTurn.TheVariants as turn;

use std::sync::Wait;
use wait_model::layout::RUNNING;
use wait_model::tasks::{Sleep, SleepState};
use wait_rule::flags::{woken_clear, woken_load};
use wait_rule::tasks::{awake, set_state};
use wait_rule::tries::{FailedTries, sleep_try};
use wait_rule::{Domain, Task, wait_up};

/// A stage of a wait for a flag: where it stands in its program.
#[derive(Clone, Copy)]
pub enum WokenStage {
    State,
    Flag,
    Sleep,
    Run,
    Clear,
}

/// What a turn did: it goes on at once; the task was put asleep, and goes on at `Run` once it was woken; or the wait
/// has ended.
#[derive(Clone, Copy)]
pub enum WokenTurn {
    Again(WokenStage),
    Asleep,
    Done,
}

/// A wait for the flag of the own entry of slot 0, of kind Woken, that is about to begin: the stage at which
/// `stretch_woken` goes on with it. The task is RUNNING and holds no lock.
pub fn begin_woken(task: &Task, state: SleepState) -> WokenStage
    requires up { IsUp task.now }
    requires free { IsFree task.now }
    requires running { task.now.book.state ≡ 0 }
    requires entry { HasWokenEntry task.now }
    ensures first { result ≡ stage.State }
    ensures at { IsHearing task.now state result }
    ensures told { IsTold task.now }
{
    let _ = state;
    task.told();
    WokenStage::State
}

/// Goes on with a wait by one event, for who may not wait: an executor, or a caller from another language. Again: it
/// goes on there at once, by the next call; that is the same stage where the own word changed during a try to sleep.
/// Asleep: it was put asleep, and goes on at `Run` once `woke_woken` has answered true. Done: the wait is over.
#[inline(always)]
pub fn stretch_woken(
    domain: &Domain,
    task: &mut Task,
    state: SleepState,
    stage: WokenStage,
) -> WokenTurn
    requires of { task.old.domain ≡ domain.now }
    requires at { IsHearing task.old state stage }
    ensures { Hears task.old task.new state stage result }
{
    match stage {
        WokenStage::State => {
            set_state(domain, task, state.mask());
            WokenTurn::Again(WokenStage::Flag)
        }
        WokenStage::Flag => flag_event(domain, task, state),
        WokenStage::Sleep => sleep_event(domain, task, state),
        WokenStage::Run => {
            set_state(domain, task, RUNNING);
            WokenTurn::Again(WokenStage::Clear)
        }
        WokenStage::Clear => {
            woken_clear(domain, task, 0);
            WokenTurn::Done
        }
    }
}

/// The flag is loaded. Where WOKEN is set in it the task does not sleep.
#[inline(always)]
fn flag_event(domain: &Domain, task: &mut Task, state: SleepState) -> WokenTurn
    requires of { task.old.domain ≡ domain.now }
    requires at { IsHearing task.old state stage.Flag }
    ensures { Hears task.old task.new state stage.Flag result }
{
    let _ = state;
    if woken_load(domain, task, 0) {
        WokenTurn::Again(WokenStage::Run)
    } else {
        WokenTurn::Again(WokenStage::Sleep)
    }
}

/// One try to sleep. Where the own word changed meanwhile it is made again in the next turn.
#[inline(always)]
fn sleep_event(domain: &Domain, task: &mut Task, state: SleepState) -> WokenTurn
    requires of { task.old.domain ≡ domain.now }
    requires at { IsHearing task.old state stage.Sleep }
    ensures { Hears task.old task.new state stage.Sleep result }
{
    let _ = state;
    let mut failed = FailedTries::none();
    match sleep_try(domain, task, &mut failed) {
        None => WokenTurn::Again(WokenStage::Sleep),
        Some(Sleep::Asleep) => WokenTurn::Asleep,
        Some(Sleep::Stay) => WokenTurn::Again(WokenStage::Run),
        Some(Sleep::Signal) => WokenTurn::Again(WokenStage::Run),
    }
}

/// Looks whether a wait that was put asleep was woken: true where it may go on at `Run`.
pub fn woke_woken(domain: &Domain, task: &mut Task, state: SleepState) -> bool
    requires of { task.old.domain ≡ domain.now }
    requires asleep { IsHearingAsleep task.old state }
    ensures { MatchBool result (Hears task.old task.new state stage.Run (turn.Again stage.Run))
        (Hears task.old task.new state stage.Run turn.Asleep) }
{
    let _ = state;
    awake(domain, task)
}

/// Waits until a wait that was put asleep was woken.
fn rise<R: Wait>(rt: &R, domain: &Domain, task: &mut Task, state: SleepState)
    requires of { task.old.domain ≡ domain.now }
    requires asleep { IsHearingAsleep task.old state }
    ensures { Hears task.old task.new state stage.Run (turn.Again stage.Run) }
{
    let _ = state;
    task.told();
    wait_up(rt, domain, task);
    task.told();
}

/// Goes on with a wait from a stage to its end, and sleeps where it is put asleep.
#[inline(always)]
pub fn run_woken<R: Wait>(
    rt: &R,
    domain: &Domain,
    task: &mut Task,
    state: SleepState,
    stage: WokenStage,
)
    requires of { task.old.domain ≡ domain.now }
    requires at { IsHearing task.old state stage }
    ensures { Hears task.old task.new state stage turn.Done }
{
    let mut at = stage;
    for _ in rt.forever() {
        match stretch_woken(domain, task, state, at) {
            WokenTurn::Again(next) => at = next,
            WokenTurn::Asleep => {
                rise(rt, domain, task, state);
                at = WokenStage::Run;
            }
            WokenTurn::Done => return,
        }
    }
    unreachable!()
}

/// Waits for the flag of the own entry of slot 0, which is queued and of kind Woken (kernel/sched/wait.c,
/// `wait_woken`): it stores the state; where WOKEN is not set it sleeps until it is woken, or does not, as a signal is
/// pending that the state admits or it was woken before; it stores RUNNING, and then clears WOKEN. A waker sets WOKEN
/// before it wakes (`woken_wake_function`), so who loads a condition as not set and then waits misses no wake that
/// comes after that load. The task is RUNNING and holds no lock; it is so afterwards, its entry is queued still, and it
/// owes what it owed.
pub fn wait_woken<R: Wait>(rt: &R, domain: &Domain, task: &mut Task, state: SleepState)
    requires of { task.old.domain ≡ domain.now }
    requires up { IsUp task.old }
    requires free { IsFree task.old }
    requires running { task.old.book.state ≡ 0 }
    requires entry { HasWokenEntry task.old }
    ensures ends { EndsWoken task.old task.new state }
    ensures up { IsUp task.new }
    ensures free { IsFree task.new }
    ensures running { task.new.book.state ≡ 0 }
    ensures entry { HasWokenEntry task.new }
    ensures may { MayRemove task.new }
    ensures carries { Carries unchanged task.old task.new }
{
    let stage = begin_woken(task, state);
    run_woken(rt, domain, task, state, stage);
}
