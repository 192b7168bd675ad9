//! Waits for condition variables that go on by stretches, for who may not wait.

ghost use Rattle.std.specs.Prelude.{◌≡◌, ◌≢◌, ◌<◌, MatchBool, [], IfOk, IfSome, false, true};
ghost use Rattle.wait_model.specs.declared.layout.TheConstants.{FIRST_SIMPLE};
ghost use Rattle.wait_rule.specs.{Known.Known, PassedLocks.PassesNone, Queues.IsIdle, Says.IsClean, Says.IsUp};
ghost use Rattle.wq_head.specs.Roused.{IsRousing, tasks_in};
ghost use Rattle.wait_class.specs.{Handing.LastGiven, Posts.IsOut, Tables.LooksAwake, Tables.SleepsNot};
ghost use Rattle.wait_class.specs.declared.stages.Turn.TheVariants as turn;
ghost use Rattle.wait_leave.specs.declared.exits.Until.TheVariants as until;
ghost use Rattle.futex_table.specs.declared.cond_stretches.CondStage.TheVariants as stages;
ghost use Rattle.futex_table.specs.declared.cond_stretches.CondStop.TheVariants as stop;
ghost use Rattle.futex_table.specs.CondStretches.{
  CondGives,
  CondRouses,
  CondTurned,
  CondTurnedOut,
  IsCondWaiting,
  IsCondUnderWay,
  LeavesCond,
  awaited_to,
  given_by_wake,
};
ghost use Rattle.futex_table.specs.{CondVars.WaitsForCond, CondVars.is_mutex_held, Holding.HoldsMutex};
ghost use Rattle.futex_table.specs.{Holding.holds_mutex, LockLeaves.WaitsForCondUntil, LockLeaves.is_held_until};
ghost use Rattle.futex_table.specs.TalliedTasks.{StayTallied};

use crate::cond_vars::CondEnd;
use crate::futexes::{FutexEnd, begin_futex};
use crate::leaves::futex_until_of;
use crate::lock_leaves::cond_until_answer;
use crate::lock_stretches::{LockStage, end_mutex_lock, stretch_mutex_lock, woke_mutex_lock};
use crate::waits::{FutexRun, FutexStage, FutexTurn};
use wait_class::runs::{stretch, woke};
use wait_class::stages::Turn;
use wait_leave::{Until, stretch_out};
use wait_model::tasks::SleepState;
use wait_model::watches::{Mode, Watch};
use wait_rule::queues::{Passing, cond_load, publish};
use wait_rule::tries::FailedTries;
use wait_rule::{Domain, Task};
use wq_head::Rousing;
use wq_head::wakes::{WakeRun, WakeStage, WakeTurn, wake_stretch};

/// The numbers of a wait for condition variable `cond` with mutex `lock`; both are below `FIRST_SIMPLE`, and differ.
#[derive(Clone, Copy)]
pub struct CondWait {
    pub cond: u8,
    pub lock: u8,
    pub state: SleepState,
}

/// Where such a wait stands: before it, with the mutex held; in the wake by which the mutex is given back, with what
/// the load of the condition's word found; in the wait for the word; or in the lock behind that, with how it ended.
#[derive(Clone, Copy)]
pub enum CondStage {
    First,
    Give(u64, WakeRun, WakeStage),
    Wait(FutexRun, FutexStage),
    Lock(Until<Result<(), FutexEnd>>, LockStage),
}

/// How such a wait stops: it is over, with its answer; or the wake by which the mutex is given back does not end
/// (`WakeTurn::Starved`), and the mutex's head is held, which no run comes to.
#[derive(Clone, Copy)]
pub enum CondStop {
    Over(Until<Result<(), CondEnd>>),
    Starved(FailedTries),
}

/// What a stretch of such a wait did.
pub type CondTurn = Turn<CondStage, CondStop>;

/// A wait for condition variable `cond` with mutex `lock`, which the task holds; both are below `FIRST_SIMPLE`, and
/// differ. It is about to begin, as `cond_wait` does: `stretch_cond_wait` goes on with it there, or
/// `stretch_cond_wait_out`, and `end_cond_wait` or `end_cond_wait_until` has what holds at its end. The task is idle and
/// has no entry queued. It makes no step.
pub fn begin_cond_wait(task: &Task, wait: CondWait) -> CondStage
    requires up { IsUp task.now }
    requires idle { IsIdle task.now }
    requires out { IsOut task.now }
    requires apart { wait.cond ≢ wait.lock }
    requires held { HoldsMutex task.now wait.lock }
    ensures stands { IsCondUnderWay wait task.now (turn.Again result) }
    ensures came { (b : _) → IsCondWaiting b wait task.now task.now (turn.Again result) }
{
    let _ = *task;
    let _ = wait;
    CondStage::First
}

/// Goes on with a wait for a condition variable by one stretch: the load of the condition's word and the store that
/// gives the mutex back; a hold at most of the wake behind that (`wq_head::wakes::wake_stretch`); a stretch of the wait
/// for the word (`wait_class::runs::stretch`); or one of the lock behind it (`stretch_mutex_lock`). Again: it goes on
/// there at once, by the next call. Locked: the ticket of a head is not served yet, and it goes on there when another
/// number of that head is served. Asleep: it was put asleep, and goes on there once `woke_cond_wait` has answered true.
/// Done: it is over, with the answer of `cond_wait`, or the wake does not end. It wakes no thread: `rousing`, in which
/// none is left before, names the tasks that the wake has woken, and `passing` has the lock that it gave back, or none.
pub fn stretch_cond_wait(
    domain: &Domain,
    task: &mut Task,
    wait: CondWait,
    stage: CondStage,
    rousing: &mut Rousing,
    passing: &mut Passing,
) -> CondTurn
    requires of { task.old.domain ≡ domain.now }
    requires cond { wait.cond < FIRST_SIMPLE }
    requires lock { wait.lock < FIRST_SIMPLE }
    requires passes { PassesNone passing.old }
    requires none { tasks_in rousing.old ≡ [] }
    requires at { IsCondUnderWay wait task.old (turn.Again stage) }
    ensures of { task.new.domain ≡ domain.now }
    ensures turned { CondTurned wait task.old task.new stage result }
    ensures rouses { CondRouses task.old task.new stage rousing.new }
    ensures gives { CondGives wait task.old task.new stage result passing.new.head }
    ensures stands { IsCondUnderWay wait task.new result }
    ensures came { (b : _) → (start : _) → IsCondWaiting b wait start task.old (turn.Again stage)
        → IsCondWaiting b wait start task.new result }
{
    match stage {
        CondStage::First => store_back(domain, task, wait),
        CondStage::Give(seen, wake, at) => {
            give_back(domain, task, wait, seen, wake, at, rousing, passing)
        }
        CondStage::Wait(run, at) => {
            let mut run = run;
            let turn = stretch(domain, task, &mut run, at, passing);
            awaited_to(run, turn)
        }
        CondStage::Lock(end, at) => relock(domain, task, wait, end, at, passing),
    }
}

/// Goes on by one stretch with such a wait that is asked to leave, as `wait_leave::stretch_out` does, out of each stage
/// of the wait for the word that has an exit, also in a hold; that never sleeps. Before it and in the lock behind it the
/// stretch is that of `stretch_cond_wait`: the mutex is held again where the wait was left, so the lock may sleep.
pub fn stretch_cond_wait_out(
    domain: &Domain,
    task: &mut Task,
    wait: CondWait,
    stage: CondStage,
    rousing: &mut Rousing,
    passing: &mut Passing,
) -> CondTurn
    requires of { task.old.domain ≡ domain.now }
    requires cond { wait.cond < FIRST_SIMPLE }
    requires lock { wait.lock < FIRST_SIMPLE }
    requires passes { PassesNone passing.old }
    requires none { tasks_in rousing.old ≡ [] }
    requires at { IsCondUnderWay wait task.old (turn.Again stage) }
    ensures of { task.new.domain ≡ domain.now }
    ensures turned { CondTurnedOut wait task.old task.new stage result }
    ensures rouses { CondRouses task.old task.new stage rousing.new }
    ensures gives { CondGives wait task.old task.new stage result passing.new.head }
    ensures stands { IsCondUnderWay wait task.new result }
    ensures came { (start : _) → IsCondWaiting true wait start task.old (turn.Again stage)
        → IsCondWaiting true wait start task.new result }
{
    match stage {
        CondStage::Wait(run, at) => {
            let mut run = run;
            let turn = stretch_out(domain, task, &mut run, at, passing);
            awaited_to(run, turn)
        }
        CondStage::First => store_back(domain, task, wait),
        CondStage::Give(seen, wake, at) => {
            give_back(domain, task, wait, seen, wake, at, rousing, passing)
        }
        CondStage::Lock(end, at) => relock(domain, task, wait, end, at, passing),
    }
}

/// Loads the condition's word, and stores 1 in the mutex's.
fn store_back(domain: &Domain, task: &mut Task, wait: CondWait) -> CondTurn
    requires of { task.old.domain ≡ domain.now }
    requires cond { wait.cond < FIRST_SIMPLE }
    requires lock { wait.lock < FIRST_SIMPLE }
    requires at { IsCondUnderWay wait task.old (turn.Again stages.First) }
    ensures of { task.new.domain ≡ domain.now }
    ensures turned { CondTurned wait task.old task.new stages.First result }
    ensures came { (b : _) → (start : _) → IsCondWaiting b wait start task.old (turn.Again stages.First)
        → IsCondWaiting b wait start task.new result }
{
    let seen = cond_load(domain, task, Watch::Plain { cond: wait.cond });
    task.told();
    let mutex = Watch::Plain { cond: wait.lock };
    publish(domain, task, mutex, 1);
    let wake = WakeRun::new(mutex, Mode::Normal, 1);
    Turn::Again(CondStage::Give(seen, wake, WakeStage::First))
}

/// Makes a hold at most of the wake behind the store, and begins the wait behind its last one.
fn give_back(
    domain: &Domain,
    task: &mut Task,
    wait: CondWait,
    seen: u64,
    wake: WakeRun,
    stage: WakeStage,
    rousing: &mut Rousing,
    passing: &mut Passing,
) -> CondTurn
    requires of { task.old.domain ≡ domain.now }
    requires cond { wait.cond < FIRST_SIMPLE }
    requires passes { PassesNone passing.old }
    requires none { tasks_in rousing.old ≡ [] }
    requires at { IsCondUnderWay wait task.old (turn.Again (stages.Give seen wake stage)) }
    ensures of { task.new.domain ≡ domain.now }
    ensures turned { CondTurned wait task.old task.new (stages.Give seen wake stage) result }
    ensures rouses { IsRousing task.old task.new rousing.new }
    ensures gives { passing.new.head ≡ given_by_wake wait result }
    ensures came { (b : _) → (start : _) → IsCondWaiting b wait start task.old (turn.Again (stages.Give seen wake stage))
        → IsCondWaiting b wait start task.new result }
{
    let mut run = wake;
    match wake_stretch(domain, task, &mut run, stage, rousing, passing) {
        WakeTurn::Locked(next) => Turn::Locked(CondStage::Give(seen, run, next)),
        WakeTurn::Broken => Turn::Again(CondStage::Give(seen, run, WakeStage::Next)),
        WakeTurn::Starved(failed) => Turn::Done(CondStop::Starved(failed)),
        WakeTurn::Done(_) => {
            let first = begin_futex(task, wait.cond, seen, wait.state);
            Turn::Again(CondStage::Wait(first, FutexStage::First))
        }
    }
}

/// Where such a wait goes on behind a turn of the wait for the word.
fn awaited_to(run: FutexRun, turn: FutexTurn) -> CondTurn
    ensures { result ≡ awaited_to run turn }
{
    match turn {
        Turn::Again(stage) => Turn::Again(CondStage::Wait(run, stage)),
        Turn::Asleep(stage) => Turn::Asleep(CondStage::Wait(run, stage)),
        Turn::Locked(stage) => Turn::Locked(CondStage::Wait(run, stage)),
        Turn::Done(outcome) => {
            let end = futex_until_of(run.of, outcome);
            Turn::Again(CondStage::Lock(end, LockStage::Try))
        }
    }
}

/// Makes a stretch of the lock behind the wait.
fn relock(
    domain: &Domain,
    task: &mut Task,
    wait: CondWait,
    end: Until<Result<(), FutexEnd>>,
    stage: LockStage,
    passing: &mut Passing,
) -> CondTurn
    requires of { task.old.domain ≡ domain.now }
    requires lock { wait.lock < FIRST_SIMPLE }
    requires passes { PassesNone passing.old }
    requires at { IsCondUnderWay wait task.old (turn.Again (stages.Lock end stage)) }
    ensures of { task.new.domain ≡ domain.now }
    ensures turned { CondTurned wait task.old task.new (stages.Lock end stage) result }
    ensures gives { LastGiven task.old task.new passing.new.head }
    ensures came { (b : _) → (start : _) → IsCondWaiting b wait start task.old (turn.Again (stages.Lock end stage))
        → IsCondWaiting b wait start task.new result }
{
    match stretch_mutex_lock(domain, task, wait.lock, stage, passing) {
        Turn::Again(next) => Turn::Again(CondStage::Lock(end, next)),
        Turn::Asleep(next) => Turn::Asleep(CondStage::Lock(end, next)),
        Turn::Locked(next) => Turn::Locked(CondStage::Lock(end, next)),
        Turn::Done(answer) => {
            let locked = end_mutex_lock(task, wait.lock, answer);
            Turn::Done(CondStop::Over(cond_until_answer(end, locked)))
        }
    }
}

/// Looks whether such a wait that was put asleep was woken: true where it may go on at `stage`.
pub fn woke_cond_wait(domain: &Domain, task: &mut Task, wait: CondWait, stage: CondStage) -> bool
    requires of { task.old.domain ≡ domain.now }
    requires asleep { IsCondUnderWay wait task.old (turn.Asleep stage) }
    ensures of { task.new.domain ≡ domain.now }
    ensures looked { LooksAwake task.old task.new result }
    ensures stands { MatchBool result (IsCondUnderWay wait task.new (turn.Again stage))
        (IsCondUnderWay wait task.new (turn.Asleep stage)) }
    ensures came { (b : _) → (start : _) → IsCondWaiting b wait start task.old (turn.Asleep stage)
        → MatchBool result (IsCondWaiting b wait start task.new (turn.Again stage))
        (IsCondWaiting b wait start task.new (turn.Asleep stage)) }
{
    match stage {
        CondStage::Wait(run, at) => woke(domain, task, &run, at),
        CondStage::Lock(_, at) => woke_mutex_lock(domain, task, wait.lock, at),
        CondStage::First => unreachable!(),
        CondStage::Give(_, _, _) => unreachable!(),
    }
}

/// The answer of a wait for a condition variable that went on by stretches, was never asked to leave, and is over. Of
/// one that began at `start` holds what `cond_wait` says.
pub fn end_cond_wait(
    task: &Task,
    wait: CondWait,
    answer: Until<Result<(), CondEnd>>,
) -> Result<(), CondEnd>
    requires over { (start : Known) × IsCondWaiting false wait start task.now (turn.Done (stop.Over answer)) }
    ensures is { answer ≡ until.Over result }
    ensures up { IsUp task.now }
    ensures idle { IsIdle task.now }
    ensures out { IsOut task.now }
    ensures held { holds_mutex task.now wait.lock ≡ is_mutex_held result }
    ensures holds { IfOk result (λ _. HoldsMutex task.now wait.lock) }
    ensures waited { (start : _) → IsCondWaiting false wait start task.now (turn.Done (stop.Over answer))
        → WaitsForCond start task.now wait.cond wait.lock wait.state result }
    ensures leaves { (start : _) → IsCondWaiting false wait start task.now (turn.Done (stop.Over answer))
        → LeavesCond wait.lock start task.now (is_mutex_held result) }
    ensures tallied { (start : _) → IsCondWaiting false wait start task.now (turn.Done (stop.Over answer))
        → StayTallied wait.lock start task.now }
    ensures clean { (start : _) → IsCondWaiting false wait start task.now (turn.Done (stop.Over answer)) → IsClean start
        → IsClean task.now }
{
    let _ = *task;
    let _ = wait;
    match answer {
        Until::Over(end) => end,
        Until::Left { .. } => unreachable!(),
    }
}

/// The answer of a wait for a condition variable that went on by stretches, may have been asked to leave, and is over.
/// Of one that began at `start` holds what `cond_wait_until` says.
pub fn end_cond_wait_until(
    task: &Task,
    wait: CondWait,
    answer: Until<Result<(), CondEnd>>,
) -> Until<Result<(), CondEnd>>
    requires over { IsCondUnderWay wait task.now (turn.Done (stop.Over answer)) }
    ensures is { result ≡ answer }
    ensures up { IsUp task.now }
    ensures idle { IsIdle task.now }
    ensures out { IsOut task.now }
    ensures held { holds_mutex task.now wait.lock ≡ is_held_until result }
    ensures holds { is_held_until result ≡ true → HoldsMutex task.now wait.lock }
    ensures waited { (start : _) → IsCondWaiting true wait start task.now (turn.Done (stop.Over answer))
        → WaitsForCondUntil (Unit {0}) start task.now wait.cond wait.lock wait.state result }
    ensures leaves { (start : _) → IsCondWaiting true wait start task.now (turn.Done (stop.Over answer))
        → LeavesCond wait.lock start task.now (is_held_until result) }
    ensures tallied { (start : _) → IsCondWaiting true wait start task.now (turn.Done (stop.Over answer))
        → StayTallied wait.lock start task.now }
    ensures clean { (start : _) → IsCondWaiting true wait start task.now (turn.Done (stop.Over answer)) → IsClean start
        → IsClean task.now }
{
    let _ = *task;
    let _ = wait;
    answer
}
