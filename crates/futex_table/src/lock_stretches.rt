//! Locks of mutexes that go on by stretches, for who may not wait: an executor, or a caller from another language.

ghost use Rattle.std.specs.Prelude.{◌≡◌, ◌<◌, MatchBool, None, IfOk, IfSome, false, true};
ghost use Rattle.wait_model.specs.declared.layout.TheConstants.{FIRST_SIMPLE, HEADS};
ghost use Rattle.wait_rule.specs.{Known.Known, PassedLocks.PassesNone, Queues.IsIdle, Says.IsClean, Says.IsUp};
ghost use Rattle.wait_class.specs.{Handing.LastGiven, Posts.IsOut, Tables.LooksAwake, Tables.SleepsNot};
ghost use Rattle.wait_class.specs.declared.stages.Turn.TheVariants as turn;
ghost use Rattle.wait_leave.specs.declared.exits.Until.TheVariants as until;
ghost use Rattle.futex_table.specs.declared.lock_stretches.LockStage.TheVariants as stages;
ghost use Rattle.futex_table.specs.{Holding.HoldsMutex, LockLeaves.LocksMutexUntil, LockLeaves.is_locked_until};
ghost use Rattle.futex_table.specs.{Mutexes.LocksMutex, Mutexes.is_locked, TalliedTasks.StayTallied};
ghost use Rattle.futex_table.specs.LockStretches.{
  IsLockUnderWay,
  IsMutexLocking,
  LeavesLock,
  LockAsked,
  LockTurned,
  LockTurnedOut,
  waited_to,
};

use crate::futexes::begin_futex;
use crate::leaves::futex_until_of;
use crate::lock_leaves::round_end;
use crate::mutexes::mutex_try;
use crate::waits::{FutexRun, FutexStage, FutexTurn};
use wait_class::runs::{stretch, woke};
use wait_class::stages::Turn;
use wait_leave::{Until, ask, stretch_out};
use wait_model::tasks::SleepState;
use wait_rule::queues::Passing;
use wait_rule::{Domain, Task};
use wq_head::Worn;

/// Where a lock stands: before a try, or in the wait behind a try that found the mutex taken, at that wait's stage.
#[derive(Clone, Copy)]
pub enum LockStage {
    Try,
    Wait(FutexRun, FutexStage),
}

/// What a stretch of a lock did. Done has its answer.
pub type MutexTurn = Turn<LockStage, Until<Result<(), Worn>>>;

/// A lock of mutex `lock`, below `FIRST_SIMPLE`, that is about to begin, as `mutex_lock` does: `stretch_mutex_lock` goes
/// on with it there, or `stretch_mutex_lock_out`, and `end_mutex_lock` or `end_mutex_lock_until` has what holds at its
/// end. The task is idle and has no entry queued. It makes no step.
pub fn begin_mutex_lock(task: &Task, lock: u8) -> LockStage
    requires up { IsUp task.now }
    requires idle { IsIdle task.now }
    requires out { IsOut task.now }
    ensures stands { IsLockUnderWay lock task.now (turn.Again result) }
    ensures came { (b : _) → IsMutexLocking b lock task.now task.now (turn.Again result) }
{
    let _ = *task;
    let _ = lock;
    LockStage::Try
}

/// Goes on with a lock by one try, or by one stretch of its wait (`wait_class::runs::stretch`). Again: it has made a
/// try or an event, or a try to sleep failed and is counted, and it goes on there at once, by the next call; so also
/// where its wait is over and the mutex is to be tried again. Locked: the ticket of the mutex's head is not served yet,
/// and it goes on there when another number of the head is served. Asleep: it was put asleep, and goes on there once
/// `woke_mutex_lock` has answered true. Done: the lock is over, with the answer of `mutex_lock`. It holds no head then,
/// and wakes no thread: `passing` has the lock that it gave back, or none.
pub fn stretch_mutex_lock(
    domain: &Domain,
    task: &mut Task,
    lock: u8,
    stage: LockStage,
    passing: &mut Passing,
) -> MutexTurn
    requires of { task.old.domain ≡ domain.now }
    requires lock { lock < FIRST_SIMPLE }
    requires passes { PassesNone passing.old }
    requires at { IsLockUnderWay lock task.old (turn.Again stage) }
    ensures of { task.new.domain ≡ domain.now }
    ensures turned { LockTurned lock task.old task.new stage result }
    ensures outside { task.new.book.head ≡ None }
    ensures given { LastGiven task.old task.new passing.new.head }
    ensures stands { IsLockUnderWay lock task.new result }
    ensures came { (b : _) → (start : _) → IsMutexLocking b lock start task.old (turn.Again stage)
        → IsMutexLocking b lock start task.new result }
{
    match stage {
        LockStage::Try => try_stretch(domain, task, lock),
        LockStage::Wait(wait, at) => {
            let mut run = wait;
            let turn = stretch(domain, task, &mut run, at, passing);
            waited_to(run, turn)
        }
    }
}

/// Goes on by one stretch with a lock that is asked to leave its wait, as `wait_leave::stretch_out` does: out of each
/// stage of the wait that has an exit, also in a hold; it never sleeps. A try is made as ever: a lock that is asked
/// leaves only a wait between two tries (as pthread_mutex_timedlock), so it is to be asked again by the next stretch,
/// until it is done. Done with Left: its last load found the mutex taken, and it has not taken it.
pub fn stretch_mutex_lock_out(
    domain: &Domain,
    task: &mut Task,
    lock: u8,
    stage: LockStage,
    passing: &mut Passing,
) -> MutexTurn
    requires of { task.old.domain ≡ domain.now }
    requires lock { lock < FIRST_SIMPLE }
    requires passes { PassesNone passing.old }
    requires at { IsLockUnderWay lock task.old (turn.Again stage) }
    ensures of { task.new.domain ≡ domain.now }
    ensures turned { LockTurnedOut lock task.old task.new stage result }
    ensures outside { task.new.book.head ≡ None }
    ensures given { LastGiven task.old task.new passing.new.head }
    ensures awake { SleepsNot task.old task.new }
    ensures stands { IsLockUnderWay lock task.new result }
    ensures came { (start : _) → IsMutexLocking true lock start task.old (turn.Again stage)
        → IsMutexLocking true lock start task.new result }
{
    match stage {
        LockStage::Try => try_stretch(domain, task, lock),
        LockStage::Wait(wait, at) => {
            let mut run = wait;
            let turn = stretch_out(domain, task, &mut run, at, passing);
            waited_to(run, turn)
        }
    }
}

/// One try, and a wait that is about to begin where it found the mutex taken.
fn try_stretch(domain: &Domain, task: &mut Task, lock: u8) -> MutexTurn
    requires of { task.old.domain ≡ domain.now }
    requires lock { lock < FIRST_SIMPLE }
    requires at { IsLockUnderWay lock task.old (turn.Again stages.Try) }
    ensures of { task.new.domain ≡ domain.now }
    ensures turned { LockTurned lock task.old task.new stages.Try result }
    ensures outside { task.new.book.head ≡ None }
    ensures given { LastGiven task.old task.new HEADS }
    ensures awake { SleepsNot task.old task.new }
    ensures came { (b : _) → (start : _) → IsMutexLocking b lock start task.old (turn.Again stages.Try)
        → IsMutexLocking b lock start task.new result }
{
    if mutex_try(domain, task, lock) {
        return Turn::Done(Until::Over(Ok(())));
    }
    let wait = begin_futex(task, lock, 0, SleepState::Uninterruptible);
    Turn::Again(LockStage::Wait(wait, FutexStage::First))
}

/// Where a lock goes on behind a turn of its wait.
fn waited_to(wait: FutexRun, turn: FutexTurn) -> MutexTurn
    ensures { result ≡ waited_to wait turn }
{
    match turn {
        Turn::Again(stage) => Turn::Again(LockStage::Wait(wait, stage)),
        Turn::Asleep(stage) => Turn::Asleep(LockStage::Wait(wait, stage)),
        Turn::Locked(stage) => Turn::Locked(LockStage::Wait(wait, stage)),
        Turn::Done(outcome) => match round_end(futex_until_of(wait.of, outcome)) {
            Some(last) => Turn::Done(last),
            None => Turn::Again(LockStage::Try),
        },
    }
}

/// Looks whether a lock that was put asleep was woken: true where it may go on at `stage`.
pub fn woke_mutex_lock(domain: &Domain, task: &mut Task, lock: u8, stage: LockStage) -> bool
    requires of { task.old.domain ≡ domain.now }
    requires asleep { IsLockUnderWay lock task.old (turn.Asleep stage) }
    ensures of { task.new.domain ≡ domain.now }
    ensures looked { LooksAwake task.old task.new result }
    ensures stands { MatchBool result (IsLockUnderWay lock task.new (turn.Again stage))
        (IsLockUnderWay lock task.new (turn.Asleep stage)) }
    ensures came { (b : _) → (start : _) → IsMutexLocking b lock start task.old (turn.Asleep stage)
        → MatchBool result (IsMutexLocking b lock start task.new (turn.Again stage))
        (IsMutexLocking b lock start task.new (turn.Asleep stage)) }
{
    let _ = lock;
    match stage {
        LockStage::Wait(wait, at) => woke(domain, task, &wait, at),
        LockStage::Try => unreachable!(),
    }
}

/// Asks a lock at a stage to leave its wait, between two stretches (`wait_leave::ask`). With an answer it goes on there,
/// by `stretch_mutex_lock_out`. Without one it goes on as it was, since it is before a try, or the wait has drawn a
/// ticket or goes to its end anyhow. It makes no event, never sleeps, and takes no time.
pub fn ask_mutex_lock(
    domain: &Domain,
    task: &mut Task,
    lock: u8,
    stage: LockStage,
) -> Option<MutexTurn>
    requires of { task.old.domain ≡ domain.now }
    requires at { IsLockUnderWay lock task.old (turn.Again stage) }
    ensures of { task.new.domain ≡ domain.now }
    ensures asked { LockAsked task.old task.new stage result }
    ensures awake { SleepsNot task.old task.new }
    ensures stands { IfSome result (λ u. IsLockUnderWay lock task.new u) }
    ensures came { (start : _) → IsMutexLocking true lock start task.old (turn.Again stage)
        → IfSome result (λ u. IsMutexLocking true lock start task.new u) }
{
    let _ = lock;
    match stage {
        LockStage::Wait(wait, at) => {
            let mut run = wait;
            match ask(domain, task, &mut run, at) {
                Some(turn) => Some(waited_to(run, turn)),
                None => None,
            }
        }
        LockStage::Try => None,
    }
}

/// The answer of a lock of mutex `lock` that went on by stretches, was never asked to leave, and has ended. Of one that
/// began at `start` holds what `mutex_lock` says.
pub fn end_mutex_lock(task: &Task, lock: u8, answer: Until<Result<(), Worn>>) -> Result<(), Worn>
    requires over { (start : Known) × IsMutexLocking false lock start task.now (turn.Done answer) }
    ensures is { answer ≡ until.Over result }
    ensures up { IsUp task.now }
    ensures idle { IsIdle task.now }
    ensures out { IsOut task.now }
    ensures holds { IfOk result (λ _. HoldsMutex task.now lock) }
    ensures locked { (start : _) → IsMutexLocking false lock start task.now (turn.Done answer)
        → LocksMutex start task.now lock result }
    ensures leaves { (start : _) → IsMutexLocking false lock start task.now (turn.Done answer)
        → LeavesLock lock start task.now (is_locked result) }
    ensures tallied { (start : _) → IsMutexLocking false lock start task.now (turn.Done answer)
        → StayTallied lock start task.now }
    ensures clean { (start : _) → IsMutexLocking false lock start task.now (turn.Done answer) → IsClean start
        → IsClean task.now }
{
    let _ = *task;
    let _ = lock;
    match answer {
        Until::Over(end) => end,
        Until::Left { .. } => unreachable!(),
    }
}

/// The answer of a lock of mutex `lock` that went on by stretches, may have been asked to leave, and has ended. Of one
/// that began at `start` holds what `mutex_lock_until` says.
pub fn end_mutex_lock_until(
    task: &Task,
    lock: u8,
    answer: Until<Result<(), Worn>>,
) -> Until<Result<(), Worn>>
    requires over { IsLockUnderWay lock task.now (turn.Done answer) }
    ensures is { result ≡ answer }
    ensures up { IsUp task.now }
    ensures idle { IsIdle task.now }
    ensures out { IsOut task.now }
    ensures holds { is_locked_until result ≡ true → HoldsMutex task.now lock }
    ensures locked { (start : _) → IsMutexLocking true lock start task.now (turn.Done answer)
        → LocksMutexUntil (Unit {0}) start task.now lock result }
    ensures leaves { (start : _) → IsMutexLocking true lock start task.now (turn.Done answer)
        → LeavesLock lock start task.now (is_locked_until result) }
    ensures tallied { (start : _) → IsMutexLocking true lock start task.now (turn.Done answer)
        → StayTallied lock start task.now }
    ensures clean { (start : _) → IsMutexLocking true lock start task.now (turn.Done answer) → IsClean start
        → IsClean task.now }
{
    let _ = *task;
    let _ = lock;
    answer
}
