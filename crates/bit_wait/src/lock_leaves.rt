//! Waits to take a bit that their task leaves.

ghost use Rattle.std.specs.Prelude.{◌≡◌, ◌<◌, MatchBool, None, false, true};
ghost use Rattle.wait_model.specs.declared.layout.TheConstants.{BIT_WORDS, WORD_BITS};
ghost use Rattle.wait_model.specs.declared.watches.Watch.TheVariants as watch;
ghost use Rattle.wait_rule.specs.Queues.{IsIdle, index};
ghost use Rattle.wait_rule.specs.Says.{IsClean, IsUp, told_of};
ghost use Rattle.wait_class.specs.{Posts.IsOut, Tables.IsAt, Tables.SleepsNot};
ghost use Rattle.wait_class.specs.declared.stages.Turn.TheVariants as turn;
ghost use Rattle.wait_leave.specs.OnTheWay.{IsOnWay, OnTheWay};
ghost use Rattle.bit_wait.specs.{Holders.IsHolder, LockStays.LockKeeps, LockStays.TakesBit, LockTables.lock_bit_in};
ghost use Rattle.bit_wait.specs.LockTables.{lock_table};
ghost use Rattle.bit_wait.specs.LockLeaves.{EndsBitLockUntil, LeavesBitLock, lock_exits, takes_until, until_in};

use crate::lock_calls::{begin_lock, end_of};
use crate::lock_waits::{LockBit, LockOutcome, LockRun, LockStage, LockTest};
use crate::wait_calls::BitEnd;
use std::sync::Wait;
use wait_class::frame_stages::{Framed, Stage};
use wait_class::runs::rest;
use wait_class::stages::Turn;
use wait_leave::{Exit, Parting, Until, leave, run_asked};
use wait_model::tasks::SleepState;
use wait_rule::{Domain, Task};

impl Parting for LockBit {
    ghost parting = { lock_exits };

    #[inline(always)]
    fn asked(call: Framed<LockBit>) -> Framed<LockBit>
        ensures { result ≡ lock_exits.asks call }
    {
        Framed {
            wait: LockBit {
                asked: true,
                ..call.wait
            },
        }
    }

    #[inline(always)]
    fn exit(_call: Framed<LockBit>, stage: LockStage) -> Option<Exit<LockStage, LockOutcome>>
        ensures { result ≡ lock_exits.exit _call stage }
    {
        let goes = match stage {
            Stage::Test(LockTest::First) => true,
            Stage::Test(LockTest::Load) => true,
            Stage::Test(LockTest::Again) => true,
            Stage::PrepareLock => true,
            Stage::Sleep => true,
            Stage::Look => true,
            _ => false,
        };
        if goes {
            Some(Exit {
                to: Turn::Again(Stage::FinishState(true)),
                rests: false,
            })
        } else {
            None
        }
    }

    #[inline(always)]
    fn may_leave() {}
}

/// Leaves a wait to take a bit that goes on by stretches, at a stage at which its task is awake: to its end, and answers.
/// It waits for the lock of the head alone, and never sleeps. Left: its last test-and-set found the bit set in `seen`.
/// Over: the wait took the bit, or had ended before it was left, as `wait_on_bit_lock` says. Its entry is off then, and
/// it does not try the bit any more.
pub fn leave_lock<R: Wait>(
    rt: &R,
    domain: &Domain,
    task: &mut Task,
    call: &mut LockRun,
    stage: LockStage,
) -> Until<Result<(), BitEnd>>
    requires of { task.old.domain ≡ domain.now }
    requires at { IsAt lock_table task.old call.old stage }
    ensures leaves { LeavesBitLock (Unit {0}) task.old task.new call.old stage result }
    ensures awake { SleepsNot task.old task.new }
    ensures up { IsUp task.new }
    ensures out { IsOut task.new }
    ensures idle { (told_of task.old).mark ≡ None → IsIdle task.new }
    ensures tries { (told_of task.new).bits.pending (lock_bit_in call.old.of.wait) ≡ false }
    ensures keeps { LockKeeps (index task.old.view.number 0) (lock_bit_in call.old.of.wait) (lock_table.took stage)
        (takes_until result) task.old task.new }
{
    let outcome = leave(rt, domain, task, call, stage);
    rest(domain, task, call.of.wait.worn);
    until_of(call.of.wait, outcome)
}

/// The answer of a wait that has ended, and may have been left.
pub fn until_of(run: LockBit, outcome: LockOutcome) -> Until<Result<(), BitEnd>>
    ensures { result ≡ until_in run outcome }
{
    match outcome {
        LockOutcome::Interrupted => {
            if run.asked {
                Until::Left { seen: run.seen }
            } else {
                Until::Over(end_of(run, outcome))
            }
        }
        _ => Until::Over(end_of(run, outcome)),
    }
}

/// Ends a wait that went on by stretches to its end, and was asked to leave on its way (`wait_leave::stretch_out`) or was
/// not, and answers. Where its last hold found no place it stores RUNNING, as `wait_on_bit_lock` does. Who owed nothing
/// when the wait began is a holder of the bit where it took it, and else owes nothing.
pub fn end_lock_until(
    domain: &Domain,
    task: &mut Task,
    wait: &LockRun,
    outcome: LockOutcome,
) -> Until<Result<(), BitEnd>>
    requires of { task.old.domain ≡ domain.now }
    requires up { IsUp task.old }
    ensures is { result ≡ until_in wait.now.of.wait outcome }
    ensures of { task.new.domain ≡ domain.now }
    ensures holder { (c : _) → IsOnWay (Unit {0}) lock_table lock_exits c task.old wait.now (turn.Done outcome)
        → MatchBool (takes_until result) (IsHolder task.new c.watch) (IsClean task.new) }
    ensures ends { (start : _) → (f : _) → (s : _)
        → OnTheWay (Unit {0}) lock_table lock_exits start f s task.old wait.now (turn.Done outcome)
        → LeavesBitLock (Unit {0}) start task.new f s result }
{
    rest(domain, task, wait.of.wait.worn);
    until_of(wait.of.wait, outcome)
}

/// Takes a bit as `wait_on_bit_lock` does, but leaves the wait once `asks` has answered true: it is asked before each
/// event while its task is awake, so before it goes asleep and once it was woken. Who stores what `asks` reads and then
/// wakes the task (`wake_task`) is heard. Left: asked so, its entry off, and its last test-and-set found the bit set in
/// `seen`; the task has not slept since. Over: as `wait_on_bit_lock` answers.
pub fn wait_on_bit_lock_until<R: Wait, Q: Fn() -> bool>(
    rt: &R,
    domain: &Domain,
    task: &mut Task,
    word: u8,
    bit: u8,
    state: SleepState,
    asks: Q,
) -> Until<Result<(), BitEnd>>
    requires of { task.old.domain ≡ domain.now }
    requires up { IsUp task.old }
    requires idle { IsIdle task.old }
    requires word { word < BIT_WORDS }
    requires bit { bit < WORD_BITS }
    requires out { IsOut task.old }
    requires asks { Q.IsAlwaysCallable asks }
    ensures waited { EndsBitLockUntil (Q.post asks true) task.old task.new word bit state result }
    ensures up { IsUp task.new }
    ensures idle { IsIdle task.new }
    ensures out { IsOut task.new }
    ensures takes { TakesBit task.old task.new (watch.Bit word bit) (takes_until result) }
    ensures holder { IsClean task.old
        → MatchBool (takes_until result) (IsHolder task.new (watch.Bit word bit)) (IsClean task.new) }
{
    let mut call = begin_lock(task, word, bit, state);
    let outcome = run_asked(
        rt,
        domain,
        task,
        &mut call,
        Stage::Test(LockTest::First),
        asks,
    );
    rest(domain, task, call.of.wait.worn);
    until_of(call.of.wait, outcome)
}
