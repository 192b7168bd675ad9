//! Waits to take a bit, as whole calls; `stretch` and `woke` go on with one for who may not wait.

ghost use Rattle.std.specs.Prelude.{◌≡◌, ◌<◌, MatchBool, false};
ghost use Rattle.wait_model.specs.declared.layout.TheConstants.{BIT_WORDS, WORD_BITS};
ghost use Rattle.wait_model.specs.declared.watches.Watch.TheVariants as watch;
ghost use Rattle.wait_rule.specs.{Queues.IsIdle, Queues.IsTold, PassedLocks.PassesNone, Says.IsClean, Says.IsUp};
ghost use Rattle.wait_class.specs.{Posts.IsOut, Handing.LastGiven, UnderWay.Came, UnderWay.IsUnderWay};
ghost use Rattle.wait_class.specs.Tables.{Advances, IsAsleepAt, IsAt, IsStop, Turned};
ghost use Rattle.wait_class.specs.declared.frame_stages.Stage.TheVariants as stage;
ghost use Rattle.wait_class.specs.declared.stages.Turn.TheVariants as turn;
ghost use Rattle.bit_wait.specs.declared.lock_runs.LockTest.TheVariants as test;
ghost use Rattle.bit_wait.specs.{LockTables.IsFreshLock, LockTables.lock_table, LockStays.TakesBit, Holders.IsHolder};
ghost use Rattle.bit_wait.specs.LockEnds.{EndsBitLock, lock_end_in, has_taken_lock};

use crate::lock_waits::{LockBit, LockOutcome, LockRun, LockTest};
use crate::wait_calls::BitEnd;
use std::sync::Wait;
use wait_class::frame_stages::{Framed, Stage};
use wait_class::runs::{rest, run, stretch, woke};
use wait_class::stages::{Run, Turn};
use wait_model::heads::head_of;
use wait_model::tasks::SleepState;
use wait_model::watches::Watch;
use wait_rule::queues::Passing;
use wait_rule::{Domain, Task};

/// A wait to take bit `bit`, below `WORD_BITS`, of bit word `word`, below `BIT_WORDS`, that is about to begin:
/// `stretch_lock` goes on with it at `Stage::Test(LockTest::First)`. The task is idle and has no entry queued.
pub fn begin_lock(task: &Task, word: u8, bit: u8, state: SleepState) -> LockRun
    requires up { IsUp task.now }
    requires idle { IsIdle task.now }
    requires word { word < BIT_WORDS }
    requires bit { bit < WORD_BITS }
    requires out { IsOut task.now }
    ensures at { IsAt lock_table task.now result (stage.Test test.First) }
    ensures fresh { IsFreshLock result.of.wait word bit state }
    ensures unasked { result.of.wait.asked ≡ false }
    ensures told { IsTold task.now }
    ensures under { IsClean task.now
        → IsUnderWay lock_table (lock_table.plan_of result.of) task.now result (turn.Again (stage.Test test.First)) }
    ensures came { Advances lock_table task.now task.now result result (stage.Test test.First)
        (turn.Again (stage.Test test.First)) }
{
    task.told();
    Run::new(Framed {
        wait: LockBit {
            word,
            bit,
            state,
            place: 0,
            seen: 0,
            worn: false,
            asked: false,
        },
    })
}

/// Takes bit `bit`, below `WORD_BITS`, of bit word `word`, below `BIT_WORDS`, and waits until it can
/// (`wait_on_bit_lock`, include/linux/wait_bit.h; `__wait_on_bit_lock`, kernel/sched/wait_bit.c). Its entry goes to the
/// tail, exclusive. Ok: the task keeps the bit, until it gives it back by `clear_and_wake_bit`. Interrupted: its own
/// word showed a signal that the state admits, after its last sleep, and the last test-and-set found the bit set in
/// `seen`. Worn: no place was left for its entry at its head, where a member stands at `place`, and the test-and-set
/// after it found the bit set. The task is idle and has no entry queued, and so it is afterwards. Who owed nothing is a
/// holder of the bit after Ok, and owes nothing after an error; it is not to try the bit any more.
pub fn wait_on_bit_lock<R: Wait>(
    rt: &R,
    domain: &Domain,
    task: &mut Task,
    word: u8,
    bit: u8,
    state: SleepState,
) -> Result<(), BitEnd>
    requires of { task.old.domain ≡ domain.now }
    requires up { IsUp task.old }
    requires idle { IsIdle task.old }
    requires word { word < BIT_WORDS }
    requires bit { bit < WORD_BITS }
    requires out { IsOut task.old }
    ensures waited { EndsBitLock task.old task.new word bit state result }
    ensures up { IsUp task.new }
    ensures idle { IsIdle task.new }
    ensures out { IsOut task.new }
    ensures takes { TakesBit task.old task.new (watch.Bit word bit) (has_taken_lock result) }
    ensures holder { IsClean task.old
        → MatchBool (has_taken_lock result) (IsHolder task.new (watch.Bit word bit)) (IsClean task.new) }
{
    let mut call = begin_lock(task, word, bit, state);
    let outcome = run(rt, domain, task, &mut call, Stage::Test(LockTest::First));
    rest(domain, task, call.of.wait.worn);
    end_of(call.of.wait, outcome)
}

/// Goes on with a wait by one stretch (`wait_class::runs::stretch`).
pub fn stretch_lock(
    domain: &Domain,
    task: &mut Task,
    wait: &mut LockRun,
    stage: Stage<LockTest>,
    passing: &mut Passing,
) -> Turn<Stage<LockTest>, LockOutcome>
    requires of { task.old.domain ≡ domain.now }
    requires passes { PassesNone passing.old }
    requires at { IsAt lock_table task.old wait.old stage }
    ensures turned { Turned lock_table task.old task.new wait.old wait.new stage result }
    ensures stops { IsStop lock_table result }
    ensures given { LastGiven task.old task.new passing.new.head }
    ensures under { (c : _) → IsUnderWay lock_table c task.old wait.old (turn.Again stage)
        → IsUnderWay lock_table c task.new wait.new result }
    ensures came { (start : _) → (f : _) → (s : _) → Advances lock_table start task.old f wait.old s (turn.Again stage)
        → Came lock_table start task.new f wait.new s result }
{
    stretch(domain, task, wait, stage, passing)
}

/// Looks whether a wait that was put asleep was woken (`wait_class::runs::woke`).
pub fn woke_lock(domain: &Domain, task: &mut Task, wait: &LockRun, stage: Stage<LockTest>) -> bool
    requires of { task.old.domain ≡ domain.now }
    requires asleep { IsAsleepAt lock_table task.old wait.now stage }
    ensures advances { MatchBool result (Advances lock_table task.old task.new wait.now wait.now stage (turn.Again stage))
        (Advances lock_table task.old task.new wait.now wait.now stage (turn.Asleep stage)) }
    ensures under { (c : _) → IsUnderWay lock_table c task.old wait.now (turn.Asleep stage)
        → MatchBool result (IsUnderWay lock_table c task.new wait.now (turn.Again stage))
        (IsUnderWay lock_table c task.new wait.now (turn.Asleep stage)) }
    ensures came { (start : _) → (f : _) → (s : _) → Advances lock_table start task.old f wait.now s (turn.Asleep stage)
        → MatchBool result (Advances lock_table start task.new f wait.now s (turn.Again stage))
        (Advances lock_table start task.new f wait.now s (turn.Asleep stage)) }
{
    woke(domain, task, wait, stage)
}

/// Ends a wait that went on by stretches to its end, and answers. Where its last hold found no place it stores RUNNING,
/// as `wait_on_bit_lock` does. Who owed nothing when the wait began is a holder of the bit after Ok, and owes nothing
/// after an error; and what is said of one that began at `start` is what `wait_on_bit_lock` says.
pub fn end_lock(
    domain: &Domain,
    task: &mut Task,
    wait: &LockRun,
    outcome: LockOutcome,
) -> Result<(), BitEnd>
    requires of { task.old.domain ≡ domain.now }
    requires up { IsUp task.old }
    ensures is { result ≡ lock_end_in wait.now.of.wait outcome }
    ensures of { task.new.domain ≡ domain.now }
    ensures holder { (c : _) → IsUnderWay lock_table c task.old wait.now (turn.Done outcome)
        → MatchBool (has_taken_lock result) (IsHolder task.new c.watch) (IsClean task.new) }
    ensures ends { (start : _) → (f : _) → (word : _) → (bit : _) → (state : _) → IsFreshLock f.of.wait word bit state
        → f.of.wait.asked ≡ false → Advances lock_table start task.old f wait.now (stage.Test test.First) (turn.Done outcome)
        → EndsBitLock start task.new word bit state result }
{
    rest(domain, task, wait.of.wait.worn);
    end_of(wait.of.wait, outcome)
}

/// The answer of a wait that has ended. It stores nothing: `end_lock` stores RUNNING where no place was left.
pub fn end_of(run: LockBit, outcome: LockOutcome) -> Result<(), BitEnd>
    ensures { result ≡ lock_end_in run outcome }
{
    match outcome {
        LockOutcome::Over => Ok(()),
        LockOutcome::Interrupted => Err(BitEnd::Interrupted { seen: run.seen }),
        LockOutcome::Worn => Err(BitEnd::Worn {
            head: head_of(Watch::Bit {
                word: run.word,
                bit: run.bit,
            }),
            place: run.place,
        }),
    }
}
