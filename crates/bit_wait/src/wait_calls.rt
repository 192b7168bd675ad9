//! Waits until a bit is clear, as whole calls; `stretch` and `woke` go on with one for who may not wait.

ghost use Rattle.std.specs.Prelude.{◌≡◌, ◌<◌, MatchBool};
ghost use Rattle.wait_model.specs.declared.layout.TheConstants.{BIT_WORDS, WORD_BITS};
ghost use Rattle.wait_rule.specs.{PassedLocks.PassesNone, Says.IsClean, Says.IsUp, Stays.Carries};
ghost use Rattle.wait_rule.specs.Queues.{IsIdle, IsTold, index};
ghost use Rattle.wait_class.specs.{Posts.IsOut, Handing.LastGiven, UnderWay.Came, UnderWay.IsUnderWay};
ghost use Rattle.wait_class.specs.Tables.{Advances, IsAsleepAt, IsAt, IsStop, Turned};
ghost use Rattle.wait_class.specs.declared.frame_stages.Stage.TheVariants as stage;
ghost use Rattle.wait_class.specs.declared.stages.Turn.TheVariants as turn;
ghost use Rattle.bit_wait.specs.declared.waits.BitTest.TheVariants as test;
ghost use Rattle.bit_wait.specs.BitTables.{IsFreshBitWait, bit_table, is_bit_worn};
ghost use Rattle.bit_wait.specs.BitEnds.{EndsBitWait, bit_end_in};
ghost use Rattle.wait_event.specs.Ends.{wait_change};

use crate::waits::{BitOutcome, BitRun, BitTest, WaitBit};
use std::sync::Wait;
use thiserror::Error;
use wait_class::frame_stages::{Framed, Stage};
use wait_class::runs::{rest, run, stretch, woke};
use wait_class::stages::{Run, Turn};
use wait_model::heads::head_of;
use wait_model::tasks::SleepState;
use wait_model::watches::Watch;
use wait_rule::queues::Passing;
use wait_rule::{Domain, Task};

/// Why a wait for a bit ended though it may be set. Interrupted: its last sleep was followed by a look at the own word
/// that showed a signal which its state admits; `seen` is what the load before that sleep, after the hold of its
/// prepare, found in the bit's word, with the bit set; of a wait that takes the bit it is what its last test-and-set
/// found, after that look. Worn: no place was left for its entry at its head, where a member stands at `place`, and the
/// load or test-and-set after it found the bit set.
#[derive(Clone, Copy, Debug, Drop, Error)]
pub enum BitEnd {
    #[error("a signal ended the wait for a bit of {seen}")]
    Interrupted { seen: u64 },
    #[error("head {head} has no place left: a member stands at place {place}")]
    Worn { head: u16, place: u64 },
}

/// A wait until bit `bit`, below `WORD_BITS`, of bit word `word`, below `BIT_WORDS`, is clear, that is about to begin:
/// `stretch_bit` goes on with it at `Stage::Test(BitTest::First)`. The task is idle and has no entry queued.
pub fn begin_bit(task: &Task, word: u8, bit: u8, state: SleepState) -> BitRun
    requires up { IsUp task.now }
    requires idle { IsIdle task.now }
    requires word { word < BIT_WORDS }
    requires bit { bit < WORD_BITS }
    requires out { IsOut task.now }
    ensures at { IsAt bit_table task.now result (stage.Test test.First) }
    ensures fresh { IsFreshBitWait result.of.wait word bit state }
    ensures told { IsTold task.now }
    ensures under { IsClean task.now
        → IsUnderWay bit_table (bit_table.plan_of result.of) task.now result (turn.Again (stage.Test test.First)) }
    ensures came { Advances bit_table task.now task.now result result (stage.Test test.First)
        (turn.Again (stage.Test test.First)) }
{
    task.told();
    Run::new(Framed {
        wait: WaitBit {
            word,
            bit,
            state,
            place: 0,
            seen: 0,
            last: 0,
            asked: false,
        },
    })
}

/// Waits until bit `bit`, below `WORD_BITS`, of bit word `word`, below `BIT_WORDS`, is clear (`wait_on_bit`,
/// include/linux/wait_bit.h; `__wait_on_bit`, kernel/sched/wait_bit.c). Its entry goes to the front, not exclusive. It
/// does not take the bit, which may be set again when it answers. The task is idle and has no entry queued, and so it
/// is afterwards. It owes what it owed.
pub fn wait_on_bit<R: Wait>(
    rt: &R,
    domain: &Domain,
    task: &mut Task,
    word: u8,
    bit: u8,
    state: SleepState,
) -> Result<(), BitEnd>
    requires of { task.old.domain ≡ domain.now }
    requires up { IsUp task.old }
    requires idle { IsIdle task.old }
    requires word { word < BIT_WORDS }
    requires bit { bit < WORD_BITS }
    requires out { IsOut task.old }
    ensures waited { EndsBitWait task.old task.new word bit state result }
    ensures up { IsUp task.new }
    ensures idle { IsIdle task.new }
    ensures out { IsOut task.new }
    ensures carries { Carries (wait_change (index task.old.view.number 0) task.new.at) task.old task.new }
{
    let mut call = begin_bit(task, word, bit, state);
    let outcome = run(rt, domain, task, &mut call, Stage::Test(BitTest::First));
    rest(domain, task, is_bit_worn(outcome));
    end_of(call.of.wait, outcome)
}

/// Whether a wait ended since no place was left for its entry.
#[inline(always)]
pub fn is_bit_worn(outcome: BitOutcome) -> bool
    ensures { result ≡ is_bit_worn outcome }
{
    matches!(outcome, BitOutcome::Worn)
}

/// The answer of a wait that has ended. It stores nothing: `end_bit` stores RUNNING where no place was left.
pub fn end_of(run: WaitBit, outcome: BitOutcome) -> Result<(), BitEnd>
    ensures { result ≡ bit_end_in run outcome }
{
    match outcome {
        BitOutcome::Over => Ok(()),
        BitOutcome::Interrupted => Err(BitEnd::Interrupted { seen: run.seen }),
        BitOutcome::Worn => Err(BitEnd::Worn {
            head: head_of(Watch::Bit {
                word: run.word,
                bit: run.bit,
            }),
            place: run.place,
        }),
    }
}

/// Goes on with a wait by one stretch (`wait_class::runs::stretch`).
pub fn stretch_bit(
    domain: &Domain,
    task: &mut Task,
    wait: &mut BitRun,
    stage: Stage<BitTest>,
    passing: &mut Passing,
) -> Turn<Stage<BitTest>, BitOutcome>
    requires of { task.old.domain ≡ domain.now }
    requires passes { PassesNone passing.old }
    requires at { IsAt bit_table task.old wait.old stage }
    ensures turned { Turned bit_table task.old task.new wait.old wait.new stage result }
    ensures stops { IsStop bit_table result }
    ensures given { LastGiven task.old task.new passing.new.head }
    ensures under { (c : _) → IsUnderWay bit_table c task.old wait.old (turn.Again stage)
        → IsUnderWay bit_table c task.new wait.new result }
    ensures came { (start : _) → (f : _) → (s : _) → Advances bit_table start task.old f wait.old s (turn.Again stage)
        → Came bit_table start task.new f wait.new s result }
{
    stretch(domain, task, wait, stage, passing)
}

/// Looks whether a wait that was put asleep was woken (`wait_class::runs::woke`).
pub fn woke_bit(domain: &Domain, task: &mut Task, wait: &BitRun, stage: Stage<BitTest>) -> bool
    requires of { task.old.domain ≡ domain.now }
    requires asleep { IsAsleepAt bit_table task.old wait.now stage }
    ensures advances { MatchBool result (Advances bit_table task.old task.new wait.now wait.now stage (turn.Again stage))
        (Advances bit_table task.old task.new wait.now wait.now stage (turn.Asleep stage)) }
    ensures under { (c : _) → IsUnderWay bit_table c task.old wait.now (turn.Asleep stage)
        → MatchBool result (IsUnderWay bit_table c task.new wait.now (turn.Again stage))
        (IsUnderWay bit_table c task.new wait.now (turn.Asleep stage)) }
    ensures came { (start : _) → (f : _) → (s : _) → Advances bit_table start task.old f wait.now s (turn.Asleep stage)
        → MatchBool result (Advances bit_table start task.new f wait.now s (turn.Again stage))
        (Advances bit_table start task.new f wait.now s (turn.Asleep stage)) }
{
    woke(domain, task, wait, stage)
}

/// Ends a wait that went on by stretches to its end, and answers. Where it found no place it stores RUNNING, as
/// `wait_on_bit` does. Who owed nothing when the wait began owes nothing; and what is said of one that began at `start`
/// is what `wait_on_bit` says.
pub fn end_bit(
    domain: &Domain,
    task: &mut Task,
    wait: &BitRun,
    outcome: BitOutcome,
) -> Result<(), BitEnd>
    requires of { task.old.domain ≡ domain.now }
    requires up { IsUp task.old }
    ensures is { result ≡ bit_end_in wait.now.of.wait outcome }
    ensures of { task.new.domain ≡ domain.now }
    ensures clean { (c : _) → IsUnderWay bit_table c task.old wait.now (turn.Done outcome) → IsClean task.new }
    ensures ends { (start : _) → (f : _) → (word : _) → (bit : _) → (state : _) → IsFreshBitWait f.of.wait word bit state
        → Advances bit_table start task.old f wait.now (stage.Test test.First) (turn.Done outcome)
        → EndsBitWait start task.new word bit state result }
{
    rest(domain, task, is_bit_worn(outcome));
    end_of(wait.of.wait, outcome)
}
