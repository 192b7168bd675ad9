//! Waits until a bit is clear that their task leaves.

ghost use Rattle.std.specs.Prelude.{◌≡◌, ◌<◌, None, true};
ghost use Rattle.wait_model.specs.declared.layout.TheConstants.{BIT_WORDS, WORD_BITS};
ghost use Rattle.wait_rule.specs.{Queues.IsIdle, Queues.index, Stays.Carries};
ghost use Rattle.wait_rule.specs.Says.{IsClean, IsUp, told_of};
ghost use Rattle.wait_class.specs.{Posts.IsOut, Posts.Keeps, Tables.IsAt, Tables.SleepsNot};
ghost use Rattle.wait_class.specs.declared.stages.Turn.TheVariants as turn;
ghost use Rattle.wait_event.specs.Ends.{wait_change};
ghost use Rattle.wait_leave.specs.OnTheWay.{IsOnWay, OnTheWay};
ghost use Rattle.bit_wait.specs.BitLeaves.{EndsBitWaitUntil, LeavesBitWait, bit_exits, bit_until_in};
ghost use Rattle.bit_wait.specs.BitTables.{bit_table};

use crate::wait_calls::{BitEnd, begin_bit, end_of, is_bit_worn};
use crate::waits::{BitOutcome, BitRun, BitStage, BitTest, WaitBit};
use std::sync::Wait;
use wait_class::frame_stages::{Framed, Stage};
use wait_class::runs::rest;
use wait_class::stages::Turn;
use wait_leave::{Exit, Parting, Until, leave, run_asked};
use wait_model::tasks::SleepState;
use wait_model::words::bit_at;
use wait_rule::{Domain, Task};

impl Parting for WaitBit {
    ghost parting = { bit_exits };

    #[inline(always)]
    fn asked(call: Framed<WaitBit>) -> Framed<WaitBit>
        ensures { result ≡ bit_exits.asks call }
    {
        Framed {
            wait: WaitBit {
                asked: true,
                ..call.wait
            },
        }
    }

    #[inline(always)]
    fn exit(_call: Framed<WaitBit>, stage: BitStage) -> Option<Exit<BitStage, BitOutcome>>
        ensures { result ≡ bit_exits.exit _call stage }
    {
        let goes = match stage {
            Stage::Test(BitTest::First) => true,
            Stage::Test(BitTest::Load) => true,
            Stage::Test(BitTest::Again(failed)) => !failed,
            Stage::PrepareLock => true,
            Stage::Sleep => true,
            Stage::Look => true,
            _ => false,
        };
        if goes {
            Some(Exit {
                to: Turn::Again(Stage::Test(BitTest::Again(true))),
                rests: false,
            })
        } else {
            None
        }
    }

    #[inline(always)]
    fn may_leave() {}
}

/// Leaves a wait until a bit is clear that goes on by stretches, at a stage at which its task is awake: to its end, and
/// answers. It waits for the lock of the head alone, and never sleeps: it loads the bit once more, and takes its entry
/// off. Left: that load found the bit set in `seen`. Over: it found it clear (Ok), or the wait had ended before it was
/// left, as `wait_on_bit` says. Its entry is off then. Who owed nothing when the wait began owes nothing.
pub fn leave_bit<R: Wait>(
    rt: &R,
    domain: &Domain,
    task: &mut Task,
    call: &mut BitRun,
    stage: BitStage,
) -> Until<Result<(), BitEnd>>
    requires of { task.old.domain ≡ domain.now }
    requires at { IsAt bit_table task.old call.old stage }
    ensures leaves { LeavesBitWait (Unit {0}) task.old task.new call.old stage result }
    ensures awake { SleepsNot task.old task.new }
    ensures up { IsUp task.new }
    ensures out { IsOut task.new }
    ensures idle { (told_of task.old).mark ≡ None → IsIdle task.new }
    ensures keeps { Keeps (index task.old.view.number 0) task.old task.new }
    ensures clean { (c : _) → IsOnWay (Unit {0}) bit_table bit_exits c task.old call.old (turn.Again stage)
        → IsClean task.new }
{
    let outcome = leave(rt, domain, task, call, stage);
    rest(domain, task, is_bit_worn(outcome));
    until_of(call.of.wait, outcome)
}

/// The answer of a wait that has ended, and may have been left.
pub fn until_of(run: WaitBit, outcome: BitOutcome) -> Until<Result<(), BitEnd>>
    ensures { result ≡ bit_until_in run outcome }
{
    match outcome {
        BitOutcome::Interrupted => {
            if !run.asked {
                Until::Over(end_of(run, outcome))
            } else if bit_at(run.last, run.bit) {
                Until::Left { seen: run.last }
            } else {
                Until::Over(Ok(()))
            }
        }
        _ => Until::Over(end_of(run, outcome)),
    }
}

/// Ends a wait that went on by stretches to its end, and was asked to leave on its way (`wait_leave::stretch_out`) or was
/// not, and answers. Where it found no place it stores RUNNING, as `wait_on_bit` does. Who owed nothing when the wait
/// began owes nothing.
pub fn end_bit_until(
    domain: &Domain,
    task: &mut Task,
    wait: &BitRun,
    outcome: BitOutcome,
) -> Until<Result<(), BitEnd>>
    requires of { task.old.domain ≡ domain.now }
    requires up { IsUp task.old }
    ensures is { result ≡ bit_until_in wait.now.of.wait outcome }
    ensures of { task.new.domain ≡ domain.now }
    ensures clean { (c : _) → IsOnWay (Unit {0}) bit_table bit_exits c task.old wait.now (turn.Done outcome)
        → IsClean task.new }
    ensures ends { (start : _) → (f : _) → (s : _)
        → OnTheWay (Unit {0}) bit_table bit_exits start f s task.old wait.now (turn.Done outcome)
        → LeavesBitWait (Unit {0}) start task.new f s result }
{
    rest(domain, task, is_bit_worn(outcome));
    until_of(wait.of.wait, outcome)
}

/// Waits as `wait_on_bit` does, but leaves the wait once `asks` has answered true: it is asked before each event while
/// its task is awake, so before it goes asleep and once it was woken. Who stores what `asks` reads and then wakes the
/// task (`wake_task`) is heard. Left: asked so, its entry off, and its load behind the question found the bit set in
/// `seen`; the task has not slept since. Ok: that load found the bit clear, or it was not asked. Over else: as
/// `wait_on_bit` answers.
pub fn wait_on_bit_until<R: Wait, Q: Fn() -> bool>(
    rt: &R,
    domain: &Domain,
    task: &mut Task,
    word: u8,
    bit: u8,
    state: SleepState,
    asks: Q,
) -> Until<Result<(), BitEnd>>
    requires of { task.old.domain ≡ domain.now }
    requires up { IsUp task.old }
    requires idle { IsIdle task.old }
    requires word { word < BIT_WORDS }
    requires bit { bit < WORD_BITS }
    requires out { IsOut task.old }
    requires asks { Q.IsAlwaysCallable asks }
    ensures waited { EndsBitWaitUntil (Q.post asks true) task.old task.new word bit state result }
    ensures up { IsUp task.new }
    ensures idle { IsIdle task.new }
    ensures out { IsOut task.new }
    ensures carries { Carries (wait_change (index task.old.view.number 0) task.new.at) task.old task.new }
{
    let mut call = begin_bit(task, word, bit, state);
    let outcome = run_asked(
        rt,
        domain,
        task,
        &mut call,
        Stage::Test(BitTest::First),
        asks,
    );
    rest(domain, task, is_bit_worn(outcome));
    until_of(call.of.wait, outcome)
}
