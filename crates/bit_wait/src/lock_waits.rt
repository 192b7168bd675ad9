//! A wait to take a bit: its tests, and where it goes on behind each.

ghost use Rattle.std.specs.Prelude.{◌≡◌, false, true};
ghost use Rattle.wait_model.specs.declared.watches.Watch.TheVariants as watch;
ghost use Rattle.bit_wait.specs.LockTables.{finished_to, stands_worn, lock_loaded_to, lock_looked_to, lock_slept_to, tried_to};
ghost use Rattle.wait_rule.specs.Says.{IsUp};
ghost use Rattle.wait_model.specs.declared.layout.TheConstants.{HEADS};
ghost use Rattle.wait_class.specs.{Handing.LastGiven, Laws.AddsOwn, Laws.MayAdd};
ghost use Rattle.wait_class.specs.Tables.{IsAt, SleepsNot, Turned, falls};
ghost use Rattle.wait_class.specs.declared.frame_stages.Stage.TheVariants as stage;
ghost use Rattle.bit_wait.specs.LockTables.{lock_frame, lock_table};

pub use crate::lock_runs::{LockBit, LockOutcome, LockTest};
use wait_class::frame_stages::{Framed, Stage};
use wait_class::frames::{Frame, Waiting, load_test};
use wait_class::stages::{Run, Turn};
use wait_model::tasks::SleepState;
use wait_model::watches::Watch;
use wait_model::words::bit_at;
use wait_rule::bits::bit_set;
use wait_rule::{Domain, Task};
use wq_head::{Worn, add_for_bit};

pub type LockStage = Stage<LockTest>;

pub type LockTurn = Turn<Stage<LockTest>, LockOutcome>;

pub type LockRun = Run<Framed<LockBit>>;

/// Where a wait goes on that tried the bit, and found it set or not.
#[inline(always)]
fn tried_to(test: LockTest, set: bool) -> LockTurn
    ensures { result ≡ tried_to test set }
{
    match test {
        LockTest::Again => {
            if set {
                Turn::Again(Stage::PrepareLock)
            } else {
                Turn::Again(Stage::FinishState(false))
            }
        }
        _ => {
            if !set {
                return Turn::Done(LockOutcome::Over);
            }
            match test {
                LockTest::Last => Turn::Done(LockOutcome::Interrupted),
                LockTest::Worn => Turn::Done(LockOutcome::Worn),
                _ => Turn::Again(Stage::PrepareLock),
            }
        }
    }
}

/// Whether this is the test behind a hold that found no place.
#[inline(always)]
fn stands_worn(test: LockTest) -> bool
    ensures { result ≡ stands_worn test }
{
    match test {
        LockTest::Worn => true,
        _ => false,
    }
}

/// The bit is tried, and noted what it found, and whether that was behind a hold that found no place.
#[inline(always)]
fn try_test(domain: &Domain, task: &mut Task, run: &mut LockRun, test: LockTest) -> LockTurn
    requires of { task.old.domain ≡ domain.now }
    requires tries { lock_frame.loads test ≡ false }
    requires at { IsAt lock_table task.old run.old (stage.Test test) }
    ensures turned { Turned lock_table task.old task.new run.old run.new (stage.Test test) result }
    ensures falls { falls lock_table (stage.Test test) result ≡ true }
    ensures given { LastGiven task.old task.new HEADS }
    ensures awake { SleepsNot task.old task.new }
{
    let value = bit_set(domain, task, run.of.wait.word, run.of.wait.bit);
    run.of.wait.seen = value;
    run.of.wait.worn = stands_worn(test);
    tried_to(test, bit_at(value, run.of.wait.bit))
}

impl Waiting for LockBit {
    type Test = LockTest;

    type Outcome = LockOutcome;

    ghost frame = { lock_frame };

    #[inline(always)]
    fn watch(self) -> Watch {
        Watch::Bit {
            word: self.word,
            bit: self.bit,
        }
    }

    #[inline(always)]
    fn state(self) -> SleepState {
        self.state
    }

    #[inline(always)]
    fn prepared() -> LockTest {
        LockTest::Load
    }

    #[inline(always)]
    fn worn_to() -> LockTest {
        LockTest::Worn
    }

    #[inline(always)]
    fn finished(self, failed: bool) -> LockTurn {
        if failed {
            Turn::Again(Stage::Test(LockTest::Last))
        } else {
            Turn::Done(LockOutcome::Over)
        }
    }

    #[inline(always)]
    fn slept_to(self) -> LockStage {
        if self.state.looks() {
            Stage::Look
        } else {
            Stage::Test(LockTest::Again)
        }
    }

    #[inline(always)]
    fn looked(self, hit: bool) -> LockTurn {
        if hit {
            Turn::Again(Stage::FinishState(true))
        } else {
            Turn::Again(Stage::Test(LockTest::Again))
        }
    }

    #[inline(always)]
    fn note(&mut self, _test: LockTest, _value: u64) {
        let _ = *self;
    }

    #[inline(always)]
    fn loaded_to(self, _test: LockTest, value: u64) -> LockTurn {
        if bit_at(value, self.bit) {
            Turn::Again(Stage::Sleep)
        } else {
            Turn::Again(Stage::Test(LockTest::Again))
        }
    }

    #[inline(always)]
    fn note_worn(&mut self, place: u64) {
        self.place = place;
        self.worn = true;
    }

    #[inline(always)]
    fn add(call: Framed<LockBit>, domain: &Domain, task: &mut Task) -> Result<(), Worn>
        requires of { task.old.domain ≡ domain.now }
        requires up { IsUp task.old }
        requires may { MayAdd lock_table call stage.PrepareQueue task.old }
        ensures { AddsOwn lock_table call stage.PrepareQueue task.old task.new result }
    {
        add_for_bit(domain, task, call.wait.watch())
    }

    #[inline(always)]
    fn lawful() {}
}

impl Frame for LockBit {
    #[inline(always)]
    fn test(domain: &Domain, task: &mut Task, run: &mut LockRun, test: LockTest) -> LockTurn {
        match test {
            LockTest::Load => load_test(domain, task, run, LockTest::Load),
            _ => try_test(domain, task, run, test),
        }
    }
}
