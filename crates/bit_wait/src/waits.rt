//! A wait until a bit is clear: its tests, and where it goes on behind each.

ghost use Rattle.std.specs.Prelude.{◌≡◌};
ghost use Rattle.wait_rule.specs.Says.{IsUp};
ghost use Rattle.wait_class.specs.declared.frame_stages.Stage.TheVariants as stage;
ghost use Rattle.wait_class.specs.Laws.{AddsOwn, MayAdd};
ghost use Rattle.bit_wait.specs.BitTables.{bit_frame, bit_table};

use wait_class::frame_stages::{Framed, Stage};
use wait_class::frames::{Frame, Waiting, load_test};
use wait_class::stages::{Run, Turn};
use wait_model::tasks::SleepState;
use wait_model::watches::{Kind, Watch};
use wait_model::words::bit_at;
use wait_rule::{Domain, Task};
use wq_head::{Worn, add_front};

/// A test of a wait, each of which loads the bit's word: before its first turn, before its sleep and after it, where it
/// tells whether a signal was found, and where no place was left for its entry.
#[derive(Clone, Copy)]
pub enum BitTest {
    First,
    Load,
    Again(bool),
    Worn,
}

/// How a wait ended: its bit was clear, or a signal was found, or no place was left for its entry.
#[derive(Clone, Copy)]
pub enum BitOutcome {
    Over,
    Interrupted,
    Worn,
}

/// The numbers of a wait.
#[derive(Clone, Copy)]
pub struct WaitBit {
    /// The bit word, below `BIT_WORDS`, and the bit of it, below `WORD_BITS`.
    pub word: u8,
    pub bit: u8,
    pub state: SleepState,
    /// The place that showed the last add that no place was left.
    pub place: u64,
    /// What the load before the last sleep found in the bit's word, or the load after a hold that left no place.
    pub seen: u64,
    /// What the last load behind a sleep, or behind a question to leave, found in it.
    pub last: u64,
    /// Its task was asked to leave it.
    pub asked: bool,
}

pub type BitStage = Stage<BitTest>;

pub type BitTurn = Turn<Stage<BitTest>, BitOutcome>;

pub type BitRun = Run<Framed<WaitBit>>;

impl Waiting for WaitBit {
    type Test = BitTest;

    type Outcome = BitOutcome;

    ghost frame = { bit_frame };

    #[inline(always)]
    fn watch(self) -> Watch {
        Watch::Bit {
            word: self.word,
            bit: self.bit,
        }
    }

    #[inline(always)]
    fn state(self) -> SleepState {
        self.state
    }

    #[inline(always)]
    fn prepared() -> BitTest {
        BitTest::Load
    }

    #[inline(always)]
    fn worn_to() -> BitTest {
        BitTest::Worn
    }

    #[inline(always)]
    fn finished(self, failed: bool) -> BitTurn {
        if failed {
            Turn::Done(BitOutcome::Interrupted)
        } else {
            Turn::Done(BitOutcome::Over)
        }
    }

    #[inline(always)]
    fn slept_to(self) -> BitStage {
        if self.state.looks() {
            Stage::Look
        } else {
            Stage::Test(BitTest::Again(false))
        }
    }

    #[inline(always)]
    fn looked(self, hit: bool) -> BitTurn {
        Turn::Again(Stage::Test(BitTest::Again(hit)))
    }

    #[inline(always)]
    fn note(&mut self, test: BitTest, value: u64) {
        match test {
            BitTest::First => (),
            BitTest::Again(_) => self.last = value,
            _ => self.seen = value,
        }
    }

    #[inline(always)]
    fn loaded_to(self, test: BitTest, value: u64) -> BitTurn {
        let set = bit_at(value, self.bit);
        match test {
            BitTest::First => {
                if set {
                    Turn::Again(Stage::PrepareLock)
                } else {
                    Turn::Done(BitOutcome::Over)
                }
            }
            BitTest::Load => {
                if set {
                    Turn::Again(Stage::Sleep)
                } else {
                    Turn::Again(Stage::Test(BitTest::Again(false)))
                }
            }
            BitTest::Again(failed) => {
                if set && !failed {
                    Turn::Again(Stage::PrepareLock)
                } else {
                    Turn::Again(Stage::FinishState(failed))
                }
            }
            BitTest::Worn => {
                if set {
                    Turn::Done(BitOutcome::Worn)
                } else {
                    Turn::Again(Stage::FinishState(false))
                }
            }
        }
    }

    #[inline(always)]
    fn note_worn(&mut self, place: u64) {
        self.place = place;
    }

    #[inline(always)]
    fn add(call: Framed<WaitBit>, domain: &Domain, task: &mut Task) -> Result<(), Worn>
        requires of { task.old.domain ≡ domain.now }
        requires up { IsUp task.old }
        requires may { MayAdd bit_table call stage.PrepareQueue task.old }
        ensures { AddsOwn bit_table call stage.PrepareQueue task.old task.new result }
    {
        add_front(domain, task, 0, Kind::Bit, call.wait.watch())
    }

    #[inline(always)]
    fn lawful() {}
}

impl Frame for WaitBit {
    #[inline(always)]
    fn test(domain: &Domain, task: &mut Task, run: &mut BitRun, test: BitTest) -> BitTurn {
        load_test(domain, task, run, test)
    }
}
