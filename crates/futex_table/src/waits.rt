//! A wait on a futex: its stages, and where it goes on behind each.

ghost use Rattle.std.specs.Prelude.{◌≡◌};
ghost use Rattle.wait_rule.specs.Says.{IsUp};
ghost use Rattle.wait_class.specs.declared.stages.Doing.TheVariants as doing;
ghost use Rattle.wait_class.specs.Laws.{AddsOwn, MayAdd};
ghost use Rattle.futex_table.specs.FutexTables.{futex_table};

use wait_class::machines::Machine;
use wait_class::queueing::add_by;
use wait_class::stages::{Added, Doing, Run, Turn};
use wait_model::layout::RUNNING;
use wait_model::queues::Form;
use wait_model::tasks::SleepState;
use wait_model::watches::Watch;
use wait_rule::queues::{Passing, cond_load};
use wait_rule::{Domain, Task};
use wq_head::Worn;

/// The answer of a wait that found another value than the expected one (`EAGAIN`).
pub const AGAIN: i32 = -11;

/// A stage of a wait: where it stands in its program. In the hold that `First` draws a ticket for and `Turn` takes, the
/// word is loaded, and given back at `Again` where it has another value; else the entry is queued and the state stored.
/// `Queued` is the look at the own entry behind the sleep. In the hold of `OffLock` and `OffTurn` the entry is taken off,
/// behind a look for a signal at `OffLook`; true: it found one. In such a hold, or in that of its load, a wait that its
/// task leaves takes its entry off at `Leave`; true: it has queued none.
#[derive(Clone, Copy)]
pub enum FutexStage {
    First,
    Turn,
    Load,
    Again,
    Queue,
    State,
    Unlock,
    Sleep,
    Queued,
    OffLock,
    OffTurn,
    OffLook,
    Off(bool),
    OffUnlock(bool),
    Leave(bool),
    LeaveUnlock(bool),
}

/// How a wait ended: its task was woken, or the word had another value, or a signal was found, or no place was left for
/// its entry, or its task left it (true: in the hold of its load, which found its entry off).
#[derive(Clone, Copy)]
pub enum FutexOutcome {
    Over,
    Again,
    Interrupted,
    Worn,
    Left(bool),
}

/// The numbers of a wait.
#[derive(Clone, Copy)]
pub struct FutexWait {
    /// The futex, below `FIRST_SIMPLE`: the plain condition of this number.
    pub futex: u8,
    /// The value for which the wait sleeps.
    pub expected: u64,
    pub state: SleepState,
    /// The place that showed the add that no place was left.
    pub place: u64,
    /// What the last load of the word found.
    pub seen: u64,
    /// Whether its task was asked to leave it.
    pub asked: bool,
}

pub type FutexTurn = Turn<FutexStage, FutexOutcome>;

pub type FutexRun = Run<FutexWait>;

impl Machine for FutexWait {
    type Stage = FutexStage;

    type Outcome = FutexOutcome;

    ghost table = { futex_table };

    #[inline(always)]
    fn watch(self, stage: FutexStage) -> Watch {
        let _ = stage;
        Watch::Plain { cond: self.futex }
    }

    #[inline(always)]
    fn state(self) -> SleepState {
        self.state
    }

    #[inline(always)]
    fn doing(stage: FutexStage) -> Doing {
        match stage {
            FutexStage::First => Doing::Draw,
            FutexStage::Turn => Doing::Lock,
            FutexStage::Load => Doing::Own,
            FutexStage::Again => Doing::Unlock,
            FutexStage::Queue => Doing::Queue,
            FutexStage::State => Doing::State,
            FutexStage::Unlock => Doing::Unlock,
            FutexStage::Sleep => Doing::Sleep,
            FutexStage::Queued => Doing::Peek,
            FutexStage::OffLock => Doing::Draw,
            FutexStage::OffTurn => Doing::Lock,
            FutexStage::OffLook => Doing::Heed,
            FutexStage::Off(_) => Doing::Pare,
            FutexStage::OffUnlock(_) => Doing::Unlock,
            FutexStage::Leave(_) => Doing::Pare,
            FutexStage::LeaveUnlock(_) => Doing::Unlock,
        }
    }

    #[inline(always)]
    fn is_free(stage: FutexStage) -> bool {
        match stage {
            FutexStage::Load => false,
            FutexStage::Again => false,
            FutexStage::Queue => false,
            FutexStage::State => false,
            FutexStage::Unlock => false,
            FutexStage::OffLook => false,
            FutexStage::Off(_) => false,
            FutexStage::OffUnlock(_) => false,
            FutexStage::Leave(_) => false,
            FutexStage::LeaveUnlock(_) => false,
            _ => true,
        }
    }

    #[inline(always)]
    fn drawn_to(stage: FutexStage) -> FutexStage {
        match stage {
            FutexStage::First => FutexStage::Turn,
            FutexStage::OffLock => FutexStage::OffTurn,
            _ => stage,
        }
    }

    #[inline(always)]
    fn next_of(self, stage: FutexStage) -> FutexTurn {
        match stage {
            FutexStage::Turn => Turn::Again(FutexStage::Load),
            FutexStage::Again => Turn::Done(FutexOutcome::Again),
            FutexStage::State => Turn::Again(FutexStage::Unlock),
            FutexStage::Unlock => Turn::Again(FutexStage::Sleep),
            FutexStage::OffTurn => {
                if self.state.looks() {
                    Turn::Again(FutexStage::OffLook)
                } else {
                    Turn::Again(FutexStage::Off(false))
                }
            }
            FutexStage::OffUnlock(true) => Turn::Done(FutexOutcome::Interrupted),
            FutexStage::OffUnlock(false) => Turn::Again(FutexStage::First),
            FutexStage::LeaveUnlock(_) => Turn::Done(FutexOutcome::Left(false)),
            _ => Turn::Again(stage),
        }
    }

    #[inline(always)]
    fn note(&mut self, stage: FutexStage, value: u64) {
        let _ = stage;
        self.seen = value;
    }

    #[inline(always)]
    fn loaded_to(self, stage: FutexStage, value: u64) -> FutexTurn {
        let _ = stage;
        if value == self.expected {
            Turn::Again(FutexStage::Queue)
        } else {
            Turn::Again(FutexStage::Again)
        }
    }

    #[inline(always)]
    fn found_to(self, stage: FutexStage, found: bool) -> FutexTurn {
        match stage {
            FutexStage::Queued => {
                if found {
                    Turn::Again(FutexStage::OffLock)
                } else {
                    Turn::Done(FutexOutcome::Over)
                }
            }
            FutexStage::Off(hit) => {
                if found {
                    Turn::Again(FutexStage::OffUnlock(hit))
                } else {
                    Turn::Done(FutexOutcome::Over)
                }
            }
            FutexStage::OffLook => {
                if found {
                    Turn::Again(FutexStage::OffLook)
                } else {
                    Turn::Done(FutexOutcome::Over)
                }
            }
            FutexStage::Leave(fresh) => {
                if found {
                    Turn::Again(FutexStage::LeaveUnlock(fresh))
                } else if fresh {
                    Turn::Done(FutexOutcome::Left(true))
                } else {
                    Turn::Done(FutexOutcome::Over)
                }
            }
            _ => Turn::Again(stage),
        }
    }

    #[inline(always)]
    fn heeded_to(self, stage: FutexStage, hit: bool) -> FutexTurn {
        let _ = stage;
        Turn::Again(FutexStage::Off(hit))
    }

    #[inline(always)]
    fn slept_to(self, stage: FutexStage) -> FutexStage {
        let _ = stage;
        FutexStage::Queued
    }

    #[inline(always)]
    fn added_to(self, stage: FutexStage, added: Added) -> FutexTurn {
        let _ = stage;
        match added {
            Added::Joined => Turn::Again(FutexStage::State),
            Added::Stayed => Turn::Again(FutexStage::Unlock),
            Added::Worn => Turn::Done(FutexOutcome::Worn),
        }
    }

    #[inline(always)]
    fn state_at(self, stage: FutexStage) -> u32 {
        match stage {
            FutexStage::State => self.state.mask(),
            _ => RUNNING,
        }
    }

    #[inline(always)]
    fn note_worn(&mut self, place: u64) {
        self.place = place;
    }

    #[inline(always)]
    fn note_joined(&mut self, stage: FutexStage) {
        let _ = (*self, stage);
    }

    #[inline(always)]
    fn add(self, domain: &Domain, task: &mut Task, stage: FutexStage) -> Result<(), Worn>
        requires of { task.old.domain ≡ domain.now }
        requires up { IsUp task.old }
        requires may { MayAdd futex_table self stage task.old }
        ensures { futex_table.doing stage ≡ doing.Queue → AddsOwn futex_table self stage task.old task.new result }
    {
        let watch = Watch::Plain { cond: self.futex };
        add_by(domain, task, Form::Tail, watch.kind(), watch)
    }

    /// The load of the word in the hold.
    #[inline(always)]
    fn own(
        domain: &Domain,
        task: &mut Task,
        run: &mut FutexRun,
        stage: FutexStage,
        passing: &mut Passing,
    ) -> FutexTurn {
        let _ = *passing;
        let value = cond_load(domain, task, run.of.watch(stage));
        let next = run.of.loaded_to(stage, value);
        run.of.note(stage, value);
        next
    }

    #[inline(always)]
    fn lawful() {}
}
