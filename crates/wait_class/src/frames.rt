//! Calls that prepare and finish as the waits for bits do: what differs are their tests.

ghost use Rattle.std.specs.Prelude.{◌≡◌, true};
ghost use Rattle.wait_model.specs.declared.layout.TheConstants.{HEADS};
ghost use Rattle.wait_rule.specs.Says.{IsUp};
ghost use Rattle.wait_class.specs.declared.frame_stages.Stage.TheVariants as stage;
ghost use Rattle.wait_class.specs.{FrameLaws.IsLawfulFrame, Frames.FrameTable, Frames.framed, Handing.LastGiven};
ghost use Rattle.wait_class.specs.{Laws.AddsOwn, Laws.MayAdd};
ghost use Rattle.wait_class.specs.Tables.{IsAt, SleepsNot, Turned, falls};

use crate::frame_stages::{Framed, Stage};
use crate::machines::Machine;
use crate::stages::{Added, Doing, Run, Turn};
use wait_model::layout::RUNNING;
use wait_model::tasks::SleepState;
use wait_model::watches::Watch;
use wait_rule::queues::{Passing, cond_load};
use wait_rule::{Domain, Task};
use wq_head::Worn;

/// A class of such calls: `Self` are the numbers of a call, with what it has noted.
pub trait Waiting: Copy {
    type Test: Copy;

    type Outcome: Copy;

    ghost frame: { FrameTable Self Self.Test Self.Outcome };

    /// What the call waits for, and the state in which it sleeps.
    fn watch(self) -> Watch
        ensures { result ≡ (frame.plan_of self).watch };

    fn state(self) -> SleepState
        ensures { result ≡ (frame.plan_of self).state };

    /// The tests behind a prepare, and behind one that left no place for the entry.
    fn prepared() -> Self::Test
        ensures { result ≡ frame.prepared };

    fn worn_to() -> Self::Test
        ensures { result ≡ frame.worn_to };

    /// Where the call goes on behind a finish, by whether a signal was found before it.
    fn finished(self, failed: bool) -> Turn<Stage<Self::Test>, Self::Outcome>
        ensures { result ≡ frame.finished self failed };

    /// Where it goes on that slept, and that looked for a signal.
    fn slept_to(self) -> Stage<Self::Test>
        ensures { result ≡ frame.slept_to self };

    fn looked(self, hit: bool) -> Turn<Stage<Self::Test>, Self::Outcome>
        ensures { result ≡ frame.looked self hit };

    /// What it notes of what a load found, and where it goes on.
    fn note(&mut self, test: Self::Test, value: u64)
        ensures { self.new ≡ frame.noted self.old test value };

    fn loaded_to(self, test: Self::Test, value: u64) -> Turn<Stage<Self::Test>, Self::Outcome>
        ensures { result ≡ frame.loaded_to self test value };

    /// It notes the place that showed that none is left.
    fn note_worn(&mut self, place: u64)
        ensures { self.new ≡ frame.worn_at self.old place };

    /// Queues the own entry, which is off.
    fn add(call: Framed<Self>, domain: &Domain, task: &mut Task) -> Result<(), Worn>
        requires of { task.old.domain ≡ domain.now }
        requires up { IsUp task.old }
        requires may { MayAdd (framed frame) call stage.PrepareQueue task.old }
        ensures { AddsOwn (framed frame) call stage.PrepareQueue task.old task.new result };

    /// The table keeps the laws.
    fn lawful()
        ensures { IsLawfulFrame frame };
}

/// Such a class, with the events of its tests.
pub trait Frame: Waiting {
    /// Makes the event of a test, which is no sleep: `load_test`, or one of the call's own.
    fn test(
        domain: &Domain,
        task: &mut Task,
        run: &mut Run<Framed<Self>>,
        test: Self::Test,
    ) -> Turn<Stage<Self::Test>, Self::Outcome>
        requires of { task.old.domain ≡ domain.now }
        requires at { IsAt (framed Self.frame) task.old run.old (stage.Test test) }
        ensures turned { Turned (framed Self.frame) task.old task.new run.old run.new (stage.Test test) result }
        ensures falls { falls (framed Self.frame) (stage.Test test) result ≡ true }
        ensures given { LastGiven task.old task.new HEADS }
        ensures awake { SleepsNot task.old task.new };
}

/// The event of a test that loads the condition.
#[inline(always)]
pub fn load_test<F: Waiting>(
    domain: &Domain,
    task: &mut Task,
    run: &mut Run<Framed<F>>,
    test: F::Test,
) -> Turn<Stage<F::Test>, F::Outcome>
    requires of { task.old.domain ≡ domain.now }
    requires loads { F.frame.loads test ≡ true }
    requires at { IsAt (framed F.frame) task.old run.old (stage.Test test) }
    ensures turned { Turned (framed F.frame) task.old task.new run.old run.new (stage.Test test) result }
    ensures falls { falls (framed F.frame) (stage.Test test) result ≡ true }
    ensures given { LastGiven task.old task.new HEADS }
    ensures awake { SleepsNot task.old task.new }
{
    F::lawful();
    let value = cond_load(domain, task, run.of.wait.watch());
    let next = run.of.wait.loaded_to(test, value);
    run.of.wait.note(test, value);
    next
}

impl<F: Frame> Machine for Framed<F> {
    type Stage = Stage<F::Test>;

    type Outcome = F::Outcome;

    ghost table = { framed F.frame };

    #[inline(always)]
    fn watch(self, stage: Stage<F::Test>) -> Watch {
        F::lawful();
        let _ = stage;
        self.wait.watch()
    }

    #[inline(always)]
    fn state(self) -> SleepState {
        self.wait.state()
    }

    #[inline(always)]
    fn doing(stage: Stage<F::Test>) -> Doing {
        match stage {
            Stage::Test(_) => Doing::Own,
            Stage::PrepareLock => Doing::Draw,
            Stage::PrepareTurn => Doing::Lock,
            Stage::PrepareQueue => Doing::Queue,
            Stage::PrepareState => Doing::State,
            Stage::PrepareUnlock => Doing::Unlock,
            Stage::Sleep => Doing::Sleep,
            Stage::Look => Doing::Look,
            Stage::FinishState(_) => Doing::State,
            Stage::FinishLook(_) => Doing::Peek,
            Stage::FinishLock(_) => Doing::Draw,
            Stage::FinishTurn(_) => Doing::Lock,
            Stage::FinishQueue(_) => Doing::Pare,
            Stage::FinishUnlock(_) => Doing::Unlock,
        }
    }

    #[inline(always)]
    fn is_free(stage: Stage<F::Test>) -> bool {
        F::lawful();
        match stage {
            Stage::PrepareQueue => false,
            Stage::PrepareState => false,
            Stage::PrepareUnlock => false,
            Stage::FinishQueue(_) => false,
            Stage::FinishUnlock(_) => false,
            _ => true,
        }
    }

    #[inline(always)]
    fn drawn_to(stage: Stage<F::Test>) -> Stage<F::Test> {
        match stage {
            Stage::PrepareLock => Stage::PrepareTurn,
            Stage::FinishLock(failed) => Stage::FinishTurn(failed),
            _ => stage,
        }
    }

    #[inline(always)]
    fn next_of(self, stage: Stage<F::Test>) -> Turn<Stage<F::Test>, F::Outcome> {
        match stage {
            Stage::PrepareTurn => Turn::Again(Stage::PrepareQueue),
            Stage::PrepareState => Turn::Again(Stage::PrepareUnlock),
            Stage::PrepareUnlock => Turn::Again(Stage::Test(F::prepared())),
            Stage::FinishState(failed) => Turn::Again(Stage::FinishLook(failed)),
            Stage::FinishTurn(failed) => Turn::Again(Stage::FinishQueue(failed)),
            Stage::FinishUnlock(failed) => self.wait.finished(failed),
            _ => Turn::Again(stage),
        }
    }

    #[inline(always)]
    fn note(&mut self, stage: Stage<F::Test>, value: u64) {
        if let Stage::Test(test) = stage {
            self.wait.note(test, value);
        }
    }

    #[inline(always)]
    fn loaded_to(self, stage: Stage<F::Test>, value: u64) -> Turn<Stage<F::Test>, F::Outcome> {
        match stage {
            Stage::Test(test) => self.wait.loaded_to(test, value),
            _ => Turn::Again(stage),
        }
    }

    #[inline(always)]
    fn found_to(self, stage: Stage<F::Test>, found: bool) -> Turn<Stage<F::Test>, F::Outcome> {
        match stage {
            Stage::Look => self.wait.looked(found),
            Stage::FinishLook(failed) => {
                if found {
                    Turn::Again(Stage::FinishLock(failed))
                } else {
                    self.wait.finished(failed)
                }
            }
            Stage::FinishQueue(failed) => {
                if found {
                    Turn::Again(Stage::FinishUnlock(failed))
                } else {
                    self.wait.finished(failed)
                }
            }
            _ => Turn::Again(stage),
        }
    }

    #[inline(always)]
    fn heeded_to(self, stage: Stage<F::Test>, hit: bool) -> Turn<Stage<F::Test>, F::Outcome> {
        let _ = hit;
        Turn::Again(stage)
    }

    #[inline(always)]
    fn slept_to(self, stage: Stage<F::Test>) -> Stage<F::Test> {
        let _ = stage;
        self.wait.slept_to()
    }

    #[inline(always)]
    fn added_to(self, stage: Stage<F::Test>, added: Added) -> Turn<Stage<F::Test>, F::Outcome> {
        let _ = stage;
        match added {
            Added::Joined => Turn::Again(Stage::PrepareState),
            Added::Stayed => Turn::Again(Stage::PrepareUnlock),
            Added::Worn => Turn::Again(Stage::Test(F::worn_to())),
        }
    }

    #[inline(always)]
    fn state_at(self, stage: Stage<F::Test>) -> u32 {
        match stage {
            Stage::PrepareState => self.wait.state().mask(),
            _ => RUNNING,
        }
    }

    #[inline(always)]
    fn note_worn(&mut self, place: u64) {
        self.wait.note_worn(place);
    }

    #[inline(always)]
    fn note_joined(&mut self, stage: Stage<F::Test>) {
        let _ = (*self, stage);
    }

    #[inline(always)]
    fn add(self, domain: &Domain, task: &mut Task, stage: Stage<F::Test>) -> Result<(), Worn> {
        match stage {
            Stage::PrepareQueue => F::add(self, domain, task),
            _ => Ok(()),
        }
    }

    #[inline(always)]
    fn own(
        domain: &Domain,
        task: &mut Task,
        run: &mut Run<Framed<F>>,
        stage: Stage<F::Test>,
        passing: &mut Passing,
    ) -> Turn<Stage<F::Test>, F::Outcome> {
        let _ = *passing;
        match stage {
            Stage::Test(test) => F::test(domain, task, run, test),
            _ => unreachable!(),
        }
    }

    #[inline(always)]
    fn lawful() {
        F::lawful();
    }
}
