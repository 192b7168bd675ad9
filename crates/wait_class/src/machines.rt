//! Calls that wait, as tables of stages.

ghost use Rattle.std.specs.Prelude.{◌≡◌, ◌⊎◌, not, true};
ghost use Rattle.wait_model.specs.{PointFacts.holds, Tasks.IsState};
ghost use Rattle.wait_rule.specs.{PassedLocks.PassesNone, Says.IsUp};
ghost use Rattle.wait_class.specs.declared.stages.Added.TheVariants as adds;
ghost use Rattle.wait_class.specs.declared.stages.Doing.TheVariants as doing;
ghost use Rattle.wait_class.specs.Handing.{LastGiven};
ghost use Rattle.wait_class.specs.Laws.{AddsOwn, IsLawfulCallTable, MayAdd};
ghost use Rattle.wait_class.specs.Tables.{IsAt, IsStop, CallTable, SleepsNot, Turned, falls, stage_watch};

use crate::stages::{Added, Doing, Run, Turn};
use wait_model::tasks::SleepState;
use wait_model::watches::Watch;
use wait_rule::queues::Passing;
use wait_rule::{Domain, Task};
use wq_head::Worn;

/// A class of calls that wait: `Self` are the numbers of a call, with what it has noted.
pub trait Machine: Copy {
    type Stage: Copy;

    type Outcome: Copy;

    ghost table: { CallTable Self Self.Stage Self.Outcome };

    /// What a stage is about, and the state in which the call sleeps.
    fn watch(self, stage: Self::Stage) -> Watch
        ensures { result ≡ stage_watch table self stage };

    fn state(self) -> SleepState
        ensures { result ≡ (table.plan_of self).state };

    fn doing(stage: Self::Stage) -> Doing
        ensures { result ≡ table.doing stage };

    fn is_free(stage: Self::Stage) -> bool
        ensures { result ≡ not (holds (table.point_of stage)) };

    /// The stage behind a draw.
    fn drawn_to(stage: Self::Stage) -> Self::Stage
        ensures { result ≡ table.drawn_to stage };

    /// Where the call goes on behind a lock, an unlock and a store of a state.
    fn next_of(self, stage: Self::Stage) -> Turn<Self::Stage, Self::Outcome>
        ensures { result ≡ table.next_of self stage };

    /// What it notes of what a load found, and where it goes on.
    fn note(&mut self, stage: Self::Stage, value: u64)
        ensures { self.new ≡ table.noted self.old stage value };

    fn loaded_to(self, stage: Self::Stage, value: u64) -> Turn<Self::Stage, Self::Outcome>
        ensures { result ≡ table.loaded_to self stage value };

    /// Where it goes on that found its entry queued, or a signal, or did not.
    fn found_to(self, stage: Self::Stage, found: bool) -> Turn<Self::Stage, Self::Outcome>
        ensures { result ≡ table.found_to self stage found };

    /// Where it goes on that found its entry queued in a hold, and a signal or none.
    fn heeded_to(self, stage: Self::Stage, hit: bool) -> Turn<Self::Stage, Self::Outcome>
        ensures { result ≡ table.heeded_to self stage hit };

    /// Where it goes on that slept.
    fn slept_to(self, stage: Self::Stage) -> Self::Stage
        ensures { result ≡ table.slept_to self stage };

    /// Where it goes on by what came of its add.
    fn added_to(self, stage: Self::Stage, added: Added) -> Turn<Self::Stage, Self::Outcome>
        ensures { result ≡ table.added_to self stage added };

    /// The state that it stores.
    fn state_at(self, stage: Self::Stage) -> u32
        ensures is { result ≡ table.state_at self stage }
        ensures state { IsState result };

    /// It notes the place that showed that none is left.
    fn note_worn(&mut self, place: u64)
        ensures { self.new ≡ table.worn_at self.old place };

    /// It notes that it has queued its entry.
    fn note_joined(&mut self, stage: Self::Stage)
        ensures { self.new ≡ table.joined_at self.old stage };

    /// Queues the own entry, which is off, at a stage at which entries are queued; elsewhere what it answers says
    /// nothing.
    fn add(self, domain: &Domain, task: &mut Task, stage: Self::Stage) -> Result<(), Worn>
        requires of { task.old.domain ≡ domain.now }
        requires up { IsUp task.old }
        requires may { MayAdd table self stage task.old }
        ensures { table.doing stage ≡ doing.Queue → AddsOwn table self stage task.old task.new result };

    /// Makes an event of the call's own, which is no sleep. `passing` has the lock that it gave back, or none.
    fn own(
        domain: &Domain,
        task: &mut Task,
        run: &mut Run<Self>,
        stage: Self::Stage,
        passing: &mut Passing,
    ) -> Turn<Self::Stage, Self::Outcome>
        requires of { task.old.domain ≡ domain.now }
        requires passes { PassesNone passing.old }
        requires here { table.doing stage ≡ doing.Own }
        requires at { IsAt table task.old run.old stage }
        ensures turned { Turned table task.old task.new run.old run.new stage result }
        ensures passes { PassesNone passing.new ⊎ IsStop table result }
        ensures falls { falls table stage result ≡ true }
        ensures given { LastGiven task.old task.new passing.new.head }
        ensures awake { SleepsNot task.old task.new };

    /// The table keeps the laws.
    fn lawful()
        ensures { IsLawfulCallTable table };
}
