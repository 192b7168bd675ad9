//! A wait for a completion (`do_wait_for_common`): its stages, where it goes on behind each, and the events that it
//! alone makes.

ghost use Rattle.std.specs.Prelude.{◌≡◌, ◌⊎◌, true};
ghost use Rattle.wait_model.specs.declared.layout.TheConstants.{HEADS};
ghost use Rattle.wait_rule.specs.{Known.Known, PassedLocks.PassesNone, Says.IsUp};
ghost use Rattle.wait_class.specs.declared.stages.Doing.TheVariants as doing;
ghost use Rattle.wait_class.specs.{Handing.LastGiven, Laws.AddsOwn, Laws.MayAdd};
ghost use Rattle.wait_class.specs.Tables.{IsAt, IsStop, SleepsNot, Turned, falls};
ghost use Rattle.completion_cell.specs.declared.awaits.AwaitStage.TheVariants as stage;
ghost use Rattle.completion_cell.specs.Awaits.{ParesAwait, QuitsFrom, TakesFrom, await_table, counted_to};
ghost use Rattle.completion_cell.specs.Awaits.{off_stage, quit_stage, take_stage};

use crate::asks::take_one;
use wait_class::machines::Machine;
use wait_class::queueing::own_entry;
use wait_class::stages::{Added, Doing, Run, Turn};
use wait_model::layout::RUNNING;
use wait_model::tasks::SleepState;
use wait_model::watches::{Kind, Watch};
use wait_rule::counts::done_load;
use wait_rule::queues::Passing;
use wait_rule::{Domain, Task};
use wq_head::locks::give_back;
use wq_head::{Worn, add_tail, remove};

/// A stage of a wait: where it stands in its program. The first hold, and the further ones, each with its lock and its
/// load; then, where that found 0, a look for a signal, the add, the state and the unlock, and the sleep; the end of a
/// wait that found a signal; and that of one that takes one of the count. At `FirstTurn` and `AgainTurn` the ticket of
/// the lock is drawn, at `First` and `Again` it is not.
#[derive(Clone, Copy)]
pub enum AwaitStage {
    First,
    FirstTurn,
    FirstLoad,
    Again,
    AgainTurn,
    AgainLoad,
    Look,
    Queue,
    State,
    Unlock,
    Sleep,
    LeaveState,
    LeaveQueue,
    LeaveUnlock,
    TakeState,
    TakeQueue,
    TakeStore,
    TakeUnlock,
}

/// How a wait ended: it took one, or the count is at its end; a signal ended it (true: its last hold found its entry
/// queued); or no place was left for its entry.
#[derive(Clone, Copy)]
pub enum AwaitOutcome {
    Over,
    Signalled(bool),
    Worn,
}

/// The numbers of a wait.
#[derive(Clone, Copy)]
pub struct AwaitCall {
    pub cell: u8,
    pub state: SleepState,
    /// What the last load of the count found.
    pub count: u32,
    /// Where a member stands that leaves no place.
    pub place: u64,
    /// Whether the wait has queued its entry.
    pub queued: bool,
    /// Its task was asked to leave it.
    pub asked: bool,
}

pub type AwaitTurn = Turn<AwaitStage, AwaitOutcome>;

pub type AwaitRun = Run<AwaitCall>;

/// Where a wait goes on that loaded its count: `waited` is whether it was in its loop before.
#[inline(always)]
fn counted_to(run: AwaitCall, waited: bool) -> AwaitTurn
    ensures { result ≡ counted_to run waited }
{
    if run.count == 0 {
        if run.state.looks() {
            Turn::Again(AwaitStage::Look)
        } else {
            Turn::Again(AwaitStage::Queue)
        }
    } else if waited {
        Turn::Again(AwaitStage::TakeState)
    } else {
        Turn::Again(AwaitStage::TakeStore)
    }
}

/// The count is loaded in the first hold.
#[inline(always)]
fn first_event(domain: &Domain, task: &mut Task, run: &mut AwaitRun) -> AwaitTurn
    requires of { task.old.domain ≡ domain.now }
    requires at { IsAt await_table task.old run.old stage.FirstLoad }
    ensures turned { Turned await_table task.old task.new run.old run.new stage.FirstLoad result }
    ensures falls { falls await_table stage.FirstLoad result ≡ true }
    ensures given { LastGiven task.old task.new HEADS }
    ensures awake { SleepsNot task.old task.new }
{
    run.of.count = done_load(domain, task, run.of.cell);
    counted_to(run.of, false)
}

/// A wait that was in its loop looks at its own entry before it loads the count. So it knows whether the permit that it
/// may find was handed to it, or was left there by who found nobody queued.
#[inline(always)]
fn again_event(domain: &Domain, task: &mut Task, run: &mut AwaitRun) -> AwaitTurn
    requires of { task.old.domain ≡ domain.now }
    requires at { IsAt await_table task.old run.old stage.AgainLoad }
    ensures turned { Turned await_table task.old task.new run.old run.new stage.AgainLoad result }
    ensures falls { falls await_table stage.AgainLoad result ≡ true }
    ensures given { LastGiven task.old task.new HEADS }
    ensures awake { SleepsNot task.old task.new }
{
    own_entry(domain, task);
    run.of.count = done_load(domain, task, run.of.cell);
    counted_to(run.of, true)
}

/// The own entry is taken off where it is queued: true where it was. `stopped` is whether a signal ends the wait.
#[inline(always)]
fn pare(domain: &Domain, task: &mut Task, run: &AwaitRun, stopped: bool) -> bool
    requires of { task.old.domain ≡ domain.now }
    requires at { IsAt await_table task.old run.now (off_stage stopped) }
    ensures pares { ParesAwait task.old task.new run.now stopped result }
    ensures given { LastGiven task.old task.new HEADS }
    ensures awake { SleepsNot task.old task.new }
{
    let _ = (*run, stopped);
    let me = task.number();
    let entry = own_entry(domain, task);
    if entry.is_some() {
        remove(domain, task, me, 0);
        return true;
    }
    false
}

/// One is taken of the count, unless it is at its end: then the head is given back, and the wait is over. The own entry
/// is off; `found` is whether this hold has taken it off.
#[inline(always)]
fn take_event(
    domain: &Domain,
    task: &mut Task,
    run: &AwaitRun,
    found: bool,
    passing: &mut Passing,
) -> AwaitTurn
    requires of { task.old.domain ≡ domain.now }
    requires passes { PassesNone passing.old }
    requires may { (start : Known) × TakesFrom start task.old run.now found }
    ensures turned { (start : Known) → TakesFrom start task.old run.now found
        → Turned await_table start task.new run.now run.now (take_stage found) result }
    ensures passes { PassesNone passing.new ⊎ IsStop await_table result }
    ensures falls { falls await_table (take_stage found) result ≡ true }
    ensures given { LastGiven task.old task.new passing.new.head }
    ensures awake { SleepsNot task.old task.new }
{
    let _ = found;
    if take_one(domain, task, run.of.cell, run.of.count) {
        return Turn::Again(AwaitStage::TakeUnlock);
    }
    passing.put(give_back(domain, task, false));
    Turn::Done(AwaitOutcome::Over)
}

/// The wait is over for a signal: the head is given back. The own entry is off, and `found` as for `take_event`.
#[inline(always)]
fn quit_event(
    domain: &Domain,
    task: &mut Task,
    run: &AwaitRun,
    found: bool,
    passing: &mut Passing,
) -> AwaitTurn
    requires of { task.old.domain ≡ domain.now }
    requires passes { PassesNone passing.old }
    requires may { (start : Known) × QuitsFrom start task.old run.now found }
    ensures turned { (start : Known) → QuitsFrom start task.old run.now found
        → Turned await_table start task.new run.now run.now (quit_stage found) result }
    ensures passes { PassesNone passing.new ⊎ IsStop await_table result }
    ensures falls { falls await_table (quit_stage found) result ≡ true }
    ensures given { LastGiven task.old task.new passing.new.head }
    ensures awake { SleepsNot task.old task.new }
{
    let _ = *run;
    passing.put(give_back(domain, task, false));
    Turn::Done(AwaitOutcome::Signalled(found))
}

/// The event at a stage at which a wait leaves its loop, or takes one of its count.
#[inline(always)]
fn off_event(
    domain: &Domain,
    task: &mut Task,
    run: &AwaitRun,
    stopped: bool,
    passing: &mut Passing,
) -> AwaitTurn
    requires of { task.old.domain ≡ domain.now }
    requires passes { PassesNone passing.old }
    requires at { IsAt await_table task.old run.now (off_stage stopped) }
    ensures turned { Turned await_table task.old task.new run.now run.now (off_stage stopped) result }
    ensures passes { PassesNone passing.new ⊎ IsStop await_table result }
    ensures falls { falls await_table (off_stage stopped) result ≡ true }
    ensures given { LastGiven task.old task.new passing.new.head }
    ensures awake { SleepsNot task.old task.new }
{
    let found = pare(domain, task, run, stopped);
    match (stopped, found) {
        (true, true) => Turn::Again(AwaitStage::LeaveUnlock),
        (false, true) => Turn::Again(AwaitStage::TakeStore),
        (true, false) => quit_event(domain, task, run, false, passing),
        (false, false) => take_event(domain, task, run, false, passing),
    }
}

impl Machine for AwaitCall {
    type Stage = AwaitStage;

    type Outcome = AwaitOutcome;

    ghost table = { await_table };

    #[inline(always)]
    fn watch(self, _stage: AwaitStage) -> Watch {
        Watch::Done { cell: self.cell }
    }

    #[inline(always)]
    fn state(self) -> SleepState {
        self.state
    }

    #[inline(always)]
    fn doing(stage: AwaitStage) -> Doing {
        match stage {
            AwaitStage::First => Doing::Draw,
            AwaitStage::FirstTurn => Doing::Lock,
            AwaitStage::Again => Doing::Draw,
            AwaitStage::AgainTurn => Doing::Lock,
            AwaitStage::Look => Doing::Look,
            AwaitStage::Queue => Doing::Queue,
            AwaitStage::State => Doing::State,
            AwaitStage::Unlock => Doing::Unlock,
            AwaitStage::Sleep => Doing::Sleep,
            AwaitStage::LeaveState => Doing::State,
            AwaitStage::TakeState => Doing::State,
            AwaitStage::TakeUnlock => Doing::Unlock,
            _ => Doing::Own,
        }
    }

    #[inline(always)]
    fn is_free(stage: AwaitStage) -> bool {
        match stage {
            AwaitStage::First => true,
            AwaitStage::FirstTurn => true,
            AwaitStage::Again => true,
            AwaitStage::AgainTurn => true,
            AwaitStage::Sleep => true,
            _ => false,
        }
    }

    #[inline(always)]
    fn drawn_to(stage: AwaitStage) -> AwaitStage {
        match stage {
            AwaitStage::First => AwaitStage::FirstTurn,
            AwaitStage::Again => AwaitStage::AgainTurn,
            _ => stage,
        }
    }

    #[inline(always)]
    fn next_of(self, stage: AwaitStage) -> AwaitTurn {
        match stage {
            AwaitStage::FirstTurn => Turn::Again(AwaitStage::FirstLoad),
            AwaitStage::AgainTurn => Turn::Again(AwaitStage::AgainLoad),
            AwaitStage::State => Turn::Again(AwaitStage::Unlock),
            AwaitStage::Unlock => Turn::Again(AwaitStage::Sleep),
            AwaitStage::LeaveState => Turn::Again(AwaitStage::LeaveQueue),
            AwaitStage::TakeState => Turn::Again(AwaitStage::TakeQueue),
            AwaitStage::TakeUnlock => Turn::Done(AwaitOutcome::Over),
            _ => Turn::Again(stage),
        }
    }

    #[inline(always)]
    fn note(&mut self, _stage: AwaitStage, _value: u64) {
        let _ = *self;
    }

    #[inline(always)]
    fn loaded_to(self, stage: AwaitStage, _value: u64) -> AwaitTurn {
        Turn::Again(stage)
    }

    #[inline(always)]
    fn found_to(self, stage: AwaitStage, found: bool) -> AwaitTurn {
        match stage {
            AwaitStage::Look => {
                if found {
                    Turn::Again(AwaitStage::LeaveState)
                } else {
                    Turn::Again(AwaitStage::Queue)
                }
            }
            _ => Turn::Again(stage),
        }
    }

    #[inline(always)]
    fn heeded_to(self, stage: AwaitStage, _hit: bool) -> AwaitTurn {
        Turn::Again(stage)
    }

    #[inline(always)]
    fn slept_to(self, _stage: AwaitStage) -> AwaitStage {
        AwaitStage::Again
    }

    #[inline(always)]
    fn added_to(self, _stage: AwaitStage, added: Added) -> AwaitTurn {
        match added {
            Added::Joined => Turn::Again(AwaitStage::State),
            Added::Stayed => Turn::Again(AwaitStage::Unlock),
            Added::Worn => Turn::Done(AwaitOutcome::Worn),
        }
    }

    #[inline(always)]
    fn state_at(self, stage: AwaitStage) -> u32 {
        match stage {
            AwaitStage::State => self.state.mask(),
            _ => RUNNING,
        }
    }

    #[inline(always)]
    fn note_worn(&mut self, place: u64) {
        self.place = place;
    }

    #[inline(always)]
    fn note_joined(&mut self, _stage: AwaitStage) {
        self.queued = true;
    }

    /// The own entry is queued at the tail, in a hold that has loaded the count as 0.
    #[inline(always)]
    fn add(self, domain: &Domain, task: &mut Task, stage: AwaitStage) -> Result<(), Worn>
        requires of { task.old.domain ≡ domain.now }
        requires up { IsUp task.old }
        requires may { MayAdd await_table self stage task.old }
        ensures { await_table.doing stage ≡ doing.Queue → AddsOwn await_table self stage task.old task.new result }
    {
        match stage {
            AwaitStage::Queue => {
                let watch = Watch::Done { cell: self.cell };
                add_tail(domain, task, 0, Kind::Simple, false, watch)
            }
            _ => Ok(()),
        }
    }

    #[inline(always)]
    fn own(
        domain: &Domain,
        task: &mut Task,
        run: &mut AwaitRun,
        stage: AwaitStage,
        passing: &mut Passing,
    ) -> AwaitTurn {
        match stage {
            AwaitStage::FirstLoad => first_event(domain, task, run),
            AwaitStage::AgainLoad => again_event(domain, task, run),
            AwaitStage::LeaveQueue => off_event(domain, task, run, true, passing),
            AwaitStage::LeaveUnlock => quit_event(domain, task, run, true, passing),
            AwaitStage::TakeQueue => off_event(domain, task, run, false, passing),
            AwaitStage::TakeStore => take_event(domain, task, run, true, passing),
            _ => unreachable!(),
        }
    }

    #[inline(always)]
    fn lawful() {}
}
