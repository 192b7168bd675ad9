//! A `down` of a semaphore (`__down_common`): its stages, where it goes on behind each, and the events that it alone
//! makes.

ghost use Rattle.std.specs.Prelude.{◌≡◌, ◌⊎◌, true};
ghost use Rattle.wait_model.specs.declared.layout.TheConstants.{HEADS};
ghost use Rattle.wait_rule.specs.Says.{IsUp};
ghost use Rattle.wait_class.specs.declared.stages.Doing.TheVariants as doing;
ghost use Rattle.wait_class.specs.{Handing.LastGiven, Laws.AddsOwn, Laws.MayAdd};
ghost use Rattle.wait_class.specs.Tables.{IsAt, IsStop, SleepsNot, Turned, falls};
ghost use Rattle.count_sem.specs.declared.downs.DownStage.TheVariants as stage;
ghost use Rattle.count_sem.specs.Downs.{again_to, down_table, first_to, takes_to, waits_to};

use crate::ups::lower_one;
use wait_class::machines::Machine;
use wait_class::queueing::own_entry;
use wait_class::stages::{Added, Doing, Run, Turn};
use wait_model::layout::{ALL_DONE, RUNNING};
use wait_model::tasks::SleepState;
use wait_model::watches::{Kind, Watch};
use wait_rule::counts::done_load;
use wait_rule::queues::Passing;
use wait_rule::{Domain, Task};
use wq_head::{Worn, add_tail, remove};

/// A stage of a `down`: where it stands in its program. The first hold, and the further ones, each with its lock and
/// its load; then, where that found 0, a look for a signal, the add, the state and the unlock, and the sleep; the end
/// of one that found a signal, or is left; and that of one that takes a permit, or was given one. At `FirstTurn` and
/// `AgainTurn` the ticket of the lock is drawn, at `First` and `Again` it is not.
#[derive(Clone, Copy)]
pub enum DownStage {
    First,
    FirstTurn,
    FirstLoad,
    Again,
    AgainTurn,
    AgainLoad,
    Look,
    Queue,
    State,
    Unlock,
    Sleep,
    LeaveQueue,
    LeaveUnlock,
    TakeQueue,
    TakeStore,
    TakeUnlock,
}

/// How a `down` ended: it took a permit, or was given one; it was given one and found that more are counted, and holds
/// the head still, in which `hand_on` follows; a signal ended it, or its task left it; or no place was left for its
/// entry.
#[derive(Clone, Copy)]
pub enum DownOutcome {
    Over,
    Passing,
    Interrupted,
    Worn,
}

/// The numbers of a `down`.
#[derive(Clone, Copy)]
pub struct DownCall {
    pub cell: u8,
    pub state: SleepState,
    /// What the last load of the count found.
    pub count: u32,
    /// Where a member stands that leaves no place.
    pub place: u64,
    /// Whether the call has queued its entry.
    pub queued: bool,
    /// Whether the last load was behind a sleep.
    pub again: bool,
    /// Its task was asked to leave it.
    pub asked: bool,
}

pub type DownTurn = Turn<DownStage, DownOutcome>;

pub type DownRun = Run<DownCall>;

/// Where a `down` goes on that loaded 0.
#[inline(always)]
fn waits_to(run: DownCall) -> DownStage
    ensures { result ≡ waits_to run }
{
    if run.state.looks() {
        DownStage::Look
    } else {
        DownStage::Queue
    }
}

/// Where one goes on that takes a permit, with its entry off.
#[inline(always)]
fn takes_to(run: DownCall) -> DownStage
    ensures { result ≡ takes_to run }
{
    if u64::from(run.count) == ALL_DONE {
        DownStage::TakeUnlock
    } else {
        DownStage::TakeStore
    }
}

/// Where one goes on that loaded the count in its first hold.
#[inline(always)]
fn first_to(run: DownCall) -> DownStage
    ensures { result ≡ first_to run }
{
    if run.count == 0 {
        waits_to(run)
    } else {
        takes_to(run)
    }
}

/// And in a further one, by whether its entry is queued still: where it is not, it was given a permit.
#[inline(always)]
fn again_to(run: DownCall, queued: bool) -> DownTurn
    ensures { result ≡ again_to run queued }
{
    if queued {
        if run.count == 0 {
            Turn::Again(waits_to(run))
        } else {
            Turn::Again(DownStage::TakeQueue)
        }
    } else if run.count == 0 || u64::from(run.count) == ALL_DONE {
        Turn::Again(DownStage::TakeUnlock)
    } else {
        Turn::Done(DownOutcome::Passing)
    }
}

/// The count is loaded in the first hold.
#[inline(always)]
fn first_event(domain: &Domain, task: &mut Task, run: &mut DownRun) -> DownTurn
    requires of { task.old.domain ≡ domain.now }
    requires at { IsAt down_table task.old run.old stage.FirstLoad }
    ensures turned { Turned down_table task.old task.new run.old run.new stage.FirstLoad result }
    ensures falls { falls down_table stage.FirstLoad result ≡ true }
    ensures given { LastGiven task.old task.new HEADS }
    ensures awake { SleepsNot task.old task.new }
{
    run.of.count = done_load(domain, task, run.of.cell);
    run.of.again = false;
    Turn::Again(first_to(run.of))
}

/// One that has slept looks at its own entry before it loads the count. So it knows whether it was given a permit.
#[inline(always)]
fn again_event(domain: &Domain, task: &mut Task, run: &mut DownRun) -> DownTurn
    requires of { task.old.domain ≡ domain.now }
    requires at { IsAt down_table task.old run.old stage.AgainLoad }
    ensures turned { Turned down_table task.old task.new run.old run.new stage.AgainLoad result }
    ensures falls { falls down_table stage.AgainLoad result ≡ true }
    ensures given { LastGiven task.old task.new HEADS }
    ensures awake { SleepsNot task.old task.new }
{
    let entry = own_entry(domain, task);
    run.of.count = done_load(domain, task, run.of.cell);
    run.of.again = true;
    again_to(run.of, entry.is_some())
}

/// The own entry, which this hold has seen queued, is taken off.
#[inline(always)]
fn off_event(domain: &Domain, task: &mut Task, run: &DownRun) -> DownTurn
    requires of { task.old.domain ≡ domain.now }
    requires at { IsAt down_table task.old run.now stage.TakeQueue }
    ensures turned { Turned down_table task.old task.new run.now run.now stage.TakeQueue result }
    ensures falls { falls down_table stage.TakeQueue result ≡ true }
    ensures given { LastGiven task.old task.new HEADS }
    ensures awake { SleepsNot task.old task.new }
{
    let me = task.number();
    remove(domain, task, me, 0);
    Turn::Again(takes_to(run.of))
}

/// One is taken of the count.
#[inline(always)]
fn take_event(domain: &Domain, task: &mut Task, run: &DownRun) -> DownTurn
    requires of { task.old.domain ≡ domain.now }
    requires at { IsAt down_table task.old run.now stage.TakeStore }
    ensures turned { Turned down_table task.old task.new run.now run.now stage.TakeStore result }
    ensures falls { falls down_table stage.TakeStore result ≡ true }
    ensures given { LastGiven task.old task.new HEADS }
    ensures awake { SleepsNot task.old task.new }
{
    lower_one(domain, task, run.of.cell, run.of.count);
    Turn::Again(DownStage::TakeUnlock)
}

impl Machine for DownCall {
    type Stage = DownStage;

    type Outcome = DownOutcome;

    ghost table = { down_table };

    #[inline(always)]
    fn watch(self, _stage: DownStage) -> Watch {
        Watch::Done { cell: self.cell }
    }

    #[inline(always)]
    fn state(self) -> SleepState {
        self.state
    }

    #[inline(always)]
    fn doing(stage: DownStage) -> Doing {
        match stage {
            DownStage::First => Doing::Draw,
            DownStage::FirstTurn => Doing::Lock,
            DownStage::Again => Doing::Draw,
            DownStage::AgainTurn => Doing::Lock,
            DownStage::Look => Doing::Look,
            DownStage::Queue => Doing::Queue,
            DownStage::State => Doing::State,
            DownStage::Unlock => Doing::Unlock,
            DownStage::Sleep => Doing::Sleep,
            DownStage::LeaveQueue => Doing::Pare,
            DownStage::LeaveUnlock => Doing::Unlock,
            DownStage::TakeUnlock => Doing::Unlock,
            _ => Doing::Own,
        }
    }

    #[inline(always)]
    fn is_free(stage: DownStage) -> bool {
        match stage {
            DownStage::First => true,
            DownStage::FirstTurn => true,
            DownStage::Again => true,
            DownStage::AgainTurn => true,
            DownStage::Sleep => true,
            _ => false,
        }
    }

    #[inline(always)]
    fn drawn_to(stage: DownStage) -> DownStage {
        match stage {
            DownStage::First => DownStage::FirstTurn,
            DownStage::Again => DownStage::AgainTurn,
            _ => stage,
        }
    }

    #[inline(always)]
    fn next_of(self, stage: DownStage) -> DownTurn {
        match stage {
            DownStage::FirstTurn => Turn::Again(DownStage::FirstLoad),
            DownStage::AgainTurn => Turn::Again(DownStage::AgainLoad),
            DownStage::State => Turn::Again(DownStage::Unlock),
            DownStage::Unlock => Turn::Again(DownStage::Sleep),
            DownStage::LeaveUnlock => Turn::Done(DownOutcome::Interrupted),
            DownStage::TakeUnlock => Turn::Done(DownOutcome::Over),
            _ => Turn::Again(stage),
        }
    }

    #[inline(always)]
    fn note(&mut self, _stage: DownStage, _value: u64) {
        let _ = *self;
    }

    #[inline(always)]
    fn loaded_to(self, stage: DownStage, _value: u64) -> DownTurn {
        Turn::Again(stage)
    }

    #[inline(always)]
    fn found_to(self, stage: DownStage, found: bool) -> DownTurn {
        match stage {
            DownStage::Look => {
                if found {
                    Turn::Again(DownStage::LeaveQueue)
                } else {
                    Turn::Again(DownStage::Queue)
                }
            }
            DownStage::LeaveQueue => {
                if found {
                    Turn::Again(DownStage::LeaveUnlock)
                } else {
                    Turn::Done(DownOutcome::Interrupted)
                }
            }
            _ => Turn::Again(stage),
        }
    }

    #[inline(always)]
    fn heeded_to(self, stage: DownStage, _hit: bool) -> DownTurn {
        Turn::Again(stage)
    }

    #[inline(always)]
    fn slept_to(self, _stage: DownStage) -> DownStage {
        DownStage::Again
    }

    #[inline(always)]
    fn added_to(self, _stage: DownStage, added: Added) -> DownTurn {
        match added {
            Added::Joined => Turn::Again(DownStage::State),
            Added::Stayed => Turn::Again(DownStage::Unlock),
            Added::Worn => Turn::Done(DownOutcome::Worn),
        }
    }

    #[inline(always)]
    fn state_at(self, stage: DownStage) -> u32 {
        match stage {
            DownStage::State => self.state.mask(),
            _ => RUNNING,
        }
    }

    #[inline(always)]
    fn note_worn(&mut self, place: u64) {
        self.place = place;
    }

    #[inline(always)]
    fn note_joined(&mut self, _stage: DownStage) {
        self.queued = true;
    }

    /// The own entry is queued at the tail, in a hold that has loaded the count as 0.
    #[inline(always)]
    fn add(self, domain: &Domain, task: &mut Task, stage: DownStage) -> Result<(), Worn>
        requires of { task.old.domain ≡ domain.now }
        requires up { IsUp task.old }
        requires may { MayAdd down_table self stage task.old }
        ensures { down_table.doing stage ≡ doing.Queue → AddsOwn down_table self stage task.old task.new result }
    {
        match stage {
            DownStage::Queue => {
                let watch = Watch::Done { cell: self.cell };
                add_tail(domain, task, 0, Kind::Simple, false, watch)
            }
            _ => Ok(()),
        }
    }

    #[inline(always)]
    fn own(
        domain: &Domain,
        task: &mut Task,
        run: &mut DownRun,
        stage: DownStage,
        passing: &mut Passing,
    ) -> DownTurn {
        let _ = passing;
        match stage {
            DownStage::FirstLoad => first_event(domain, task, run),
            DownStage::AgainLoad => again_event(domain, task, run),
            DownStage::TakeQueue => off_event(domain, task, run),
            DownStage::TakeStore => take_event(domain, task, run),
            _ => unreachable!(),
        }
    }

    #[inline(always)]
    fn lawful() {}
}
