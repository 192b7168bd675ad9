//! A wait for a plain condition or a variable: its stages, and where it goes on behind each.

ghost use Rattle.std.specs.Prelude.{◌≡◌};
ghost use Rattle.wait_model.specs.Tasks.{IsState};
ghost use Rattle.wait_rule.specs.Says.{IsUp};
ghost use Rattle.wait_class.specs.declared.stages.Doing.TheVariants as doing;
ghost use Rattle.wait_class.specs.Laws.{AddsOwn, MayAdd};
ghost use Rattle.wait_event.specs.Waits.{IsFreshWait, met_to, missed_to, old_of, wait_table};

use wait_class::machines::Machine;
use wait_class::queueing::{add_by, wait_form};
use wait_class::stages::{Added, Doing, Run, Turn};
use wait_model::layout::RUNNING;
use wait_model::tasks::{How, SleepState};
use wait_model::watches::Watch;
use wait_rule::queues::{Passing, cond_load};
use wait_rule::{Domain, Task};
use wq_head::Worn;

/// A stage of a wait: where it stands in its program. At `PrepareTurn` and `FinishTurn` the ticket of the lock is
/// drawn, at `PrepareLock` and `FinishLock` it is not. At `LeaveLoad` it is told whether the hold that left the queue
/// found the entry queued.
// Stages at which the same is done stand side by side: where the compiler knows that one of them is at hand, it tells
// them apart by a compare.
#[derive(Clone, Copy)]
pub enum WaitStage {
    First,
    PrepareLock,
    FinishLock,
    PrepareTurn,
    FinishTurn,
    PrepareLook,
    PrepareQueue,
    PrepareState,
    FinishState,
    PrepareUnlock,
    LeaveUnlock,
    FinishUnlock,
    Test,
    Worn,
    LeaveLoad(bool),
    Sleep,
    LeaveQueue,
    FinishQueue,
    FinishLook,
}

/// How a wait ended: its condition was set, or it left its queue for a signal, or since it was asked to (true: its last
/// hold found its entry queued), or no place was left for its entry.
#[derive(Clone, Copy)]
pub enum WaitOutcome {
    Over,
    Signalled(bool),
    Worn,
}

/// The numbers of a wait.
#[derive(Clone, Copy)]
pub struct WaitCall {
    /// What it waits for: a plain condition or a variable. A plain condition from `FIRST_SIMPLE` on has a simple head:
    /// its wait has its entry at the tail, as an exclusive one, and the entry is a simple one without flags. A wait for
    /// a variable is not exclusive.
    pub watch: Watch,
    pub how: How,
    /// The place that showed the last add that no place was left.
    pub place: u64,
    /// What the last load of the condition found; before the first one, a value that does not set the watch.
    pub seen: u64,
    /// Whether the wait has queued its entry.
    pub queued: bool,
    /// Whether its task was asked to leave it.
    pub asked: bool,
}

pub type WaitTurn = Turn<WaitStage, WaitOutcome>;

pub type WaitRun = Run<WaitCall>;

impl WaitCall {
    /// A wait that has not begun.
    pub fn new(watch: Watch, how: How) -> WaitCall
        ensures { IsFreshWait result watch how }
    {
        WaitCall {
            watch,
            how,
            place: 0,
            seen: old_of(watch),
            queued: false,
            asked: false,
        }
    }
}

/// A wait that has not begun, and has drawn no ticket.
pub fn fresh_wait(watch: Watch, how: How) -> WaitRun
    ensures { IsFreshWait result.of watch how }
{
    Run::new(WaitCall::new(watch, how))
}

/// The old value of a variable's watch, and 0 of every other one: a load that finds it does not set the watch.
fn old_of(watch: Watch) -> u64
    ensures { result ≡ old_of watch }
{
    match watch {
        Watch::Var { old, .. } => old,
        _ => 0,
    }
}

/// Where a wait goes on that found its condition not set.
#[inline(always)]
fn missed_to(stage: WaitStage) -> WaitTurn
    ensures { result ≡ missed_to stage }
{
    match stage {
        WaitStage::First => Turn::Again(WaitStage::PrepareLock),
        WaitStage::Test => Turn::Again(WaitStage::Sleep),
        WaitStage::Worn => Turn::Done(WaitOutcome::Worn),
        WaitStage::LeaveLoad(found) => Turn::Done(WaitOutcome::Signalled(found)),
        _ => Turn::Again(stage),
    }
}

/// Where it goes on that found it set.
#[inline(always)]
fn met_to(stage: WaitStage) -> WaitTurn
    ensures { result ≡ met_to stage }
{
    match stage {
        WaitStage::First => Turn::Done(WaitOutcome::Over),
        _ => Turn::Again(WaitStage::FinishState),
    }
}

impl Machine for WaitCall {
    type Stage = WaitStage;

    type Outcome = WaitOutcome;

    ghost table = { wait_table };

    #[inline(always)]
    fn watch(self, stage: WaitStage) -> Watch {
        let _ = stage;
        self.watch
    }

    #[inline(always)]
    fn state(self) -> SleepState {
        self.how.state
    }

    #[inline(always)]
    fn doing(stage: WaitStage) -> Doing {
        match stage {
            WaitStage::First => Doing::Own,
            WaitStage::PrepareLock => Doing::Draw,
            WaitStage::PrepareTurn => Doing::Lock,
            WaitStage::PrepareLook => Doing::Look,
            WaitStage::PrepareQueue => Doing::Queue,
            WaitStage::PrepareState => Doing::State,
            WaitStage::PrepareUnlock => Doing::Unlock,
            WaitStage::Test => Doing::Load,
            WaitStage::Sleep => Doing::Sleep,
            WaitStage::Worn => Doing::Load,
            WaitStage::LeaveQueue => Doing::Pare,
            WaitStage::LeaveUnlock => Doing::Unlock,
            WaitStage::LeaveLoad(_) => Doing::Load,
            WaitStage::FinishState => Doing::State,
            WaitStage::FinishLook => Doing::Peek,
            WaitStage::FinishLock => Doing::Draw,
            WaitStage::FinishTurn => Doing::Lock,
            WaitStage::FinishQueue => Doing::Pare,
            WaitStage::FinishUnlock => Doing::Unlock,
        }
    }

    #[inline(always)]
    fn is_free(stage: WaitStage) -> bool {
        match stage {
            WaitStage::PrepareLook => false,
            WaitStage::PrepareQueue => false,
            WaitStage::PrepareState => false,
            WaitStage::PrepareUnlock => false,
            WaitStage::LeaveQueue => false,
            WaitStage::LeaveUnlock => false,
            WaitStage::FinishQueue => false,
            WaitStage::FinishUnlock => false,
            _ => true,
        }
    }

    #[inline(always)]
    fn drawn_to(stage: WaitStage) -> WaitStage {
        match stage {
            WaitStage::PrepareLock => WaitStage::PrepareTurn,
            WaitStage::FinishLock => WaitStage::FinishTurn,
            _ => stage,
        }
    }

    #[inline(always)]
    fn next_of(self, stage: WaitStage) -> WaitTurn {
        match stage {
            WaitStage::PrepareTurn => {
                if self.how.state.looks() {
                    Turn::Again(WaitStage::PrepareLook)
                } else {
                    Turn::Again(WaitStage::PrepareQueue)
                }
            }
            WaitStage::PrepareState => Turn::Again(WaitStage::PrepareUnlock),
            WaitStage::PrepareUnlock => Turn::Again(WaitStage::Test),
            WaitStage::LeaveUnlock => Turn::Again(WaitStage::LeaveLoad(true)),
            WaitStage::FinishState => Turn::Again(WaitStage::FinishLook),
            WaitStage::FinishTurn => Turn::Again(WaitStage::FinishQueue),
            WaitStage::FinishUnlock => Turn::Done(WaitOutcome::Over),
            _ => Turn::Again(stage),
        }
    }

    #[inline(always)]
    fn note(&mut self, stage: WaitStage, value: u64) {
        let _ = stage;
        self.seen = value;
    }

    #[inline(always)]
    fn loaded_to(self, stage: WaitStage, value: u64) -> WaitTurn {
        if self.watch.misses(value) {
            missed_to(stage)
        } else {
            met_to(stage)
        }
    }

    #[inline(always)]
    fn found_to(self, stage: WaitStage, found: bool) -> WaitTurn {
        match stage {
            WaitStage::PrepareLook => {
                if found {
                    Turn::Again(WaitStage::LeaveQueue)
                } else {
                    Turn::Again(WaitStage::PrepareQueue)
                }
            }
            WaitStage::LeaveQueue => {
                if found {
                    Turn::Again(WaitStage::LeaveUnlock)
                } else {
                    Turn::Again(WaitStage::LeaveLoad(false))
                }
            }
            WaitStage::FinishLook => {
                if found {
                    Turn::Again(WaitStage::FinishLock)
                } else {
                    Turn::Done(WaitOutcome::Over)
                }
            }
            WaitStage::FinishQueue => {
                if found {
                    Turn::Again(WaitStage::FinishUnlock)
                } else {
                    Turn::Done(WaitOutcome::Over)
                }
            }
            _ => Turn::Again(stage),
        }
    }

    #[inline(always)]
    fn heeded_to(self, stage: WaitStage, hit: bool) -> WaitTurn {
        let _ = hit;
        Turn::Again(stage)
    }

    #[inline(always)]
    fn slept_to(self, stage: WaitStage) -> WaitStage {
        let _ = stage;
        WaitStage::PrepareLock
    }

    #[inline(always)]
    fn added_to(self, stage: WaitStage, added: Added) -> WaitTurn {
        let _ = stage;
        match added {
            Added::Joined => Turn::Again(WaitStage::PrepareState),
            Added::Stayed => Turn::Again(WaitStage::PrepareUnlock),
            Added::Worn => Turn::Again(WaitStage::Worn),
        }
    }

    #[inline(always)]
    fn state_at(self, stage: WaitStage) -> u32 {
        match stage {
            WaitStage::PrepareState => self.how.state.mask(),
            _ => RUNNING,
        }
    }

    #[inline(always)]
    fn note_worn(&mut self, place: u64) {
        self.place = place;
    }

    #[inline(always)]
    fn note_joined(&mut self, stage: WaitStage) {
        let _ = stage;
        self.queued = true;
    }

    #[inline(always)]
    fn add(self, domain: &Domain, task: &mut Task, stage: WaitStage) -> Result<(), Worn>
        requires of { task.old.domain ≡ domain.now }
        requires up { IsUp task.old }
        requires may { MayAdd wait_table self stage task.old }
        ensures { wait_table.doing stage ≡ doing.Queue → AddsOwn wait_table self stage task.old task.new result }
    {
        let watch = self.watch.bare();
        add_by(domain, task, wait_form(self.how), watch.kind(), watch)
    }

    /// The first load of the condition.
    #[inline(always)]
    fn own(
        domain: &Domain,
        task: &mut Task,
        run: &mut WaitRun,
        stage: WaitStage,
        passing: &mut Passing,
    ) -> WaitTurn {
        let _ = *passing;
        let value = cond_load(domain, task, run.of.watch);
        let next = run.of.loaded_to(stage, value);
        run.of.note(stage, value);
        next
    }

    #[inline(always)]
    fn lawful() {}
}
