//! A wait for a page: its stages, where it goes on behind each, and the events that it alone makes.

ghost use Rattle.std.specs.Prelude.{◌≡◌, ◌⊎◌, true};
ghost use Rattle.wait_model.specs.declared.layout.TheConstants.{HEADS};
ghost use Rattle.wait_model.specs.Watches as model;
ghost use Rattle.wait_rule.specs.{PassedLocks.PassesNone, Says.IsUp};
ghost use Rattle.wait_class.specs.declared.stages.Doing.TheVariants as doing;
ghost use Rattle.wait_class.specs.{Handing.LastGiven, Laws.AddsOwn, Laws.MayAdd};
ghost use Rattle.wait_class.specs.Tables.{IsAt, IsStop, SleepsNot, Turned, falls};
ghost use Rattle.page_lock.specs.declared.waits.PageStage.TheVariants as stage;
ghost use Rattle.page_lock.specs.PageTables.{TriesAt, FlagsAt, flagged_to, page_in, page_table, page_tried_to};

use wait_class::machines::Machine;
use wait_class::stages::{Added, Doing, Run, Turn};
use wait_model::layout::RUNNING;
use wait_model::tasks::SleepState;
use wait_model::watches::Watch;
use wait_model::words::{bit_at, flag_of};
use wait_rule::bits::bit_set;
use wait_rule::flags::woken_clear;
use wait_rule::pages::{flag_load, page_note};
use wait_rule::queues::Passing;
use wait_rule::{Domain, Task};
use wq_head::locks::give_back;
use wq_head::{Worn, add_for_page, remove};

/// A stage of a wait: where it stands in its program. The first try; then the hold in which the entry is queued and the
/// page tried once more; then turns of a stored state, a look at the flag, one for a signal, and a sleep; then the
/// finish, by which the entry is off; the last look at the flag; and the note of the page. At `QueueTurn` and
/// `FinishTurn` the ticket of the lock is drawn, at `QueueLock` and `FinishLock` it is not. `QueueUnlock` tells whether
/// the try in its hold took the page.
#[derive(Clone, Copy)]
pub enum PageStage {
    First,
    Unflag,
    QueueLock,
    QueueTurn,
    Queue,
    Try,
    Off,
    QueueUnlock(bool),
    Worn,
    State,
    Flag,
    Look,
    Sleep,
    FinishState,
    FinishLook,
    FinishLock,
    FinishTurn,
    FinishQueue,
    FinishUnlock,
    Last,
    Clear,
}

/// How a wait ended: the page was taken, or a signal was found, or no place was left for its entry.
#[derive(Clone, Copy)]
pub enum PageOutcome {
    Over,
    Interrupted,
    Worn,
}

/// The numbers of a wait.
#[derive(Clone, Copy)]
pub struct LockPage {
    /// The page, below `BIT_WORDS`: bit 0 of the bit word of this number.
    pub page: u8,
    pub state: SleepState,
    /// The place that showed the add that no place was left.
    pub place: u64,
    /// What the last test-and-set found in the page's word.
    pub seen: u64,
    /// Its task was asked to leave it.
    pub asked: bool,
}

pub type PageTurn = Turn<PageStage, PageOutcome>;

pub type PageRun = Run<LockPage>;

/// Where a wait goes on that tried the page, and found it set or not.
#[inline(always)]
fn tried_to(stage: PageStage, set: bool) -> PageTurn
    ensures { result ≡ page_tried_to stage set }
{
    match stage {
        PageStage::Try => {
            if set {
                Turn::Again(PageStage::QueueUnlock(false))
            } else {
                Turn::Again(PageStage::Off)
            }
        }
        PageStage::Worn => {
            if set {
                Turn::Done(PageOutcome::Worn)
            } else {
                Turn::Done(PageOutcome::Over)
            }
        }
        _ => {
            if set {
                Turn::Again(PageStage::Unflag)
            } else {
                Turn::Done(PageOutcome::Over)
            }
        }
    }
}

/// Where a wait goes on that loaded its flag.
#[inline(always)]
fn flagged_to(run: LockPage, stage: PageStage, hit: bool) -> PageTurn
    ensures { result ≡ flagged_to run stage hit }
{
    match stage {
        PageStage::Last => {
            if hit {
                Turn::Again(PageStage::Clear)
            } else {
                Turn::Done(PageOutcome::Interrupted)
            }
        }
        _ => {
            if hit {
                Turn::Again(PageStage::FinishState)
            } else if run.state.looks() {
                Turn::Again(PageStage::Look)
            } else {
                Turn::Again(PageStage::Sleep)
            }
        }
    }
}

/// The page is tried, and what it found noted.
#[inline(always)]
fn try_event(domain: &Domain, task: &mut Task, run: &mut PageRun, stage: PageStage) -> PageTurn
    requires of { task.old.domain ≡ domain.now }
    requires here { TriesAt stage }
    requires at { IsAt page_table task.old run.old stage }
    ensures turned { Turned page_table task.old task.new run.old run.new stage result }
    ensures falls { falls page_table stage result ≡ true }
    ensures given { LastGiven task.old task.new HEADS }
    ensures awake { SleepsNot task.old task.new }
{
    let value = bit_set(domain, task, run.of.page, 0);
    run.of.seen = value;
    tried_to(stage, bit_at(value, 0))
}

/// The own flag is cleared before the entry is queued, so that it tells of this wait alone.
#[inline(always)]
fn unflag_event(domain: &Domain, task: &mut Task, run: &mut PageRun) -> PageTurn
    requires of { task.old.domain ≡ domain.now }
    requires at { IsAt page_table task.old run.old stage.Unflag }
    ensures turned { Turned page_table task.old task.new run.old run.new stage.Unflag result }
    ensures falls { falls page_table stage.Unflag result ≡ true }
    ensures given { LastGiven task.old task.new HEADS }
    ensures awake { SleepsNot task.old task.new }
{
    let _ = *run;
    woken_clear(domain, task, 0);
    Turn::Again(PageStage::QueueLock)
}

/// The own entry is queued at the tail, exclusive. Where no place is left for it the head is given back.
#[inline(always)]
fn queue_event(
    domain: &Domain,
    task: &mut Task,
    run: &mut PageRun,
    passing: &mut Passing,
) -> PageTurn
    requires of { task.old.domain ≡ domain.now }
    requires passes { PassesNone passing.old }
    requires at { IsAt page_table task.old run.old stage.Queue }
    ensures turned { Turned page_table task.old task.new run.old run.new stage.Queue result }
    ensures passes { PassesNone passing.new ⊎ IsStop page_table result }
    ensures falls { falls page_table stage.Queue result ≡ true }
    ensures given { LastGiven task.old task.new passing.new.head }
    ensures awake { SleepsNot task.old task.new }
{
    match add_for_page(domain, task, run.of.page) {
        Ok(()) => Turn::Again(PageStage::Try),
        Err(worn) => {
            run.of.place = worn.place;
            passing.put(give_back(domain, task, false));
            Turn::Again(PageStage::Worn)
        }
    }
}

/// The own entry is taken off in the hold that queued it, since the try in it took the page.
#[inline(always)]
fn off_event(domain: &Domain, task: &mut Task, run: &mut PageRun) -> PageTurn
    requires of { task.old.domain ≡ domain.now }
    requires at { IsAt page_table task.old run.old stage.Off }
    ensures turned { Turned page_table task.old task.new run.old run.new stage.Off result }
    ensures falls { falls page_table stage.Off result ≡ true }
    ensures given { LastGiven task.old task.new HEADS }
    ensures awake { SleepsNot task.old task.new }
{
    let _ = *run;
    let me = task.number();
    remove(domain, task, me, 0);
    Turn::Again(PageStage::QueueUnlock(true))
}

/// The own flag is loaded: it is set where a walk took the page for the task.
#[inline(always)]
fn flag_event(domain: &Domain, task: &mut Task, run: &mut PageRun, stage: PageStage) -> PageTurn
    requires of { task.old.domain ≡ domain.now }
    requires here { FlagsAt stage }
    requires at { IsAt page_table task.old run.old stage }
    ensures turned { Turned page_table task.old task.new run.old run.new stage result }
    ensures falls { falls page_table stage result ≡ true }
    ensures given { LastGiven task.old task.new HEADS }
    ensures awake { SleepsNot task.old task.new }
{
    let word = flag_load(domain, task, 0);
    flagged_to(run.of, stage, flag_of(word))
}

/// The task takes note of the page that a walk took for it.
#[inline(always)]
fn note_event(domain: &Domain, task: &mut Task, run: &mut PageRun) -> PageTurn
    requires of { task.old.domain ≡ domain.now }
    requires at { IsAt page_table task.old run.old stage.Clear }
    ensures turned { Turned page_table task.old task.new run.old run.new stage.Clear result }
    ensures falls { falls page_table stage.Clear result ≡ true }
    ensures given { LastGiven task.old task.new HEADS }
    ensures awake { SleepsNot task.old task.new }
{
    page_note(domain, task, 0, run.of.page);
    Turn::Done(PageOutcome::Over)
}

impl Machine for LockPage {
    type Stage = PageStage;

    type Outcome = PageOutcome;

    ghost table = { page_table };

    #[inline(always)]
    fn watch(self, _stage: PageStage) -> Watch {
        Watch::Bit {
            word: self.page,
            bit: 0,
        }
    }

    #[inline(always)]
    fn state(self) -> SleepState {
        self.state
    }

    #[inline(always)]
    fn doing(stage: PageStage) -> Doing {
        match stage {
            PageStage::QueueLock => Doing::Draw,
            PageStage::QueueTurn => Doing::Lock,
            PageStage::QueueUnlock(_) => Doing::Unlock,
            PageStage::State => Doing::State,
            PageStage::Look => Doing::Look,
            PageStage::Sleep => Doing::Sleep,
            PageStage::FinishState => Doing::State,
            PageStage::FinishLook => Doing::Peek,
            PageStage::FinishLock => Doing::Draw,
            PageStage::FinishTurn => Doing::Lock,
            PageStage::FinishQueue => Doing::Pare,
            PageStage::FinishUnlock => Doing::Unlock,
            _ => Doing::Own,
        }
    }

    #[inline(always)]
    fn is_free(stage: PageStage) -> bool {
        match stage {
            PageStage::Queue => false,
            PageStage::Try => false,
            PageStage::Off => false,
            PageStage::QueueUnlock(_) => false,
            PageStage::FinishQueue => false,
            PageStage::FinishUnlock => false,
            _ => true,
        }
    }

    #[inline(always)]
    fn drawn_to(stage: PageStage) -> PageStage {
        match stage {
            PageStage::QueueLock => PageStage::QueueTurn,
            PageStage::FinishLock => PageStage::FinishTurn,
            _ => stage,
        }
    }

    #[inline(always)]
    fn next_of(self, stage: PageStage) -> PageTurn {
        match stage {
            PageStage::QueueTurn => Turn::Again(PageStage::Queue),
            PageStage::QueueUnlock(true) => Turn::Done(PageOutcome::Over),
            PageStage::QueueUnlock(false) => Turn::Again(PageStage::State),
            PageStage::State => Turn::Again(PageStage::Flag),
            PageStage::FinishState => Turn::Again(PageStage::FinishLook),
            PageStage::FinishTurn => Turn::Again(PageStage::FinishQueue),
            PageStage::FinishUnlock => Turn::Again(PageStage::Last),
            _ => Turn::Again(stage),
        }
    }

    #[inline(always)]
    fn note(&mut self, _stage: PageStage, _value: u64) {
        let _ = *self;
    }

    #[inline(always)]
    fn loaded_to(self, stage: PageStage, _value: u64) -> PageTurn {
        Turn::Again(stage)
    }

    #[inline(always)]
    fn found_to(self, stage: PageStage, found: bool) -> PageTurn {
        match stage {
            PageStage::Look => {
                if found {
                    Turn::Again(PageStage::FinishState)
                } else {
                    Turn::Again(PageStage::Sleep)
                }
            }
            PageStage::FinishLook => {
                if found {
                    Turn::Again(PageStage::FinishLock)
                } else {
                    Turn::Again(PageStage::Last)
                }
            }
            PageStage::FinishQueue => {
                if found {
                    Turn::Again(PageStage::FinishUnlock)
                } else {
                    Turn::Again(PageStage::Last)
                }
            }
            _ => Turn::Again(stage),
        }
    }

    #[inline(always)]
    fn heeded_to(self, stage: PageStage, _hit: bool) -> PageTurn {
        Turn::Again(stage)
    }

    #[inline(always)]
    fn slept_to(self, _stage: PageStage) -> PageStage {
        PageStage::State
    }

    #[inline(always)]
    fn added_to(self, stage: PageStage, _added: Added) -> PageTurn {
        Turn::Again(stage)
    }

    #[inline(always)]
    fn state_at(self, stage: PageStage) -> u32 {
        match stage {
            PageStage::State => self.state.mask(),
            _ => RUNNING,
        }
    }

    #[inline(always)]
    fn note_worn(&mut self, place: u64) {
        self.place = place;
    }

    #[inline(always)]
    fn note_joined(&mut self, _stage: PageStage) {
        let _ = *self;
    }

    /// It queues its entry by an event of its own, which needs no look at it.
    #[inline(always)]
    fn add(self, _domain: &Domain, _task: &mut Task, _stage: PageStage) -> Result<(), Worn> {
        Ok(())
    }

    #[inline(always)]
    fn own(
        domain: &Domain,
        task: &mut Task,
        run: &mut PageRun,
        stage: PageStage,
        passing: &mut Passing,
    ) -> PageTurn {
        match stage {
            PageStage::First => try_event(domain, task, run, stage),
            PageStage::Unflag => unflag_event(domain, task, run),
            PageStage::Queue => queue_event(domain, task, run, passing),
            PageStage::Try => try_event(domain, task, run, stage),
            PageStage::Off => off_event(domain, task, run),
            PageStage::Worn => try_event(domain, task, run, stage),
            PageStage::Flag => flag_event(domain, task, run, stage),
            PageStage::Last => flag_event(domain, task, run, stage),
            PageStage::Clear => note_event(domain, task, run),
            _ => unreachable!(),
        }
    }

    #[inline(always)]
    fn lawful() {}
}
