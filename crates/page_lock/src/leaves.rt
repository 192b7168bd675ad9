//! Waits for a page that their task leaves.

ghost use Rattle.std.specs.Prelude.{◌≡◌, ◌<◌, MatchBool, None, true};
ghost use Rattle.wait_model.specs.declared.layout.TheConstants.{BIT_WORDS};
ghost use Rattle.wait_model.specs.Watches as model;
ghost use Rattle.wait_rule.specs.Queues.{IsIdle, index};
ghost use Rattle.wait_rule.specs.Says.{AsksNoPage, IsClean, IsUp, told_of};
ghost use Rattle.wait_class.specs.{Posts.IsOut, Tables.IsAt, Tables.SleepsNot};
ghost use Rattle.wait_class.specs.declared.stages.Turn.TheVariants as turn;
ghost use Rattle.wait_leave.specs.OnTheWay.{IsOnWay, OnTheWay};
ghost use Rattle.bit_wait.specs.Holders.{IsHolder};
ghost use Rattle.page_lock.specs.PageLeaves.{EndsPageUntil, LeavesPage, page_exits, page_until, takes_page_until};
ghost use Rattle.page_lock.specs.PageStays.{PageKeeps, TakesPage};
ghost use Rattle.page_lock.specs.PageTables.{IsFreshPageWait, page_in, page_table};
ghost use Rattle.page_lock.specs.declared.waits.PageStage.TheVariants as stage;

use crate::wait_calls::{begin_page, end_of};
use crate::waits::{LockPage, PageOutcome, PageRun, PageStage};
use bit_wait::BitEnd;
use std::sync::Wait;
use wait_class::stages::Turn;
use wait_leave::{Exit, Leavable, Until, leave, run_asked};
use wait_model::tasks::SleepState;
use wait_rule::{Domain, Task};

impl Leavable for LockPage {
    ghost exits = { page_exits };

    #[inline(always)]
    fn asked(self) -> LockPage
        ensures { result ≡ page_exits.asks self }
    {
        LockPage {
            asked: true,
            ..self
        }
    }

    #[inline(always)]
    fn exit(self, stage: PageStage) -> Option<Exit<PageStage, PageOutcome>>
        ensures { result ≡ page_exits.exit self stage }
    {
        let to = match stage {
            PageStage::Unflag => Turn::Done(PageOutcome::Interrupted),
            PageStage::QueueLock => Turn::Done(PageOutcome::Interrupted),
            PageStage::State => Turn::Again(PageStage::FinishState),
            PageStage::Flag => Turn::Again(PageStage::FinishState),
            PageStage::Look => Turn::Again(PageStage::FinishState),
            PageStage::Sleep => Turn::Again(PageStage::FinishState),
            _ => return None,
        };
        Some(Exit { to, rests: false })
    }

    #[inline(always)]
    fn may_leave() {}
}

/// Leaves a wait for a page that goes on by stretches, at a stage at which its task is awake: to its end, and answers. It
/// waits for the lock of the head alone, and never sleeps. Left: its entry is off, the page was not handed to it, and its
/// last test-and-set found the page set in `seen`. Over: the wait took the page, or it was handed to it, also behind the
/// asking; or the wait had ended before it was left, as `lock_page` says.
pub fn leave_page<R: Wait>(
    rt: &R,
    domain: &Domain,
    task: &mut Task,
    call: &mut PageRun,
    stage: PageStage,
) -> Until<Result<(), BitEnd>>
    requires of { task.old.domain ≡ domain.now }
    requires at { IsAt page_table task.old call.old stage }
    ensures leaves { LeavesPage (Unit {0}) task.old task.new call.old stage result }
    ensures awake { SleepsNot task.old task.new }
    ensures up { IsUp task.new }
    ensures out { IsOut task.new }
    ensures idle { (told_of task.old).mark ≡ None → IsIdle task.new }
    ensures asks { AsksNoPage task.new }
    ensures keeps { PageKeeps (index task.old.view.number 0) (page_in call.old.of) (page_table.took stage)
        (takes_page_until result) task.old task.new }
{
    let outcome = leave(rt, domain, task, call, stage);
    until_of(call.of, outcome)
}

/// The answer of a wait that has ended, and may have been left.
pub fn until_of(run: LockPage, outcome: PageOutcome) -> Until<Result<(), BitEnd>>
    ensures { result ≡ page_until run outcome }
{
    match outcome {
        PageOutcome::Interrupted => {
            if run.asked {
                Until::Left { seen: run.seen }
            } else {
                Until::Over(end_of(run, outcome))
            }
        }
        _ => Until::Over(end_of(run, outcome)),
    }
}

/// The answer of a wait that went on by stretches, may have been asked to leave between two of them or in one
/// (`wait_leave::ask`, `wait_leave::stretch_out`), and has ended. Who owed nothing when it began is a holder of the page
/// where the answer says that it took it, and owes nothing else; and the answer of one that began at `start` is as that
/// of `lock_page_until`.
pub fn end_page_until(
    task: &Task,
    wait: &PageRun,
    outcome: PageOutcome,
) -> Until<Result<(), BitEnd>>
    ensures is { result ≡ page_until wait.now.of outcome }
    ensures holder { (c : _) → IsOnWay (Unit {0}) page_table page_exits c task.now wait.now (turn.Done outcome)
        → MatchBool (takes_page_until result) (IsHolder task.now c.watch) (IsClean task.now) }
    ensures ends { (start : _) → (f : _) → (page : _) → (state : _) → IsFreshPageWait f.of page state
        → OnTheWay (Unit {0}) page_table page_exits start f stage.First task.now wait.now (turn.Done outcome)
        → EndsPageUntil (Unit {0}) start task.now page state result }
{
    let _ = *task;
    until_of(wait.of, outcome)
}

/// Takes a page as `lock_page` does, but leaves the wait once `asks` has answered true: it is asked before each event
/// while its task is awake, so before it goes asleep and once it was woken. Who stores what `asks` reads and then wakes
/// the task (`wake_task`) is heard. Left: asked so, its entry off, the page not handed to it, and its last test-and-set
/// found the page set in `seen`; the task has not slept since it was asked. Over: as `lock_page` answers, so also Ok
/// where the page was handed to it behind the asking.
pub fn lock_page_until<R: Wait, Q: Fn() -> bool>(
    rt: &R,
    domain: &Domain,
    task: &mut Task,
    page: u8,
    state: SleepState,
    asks: Q,
) -> Until<Result<(), BitEnd>>
    requires of { task.old.domain ≡ domain.now }
    requires up { IsUp task.old }
    requires idle { IsIdle task.old }
    requires page { page < BIT_WORDS }
    requires out { IsOut task.old }
    requires none { AsksNoPage task.old }
    requires asks { Q.IsAlwaysCallable asks }
    ensures waited { EndsPageUntil (Q.post asks true) task.old task.new page state result }
    ensures up { IsUp task.new }
    ensures idle { IsIdle task.new }
    ensures out { IsOut task.new }
    ensures takes { TakesPage task.old task.new page (takes_page_until result) }
    ensures holder { IsClean task.old
        → MatchBool (takes_page_until result) (IsHolder task.new (model.page page)) (IsClean task.new) }
{
    let mut call = begin_page(task, page, state);
    let outcome = run_asked(rt, domain, task, &mut call, PageStage::First, asks);
    until_of(call.of, outcome)
}
