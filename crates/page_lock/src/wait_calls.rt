//! Waits for a page, as whole calls; `stretch` and `woke` go on with one for who may not wait.

ghost use Rattle.std.specs.Prelude.{◌≡◌, ◌<◌, MatchBool};
ghost use Rattle.wait_model.specs.declared.layout.TheConstants.{BIT_WORDS};
ghost use Rattle.wait_model.specs.Watches as model;
ghost use Rattle.wait_rule.specs.Queues.{IsIdle, IsTold};
ghost use Rattle.wait_rule.specs.Says.{AsksNoPage, IsClean, IsUp};
ghost use Rattle.wait_class.specs.{Posts.IsOut, Tables.Advances, Tables.IsAt, UnderWay.IsUnderWay};
ghost use Rattle.wait_class.specs.declared.stages.Turn.TheVariants as turn;
ghost use Rattle.page_lock.specs.declared.waits.PageStage.TheVariants as stage;
ghost use Rattle.page_lock.specs.{PageTables.IsFreshPageWait, PageTables.page_table, PageStays.TakesPage};
ghost use Rattle.page_lock.specs.PageEnds.{EndsPageLock, page_end_in, has_taken_page};
ghost use Rattle.bit_wait.specs.Holders.{IsHolder};

use crate::waits::{LockPage, PageOutcome, PageRun, PageStage};
use bit_wait::BitEnd;
use std::sync::Wait;
use wait_class::runs::run;
use wait_class::stages::Run;
use wait_model::heads::head_of;
use wait_model::tasks::SleepState;
use wait_model::watches::Watch;
use wait_rule::{Domain, Task};

/// A wait for page `page`, below `BIT_WORDS`, that is about to begin: `stretch` goes on with it at
/// `PageStage::First`. The task is idle, has no entry queued in slot 0 and asks for no page.
pub fn begin_page(task: &Task, page: u8, state: SleepState) -> PageRun
    requires up { IsUp task.now }
    requires idle { IsIdle task.now }
    requires page { page < BIT_WORDS }
    requires out { IsOut task.now }
    requires asks { AsksNoPage task.now }
    ensures at { IsAt page_table task.now result stage.First }
    ensures fresh { IsFreshPageWait result.of page state }
    ensures told { IsTold task.now }
    ensures under { IsClean task.now
        → IsUnderWay page_table (page_table.plan_of result.of) task.now result (turn.Again stage.First) }
    ensures came { Advances page_table task.now task.now result result stage.First (turn.Again stage.First) }
{
    task.told();
    Run::new(LockPage {
        page,
        state,
        place: 0,
        seen: 0,
        asked: false,
    })
}

/// Takes page `page`, below `BIT_WORDS`, and waits until it can (`__lock_page`, `__lock_page_killable`, mm/filemap.c;
/// who gives a page back hands it to the first that waits, and the order of the steps of that is this project's own).
/// Its entry goes to the tail, exclusive, and is queued before the page is tried again. Ok: the task keeps the page,
/// until it gives it back by `unlock_page`: its own test-and-set took it, or a walk took it for the task, also while it
/// slept. Interrupted: its own word showed a signal that the state admits, after its last sleep if it slept; its entry
/// was taken off, its flag told of no page after that, and the test-and-set in the hold that queued the entry had found
/// the page set in `seen`. Worn: no place was left for its entry at its head, where a member stands at `place`, and the
/// test-and-set after it found the page set. The task is idle, has no entry queued in slot 0 and asks for no page, and
/// so it is afterwards. Who owed nothing is a holder of the page after Ok, and owes nothing after an error.
pub fn lock_page<R: Wait>(
    rt: &R,
    domain: &Domain,
    task: &mut Task,
    page: u8,
    state: SleepState,
) -> Result<(), BitEnd>
    requires of { task.old.domain ≡ domain.now }
    requires up { IsUp task.old }
    requires idle { IsIdle task.old }
    requires page { page < BIT_WORDS }
    requires out { IsOut task.old }
    requires asks { AsksNoPage task.old }
    ensures waited { EndsPageLock task.old task.new page state result }
    ensures up { IsUp task.new }
    ensures idle { IsIdle task.new }
    ensures out { IsOut task.new }
    ensures takes { TakesPage task.old task.new page (has_taken_page result) }
    ensures holder { IsClean task.old
        → MatchBool (has_taken_page result) (IsHolder task.new (model.page page)) (IsClean task.new) }
{
    let mut call = begin_page(task, page, state);
    let outcome = run(rt, domain, task, &mut call, PageStage::First);
    end_of(call.of, outcome)
}

/// The answer of a wait that has ended.
pub fn end_of(run: LockPage, outcome: PageOutcome) -> Result<(), BitEnd>
    ensures { result ≡ page_end_in run outcome }
{
    match outcome {
        PageOutcome::Over => Ok(()),
        PageOutcome::Interrupted => Err(BitEnd::Interrupted { seen: run.seen }),
        PageOutcome::Worn => Err(BitEnd::Worn {
            head: head_of(Watch::Bit {
                word: run.page,
                bit: 0,
            }),
            place: run.place,
        }),
    }
}

/// The answer of a wait that went on by stretches and has ended. Who owed nothing when it began is a holder of the page
/// after Ok, and owes nothing after an error; and the answer of one that began at `start` is as that of `lock_page`.
pub fn end_page(task: &Task, wait: &PageRun, outcome: PageOutcome) -> Result<(), BitEnd>
    ensures is { result ≡ page_end_in wait.now.of outcome }
    ensures holder { (c : _) → IsUnderWay page_table c task.now wait.now (turn.Done outcome)
        → MatchBool (has_taken_page result) (IsHolder task.now c.watch) (IsClean task.now) }
    ensures ends { (start : _) → (f : _) → (page : _) → (state : _) → IsFreshPageWait f.of page state
        → Advances page_table start task.now f wait.now stage.First (turn.Done outcome)
        → EndsPageLock start task.now page state result }
{
    let _ = *task;
    end_of(wait.of, outcome)
}
