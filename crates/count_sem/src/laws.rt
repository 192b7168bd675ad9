//! What holds of the permits of semaphores.

ghost use Rattle.std.specs.Prelude.{true};
ghost use Rattle.count_sem.specs.SemAnswers.{DownsAreCounted, LeftDownsAreCounted, TriesAreCounted, UpsAreCounted};
ghost use Rattle.count_sem.specs.SemPermits.{AllKeepPermits, RuleKeepsPermits, StepsKeepPermits};
ghost use Rattle.count_sem.specs.SemUses.{DownsKeepUse, OthersKeepUse, StretchesKeepUse, TriesKeepUse, UpsKeepUse};
ghost use Rattle.count_sem.specs.WorkedSemaphores.{WorkedSemaphores};

/// A semaphore keeps its permits. Where its count is raised by one alone, in holds that have seen nobody queued and
/// not beyond `FULL`, and lowered by one alone, no permit is counted while a task is queued; so no `down` finds one
/// to hand on. While its head is free the permits that were given are in number those that were taken, the tasks that
/// have still to come for the one that was given to them, and those that are counted; and the count is not at its
/// end, nor has a load of any task's found it there. So it is after each step of each order of allowed steps that meet
/// the conditions on permits of completions (`steps`), in each table that meets the rule of a Domain (`rule`), and in
/// the table that a task sees that has joined all others, by the histories that it has (`all`). `worked` are small
/// histories, computed.
pub fn permits()
    ensures steps { StepsKeepPermits }
    ensures rule { RuleKeepsPermits }
    ensures all { AllKeepPermits }
    ensures worked { WorkedSemaphores }
{}

/// The three programs of semaphores change a count by such steps alone. A task that goes through one of an `up`, a
/// `try_down` or a `down`, to its end or to any point of it, and that had changed the count of a cell by such steps
/// alone before, has done so then, and so of each cell (`ups`, `tries`, `downs`). A `down` that goes on by stretches
/// does the same (`stretches`), and so does a program that is about no count of the cell (`others`).
pub fn calls_keep_permits()
    ensures ups { UpsKeepUse }
    ensures tries { TriesKeepUse }
    ensures downs { DownsKeepUse }
    ensures stretches { StretchesKeepUse }
    ensures others { OthersKeepUse }
{}

/// The answers of calls are the permits that `permits` counts, where the task's last hold of that head left its own
/// entry off. An `up` that answers Ok has given exactly one, and one that answers `SemFull` none; it takes none
/// (`ups`). A `try_down` that answers true has taken exactly one, and one that answers false none; it gives none
/// (`tries`). A `down` that answers Ok has taken exactly one more than it has given, and it has given none, or one that
/// it handed on; one that answers Interrupted or Worn has taken none, and given none (`downs`). In `tries` and `downs`
/// no load of the task's found the count at its end, as by `permits` none does.
pub fn answers_count_permits()
    ensures ups { UpsAreCounted }
    ensures tries { TriesAreCounted }
    ensures downs { DownsAreCounted }
{}

/// So it is of a `down` that its task may leave, by `asks` at each event (`asked`), as `down_until` is, or by a call of
/// its own (`left`), as `leave_down` is. One that was left has taken none, and given none; and one that was over has
/// done as a `down` of that answer.
pub fn left_answers_count_permits<Q: Fn() -> bool>(asks: &Q)
    ensures asked { LeftDownsAreCounted (Q.post asks.now true) }
    ensures left { LeftDownsAreCounted (Unit {0}) }
{
    let _ = asks;
}
