//! What holds of who waits on futexes, and of mutexes.

ghost use Rattle.futex_table.specs.GuardedWords.{RuleKeepsRead, StepsKeepRead};
ghost use Rattle.futex_table.specs.GuardedTallies.{AllCountAdds, AllReadAdds, RuleCountsAdds, StepsCountAdds};
ghost use Rattle.futex_table.specs.OneHolder.{HoldersAreOne, RuleHasOneHolder, StepsHaveOneHolder};
ghost use Rattle.futex_table.specs.StaleSleepers.{RuleLeavesNoStale, RuleLeavesNobody, SleepersSleepFor};
ghost use Rattle.futex_table.specs.StaleSleepers.{StepsLeaveNoStale, StepsLeaveNobody};
ghost use Rattle.futex_table.specs.Sleepers.{RuleQueuedByValue, SleepersQueuedByValue, StretchesQueuedByValue};

/// Nobody sleeps on a futex for another value than the one that it loaded: a task that is asleep in `futex_wait` queued
/// its entry in a hold of the futex's head in which it had loaded the expected value, stored its state in that hold, and
/// slept behind it (`sleepers`; `stretches`, of a wait that a stretch put asleep). So it is in each table that meets the
/// rule of a Domain (`rule`).
pub fn queued_by_value()
    ensures sleepers { SleepersQueuedByValue }
    ensures rule { RuleQueuedByValue }
    ensures stretches { StretchesQueuedByValue }
{}

/// A mutex has one holder at most: where its word is changed by the calls on mutexes alone and opened once, from the
/// opening on the word and the number of tasks that hold the mutex, by their own histories, sum to 1 (`steps`, after
/// each step of each order of allowed steps; `rule`, in each table that meets the rule of a Domain). So two tasks that
/// hold it are one (`one`). And where a word is changed by its holders alone, what a holder has loaded from it since it
/// took the mutex, or stored there behind that, is what the word has, whatever others do: so no add of a holder, which
/// loads it and stores one more, is lost (`read`, `read_ruled`).
pub fn one_holder()
    ensures steps { StepsHaveOneHolder }
    ensures rule { RuleHasOneHolder }
    ensures one { HoldersAreOne }
    ensures read { StepsKeepRead }
    ensures read_ruled { RuleKeepsRead }
{}

/// A tally under a mutex loses no add. Each task stores in the mutex's word 1 alone, as its holder or, by the first
/// store of one task, to open it; and in the tally, as a holder, one more than it has read there, and takes nothing from
/// it, each by its own history. Then the tally is the number of stores of it in the histories of all tasks, modulo
/// 2^64: after each step of each order of allowed steps (`steps`), in each table that meets the rule of a Domain
/// (`rule`), and in the table that a task sees that has joined all others, by the histories that it has (`all`). What
/// such a task has read in the tally while it holds the mutex is that number (`read`).
pub fn tallies_count_adds()
    ensures steps { StepsCountAdds }
    ensures rule { RuleCountsAdds }
    ensures all { AllCountAdds }
    ensures read { AllReadAdds }
{}

/// No sleeper is left behind: a task stores in a futex, and by a later step of it a walk of the futex ends that passed all
/// entries and used up no count. If from the store on the word differs from a value, then no other task that went to
/// sleep on the futex for that value is still asleep with its entry queued: after each step of each order of allowed
/// steps (`steps`), and in each table that meets the rule of a Domain (`rule`). Whoever a wait has put asleep is such a
/// task (`sleepers`). And where others take off entries of woken tasks alone
/// (`order_laws::laws::taken_off_woken`), its entry is queued: so no task is asleep then in a `futex_wait` for that
/// value, once walks with NORMAL ended so (`nobody`, `nobody_ruled`).
pub fn no_stale_sleeper()
    ensures steps { StepsLeaveNoStale }
    ensures rule { RuleLeavesNoStale }
    ensures sleepers { SleepersSleepFor }
    ensures nobody { StepsLeaveNobody }
    ensures nobody_ruled { RuleLeavesNobody }
{}
