//! The laws of wait queues: of single steps over tables, and of whole runs.

ghost use Rattle.wait_model.specs.{Completions.NoRunMiscounts, Facts.StepKeeps, Facts.StartKept};
ghost use Rattle.wait_model.specs.{Followed.SettersLeaveNobody, Lent.NoRunLeavesPage, Making.SentencesAreMade};
ghost use Rattle.wait_model.specs.{Making.ProgramsFollow, Openings.FreshTold, Permits.EveryRunHandsPermitsOn};
ghost use Rattle.wait_model.specs.{Programs.WalksGoByAims, Selections.RunsAreOrderly, Spoken.CallsFollowSentences};
ghost use Rattle.wait_model.specs.{Spoken.OpenCallsBegin, Unworn.NoRunWears, Waiters.NoRunLosesWaiter};
ghost use Rattle.wait_model.specs.{Wakes.NoRunLosesWake, Worked.ReplaysRun, Worked.WorkedScripts};
ghost use Rattle.wait_model.specs.{WorkedBits.WorkedBits, WorkedFollowed.WorkedFollowed, WorkedForms.WorkedForms};
ghost use Rattle.wait_model.specs.WorkedPermits.{WorkedPermits};
ghost use Rattle.wait_model.specs.BitKeepers.{KeepsTold, BitsStartKept, BitsStayKept, EveryRunKeepsBits};
ghost use Rattle.wait_model.specs.DoneCounts.{CountsStartBalanced, CountsStayBalanced, TakesAreCompleted};
ghost use Rattle.wait_model.specs.PermitFacts.{AccountedAreHanded, PermitsStartAccounted, PermitsStayAccounted};
ghost use Rattle.wait_model.specs.Scans.{EmptyLooksEnd, FoundBitsEndNothing, WorkedScans};
ghost use Rattle.wait_model.specs.SignalCounts.{SignalsStartRaised, SignalsStayRaised, NoRunInventsSignals};
ghost use Rattle.wait_model.specs.Told.{CoveringTold, FailedTold, OwesTold, OwingTold, TryingTold, ViewsTold, ZeroTold};

/// Each step that a task may make leads from a table that meets the laws to such a table again.
pub fn step_keeps()
    ensures { StepKeeps }
{}

/// The table in which nothing has been done yet meets the laws.
pub fn start_kept()
    ensures { StartKept }
{}

/// A view tells a failed load exactly where its history has one.
pub fn failed_told()
    ensures { FailedTold }
{}

/// A view owes a wake exactly where its history does.
pub fn owing_told()
    ensures { OwingTold }
{}

/// In every state that a run reaches, each task's view is that of its history.
pub fn views_told()
    ensures { ViewsTold }
{}

/// A view covers an entry only where its history does, and without bookmarks the other way round too.
pub fn covering_told()
    ensures { CoveringTold }
{}

/// A view tells a failed load in the hold of the last store of a state exactly where its history has one.
pub fn zero_told()
    ensures { ZeroTold }
{}

/// A view is that of a task that tries a bit exactly where the task does by its history.
pub fn trying_told()
    ensures { TryingTold }
{}

/// No run loses a wakeup, in the words of histories, for plain conditions, completions, bits and variables: whoever
/// sleeps on a watch that is set is covered by a task that owes the wake, or, at a plain condition or a completion, a
/// walk used up its count on others, or, at a bit, a task whose entry was taken off is trying it.
pub fn no_wake_lost()
    ensures { NoRunLosesWake }
{}

/// A task is fresh in the state of a run exactly where the run has opened no call of it.
pub fn fresh_told()
    ensures { FreshTold }
{}

/// What the definitions say of three orders of one wait and one wake, event by event, of four scripts with other
/// forms of waits, and of three with bits, variables and completions. Each such replay is a run. `followed` has three
/// more, of which `law_r` speaks.
pub fn worked_scripts()
    ensures told { WorkedScripts }
    ensures forms { WorkedForms }
    ensures bits { WorkedBits }
    ensures followed { WorkedFollowed }
    ensures runs { ReplaysRun }
{}

/// No walk selects more than its count, a wake of one of a simple queue and a `complete` take off at most one entry and
/// such a wake tells how many it took off, no wait is interrupted but after a failed load of its last turn, no wait
/// for a bit is but after a load that found the bit set and a sleep that a signal ended, and no signal is accepted
/// that was not raised, in any run.
pub fn runs_are_orderly()
    ensures { RunsAreOrderly }
{}

/// What is owing by a view is owed by its history. The other way round too, where the task gave back only locks that it
/// held, as by allowed steps, or had no bookmark.
pub fn owes_told()
    ensures { OwesTold }
{}

/// After any history, a look at all member words of a head without the lock that finds no bit ends what is owed of the
/// watches of that head, and nothing else. A load that finds a bit ends nothing, and begins the look anew.
pub fn empty_looks_end()
    ensures ended { EmptyLooksEnd }
    ensures found { FoundBitsEndNothing }
    ensures worked { WorkedScans }
{}

/// No run loses a waiter: who is asleep in a wait for a condition, a completion, a bit, a page or a variable sleeps on
/// it in that sense, and so its wakeup is not lost.
pub fn no_waiter_lost()
    ensures { NoRunLosesWaiter }
{}

/// No run leaves a page: one that a walk took for a task, which has not taken note of it yet, is the page that the
/// task's open call locks.
pub fn no_page_left()
    ensures { NoRunLeavesPage }
{}

/// No task takes a signal that nobody raised at it: true at the start, kept by every step, and so true in
/// every state that a run reaches.
pub fn no_signal_invented()
    ensures start { SignalsStartRaised }
    ensures step { SignalsStayRaised }
    ensures run { NoRunInventsSignals }
{}

/// A bit is set exactly where one task keeps it: by an exchange that found it clear, and not cleared by that
/// task since. True at the start, kept by every step, and so true in every state that a run reaches.
pub fn bits_are_kept()
    ensures told { KeepsTold }
    ensures start { BitsStartKept }
    ensures step { BitsStayKept }
    ensures run { EveryRunKeepsBits }
{}

/// A completion's count is balanced over all histories: raised and granted are lowered, thrown away and what
/// stands. True at the start, kept by every step whose stores in counts are such as the calls make, and so true
/// in every state that a run reaches. Before any store of the end otherwise than by raising, the takes are at
/// most the completes.
pub fn counts_are_balanced()
    ensures start { CountsStartBalanced }
    ensures step { CountsStayBalanced }
    ensures takes { TakesAreCompleted }
    ensures run { NoRunMiscounts }
{}

/// Permits of completions are handed on exactly: while a task is queued at the head of a completion, and nobody holds
/// it, the count is at most the number of tasks that were handed a permit and have still to take it. The account that
/// makes it so is true at the start and kept by every step that meets its condition, and every run hands permits on.
/// `worked` are small histories, computed.
pub fn permits_are_handed_on()
    ensures start { PermitsStartAccounted }
    ensures step { PermitsStayAccounted }
    ensures handed { AccountedAreHanded }
    ensures run { EveryRunHandsPermitsOn }
    ensures worked { WorkedPermits }
{}

/// In every run, what a task has made since it opened the call that it ends follows the sentence of the call, and the
/// answer is the one that the sentence gives. What it has made of an open call follows the sentence so far.
pub fn calls_follow_sentences()
    ensures ended { CallsFollowSentences }
    ensures begun { OpenCallsBegin }
{}

/// Whatever follows the sentence of a call is made by its program, for findings that a task may have: its entry is off
/// until the call queues it, a count is as it was loaded, and a walk breaks above `BREAK` calls. And the program makes
/// nothing else for such findings; of a call about a completion `calls_follow_sentences` says so.
pub fn sentences_are_made()
    ensures made { SentencesAreMade }
    ensures only { ProgramsFollow }
{}

/// A walk is the same whatever call makes it: its program, and what its events are given, go by its watch, its mode
/// and its count.
pub fn walks_go_by_aims()
    ensures { WalksGoByAims }
{}

/// No run meets a head at which no place is left: no call answers Worn, or stands after such an add.
pub fn no_run_wears()
    ensures { NoRunWears }
{}

/// A setter followed through time: a task publishes a watch, and then ends a wake of it at the end of the queue, with
/// no count used up. Then nobody sleeps on the watch for whom it was set at each moment since the publish, in any run.
pub fn law_r()
    ensures { SettersLeaveNobody }
{}
