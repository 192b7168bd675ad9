//! What the rule of a Domain says of its tables.

ghost use Rattle.std.specs.Prelude.{◌≡◌};
ghost use Rattle.wait_rule.specs.{Says.IsUp, Says.MeetsLaw, WorkedEvents.WorkedEvents, WorkedSetters.WorkedSetters};
ghost use Rattle.wait_rule.specs.{Heeding.RunsHeed, Heeding.WordsHeed, DebtLaws.CleanOwesNothing};
ghost use Rattle.wait_rule.specs.{DebtLaws.RuleTellsDebts, LosesNone.OwersLeaveNone, LosesNone.SettledLeaveNone};
ghost use Rattle.wait_rule.specs.Unlocks.{AllUnlocksCount};
ghost use Rattle.wait_rule.specs.Worn.{EntriesWearLate, MarksWearLate, HoldsWearLate, OwnWearsLate, JoinedWearsLate};
ghost use Rattle.wait_rule.specs.Worn.{HoldsNote, NotesStay, JoinKeepsNotes};
ghost use Rattle.wait_rule.specs.WorkedHolds.{SimpleHolds, CallsRightly, PausesRightly};
ghost use Rattle.wait_rule.specs.HandedPermits.{AllHandPermitsOn, NewcomersLeaveNone, OthersStayOff};
ghost use Rattle.wait_rule.specs.HandedPermits.{RuleHandsPermitsOn, StepsHandPermitsOn};
ghost use Rattle.wait_rule.specs.FlagLaws.{FlagsComeFirst, RuleLosesNoFlag, StepsLoseNoFlag, WorkedFlags};
ghost use Rattle.wait_rule.specs.PageLaws.{RuleHandsWhole, RuleLeavesNone, RuleTakesForWaiters, WorkedPages};
ghost use Rattle.wait_rule.specs.SaidEvents.{RunsBegin, RunsFollow, WakesFollow, WalksFollow};
ghost use Rattle.wait_rule.specs.Selecting.{RunsSelect, RunsTell, WordsSelect};
ghost use Rattle.wait_rule.specs.Setters.{AllSetForGood, RuleSetsForGood, RuleSettlesAll, RuleWakesAll, StepsSettleAll};
ghost use Rattle.wait_rule.specs.Setters.{StepsWakeAll};
ghost use Rattle.wait_rule.specs.TableLaws.{RuleLosesNoWake, StepsLoseNoWake, AllLoseNoWake, RuleCountsSpent};
ghost use Rattle.wait_rule.specs.TableLaws.{AllCountSpent, RuleInventsNoSignal, AllTookRaised, RuleKeepsBits};
ghost use Rattle.wait_rule.specs.TableLaws.{RuleBalances, AllBalance, RuleTakesMade, AllTakeMade};
ghost use Rattle.wait_rule.specs.Aside.{CallsGrowAside, ItemsStayOff, ProgramsLeaveEnds, WalksGrowAside};
ghost use Rattle.wait_rule.specs.PipeLaws.{RuleDelivers, JoinedDeliver, JoinedRefuse, ProgramsKeepEnds, RuleRefuses};
ghost use Rattle.wait_rule.specs.PipeLaws.{WalksKeepEnds};
ghost use Rattle.wait_rule.specs.TallyLaws.{RuleSumsTallies, AllSumTallies, AddsCount, JoinsCount, NewcomersCountNone};
ghost use Rattle.wait_rule.specs.TallyLaws.{ForksCountNone, ProgramsAddNone, ProgramsKeepNumbers};

use crate::domain::{Domain, Task};
use crate::rule::Witness;

impl Task {
    /// Loads the base word, which shows that there is a table that meets the whole law and has the task's own list.
    pub fn witness(&mut self, domain: &Domain)
        requires of { self.old.domain ≡ domain.now }
        requires up { IsUp self.old }
        ensures same { self.new ≡ self.old }
        ensures law { MeetsLaw self.new.view }
    {
        domain.table.shared.load::<Witness>(&mut self.seat, 0);
    }
}

/// A head runs out of places for adds only after 2^37 adds at it: in each table that meets the rule, so many entries
/// were queued at the head of an entry or a bookmark that stands where no place is left, by the histories of all tasks;
/// and so it is in each such table that has the list of a task whose hold shows one there.
pub fn wears_late()
    ensures entries { EntriesWearLate }
    ensures marks { MarksWearLate }
    ensures holds { HoldsWearLate }
{}

/// That a hold of a task found a head without a place stays known after the hold: it stands in the task's list, and
/// stays there when the list grows. In the table that the task sees with its list, and in the one that another task
/// sees that joined it, at least 2^37 entries were queued at that head, by the histories of all tasks.
pub fn worn_stays()
    ensures notes { HoldsNote }
    ensures stays { NotesStay }
    ensures joins { JoinKeepsNotes }
    ensures own { OwnWearsLate }
    ensures joined { JoinedWearsLate }
{}

/// What the definitions say of small histories of holds. A hold of a simple head, which is given no walk, ends the wake
/// that is owed of the head's watch where it finds the queue empty. A wake of a walk calls the first entry of its task
/// that stands where the walk goes on or after it; what a hold selects is taken from the walk that goes on.
pub fn worked_holds()
    ensures simple { SimpleHolds }
    ensures calls { CallsRightly }
    ensures pauses { PausesRightly }
{}

/// The number that a head serves, as a task loads it that has joined all others, is the number of unlocks of the head
/// in the histories that it has then, less one while the serve of the last is still to come.
pub fn unlocks_are_counted()
    ensures { AllUnlocksCount }
{}

/// The tally of a page is the sum of all amounts that tasks added to it, modulo 2^64: in each scene that meets the
/// rule, of the lists of all tasks; and the number that a task finds that has joined all others is the sum of all
/// amounts in the lists that it has then. These lists count what the task adds, and by a join what the other one has;
/// a call that goes through a program adds nothing, and keeps the numbers that its task has.
pub fn tallies_are_sums()
    ensures rule { RuleSumsTallies }
    ensures all { AllSumTallies }
    ensures adds { AddsCount }
    ensures joins { JoinsCount }
    ensures newcomers { NewcomersCountNone }
    ensures forks { ForksCountNone }
    ensures programs { ProgramsAddNone }
    ensures numbers { ProgramsKeepNumbers }
{}

/// What was got by the read end of a pipe is a front of what was sent by its write end, and the cells in between hold
/// the rest: of the lists of the two tasks that have the ends, in each scene that meets the rule, and in what a task
/// has that joined both. At most `PIPE_CELLS` cells are in between, nothing is sent once the write end is closed, and a
/// reader that saw it closed, and took every cell that it saw, got all that was sent. Not both saw the other end closed
/// before they closed their own. Where a claim of an end was refused, some task has the end. A call that goes through a
/// program claims no end and passes no cell: a wait for a variable leaves what its task knows of ends, but for what it
/// saw of the other end, and the walk of a wake leaves it too.
pub fn pipes_deliver()
    ensures rule { RuleDelivers }
    ensures joined { JoinedDeliver }
    ensures refuses { RuleRefuses }
    ensures joined_refuse { JoinedRefuse }
    ensures programs { ProgramsKeepEnds }
    ensures walks { WalksKeepEnds }
{}

/// What a task makes of a call, or of a walk, grows its own list and nothing else of its journal; it adds to no tally,
/// claims no end of a pipe, and raises no signal, unless the call is to. A call about no variable tells nothing of ends
/// of pipes. Single steps that are about no head leave no own entry at a completion.
pub fn others_stay_aside()
    ensures calls { CallsGrowAside }
    ensures walks { WalksGrowAside }
    ensures ends { ProgramsLeaveEnds }
    ensures items { ItemsStayOff }
{}

/// What a task makes of a call follows the sentence of the call to its end, and the answer is the one that the sentence
/// gives: in each table that meets the rule, with the task's list, for all calls that are not about a completion: those
/// that don't walk, and those that do, wakes of plain conditions and bits and variables that are published. What it has
/// made of a call that doesn't walk and is not over begins the sentence. What it makes of a walk of a plain condition
/// follows the sentence of a wake, whatever call makes the walk.
pub fn runs_follow_sentences()
    ensures calls { RunsFollow }
    ensures wakes { WakesFollow }
    ensures begun { RunsBegin }
    ensures walks { WalksFollow }
{}

/// A wait in turns that answers for a signal has made, as its last events, a turn that found an admissible signal and
/// left its entry off, and then a load that found its condition not set: so whatever follows the sentence of such a
/// wait, and whatever a task of a Domain makes of it.
pub fn signals_are_heeded()
    ensures words { WordsHeed }
    ensures runs { RunsHeed }
{}

/// A walk's answer tells how many functions of entries answered yes in it: how many wakes met their task, and how many
/// pages were handed over, whatever the wake of that task met. Those that it selected are among them and, of a count
/// above 0, at most the count; it ended as spent exactly where they were as many as such a count: so whatever follows
/// the sentence of a wake, and whatever a task of a Domain makes of a walk. There the selected ones are just the
/// exclusive entries that the walk called and whose wakes met their tasks, and those whose pages it handed over.
pub fn walks_select_at_most()
    ensures words { WordsSelect }
    ensures runs { RunsSelect }
    ensures tells { RunsTell }
{}

/// No wakeup is lost on a Domain: in each table that meets the rule, and after each step of each order of allowed
/// steps, whoever sleeps on a watch that is set is covered by a task that owes the wake, or, at a plain condition or a
/// completion, wakes used up their count at its head since, or, at a bit, a task is trying it. To a task that has
/// joined all others it is told of the histories that it has. How often wakes used up their count at a head is told by
/// the histories of all tasks: the head's spent count is that number, up to its end.
pub fn no_wake_lost()
    ensures rule { RuleLosesNoWake }
    ensures steps { StepsLoseNoWake }
    ensures all { AllLoseNoWake }
    ensures spent { RuleCountsSpent }
    ensures all_spent { AllCountSpent }
{}

/// Whoever a watch was set for all the while since a task published it does not sleep on it any more once a wake of that
/// task has ended since, which used up no count; and where the task has used up none since, once it owes that wake no
/// more. So it is after each step of each order of allowed steps, and in each table that meets the rule, by the order
/// that leads to it. Of a watch that nobody takes back it is told by histories alone, in each table that meets the rule,
/// and to a task that has joined all others by those that it has.
pub fn setters_wake_all()
    ensures steps { StepsWakeAll }
    ensures settled { StepsSettleAll }
    ensures rule { RuleWakesAll }
    ensures rule_settled { RuleSettlesAll }
    ensures for_good { RuleSetsForGood }
    ensures all_for_good { AllSetForGood }
    ensures worked { WorkedSetters }
{}

/// No flag of an entry of kind Woken is lost on a Domain: in each table that meets the rule, and after each step of
/// each order of allowed steps. Where the owner of such an entry loaded its condition as not set since it queued it and
/// cleared its flag, and the condition is set and the flag is not, some task owes the wake, for tasks in whatever
/// state, and has still to set the flag; or wakes used up their count since. A walk is past such an entry only once it
/// has set the flag and woken the task after that.
pub fn no_flag_lost()
    ensures rule { RuleLosesNoFlag }
    ensures steps { StepsLoseNoFlag }
    ensures order { FlagsComeFirst }
    ensures worked { WorkedFlags }
{}

/// A page that a walk took for the task of an entry is one for which that task waits, or that was given to it, by its
/// list; the task holds it, also while it sleeps, and no other one does. Once the page's head is free such a page was
/// handed over whole: its task was told, and the entry is off. A task that asks for no page has none left with it. So
/// it is in each table that meets the rule. What lists tell of pages is checked on small ones.
pub fn pages_are_handed()
    ensures takes { RuleTakesForWaiters }
    ensures whole { RuleHandsWhole }
    ensures leaves { RuleLeavesNone }
    ensures worked { WorkedPages }
{}

/// On a Domain no task takes a signal that was not raised at it; a bit is set exactly where one task holds it, by its
/// own history, or as a page that a walk took for it; the counts of completions are balanced: in each table that meets
/// the rule. To a task that has joined all others the first and the last are told of the histories that it has. So no
/// more of a completion was taken than was made, where no store but one of one more made its count the end
/// (`complete_all` does).
pub fn words_are_accounted()
    ensures signals { RuleInventsNoSignal }
    ensures told { AllTookRaised }
    ensures bits { RuleKeepsBits }
    ensures counts { RuleBalances }
    ensures balance { AllBalance }
    ensures taken { RuleTakesMade }
    ensures all_taken { AllTakeMade }
{}

/// Permits of completions are handed on exactly on a Domain: while a task is queued at the head of a completion, and
/// nobody holds it, the count is at most the number of tasks that were handed a permit and have still to take it. So it
/// is in each table that meets the rule, and after each step of each order of steps that are allowed and meet the
/// model's conditions on permits, as those of the tasks of a Domain do. To a task that has joined all others it is told
/// of the histories that it has. A task that has made no step has left no entry at a completion, and what it makes of a
/// call about none leaves it so.
pub fn permits_are_handed_on()
    ensures rule { RuleHandsPermitsOn }
    ensures steps { StepsHandPermitsOn }
    ensures all { AllHandPermitsOn }
    ensures newcomers { NewcomersLeaveNone }
    ensures others { OthersStayOff }
{}

/// What the definitions say of small lists: of a walk that meets one of two tasks, of the last turn of a wait that
/// answers for a signal, and of a load and a store of two tasks in one order.
pub fn worked_events()
    ensures { WorkedEvents }
{}

/// A task that is clean owes no wake, by its history alone: since its last publish of a watch a walk of that watch is
/// past every entry at the head, be it over several holds, or used up its count, or a look at the head found no member.
/// Of each task whose list is in a table that meets the rule, what contracts say that it owes is what it owes so.
pub fn clean_owes_nothing()
    ensures clean { CleanOwesNothing }
    ensures told { RuleTellsDebts }
{}

/// No wake is lost at a task that owes none of a watch: it leaves nobody asleep on it. In each table that meets the
/// rule, with the task's list, whoever sleeps on the watch while it is set is covered by another task; or wakes used up
/// their count at its head since; or, at a bit, some task is trying it. The crates of the calls that wake say of each
/// of these that the task leaves nobody after it.
pub fn wakers_lose_none()
    ensures settled { SettledLeaveNone }
    ensures owers { OwersLeaveNone }
{}
