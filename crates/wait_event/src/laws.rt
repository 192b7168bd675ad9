//! What whole calls make, as the sentences of the model say it.

ghost use Rattle.wait_event.specs.LosesNone.{SetsLoseNone};
ghost use Rattle.wait_event.specs.Words.{AddsFollow, FinishesFollow, PreparesFollow, RemovesFollow, SetsFollow};
ghost use Rattle.wait_event.specs.Words.{TakesFollow, WaitsFollow, WaitsHeed, WaitsSay, WokensFollow};

/// What a `wait_event`, a `wait_woken`, an `add_entry`, a `remove_entry`, a `take_cond` and a `set_and_wake` have made
/// follows the sentences of a wait, a wait for a flag, an add, a removal, a take, a set and a wake, and their answers
/// are those that the sentences give: by the table that a load of the base word shows after the call (`Task::witness`).
/// What a prepare has made is one prepare of the sentences and nothing more, for each watch and each kind of entry, and
/// it answers as that does; and what a `finish_wait` has made is a finish of a wait.
pub fn calls_follow_sentences()
    ensures waits { WaitsFollow }
    ensures says { WaitsSay }
    ensures flags { WokensFollow }
    ensures adds { AddsFollow }
    ensures removes { RemovesFollow }
    ensures prepares { PreparesFollow }
    ensures finishes { FinishesFollow }
    ensures takes { TakesFollow }
    ensures sets { SetsFollow }
{}

/// A `wait_event` that answers for a signal has made, as its last events, a turn that found an admissible signal and
/// left its entry off, and then a load that found its condition not set.
pub fn signals_are_heeded()
    ensures { WaitsHeed }
{}

/// A `set_and_wake` loses no wakeup. After it, in each table that meets the rule, with the task's list, whoever sleeps
/// on the condition while it is set, in a state that the mode meets, is covered by another task that owes the wake; or
/// wakes used up their count at the head since that task's last look there. So this task leaves nobody.
pub fn set_and_wake_loses_none()
    ensures { SetsLoseNone }
{}
