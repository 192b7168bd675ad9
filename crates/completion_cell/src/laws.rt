//! What whole calls on completions make, as the sentences of the model say it, and what those that make a completion
//! done leave behind.

ghost use Rattle.completion_cell.specs.LosesNone.{CompletesLoseNone};
ghost use Rattle.completion_cell.specs.Words.{
  AllsFollow,
  AsksFollow,
  AwaitsFollow,
  AwaitsHeed,
  CompletesFollow,
  ResetsFollow,
  TryWaitsFollow,
};

/// What a `complete`, a `complete_all`, a `try_wait`, an `is_done`, a `reinit` and a `wait_for` have made follows the
/// sentences of the model, and their answers are those that the sentences give: by the table that a load of the base
/// word shows after the call (`Task::witness`). So it is where `cell_stretch` has ended one of the first five.
pub fn calls_follow_sentences()
    ensures completes { CompletesFollow }
    ensures alls { AllsFollow }
    ensures tries { TryWaitsFollow }
    ensures asks { AsksFollow }
    ensures resets { ResetsFollow }
    ensures waits { AwaitsFollow }
{}

/// A `wait_for` that answers for a signal has made, as its last events, a hold that loaded the count as 0, found an
/// admissible signal, stored RUNNING and left its entry off.
pub fn signals_are_heeded()
    ensures { AwaitsHeed }
{}

/// A `complete` loses no wakeup. After it, of a task that owed no wake of the completion before, in each table that
/// meets the rule, with the task's list, whoever sleeps on the completion while it is done is covered by another task
/// that owes the wake; or wakes used up their count at its head since. So this task leaves nobody. That a permit is
/// handed on to who is queued is `permits_are_handed_on` of `wait_rule::laws`.
pub fn complete_loses_none()
    ensures { CompletesLoseNone }
{}

/// The same of a `complete_all`.
pub fn complete_all_loses_none()
    ensures { CompletesLoseNone }
{}
