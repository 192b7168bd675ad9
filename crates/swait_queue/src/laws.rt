//! What whole calls on simple queues make, as the sentences of the model say it.

ghost use Rattle.swait_queue.specs.LosesNone.{SwakesLoseNone};
ghost use Rattle.swait_queue.specs.SimpleWords.{SimpleWaitsFollow, SimpleWaitsHeed, SimpleWakesFollow};

/// What a `swait_event`, a `swake_one` and a `swake_all` have made follows the sentences of a simple wait and of the
/// wakes, and their answers are those that the sentences give: by the table that a load of the base word shows after
/// the call (`Task::witness`).
pub fn calls_follow_sentences()
    ensures waits { SimpleWaitsFollow }
    ensures wakes { SimpleWakesFollow }
{}

/// A `swait_event` that answers for a signal has made, as its last events, a turn that found an admissible signal and
/// left its entry off, and then a load that found its condition not set.
pub fn signals_are_heeded()
    ensures { SimpleWaitsHeed }
{}

/// A `swake_one` loses no wakeup, whether its task had set the condition or not. After it, in each table that meets the
/// rule, with the task's list, whoever sleeps on the condition while it is set is covered by another task that owes the
/// wake; or wakes used up their count at the head since. So this task leaves nobody.
pub fn swake_one_loses_none()
    ensures { SwakesLoseNone }
{}

/// The same of a `swake_all`.
pub fn swake_all_loses_none()
    ensures { SwakesLoseNone }
{}
