//! What whole calls on variables make, as the sentences of the model say it.

ghost use Rattle.var_wait.specs.LosesNone.{PublishesLoseNone};
ghost use Rattle.var_wait.specs.VarWords.{PublishesFollow, VarWaitsFollow, VarWaitsHeed};

/// What a `wait_var` has made follows the sentence of a wait for a variable, and the answer is the one that the
/// sentence gives, beside the value; and what a `publish_var_and_wake` has made follows that of `setvar`: by the table
/// that a load of the base word shows after the call (`Task::witness`).
pub fn calls_follow_sentences()
    ensures waits { VarWaitsFollow }
    ensures publishes { PublishesFollow }
{}

/// A `wait_var` that answers for a signal has made, as its last events, a turn that found an admissible signal and left
/// its entry off, and then a load that found the old value.
pub fn signals_are_heeded()
    ensures { VarWaitsHeed }
{}

/// A `publish_var_and_wake` loses no wakeup. After it, in each table that meets the rule, with the task's list, whoever
/// sleeps on the variable while it has another value than the one that was seen is covered by another task that owes the
/// wake. So this task leaves nobody.
pub fn publish_var_and_wake_loses_none()
    ensures { PublishesLoseNone }
{}
