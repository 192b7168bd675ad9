//! What whole calls on pages make, as the sentences of the model say it.

ghost use Rattle.page_lock.specs.{LosesNone.UnlocksLoseNone, PageWords.PageLocksFollow, PageWords.PageLocksHeed};

/// What a `lock_page` has made follows the sentence of `lockpage`, and the answer is the one that the sentence gives:
/// by the table that a load of the base word shows after the call (`Task::witness`). Of what a `try_lock_page` and an
/// `unlock_page` make the same is said where bits are (`bit_wait::laws`).
pub fn calls_follow_sentences()
    ensures locks { PageLocksFollow }
{}

/// A `lock_page` that answers Interrupted has made, as its last events, a turn that found its flag not set and an
/// admissible signal, a finish, and then a load of its flag that found it not set still.
pub fn signals_are_heeded()
    ensures { PageLocksHeed }
{}

/// An `unlock_page` loses no wakeup. After it, of a task that owed no wake of the page before, in each table that meets
/// the rule, with the task's list, whoever sleeps on the page while it is clear is covered by another task that owes the
/// wake; or some task is trying it. So this task leaves nobody.
pub fn unlock_page_loses_none()
    ensures { UnlocksLoseNone }
{}
