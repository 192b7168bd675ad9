//! What wakes leave behind.

ghost use Rattle.wq_head.specs.LosesNone.{WakesLoseNone};

/// A `wake` loses no wakeup. After it, in each table that meets the rule, with the task's list, whoever sleeps on its
/// watch while that is set, in a state that its mode meets, is covered by another task; or wakes used up their count at
/// the head since; or, at a bit, some task is trying it. So it leaves nobody, whatever it was called for.
pub fn wake_loses_none()
    ensures { WakesLoseNone }
{}
