//! What the rule of a Domain says of tasks that a wait for two conditions has put asleep.

ghost use Rattle.poll_wait.specs.{Waiting.PollersAreKept, WorkedPolls.WorkedPolls};

/// No poll is lost on a Domain. A task that made the sleep of a turn of a `poll_two` (`ends`, whose turns these are),
/// and has only looked since, sleeps on both of its watches, if it was not woken: on the first by its entry of slot 0,
/// and on the second by that of slot 1, each as long as it stands. So where one of the two is set it is covered by a
/// task that owes the wake, or walks used up their count at its head since. So it is in each table that meets the rule,
/// with the task's list, and after each step of each order of allowed steps.
pub fn no_poller_lost()
    ensures { PollersAreKept }
{}

/// What the definitions say of small lists: of a task that queued both entries, then loaded both conditions and sleeps;
/// of one that loaded them before it queued the second; and of one that queued one entry alone.
pub fn worked_polls()
    ensures { WorkedPolls }
{}
