//! What the rule of a Domain says of tasks that calls have put asleep.

ghost use Rattle.bit_wait.specs.{BitTables.bit_table, LockTables.lock_table};
ghost use Rattle.completion_cell.specs.Awaits.{await_table};
ghost use Rattle.page_lock.specs.PageTables.{page_table};
ghost use Rattle.wait_event.specs.Waits.{wait_table};
ghost use Rattle.waiter_laws.specs.{Asleep.SleepersAreKept, Queued.SleepersAreQueued, WorkedWaits.WorkedWaits};
ghost use Rattle.waiter_laws.specs.Listening.{HearingsAreOne, ListenersAreKept, StretchesEndListening};
ghost use Rattle.waiter_laws.specs.Settled.{CellsSettle, SettledWakeAll, SwakesSettle, WakesSettle};
ghost use Rattle.waiter_laws.specs.Stretches.{AwaitersAreKept, BitLockersAreKept, BitWaitersAreKept};
ghost use Rattle.waiter_laws.specs.Stretches.{PageWaitersAreKept, SleepIsLastOfAll, StretchesAreOne, WaitersAreKept};

/// No waiter is lost on a Domain. A task whose last event is the sleep of a call that waits (`wait_event`,
/// `swait_event`, `wait_for`, `wait_on_bit`, `wait_on_bit_lock`, `lock_page`, `wait_var`), and that was not woken
/// since, sleeps on the watch of its call as long as its entry stands; so if the watch is set it is covered by a
/// task that owes the wake, or walks used up their count at its head since, or some task is trying the bit. So it
/// is in each table that meets the rule, and after each step of each order of allowed steps.
pub fn no_waiter_lost()
    ensures { SleepersAreKept }
{}

/// Where entries of others are taken off only in holds that have left their tasks RUNNING
/// (`order_laws::laws::taken_off_woken`), the entry of such a task stands, so of all these calls but `lock_page` no task
/// that was put asleep, and was not woken, is without its entry.
pub fn sleepers_are_queued()
    ensures queued { SleepersAreQueued }
{}

/// Whoever waits for a flag is not lost either. A task whose last event is the sleep of a `wait_woken`, which before
/// that call had tested a watch since it queued its entry and cleared its flag, sleeps on the watch as long as it was
/// not woken; its entry stands, since no other task takes it off (`asleep`). Nor is whoever stretches of such a wait put
/// asleep: it has made what it makes in the whole call up to there (`stretches`). Stretches one after another count as
/// one (`join`).
pub fn no_listener_lost()
    ensures asleep { ListenersAreKept }
    ensures stretches { StretchesEndListening }
    ensures join { HearingsAreOne }
{}

/// Nor is whoever stretches put asleep: who began a wait for a plain condition or a variable (`waits`), one for a
/// completion (`cells`), one for a page (`pages`), one until a bit is clear (`bits`) or one to take a bit (`locks`), at
/// its first stage, and by stretches came to the answer that it was put asleep. Of the two for bits the last step has
/// to be a sleep, as the last stretch shows; it is then the last of them all (`bits_last`, `locks_last`). Stretches one
/// after another count as one.
pub fn no_stretch_loses_waiters()
    ensures waits { WaitersAreKept }
    ensures cells { AwaitersAreKept }
    ensures pages { PageWaitersAreKept }
    ensures bits { BitWaitersAreKept }
    ensures locks { BitLockersAreKept }
    ensures waits_join { StretchesAreOne wait_table }
    ensures cells_join { StretchesAreOne await_table }
    ensures pages_join { StretchesAreOne page_table }
    ensures bits_join { StretchesAreOne bit_table }
    ensures locks_join { StretchesAreOne lock_table }
    ensures bits_last { SleepIsLastOfAll bit_table }
    ensures locks_last { SleepIsLastOfAll lock_table }
{}

/// Stretches that make a wake leave nobody behind, as whole wakes do: whoever owes no wake of a watch, as a task whose
/// stretches of a wake, of one of a simple queue, or of a `complete` or `complete_all` have come to their end, leaves
/// nobody asleep on it to others; and if it has published the watch, used up no count since, and the watch has been set
/// all the while, nobody sleeps on it.
pub fn stretches_settle()
    ensures settled { SettledWakeAll }
    ensures wakes { WakesSettle }
    ensures swakes { SwakesSettle }
    ensures cells { CellsSettle }
{}

/// What the definitions say of a small list: of a task that has tested its condition behind its prepare and sleeps, and
/// of one that has not.
pub fn worked_waits()
    ensures { WorkedWaits }
{}
