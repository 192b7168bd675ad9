//! What the rule of a Domain says of tasks that a wait for two conditions has put asleep by stretches.

ghost use Rattle.poll_turns.specs.PollSleepers.{StretchedPollersAreKept};

/// No poll that goes on by stretches is lost on a Domain: while it is asleep it is a sleeper of `poll_wait`'s law
/// (`no_poller_lost`), by each of its two entries as long as that stands.
pub fn no_stretched_poller_lost()
    ensures { StretchedPollersAreKept }
{}
