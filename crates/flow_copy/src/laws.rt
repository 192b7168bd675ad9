//! What follows from the programs of a copy's workers.

ghost use Rattle.flow_copy.specs.KilledWorkers.{ReadersHeed, RelaysHeed, WritersHeed};

/// A worker that took a fatal signal stops as Killed: it took one alone, as the last thing before it closes its ends and
/// completes, and makes nothing else behind it. One that stopped otherwise took none. So a take that finds a fatal one
/// is never passed over, in the midst of a turn or between two.
pub fn workers_heed_kills()
    ensures readers { ReadersHeed }
    ensures relays { RelaysHeed }
    ensures writers { WritersHeed }
{}
