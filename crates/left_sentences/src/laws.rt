//! What waits make that are left, as phrases of the model say it.

ghost use Rattle.left_sentences.specs.{BitWays.LeftBitLocksFollow, BitWays.LeftBitWaitsFollow};
ghost use Rattle.left_sentences.specs.{CellWays.LeftAwaitsFollow, PageWays.LeftPagesFollow, WorkedWays.WorkedWays};
ghost use Rattle.left_sentences.specs.CondWays.{AskedWaitsFollow, LeftSimplesFollow, LeftVarsFollow, LeftWaitsFollow};
ghost use Rattle.std.specs.Prelude.{true};

/// A wait for a plain condition (`wait_event_until`, and `leave_wait` behind stretches), for one with a simple queue
/// (`swait_event_until`) or for a variable (`wait_var_until`) that was left, where `asks` answered true, has made a
/// first part that begins the sentence of its call, and behind it phrases of its own: in the hold of a prepare it
/// leaves its queue as one does that found a signal; before its load or its sleep it stores RUNNING and begins a turn
/// once more, in which it may be asked again. Its last load found the condition not set. A load of the base word
/// after the call (`Task::witness`) shows the table that is asked for. Whatever it answers, it made such a word, or
/// what the sentence of its call says to the end (`all`).
pub fn left_waits_follow<Q: Fn() -> bool>(asks: &Q)
    ensures waits { LeftWaitsFollow (Q.post asks.now true) }
    ensures simples { LeftSimplesFollow (Q.post asks.now true) }
    ensures vars { LeftVarsFollow (Q.post asks.now true) }
    ensures all { AskedWaitsFollow (Q.post asks.now true) }
{
    let _ = *asks;
}

/// The same of a wait for a completion (`wait_for_until`): it goes out in a hold that has loaded 0, as one that a
/// signal stops, or before its sleep, where it stores RUNNING and goes on to its next hold.
pub fn left_cells_follow<Q: Fn() -> bool>(asks: &Q)
    ensures { LeftAwaitsFollow (Q.post asks.now true) }
{
    let _ = *asks;
}

/// The same of a wait until a bit is clear, which goes out by one more load and its finish, and of one to take a bit,
/// which finishes and tries the bit once more: outside of its holds.
pub fn left_bits_follow<Q: Fn() -> bool>(asks: &Q)
    ensures waits { LeftBitWaitsFollow (Q.post asks.now true) }
    ensures locks { LeftBitLocksFollow (Q.post asks.now true) }
{
    let _ = *asks;
}

/// The same of a wait for a page: it is over at once where it has queued nothing, and else finishes, and takes the
/// page that was handed to it until then.
pub fn left_pages_follow<Q: Fn() -> bool>(asks: &Q)
    ensures { LeftPagesFollow (Q.post asks.now true) }
{
    let _ = *asks;
}

/// The same of waits that went on by stretches, and were asked on their way (`wait_leave::ask`, `stretch_out`,
/// `leave`).
pub fn left_stretches_follow()
    ensures waits { LeftWaitsFollow (Unit {0}) }
    ensures simples { LeftSimplesFollow (Unit {0}) }
    ensures vars { LeftVarsFollow (Unit {0}) }
    ensures all { AskedWaitsFollow (Unit {0}) }
    ensures cells { LeftAwaitsFollow (Unit {0}) }
    ensures bits { LeftBitWaitsFollow (Unit {0}) }
    ensures locks { LeftBitLocksFollow (Unit {0}) }
    ensures pages { LeftPagesFollow (Unit {0}) }
{}

/// What the definitions say of small words: of a task that was asked once and of one that was asked twice, and of two
/// that are gone, but hold the lock or have their entry queued.
pub fn worked_ways()
    ensures { WorkedWays }
{}
