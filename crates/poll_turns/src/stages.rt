//! Where a wait for two conditions stands between two stretches, and how it ends.

use poll_wait::turns::Loads;
use poll_wait::{PollEnd, Ready};
use wait_class::stages::Turn;
use wait_rule::tries::FailedTries;
use wq_head::Worn;

/// How a wait for two conditions ended that its task may leave. Over: as `poll_two` answers. Left: it was asked to leave,
/// its last loads found `first` and `second`, neither of them set, and both entries are off.
#[derive(Clone, Copy, Debug, Drop)]
pub enum PollUntil {
    Over(Result<Ready, PollEnd>),
    Left { first: u64, second: u64 },
}

/// Where a wait for two conditions stands, with no head held. First: before its first loads. QueueFirst: before a turn,
/// which begins with the first entry. HoldFirst: this ticket of the first head is drawn. QueueSecond and HoldSecond: so
/// it is with the second entry. Load: both are queued, or no place was left for one of them, and both conditions are to
/// be loaded. Ask: the loads found neither set, and the own word is to be looked at for a signal. Sleep: it is to sleep;
/// so many tries failed. TakeFirst: it ends so, and the first entry is to be taken off. HoldTakeFirst: for that, this
/// ticket of this head is drawn. TakeSecond and HoldTakeSecond: so it is with the second entry.
#[derive(Clone, Copy)]
pub enum PollStage {
    First,
    QueueFirst,
    HoldFirst(u64),
    QueueSecond,
    HoldSecond(u64),
    Load(Result<(), Worn>),
    Ask(Loads),
    Sleep(FailedTries),
    TakeFirst(PollUntil),
    HoldTakeFirst(PollUntil, u16, u64),
    TakeSecond(PollUntil),
    HoldTakeSecond(PollUntil, u16, u64),
}

/// What a stretch of such a wait did.
pub type PollTurn = Turn<PollStage, PollUntil>;
