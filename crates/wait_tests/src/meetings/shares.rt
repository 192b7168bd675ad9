//! What the tasks of a round share beside their Domain.

use std::sync::atomic::{AtomicU64, Ordering};
use std::thread;

/// The number of the round, the flag that asks to leave, how many keep what only one may keep, and what they count.
#[derive(Drop)]
pub(crate) struct Shared {
    pub round: u32,
    pub flag: AtomicU64,
    pub keep: AtomicU64,
    pub count: AtomicU64,
}

impl Shared {
    pub fn new(round: u32) -> Shared {
        Shared {
            round,
            flag: AtomicU64::new(0),
            keep: AtomicU64::new(0),
            count: AtomicU64::new(0),
        }
    }

    /// Whether it is time to leave.
    pub fn asks(&self) -> bool {
        self.flag.load(Ordering::SeqCst) != 0
    }

    /// Whether nobody else keeps it, over a yield.
    pub fn keeps_alone(&self) -> bool {
        let others = self.keep.fetch_add(1, Ordering::SeqCst);
        thread::yield_now();
        let own = self.keep.fetch_sub(1, Ordering::SeqCst);
        others == 0 && own == 1
    }
}

/// How late something comes in a round, by yields.
#[derive(Clone, Copy)]
pub(crate) enum Late {
    AtOnce,
    /// By one more in each round, and by none again after so many.
    Each(u32),
    /// So too, but by one more only after so many rounds.
    Slowly(u32),
}

impl Late {
    /// The yields of this round.
    pub fn yields(self, round: u32) -> u32 {
        match self {
            Late::AtOnce => 0,
            Late::Each(most) => round.checked_rem(most).unwrap_or(0),
            Late::Slowly(most) => {
                let slow = round.checked_div(most).unwrap_or(0);
                slow.checked_rem(most).unwrap_or(0)
            }
        }
    }
}
