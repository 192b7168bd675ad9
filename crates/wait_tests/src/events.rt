//! Waits and their wakers: one task alone, by threads, and by stretches on one thread.

pub(crate) mod alone;
pub(crate) mod flags;
mod hearers;
pub(crate) mod parts;
pub(crate) mod selected;
pub(crate) mod stretches;
pub(crate) mod threads;
mod turns;
