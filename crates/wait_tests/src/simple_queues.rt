//! Simple queues: one task alone, by threads, and by stretches on one thread. The tests stand on the contracts of the
//! calls alone.

mod alone;
mod stretches;
mod swakes;
pub(crate) mod threads;
