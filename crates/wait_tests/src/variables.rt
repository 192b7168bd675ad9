//! Waits for variables: one task alone, by threads, and by stretches on one thread. The tests stand on the contracts of
//! the calls alone.

pub(crate) mod alone;
pub(crate) mod stretches;
pub(crate) mod threads;
