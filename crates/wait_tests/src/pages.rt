//! Pages on one thread, and by threads. The tests stand on the contracts of the calls alone.

pub(crate) mod alone;
mod short_calls;
mod stretches;
pub(crate) mod threads;
