//! Completions: one task alone, and between other calls, by threads, and by stretches on one thread.

mod alone;
pub(crate) mod calls;
mod cells;
pub(crate) mod leave_threads;
mod others;
mod stretches;
pub(crate) mod threads;
