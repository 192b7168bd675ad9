//! What is timed of conditions that are set and waited for: round trips of two threads, also by completions and
//! semaphores; a wake of many sleepers; and sets and waits of one thread.

pub(crate) mod alone;
pub(crate) mod calls;
pub(crate) mod crowds;
pub(crate) mod trips;
