//! What is timed of futexes: a mutex that threads take in turn, a number that two threads hand to and fro under a mutex and
//! a condition variable, and a wake of a futex on which nobody sleeps.

pub(crate) mod monitors;
pub(crate) mod mutexes;
