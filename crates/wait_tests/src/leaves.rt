//! Waits that their tasks leave: by stretches, beside a waker of one and a second waiter by threads, and a pool that is shut
//! down so.

mod conditions;
pub(crate) mod holders;
pub(crate) mod pool;
mod stretches;
pub(crate) mod threads;
