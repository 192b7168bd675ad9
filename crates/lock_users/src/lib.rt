//! Parts of users of semaphores and of mutexes, proved from the contracts of the calls alone: a task that works with a
//! permit, one with a critical section, also by stretches, and two threads that add to a tally in theirs.
#![tactic(auto)]

pub mod mutexes;
pub mod semaphores;
pub mod stretched;
pub mod tallies;
