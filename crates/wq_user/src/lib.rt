//! What a user of heads does between calls: stretches of calls, each with a contract that follows from the contracts of
//! the calls alone. The crate has no proof of its own; of two loops it says what they keep.
#![tactic(auto)]

pub mod completions;
pub mod events;
pub mod hashed;
pub mod holds;
pub mod kept;
pub mod pages;
pub mod parts;
pub mod simple;
pub mod stretched;
pub mod stretched_bits;
pub mod stretched_locks;
pub mod waits;
