//! The library as an author uses it: a bounded buffer between two threads, and a driver whose device raises interrupts.
//! Each follows from the contracts of the calls that it makes; the crate has no proof of its own.
#![tactic(auto)]

pub mod buffer;
pub mod driver;
#[cfg(test)]
mod tests;
pub mod worker;
