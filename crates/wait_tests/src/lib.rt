//! The tests of the crates of waits and wakes: a module for each crate. They use its public calls alone, so that those
//! crates, which have no tests of their own, are proved once. This crate has nothing but tests.
#![tactic(auto)]

#[cfg(test)]
mod bits;
#[cfg(test)]
mod completions;
#[cfg(test)]
mod events;
#[cfg(test)]
mod in_order;
#[cfg(test)]
mod leaves;
#[cfg(test)]
mod meetings;
#[cfg(test)]
mod orders;
#[cfg(test)]
mod pages;
#[cfg(test)]
mod signals;
#[cfg(test)]
mod simple_queues;
#[cfg(test)]
mod turns;
#[cfg(test)]
mod variables;
