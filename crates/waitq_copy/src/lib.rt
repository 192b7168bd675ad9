//! What is before and behind the run of a copy: how it begins, which cause each of its answers has, its watchers, and what
//! is told of it; with the definitions of what a copy command leaves, and their theorems.
#![tactic(auto)]

pub mod begin;
pub mod ending;
pub mod told;
pub mod watchers;
pub mod watching;
