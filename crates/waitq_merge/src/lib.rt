//! What is before and behind the run of a merge: how it begins, and what is told of it; with the definitions of what a
//! merge command leaves, and their theorems.
#![tactic(auto)]

pub mod begin;
pub mod told;
