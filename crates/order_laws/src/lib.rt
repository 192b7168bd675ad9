//! What holds of orders of allowed steps in which others take off the entries of woken tasks alone: laws on which those
//! of calls stand.
#![tactic(auto)]

pub mod laws;
