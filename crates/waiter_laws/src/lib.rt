//! Whoever waits on a Domain is a waiter of its laws: theorems over the calls that wait.
#![tactic(auto)]

pub mod laws;
