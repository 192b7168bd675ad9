//! Sentences of waits that are left: theorems over the calls that wait.
#![tactic(auto)]

pub mod laws;
