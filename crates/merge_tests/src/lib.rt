//! The tests of `flow_merge`, by its public calls: apart, since a crate with tests is proved twice.
#![tactic(auto)]

#[cfg(test)]
mod tests;
