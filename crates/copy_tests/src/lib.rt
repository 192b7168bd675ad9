//! Tests of copies through the two pipes, of the outside of the program, and of heads of a caller's functions.
//!
//! They make public calls alone. They stand in a crate of their own because a crate with tests is proved twice, once
//! with them and once without: here that is the proof of the tests, and not of the crates under them.
#![tactic(auto)]

#[cfg(test)]
mod tests;
