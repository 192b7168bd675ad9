//! The tests of the crates that stand on the waits: of pipes, of the checked calls, and of users and their pairs. They
//! use the public calls alone, so that those crates, which have no tests of their own, are proved once. This crate has
//! nothing but tests.
#![tactic(auto)]

#[cfg(test)]
mod checked;
#[cfg(test)]
mod meetings;
#[cfg(test)]
mod pipes;
#[cfg(test)]
mod users;
