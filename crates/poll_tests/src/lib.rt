//! The tests of `poll_wait` and of `poll_turns`, over their public calls alone, so that these, which have no tests of
//! their own, are proved once. This crate has nothing but tests.
#![tactic(auto)]

#[cfg(test)]
mod alone;
#[cfg(test)]
mod calls;
#[cfg(test)]
mod rounds;
#[cfg(test)]
mod turns;
