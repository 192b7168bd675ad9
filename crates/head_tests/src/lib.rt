//! The tests of the words, of the steps of tasks and of heads: `wait_model`, `wait_rule`, `wq_head`. They use the public
//! calls alone, so that those crates, which have no tests of their own, are proved once. This crate has nothing but
//! tests, and waits for no crate above those, so that it is proved beside the crates above.
#![tactic(auto)]

#[cfg(test)]
mod heads;
#[cfg(test)]
mod meetings;
#[cfg(test)]
mod scenes;
#[cfg(test)]
mod steps;
#[cfg(test)]
mod words;
