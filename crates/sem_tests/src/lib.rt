//! The tests of `count_sem`, over its public calls alone, so that it, which has no tests of its own, is proved once. This
//! crate has nothing but tests.
#![tactic(auto)]

#[cfg(test)]
mod alone;
#[cfg(test)]
mod five;
#[cfg(test)]
mod leaves;
#[cfg(test)]
mod rounds;
