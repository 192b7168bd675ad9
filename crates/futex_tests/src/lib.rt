//! The tests of futexes, and of the mutexes and condition variables over them. They use the public calls of `futex_table`
//! alone, so that this crate, which has no tests of its own, is proved once; and one part of `lock_users`. There is
//! nothing but tests here.
#![tactic(auto)]

#[cfg(test)]
mod alone;
#[cfg(test)]
mod calls;
#[cfg(test)]
mod cond_turns;
#[cfg(test)]
mod left;
#[cfg(test)]
mod left_locks;
#[cfg(test)]
mod lock_turns;
#[cfg(test)]
mod monitors;
#[cfg(test)]
mod races;
#[cfg(test)]
mod tallies;
#[cfg(test)]
mod turns;
