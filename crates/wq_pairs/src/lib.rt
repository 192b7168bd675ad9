//! Each ordered pair of calls that a driver makes: a task that owes nothing makes the first call and then the second,
//! and owes nothing after both. The crate has no proof of its own, as `wq_user` has none, over which it stands.
#![tactic(auto)]

pub mod calls;
pub mod pairs;
