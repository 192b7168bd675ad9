//! What the tests of several crates do with tasks: tasks that meet in threads of their own, each of which plays a part, once
//! or often; what one of them does to others after some yields; the ends of a call whose holds a test makes one by one, and
//! the numbers by which an order is drawn; and what a test wants to be so.
#![tactic(auto)]

pub mod draws;
pub mod ends;
pub mod forks;
pub mod late;
pub mod meetings;
pub mod often;
pub mod signals;
pub mod wants;
