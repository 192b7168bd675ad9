//! Parts of the turns of a copy's workers that know nothing of pages: signals taken and sent, and pieces put into a pipe
//! and got out of one; and what turns do one after another, with its theorems.
#![tactic(auto)]

pub mod signals;
pub mod transfers;

pub use signals::{is_killed, send_due};
pub use transfers::{get, put_whole};
