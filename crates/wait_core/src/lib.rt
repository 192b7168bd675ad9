//! Calls of tasks on wait queues, event by event.
#![tactic(auto)]

mod arrivals;
mod changes;
mod engine;
mod index;
mod keepers;
mod reads;
mod scan;
mod steps;

pub use engine::{Core, StartFault, Stepped};
