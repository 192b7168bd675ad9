//! Copies by all four tasks, each worker alone, and the sources, sinks, folders and heads that they are given.

mod alone;
mod faults;
mod folders;
mod heads;
mod meeting;
mod sources;
mod tables;
mod wants;
