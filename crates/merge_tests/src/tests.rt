//! Merges by all five tasks: of several sizes, with faults, in rounds, and of a source that comes late.

mod faults;
mod late;
mod merges;
mod tables;
mod wants;
