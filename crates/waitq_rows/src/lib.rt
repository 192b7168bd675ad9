//! Worked scripts, refusals, faults, copies and merges through `run` of `waitq_run`: tests alone, so that no proof of the
//! program is made twice.
#![tactic(auto)]

#[cfg(test)]
mod cases;
#[cfg(test)]
mod copy_rows;
#[cfg(test)]
mod event_rows;
#[cfg(test)]
mod merge_rows;
#[cfg(test)]
mod rows;
#[cfg(test)]
mod tests;
#[cfg(test)]
mod walks;
