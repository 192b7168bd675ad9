//! Tests of cores, scripts and drills by the public calls of `wait_core`, `wait_script` and `drill_gen`. They stand in a
//! crate above those, so that each of those is proved once and not a second time with its tests.
#![tactic(auto)]

#[cfg(test)]
mod tests;
