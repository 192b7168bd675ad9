//! What a test wants to be so. It stands here once, since the proof of a test takes as long as it has branches.

use std::process::Abort;

/// Wants what was seen in the case of a number to be so.
pub(crate) fn wants(rt: &impl Abort, case: usize, what: &str, is_so: bool) {
    assert!(rt; is_so, "case {case}: {what}");
}
