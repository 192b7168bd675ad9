//! What a test wants to be so. What the tests of this crate check stands here once, since the proof of a test takes as long
//! as it has branches.

use std::process::Abort;

/// Wants each of the things seen in a test to be so, in their order.
pub(crate) fn all_so(rt: &impl Abort, seen: &[bool]) {
    let mut at: u64 = 0;
    for is_so in seen {
        assert!(rt; *is_so, "number {at}, counted from 0");
        at = at.saturating_add(1);
    }
}

/// Wants what was seen in the case of a number to be so.
pub(crate) fn wants(rt: &impl Abort, case: u64, what: &str, is_so: bool) {
    assert!(rt; is_so, "case {case}: {what}");
}
