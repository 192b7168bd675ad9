//! Two waits and one who completes on one thread, which goes on with one of them at a time: what an executor does.

use crate::orders::{Wakes, play_each};
use std::test::Fail;

/// Whatever the order, each wait takes one.
#[test]
fn each_takes_one(rt: HostRuntime) -> Result<(), Fail> {
    play_each(&rt, rt.alloc(), Wakes::Cell)
}
