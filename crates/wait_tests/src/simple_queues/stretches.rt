//! Two waits in a simple queue and a waker on one thread, which goes on with one of them at a time.

use crate::orders::{Wakes, play_each};
use std::test::Fail;

/// Whatever the order, both waits end once the condition is set.
#[test]
fn waits_end_in_each_order(rt: HostRuntime) -> Result<(), Fail> {
    play_each(&rt, rt.alloc(), Wakes::Queue { all: true })
}
