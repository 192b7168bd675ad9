//! A wait to take a bit and the task that gives it back on one thread, which goes on with one of them at a time.

use crate::bits::rousing::play_each;
use std::test::Fail;

/// Whatever the order, the wait takes the bit once it is clear and its task was woken.
#[test]
fn waits_take_the_bit_in_each_order(rt: HostRuntime) -> Result<(), Fail> {
    play_each(&rt, rt.alloc(), true)
}
