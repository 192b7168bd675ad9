//! Round trips: a task tells another one to go on, and waits until it is told itself.

use crate::events::calls::{Means, hear, tell};
use crate::timing::time_two;
use std::alloc::Global;
use std::io;
use std::sync::Wait;
use std::thread::Threads;
use std::time::{Clock, Duration};
use test_tasks::meetings::Part;
use wait_rule::{Domain, Task};

/// The condition, completion or semaphore by which the side tells that begins, and the one of the other side; and the
/// semaphore of a task that meets no other.
const THERE: u8 = 0;

const BACK: u8 = 1;

const OWN: u8 = 2;

/// A side of a round trip: the one that begins, or the one that answers. It goes well where its wait ended since it was
/// told.
#[derive(Clone, Copy)]
struct Side {
    means: Means,
    begins: bool,
}

impl Part for Side {
    fn play<R: Wait>(self, rt: &R, domain: &Domain, task: &mut Task) -> bool {
        if self.begins {
            tell(rt, domain, task, self.means, THERE);
            hear(rt, domain, task, self.means, BACK)
        } else {
            let heard = hear(rt, domain, task, self.means, THERE);
            tell(rt, domain, task, self.means, BACK);
            heard
        }
    }
}

/// A task gives a permit of a semaphore back and takes it.
#[derive(Clone, Copy)]
pub(crate) struct Pair;

impl Part for Pair {
    fn play<R: Wait>(self, rt: &R, domain: &Domain, task: &mut Task) -> bool {
        tell(rt, domain, task, Means::Semaphore, OWN);
        hear(rt, domain, task, Means::Semaphore, OWN)
    }
}

/// How long `n` round trips take in a Domain whose tasks look so often before they park: None where a wait ended for
/// another reason.
pub(crate) fn time_trips<R: Clock + Threads + Wait + Sync>(
    rt: &R,
    alloc: Global,
    looks: u32,
    means: Means,
    n: u64,
) -> io::Result<Option<Duration>> {
    let own = Side {
        means,
        begins: true,
    };
    let its = Side {
        means,
        begins: false,
    };
    time_two(rt, alloc, looks, (own, its), n)
}
