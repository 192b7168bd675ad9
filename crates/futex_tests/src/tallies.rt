//! Four tasks that add to a plain tally under one mutex, in threads of their own, again and again, in Domains whose tasks
//! park at once when they are put asleep.

use crate::calls::{lock, open, unlock};
use lock_users::tallies::add_in_two_threads;
use std::sync::Wait;
use std::sync::atomic::{AtomicU64, Ordering};
use std::test::Fail;
use std::thread;
use test_tasks::meetings::{Part, four_meet};
use test_tasks::often::play_often;
use test_tasks::wants::all_so;
use wait_rule::{Domain, Task};

/// How many rounds the test makes, and how often each task adds in a round.
const ROUNDS: u32 = 300;

const ADDS: u32 = 25;

/// How often each of two tasks adds, in each of 20 Domains.
const MORE_ADDS: u32 = 200;

/// Adds 1 to the tally by a load and a store: an add of another task between the two would be lost.
pub(crate) fn add_plainly(tally: &AtomicU64) {
    let now = tally.load(Ordering::SeqCst);
    thread::yield_now();
    tally.store(now.wrapping_add(1), Ordering::SeqCst);
}

/// Adds to the tally with the mutex: whether it had it.
#[derive(Clone, Copy)]
struct Adds<'a>(&'a AtomicU64);

impl Part for Adds<'_> {
    fn play<R: Wait>(self, rt: &R, domain: &Domain, task: &mut Task) -> bool {
        if lock(rt, domain, task) {
            add_plainly(self.0);
            unlock(rt, domain, task);
            return true;
        }
        false
    }
}

/// Adds to the tally so often.
#[derive(Clone, Copy)]
struct Counts<'a>(&'a AtomicU64);

impl Part for Counts<'_> {
    fn play<R: Wait>(self, rt: &R, domain: &Domain, task: &mut Task) -> bool {
        play_often(rt, domain, task, Adds(self.0), ADDS)
    }
}

/// Whatever the order of the steps, no add is lost.
#[test]
fn tally_of_four(rt: HostRuntime) -> Result<(), Fail> {
    for _round in 0..ROUNDS {
        let (domain, mut task) = Domain::with_looks(rt.alloc(), 0)?;
        let tally = AtomicU64::new(0);
        open(&rt, &domain, &mut task);
        let counts = Counts(&tally);
        let two = (counts, counts);
        let (_task, [one, two, three, four]) = four_meet(&rt, &domain, task, two, two);
        let exact = tally.load(Ordering::SeqCst) == 100;
        all_so(&[one, two, three, four, exact])?;
    }
    Ok(())
}

/// What the first of two reads is what both have added.
#[test]
fn tally_of_two(rt: HostRuntime) -> Result<(), Fail> {
    for _round in 0..20 {
        let (domain, task) = Domain::with_looks(rt.alloc(), 0)?;
        let Some(tally) = add_in_two_threads(&rt, &domain, task, MORE_ADDS) else {
            panic!(rt; "a number is spare, and places are left")
        };
        all_so(&[tally.first == 200, tally.second == 200, tally.read == 400])?;
    }
    Ok(())
}
