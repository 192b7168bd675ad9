//! Two tasks that hand a number to and fro under one mutex and one condition variable, in threads of their own, again and
//! again, in Domains whose tasks park at once when they are put asleep.

ghost use Rattle.wait_rule.specs.Says.{RestsIn};
ghost use Rattle.futex_table.specs.Holding.{HoldsMutex};

use crate::calls::{broadcast, lock, open, unlock, wait};
use std::sync::Wait;
use std::sync::atomic::{AtomicU64, Ordering};
use std::test::Fail;
use test_tasks::meetings::{Part, two_meet};
use test_tasks::wants::all_so;
use wait_rule::{Domain, Task};

/// How many rounds the test makes.
const ROUNDS: u32 = 100;

/// The number in the end.
const LAST: u64 = 200;

/// Adds 1 to the number whenever its parity is the own one, until it is the last.
#[derive(Clone, Copy)]
struct Adds<'a> {
    number: &'a AtomicU64,
    own: u64,
}

impl Part for Adds<'_> {
    fn play<R: Wait>(self, rt: &R, domain: &Domain, task: &mut Task) -> bool {
        if lock(rt, domain, task) {
            add_in_turn(rt, domain, task, self.number, self.own)
        } else {
            false
        }
    }
}

/// Where it stands with the number: the own turn, that of the other, or the end.
#[derive(Clone, Copy)]
pub(crate) enum Whose {
    Own,
    Other,
    Nobody,
}

/// Adds 1 to the number on the own turn, where it is not the last.
pub(crate) fn add_if_own(number: &AtomicU64, own: u64, last: u64) -> Whose {
    let now = number.load(Ordering::SeqCst);
    if now >= last {
        return Whose::Nobody;
    }
    if now % 2 == own {
        number.store(now + 1, Ordering::SeqCst);
        return Whose::Own;
    }
    Whose::Other
}

/// With the mutex, hands the number on until it is the last, and gives the mutex back: whether it came so far.
fn add_in_turn<R: Wait>(
    rt: &R,
    domain: &Domain,
    task: &mut Task,
    number: &AtomicU64,
    own: u64,
) -> bool
    requires rests { RestsIn domain.now task.old }
    requires holds { HoldsMutex task.old 6 }
    ensures rests { RestsIn domain.now task.new }
{
    for _ in rt.forever() {
        match add_if_own(number, own, LAST) {
            Whose::Own => broadcast(rt, domain, task),
            Whose::Other => {
                if !wait(rt, domain, task) {
                    return false;
                }
            }
            Whose::Nobody => {
                unlock(rt, domain, task);
                return true;
            }
        }
    }
    unreachable!()
}

/// Whatever the order of the steps, each adds on its turn alone, and both end once the number is the last.
#[test]
fn monitor(rt: HostRuntime) -> Result<(), Fail> {
    for _round in 0..ROUNDS {
        let (domain, mut task) = Domain::with_looks(rt.alloc(), 0)?;
        let number = AtomicU64::new(0);
        open(&rt, &domain, &mut task);
        let own = Adds {
            number: &number,
            own: 0,
        };
        let its = Adds {
            number: &number,
            own: 1,
        };
        let (_task, [one, two]) = two_meet(&rt, &domain, task, (own, its));
        let exact = number.load(Ordering::SeqCst) == LAST;
        all_so(&[one, two, exact])?;
    }
    Ok(())
}
