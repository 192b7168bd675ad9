//! A signal that races with a wake, in threads of their own, again and again, in Domains whose tasks park at once when
//! they are put asleep.

ghost use Rattle.wait_rule.specs.Says.{RestsIn};

use crate::calls::{sleep, wake_soon};
use futex_table::futex_wake;
use std::sync::Wait;
use std::sync::atomic::{AtomicU64, Ordering};
use std::test::Fail;
use test_tasks::late::signal_late;
use test_tasks::meetings::{Part, four_meet};
use test_tasks::wants::all_so;
use wait_model::tasks::SleepState;
use wait_rule::{Domain, Task};

/// How many rounds the test makes.
const ROUNDS: u32 = 300;

/// The futex, whose word is 0 throughout.
const FUTEX: u8 = 5;

/// What a task does in a round.
#[derive(Clone, Copy)]
enum Racing<'a> {
    /// It wakes one who sleeps on the futex, as soon as somebody does.
    Wakes,
    /// It sends a signal to the task of this number, after so many yields.
    Signals { who: u8, late: u32 },
    /// It sleeps until a wake or a signal comes, and counts the wakes: a wake that it got it passes on.
    Passes(&'a AtomicU64),
    /// It sleeps until a wake comes.
    Sleeps(&'a AtomicU64),
}

impl Part for Racing<'_> {
    fn play<R: Wait>(self, rt: &R, domain: &Domain, task: &mut Task) -> bool {
        match self {
            Racing::Wakes => wake_soon(rt, domain, task),
            Racing::Signals { who, late } => signal_late(rt, domain, task, who, late),
            Racing::Passes(wakes) => pass_on(rt, domain, task, wakes),
            Racing::Sleeps(wakes) => sleep(rt, domain, task, SleepState::Uninterruptible, wakes),
        }
    }
}

/// Sleeps until a wake or a signal comes, and passes a wake on.
fn pass_on<R: Wait>(rt: &R, domain: &Domain, task: &mut Task, wakes: &AtomicU64) -> bool
    requires rests { RestsIn domain.now task.old }
    ensures rests { RestsIn domain.now task.new }
{
    if sleep(rt, domain, task, SleepState::Interruptible, wakes) {
        return wake_soon(rt, domain, task);
    }
    true
}

/// Whichever comes first, the wake ends one of the two sleeps: where the signal ended the first, it is the second; and
/// where it was the first, that passes it on. Nobody sleeps then.
#[test]
fn signal_races_with_a_wake(rt: HostRuntime) -> Result<(), Fail> {
    for round in 0..ROUNDS {
        let (domain, task) = Domain::with_looks(rt.alloc(), 0)?;
        let wakes = AtomicU64::new(0);
        let passes = Racing::Passes(&wakes);
        let sleeps = Racing::Sleeps(&wakes);
        let signals = Racing::Signals {
            who: 1,
            late: round % 30,
        };
        let own = (Racing::Wakes, passes);
        let (mut task, [one, two, three, four]) = four_meet(
            &rt,
            &domain,
            task,
            own,
            (sleeps, signals),
        );
        let nobody = futex_wake(&rt, &domain, &mut task, FUTEX, 8) == 0;
        let some = wakes.load(Ordering::SeqCst) >= 1;
        all_so(&[one, two, three, four, nobody, some])?;
    }
    Ok(())
}
