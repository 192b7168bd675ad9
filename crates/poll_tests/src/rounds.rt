//! A task that waits for two conditions, and others that set one each, in threads of their own, again and again, in
//! Domains whose tasks park at once when they are put asleep.

ghost use Rattle.std.specs.Prelude.{◌<◌};
ghost use Rattle.wait_rule.specs.Says.{RestsIn};

use crate::calls::{polls, sets, stores};
use poll_wait::{PollEnd, Ready};
use std::sync::Wait;
use std::test::Fail;
use test_tasks::late::{signal_late, yield_often};
use test_tasks::meetings::{Part, four_meet};
use test_tasks::wants::all_so;
use wait_model::tasks::SleepState;
use wait_model::watches::Watch;
use wait_rule::{Domain, Task};

/// How many rounds each test makes.
const ROUNDS: u32 = 300;

/// The condition and the variable of the tests.
const COND: u8 = 3;

const VAR: u8 = 20;

/// What a task does in a round.
#[derive(Clone, Copy)]
pub(crate) enum Plays {
    /// It waits for the condition or the variable, and then for the other one.
    SeesBoth,
    /// It waits for either, unless a signal ends that.
    SeesUnlessSignalled,
    /// It sets the condition.
    Sets { late: u32 },
    /// It stores the variable.
    Stores { late: u32 },
    /// It sends a plain signal.
    Signals { who: u8, late: u32 },
    /// It waits for the condition and another variable, at the heads of which the others wait too.
    Stranger,
}

impl Part for Plays {
    fn play<R: Wait>(self, rt: &R, domain: &Domain, task: &mut Task) -> bool {
        match self {
            Plays::SeesBoth => see_both(rt, domain, task),
            Plays::SeesUnlessSignalled => see_unless_signalled(rt, domain, task),
            Plays::Sets { late } => {
                yield_often(late);
                sets(rt, domain, task, COND, 7);
                true
            }
            Plays::Stores { late } => {
                yield_often(late);
                stores(rt, domain, task, VAR, 5);
                true
            }
            Plays::Signals { who, late } => signal_late(rt, domain, task, who, late),
            Plays::Stranger => stranger(rt, domain, task),
        }
    }
}

/// Waits for either, and then for the other one beside a variable that nobody stores.
fn see_both<R: Wait>(rt: &R, domain: &Domain, task: &mut Task) -> bool
    requires rests { RestsIn domain.now task.old }
    ensures rests { RestsIn domain.now task.new }
{
    let cond = Watch::Plain { cond: COND };
    let var = Watch::Var { var: VAR, old: 0 };
    let idle = Watch::Var { var: 30, old: 0 };
    let state = SleepState::Uninterruptible;
    match polls(rt, domain, task, cond, var, state) {
        Ok(Ready::First { value: 7 }) => matches!(
            polls(rt, domain, task, idle, var, state),
            Ok(Ready::Second { value: 5 })
        ),
        Ok(Ready::Second { value: 5 }) => matches!(
            polls(rt, domain, task, cond, idle, state),
            Ok(Ready::First { value: 7 })
        ),
        _ => false,
    }
}

/// Waits for either, unless a signal ends that.
fn see_unless_signalled<R: Wait>(rt: &R, domain: &Domain, task: &mut Task) -> bool
    requires rests { RestsIn domain.now task.old }
    ensures rests { RestsIn domain.now task.new }
{
    let cond = Watch::Plain { cond: COND };
    let var = Watch::Var { var: VAR, old: 0 };
    match polls(rt, domain, task, var, cond, SleepState::Interruptible) {
        Ok(Ready::First { value }) => value == 5,
        Ok(Ready::Second { value }) => value == 7,
        Err(PollEnd::Signal { first, second }) => first == 0 && second == 0,
        Err(PollEnd::Worn { .. }) => false,
    }
}

/// Waits for the condition beside another variable of the same table.
fn stranger<R: Wait>(rt: &R, domain: &Domain, task: &mut Task) -> bool
    requires rests { RestsIn domain.now task.old }
    ensures rests { RestsIn domain.now task.new }
{
    let cond = Watch::Plain { cond: COND };
    let other = Watch::Plain { cond: 4 };
    matches!(
        polls(rt, domain, task, other, cond, SleepState::Killable),
        Ok(Ready::Second { value: 7 })
    )
}

/// Each of the two sets is seen, whenever it comes, and a stranger at one of the heads sees it too.
#[test]
fn each_set_is_seen(rt: HostRuntime) -> Result<(), Fail> {
    for round in 0..ROUNDS {
        let (domain, task) = Domain::with_looks(rt.alloc(), 0)?;
        let sets = Plays::Sets { late: round % 7 };
        let stores = Plays::Stores {
            late: (round / 7) % 7,
        };
        let others = (Plays::SeesBoth, Plays::Stranger);
        let (_task, went) = four_meet(&rt, &domain, task, (sets, stores), others);
        all_so(&went)?;
    }
    Ok(())
}

/// A signal at each moment beside two sets ends the poll only where it finds neither.
#[test]
fn signal_ends_it_only_where_neither_is_set(rt: HostRuntime) -> Result<(), Fail> {
    for round in 0..ROUNDS {
        let (domain, task) = Domain::with_looks(rt.alloc(), 0)?;
        let signals = Plays::Signals {
            who: 2,
            late: round % 5,
        };
        let sets = Plays::Sets {
            late: (round / 5) % 5,
        };
        let stores = Plays::Stores {
            late: (round / 25) % 5,
        };
        let others = (Plays::SeesUnlessSignalled, stores);
        let (_task, went) = four_meet(&rt, &domain, task, (signals, sets), others);
        all_so(&went)?;
    }
    Ok(())
}
