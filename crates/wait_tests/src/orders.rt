//! Two waits and a waker on one thread, which goes on with one of them at a time, in an order that a number draws: what
//! an executor does.

ghost use Rattle.std.specs.Prelude.{◌≡◌, false};
ghost use Rattle.wait_class.specs.Tables.{IsAt};
ghost use Rattle.wait_event.specs.Waits.{wait_table};
ghost use Rattle.wait_event.specs.declared.waits.WaitStage.TheVariants as stage;
ghost use Rattle.wait_model.specs.Tasks.{is_killable};
ghost use Rattle.wait_rule.specs.Says.{IsClean, RestsIn};
ghost use Rattle.wait_tests.specs.TurnTasks.{TurnsIn};

use crate::completions::calls::{complete, try_wait};
use crate::completions::threads::CELL;
use crate::events::stretches::is_over;
use crate::events::threads::set;
use crate::simple_queues::threads::{COND, swake_all_or_two};
use crate::turns::go_on;
use crate::variables::alone::{VAR, announce};
use crate::variables::stretches::{VALUE, has_found};
use completion_cell::await_calls::begin_await;
use completion_cell::awaits::{AwaitOutcome, AwaitStage};
use std::alloc::Global;
use std::sync::Wait;
use std::test::Fail;
use swait_queue::waits::begin_swait;
use test_tasks::draws::next_number;
use test_tasks::wants::all_so;
use var_wait::waits::begin_var;
use wait_class::machines::Machine;
use wait_class::stages::{Run, Turn};
use wait_event::wait_events::begin_wait;
use wait_event::waits::{WaitRun, WaitStage, WaitTurn};
use wait_model::tasks::{How, SleepState};
use wait_rule::{Domain, Task};

/// How many orders are tried.
const ORDERS: u32 = 400;

/// How many turns an order has at most: each wait has fewer than 30 stretches, and two of five turns go to each.
const TURNS: u32 = 600;

/// What the waker does.
#[derive(Clone, Copy)]
pub(crate) enum Wakes {
    /// It sets the condition of the tests of events, and wakes all.
    Event,
    /// It sets that of the tests of simple queues, and wakes all or two.
    Queue { all: bool },
    /// It publishes the variable of the tests.
    Variable,
    /// It completes the completion of the tests, in each of two turns.
    Cell,
}

/// The waker's call.
fn wake<R: Wait>(rt: &R, domain: &Domain, waker: &mut Task, wakes: Wakes)
    requires rests { RestsIn domain.now waker.old }
    ensures rests { RestsIn domain.now waker.new }
{
    match wakes {
        Wakes::Event => {
            set(rt, domain, waker, 0);
        }
        Wakes::Queue { all } => {
            swake_all_or_two(rt, domain, waker, all);
        }
        Wakes::Variable => {
            announce(rt, domain, waker, VALUE);
        }
        Wakes::Cell => complete(rt, domain, waker, CELL),
    }
}

/// The waker's turn: it makes a call where it is to, and one is left to be made. How many are left then.
fn wake_if<R: Wait>(
    rt: &R,
    domain: &Domain,
    waker: &mut Task,
    wakes: Wakes,
    is_to: bool,
    left: u32,
) -> u32
    requires rests { RestsIn domain.now waker.old }
    ensures rests { RestsIn domain.now waker.new }
{
    if is_to && left > 0 {
        wake(rt, domain, waker, wakes);
        return left - 1;
    }
    left
}

/// How the two waits of a simple queue wait.
fn state_of(first: bool) -> SleepState
    ensures { is_killable result ≡ false }
{
    if first {
        SleepState::Interruptible
    } else {
        SleepState::Uninterruptible
    }
}

/// The first wait begins, or the second one, for what the waker wakes.
fn begin(task: &Task, wakes: Wakes, first: bool) -> WaitRun
    requires clean { IsClean task.now }
    ensures { IsAt wait_table task.now result stage.First }
{
    match wakes {
        Wakes::Queue { .. } => begin_swait(task, COND, state_of(first)),
        Wakes::Variable => begin_var(task, VAR, 0, state_of(first)),
        _ => {
            let how = How {
                state: SleepState::Interruptible,
                exclusive: false,
            };
            begin_wait(task, 0, how)
        }
    }
}

/// Whether a wait is over with its condition set, or has found the new value.
fn ends(wakes: Wakes, run: WaitRun, last: WaitTurn) -> bool {
    match wakes {
        Wakes::Variable => has_found(run, last),
        _ => is_over(last),
    }
}

/// Plays one order: whether both waits are over then, and no stretch is left.
fn play<R: Wait>(
    rt: &R,
    domain: &Domain,
    waker: &mut Task,
    wakes: Wakes,
    first: &mut Task,
    second: &mut Task,
    seed: u32,
) -> bool
    requires rest { RestsIn domain.now waker.old × RestsIn domain.now first.old × RestsIn domain.now second.old }
{
    let begins = (Turn::Again(WaitStage::First), Turn::Again(WaitStage::First));
    let mut one = begin(first, wakes, true);
    let mut two = begin(second, wakes, false);
    let last = play_two(
        rt, domain, waker, wakes, first, &mut one, second, &mut two, begins, seed,
    );
    ends(wakes, one, last.0) && ends(wakes, two, last.1)
}

/// Plays one order of two waits for a completion: whether each has taken one then, and nothing is left of what was
/// completed twice.
fn play_cells<R: Wait>(
    rt: &R,
    domain: &Domain,
    waker: &mut Task,
    first: &mut Task,
    second: &mut Task,
    seed: u32,
) -> bool
    requires rest { RestsIn domain.now waker.old × RestsIn domain.now first.old × RestsIn domain.now second.old }
{
    let begins = (
        Turn::Again(AwaitStage::First),
        Turn::Again(AwaitStage::First),
    );
    let mut one = begin_await(first, CELL, SleepState::Interruptible);
    let mut two = begin_await(second, CELL, SleepState::Uninterruptible);
    let wakes = Wakes::Cell;
    let last = play_two(
        rt, domain, waker, wakes, first, &mut one, second, &mut two, begins, seed,
    );
    let rest = try_wait(rt, domain, waker, CELL);
    let first = matches!(last.0, Turn::Done(AwaitOutcome::Over));
    let second = matches!(last.1, Turn::Done(AwaitOutcome::Over));
    first && second && last.2 == 0 && !rest
}

/// What the waker does in an order: of a simple queue it wakes all in each second one.
fn in_order(wakes: Wakes, order: u32) -> Wakes {
    match wakes {
        Wakes::Queue { .. } => Wakes::Queue {
            all: order % 2 == 1,
        },
        _ => wakes,
    }
}

/// Plays each order in a Domain of its own: both waits end.
pub(crate) fn play_each<R: Wait>(rt: &R, alloc: Global, wakes: Wakes) -> Result<(), Fail> {
    for order in 0..ORDERS {
        let (domain, mut waker) = Domain::new(alloc)?;
        let mut first = waker.fork(&domain, 0)?;
        let mut second = waker.fork(&domain, 0)?;
        let (wakes, seed) = (in_order(wakes, order), order + 1);
        let well = match wakes {
            Wakes::Cell => play_cells(rt, &domain, &mut waker, &mut first, &mut second, seed),
            _ => play(
                rt,
                &domain,
                &mut waker,
                wakes,
                &mut first,
                &mut second,
                seed,
            ),
        };
        all_so(&[well])?;
    }
    Ok(())
}

/// Plays one order, of two waits that have just begun: where they stand then, and how many calls the waker has not made.
fn play_two<R: Wait, C: Machine>(
    rt: &R,
    domain: &Domain,
    waker: &mut Task,
    wakes: Wakes,
    first: &mut Task,
    one: &mut Run<C>,
    second: &mut Task,
    two: &mut Run<C>,
    begins: (Turn<C::Stage, C::Outcome>, Turn<C::Stage, C::Outcome>),
    seed: u32,
) -> (Turn<C::Stage, C::Outcome>, Turn<C::Stage, C::Outcome>, u32)
    requires rests { RestsIn domain.now waker.old }
    requires one { TurnsIn domain.now C.table first.old one.old begins.0 }
    requires two { TurnsIn domain.now C.table second.old two.old begins.1 }
    ensures rests { RestsIn domain.now waker.new }
{
    let (mut one_at, mut two_at) = begins;
    let mut seed = seed;
    let mut left = match wakes {
        Wakes::Cell => 2,
        _ => 1,
    };
    for _ in 0..TURNS {
        seed = next_number(seed);
        match seed % 5 {
            0 | 1 => one_at = go_on(domain, first, one, one_at),
            2 | 3 => two_at = go_on(domain, second, two, two_at),
            _ => left = wake_if(rt, domain, waker, wakes, seed % 64 < 8, left),
        }
    }
    (one_at, two_at, left)
}
