//! Two polls and a setter on one thread, which goes on with one of them at a time, in an order that a number draws: what
//! an executor does.

ghost use Rattle.std.specs.Prelude.{◌≡◌};
ghost use Rattle.wait_rule.specs.Says.{IsClean, RestsIn};
ghost use Rattle.poll_wait.specs.Polls.{IsPoll};
ghost use Rattle.poll_turns.specs.PollTurns.{IsPollUnderWay};

use crate::calls::{sets, stores};
use crate::turns::go_on;
use poll_turns::{Poll, PollTurn, PollUntil, begin_poll};
use poll_wait::Ready;
use std::sync::Wait;
use std::test::Fail;
use test_tasks::draws::next_number;
use test_tasks::wants::all_so;
use wait_class::stages::Turn;
use wait_model::tasks::SleepState;
use wait_model::watches::Watch;
use wait_rule::{Domain, Task};

/// How many turns an order has at most: each poll has fewer than 40 stretches, and two of five turns go to each.
const TURNS: u32 = 800;

/// How many orders are drawn.
const ORDERS: u32 = 300;

/// The setter's turn: it sets the condition or stores the variable, where it has not done so yet. Whether it has then.
fn set_if<R: Wait>(
    rt: &R,
    domain: &Domain,
    setter: &mut Task,
    variable: bool,
    is_to: bool,
    done: bool,
) -> bool
    requires rests { RestsIn domain.now setter.old }
    ensures rests { RestsIn domain.now setter.new }
{
    if !is_to || done {
        return done;
    }
    if variable {
        stores(rt, domain, setter, 20, 5);
    } else {
        sets(rt, domain, setter, 3, 7);
    }
    true
}

/// One turn of an order, as the number says: the first poll goes on, or the second, or the setter sets. Where both stand
/// then, and whether something was set.
fn play_turn<R: Wait>(
    rt: &R,
    domain: &Domain,
    setter: &mut Task,
    first: &mut Task,
    first_poll: Poll,
    second: &mut Task,
    second_poll: Poll,
    at: (PollTurn, PollTurn, bool),
    seed: u32,
) -> (PollTurn, PollTurn, bool)
    requires of { (setter.old.domain ≡ domain.now) × ((first.old.domain ≡ domain.now)
        × (second.old.domain ≡ domain.now)) }
    requires setter { IsClean setter.old }
    requires first_poll { IsPoll first_poll }
    requires second_poll { IsPoll second_poll }
    requires one { IsPollUnderWay first_poll first.old at.0 }
    requires two { IsPollUnderWay second_poll second.old at.1 }
    ensures of { (setter.new.domain ≡ domain.now) × ((first.new.domain ≡ domain.now)
        × (second.new.domain ≡ domain.now)) }
    ensures setter { IsClean setter.new }
    ensures one { IsPollUnderWay first_poll first.new result.0 }
    ensures two { IsPollUnderWay second_poll second.new result.1 }
{
    if seed % 5 < 2 {
        let one = go_on(domain, first, first_poll, at.0, false);
        return (one, at.1, at.2);
    }
    if seed % 5 < 4 {
        let two = go_on(domain, second, second_poll, at.1, false);
        return (at.0, two, at.2);
    }
    let set = set_if(rt, domain, setter, seed % 2 == 0, seed % 64 < 8, at.2);
    (at.0, at.1, set)
}

/// Plays one order, of two polls that have just begun: where they stand then.
fn play_two<R: Wait>(
    rt: &R,
    domain: &Domain,
    setter: &mut Task,
    first: &mut Task,
    first_poll: Poll,
    one: PollTurn,
    second: &mut Task,
    second_poll: Poll,
    two: PollTurn,
    seed: u32,
) -> (PollTurn, PollTurn)
    requires of { (setter.old.domain ≡ domain.now) × ((first.old.domain ≡ domain.now)
        × (second.old.domain ≡ domain.now)) }
    requires setter { IsClean setter.old }
    requires first_poll { IsPoll first_poll }
    requires second_poll { IsPoll second_poll }
    requires one { IsPollUnderWay first_poll first.old one }
    requires two { IsPollUnderWay second_poll second.old two }
{
    let mut at = (one, two, false);
    let mut seed = seed;
    for _ in 0..TURNS {
        seed = next_number(seed);
        at = play_turn(
            rt,
            domain,
            setter,
            first,
            first_poll,
            second,
            second_poll,
            at,
            seed,
        );
    }
    (at.0, at.1)
}

/// Whether it is over, and found the condition or the variable.
fn is_found(turn: PollTurn, variable_first: bool) -> bool {
    match turn {
        Turn::Done(PollUntil::Over(Ok(Ready::First { value }))) => {
            value == if variable_first { 5 } else { 7 }
        }
        Turn::Done(PollUntil::Over(Ok(Ready::Second { value }))) => {
            value == if variable_first { 7 } else { 5 }
        }
        _ => false,
    }
}

/// In each order both polls see the set, and each what was set.
#[test]
fn in_each_order_both_see_the_set(rt: HostRuntime) -> Result<(), Fail> {
    for order in 0..ORDERS {
        let (domain, mut setter) = Domain::with_looks(rt.alloc(), 0)?;
        let mut first = setter.fork(&domain, 0)?;
        let mut second = setter.fork(&domain, 0)?;
        let cond = Watch::Plain { cond: 3 };
        let var = Watch::Var { var: 20, old: 0 };
        let one = Poll {
            first: cond,
            second: var,
            state: SleepState::Uninterruptible,
        };
        let two = Poll {
            first: var,
            second: cond,
            state: SleepState::Interruptible,
        };
        let one_at = Turn::Again(begin_poll(&first, one));
        let two_at = Turn::Again(begin_poll(&second, two));
        let ends = play_two(
            &rt,
            &domain,
            &mut setter,
            &mut first,
            one,
            one_at,
            &mut second,
            two,
            two_at,
            order + 1,
        );
        all_so(&[is_found(ends.0, false), is_found(ends.1, true)])?;
    }
    Ok(())
}
