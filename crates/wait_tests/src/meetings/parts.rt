//! The parts that tasks play.

ghost use Rattle.wait_rule.specs.Says.{RestsIn};

use crate::bits::lock_threads::take_turns;
use crate::bits::tallies;
use crate::completions::calls::takes;
use crate::completions::leave_threads::{complete_late, take_until};
use crate::completions::threads::{CELL, complete_thrice};
use crate::events::flags::hear_until_set;
use crate::events::parts::{see_by_turns, wait_by_turns};
use crate::events::selected::wait_exclusive;
use crate::events::threads::set;
use crate::leaves::holders::{bit_turn, bit_until, page_turn, page_until, sees_clear};
use crate::leaves::pool::{open, post_all, work};
use crate::leaves::threads::{Left, leave, passes_on, take_it};
use crate::meetings::Shared;
use crate::meetings::shares::Late;
use crate::pages::threads::add_often;
use crate::signals::get_signal;
use crate::signals::threads::{lock_in_vain, wake_then_signal};
use crate::simple_queues::threads::swake_all_or_two;
use crate::variables::threads::{announce_twice, wait_twice};
use std::alloc::AllocError;
use std::sync::Wait;
use test_tasks::late::{ask_late, signal_late, yield_often};
use test_tasks::meetings;
use wait_model::tasks::SleepState;
use wait_rule::{Domain, Task};
use wq_user::events::wait_for_zero;
use wq_user::simple::swait;

/// What a task does, which owes nothing before it and after it.
#[derive(Copy)]
pub(crate) enum Part {
    /// It plays none.
    Rests,
    /// It sets condition 0, so late, and wakes all, or so many exclusive waiters.
    Sets { late: Late, count: u32 },
    /// It waits for condition 0, which is set.
    Waits,
    /// It waits for it by parts.
    WaitsByTurns,
    /// It waits exclusively, until the condition is set or a signal ends the wait.
    WaitsExclusively,
    /// It sends a plain signal.
    Signals { who: u8 },
    /// A plain signal is sent to it by a new task.
    GetsSignal,
    /// It waits for condition 0 by the flag of an entry.
    Hears,
    /// It waits killable for condition 0, which is set, or a signal ends it.
    WaitsKillable { is_set: bool },
    /// It sends a signal once a wake has met the task in mid-wait.
    WakesThenSignals { who: u8, fatal: bool },
    /// It waits for the page of the tests of signals, and a signal ends the wait.
    LocksInVain,
    /// It sets the condition of the tests of simple queues, and wakes all, or the first two one after the other.
    Swakes { all: bool },
    /// It waits for it.
    Swaits,
    /// It completes the completion of the tests three times.
    CompletesThrice,
    /// It completes it once, so late.
    Completes { late: Late },
    /// It waits for that, and takes one.
    TakesOne,
    /// So too, but leaves once it is asked: what it took it gives to the other one, and counts it.
    TakesUntil,
    /// It publishes two values of the variable of the tests.
    AnnouncesTwice,
    /// It waits for one after the other.
    WaitsTwice,
    /// It does so by parts.
    SeesByTurns,
    /// It takes the bit of the tests and gives it back, twice.
    TakesTurns,
    /// It takes the page of the tests, adds 1 to its tally, and gives it back, so often.
    AddsToPage { times: u64 },
    /// It adds this to the tally of a page, again and again, as soon as the page's bit is clear.
    AddsAmount { amount: u64 },
    /// It asks the task of this number to leave, so late, and wakes it.
    Asks { who: u8, late: Late },
    /// It waits for condition 0, and leaves once it is asked: where it has the condition, it passes it on.
    LeavesOrPasses,
    /// It waits for it until it has it.
    TakesIt,
    /// It waits for what nobody sets, and leaves once it is asked.
    Leaves(Left),
    /// It waits for the page or the bit of the tests until it has it, keeps it for a yield, and gives it back.
    HoldsPage,
    HoldsBit,
    /// So too, but it leaves once it is asked.
    HoldsPageUntil,
    HoldsBitUntil,
    /// It waits until the bit is clear, and does not take it.
    SeesBitUntil,
    /// It makes room for a job of the pool.
    OpensPool,
    /// It posts the jobs, and asks the workers 1 to 3 to leave, so late.
    PostsJobs { late: Late },
    /// It does jobs until it is asked to leave.
    DoesJobs,
}

impl Clone for Part {
    fn clone(&self) -> Result<Part, AllocError> {
        Ok(*self)
    }
}

impl Part {
    /// Whether it went as the part says.
    pub fn play<R: Wait>(self, rt: &R, domain: &Domain, task: &mut Task, shared: &Shared) -> bool
        requires rests { RestsIn domain.now task.old }
        ensures rests { RestsIn domain.now task.new }
    {
        let round = shared.round;
        match self {
            Part::Rests => true,
            Part::Sets { late, count } => {
                yield_often(late.yields(round));
                set(rt, domain, task, count);
                true
            }
            Part::Waits => wait_for_zero(rt, domain, task, SleepState::Uninterruptible),
            Part::WaitsByTurns => wait_by_turns(rt, domain, task),
            Part::WaitsExclusively => wait_exclusive(rt, domain, task),
            Part::Signals { who } => signal_late(rt, domain, task, who, 0),
            Part::GetsSignal => get_signal(rt, domain, task),
            Part::Hears => hear_until_set(rt, domain, task),
            Part::WaitsKillable { is_set } => {
                wait_for_zero(rt, domain, task, SleepState::Killable) == is_set
            }
            Part::WakesThenSignals { who, fatal } => wake_then_signal(rt, domain, task, who, fatal),
            Part::LocksInVain => lock_in_vain(rt, domain, task),
            Part::Swakes { all } => swake_all_or_two(rt, domain, task, all),
            Part::Swaits => swait(rt, domain, task),
            Part::CompletesThrice => complete_thrice(rt, domain, task),
            Part::Completes { late } => complete_late(rt, domain, task, late.yields(round)),
            Part::TakesOne => takes(rt, domain, task, CELL, SleepState::Uninterruptible),
            Part::TakesUntil => take_until(rt, domain, task, shared),
            Part::AnnouncesTwice => announce_twice(rt, domain, task),
            Part::WaitsTwice => wait_twice(rt, domain, task),
            Part::SeesByTurns => see_by_turns(rt, domain, task),
            Part::TakesTurns => take_turns(rt, domain, task),
            Part::AddsToPage { times } => add_often(rt, domain, task, times),
            Part::AddsAmount { amount } => tallies::add_often(rt, domain, task, amount),
            Part::Asks { who, late } => {
                ask_late(rt, domain, task, &shared.flag, who, late.yields(round))
            }
            Part::LeavesOrPasses => passes_on(rt, domain, task, shared),
            Part::TakesIt => take_it(rt, domain, task),
            Part::Leaves(left) => leave(rt, domain, task, shared, left),
            Part::HoldsPage => page_turn(rt, domain, task, shared),
            Part::HoldsBit => bit_turn(rt, domain, task, shared),
            Part::HoldsPageUntil => page_until(rt, domain, task, shared),
            Part::HoldsBitUntil => bit_until(rt, domain, task, shared),
            Part::SeesBitUntil => sees_clear(rt, domain, task, shared),
            Part::OpensPool => open(rt, domain, task),
            Part::PostsJobs { late } => post_all(rt, domain, task, shared, late.yields(round)),
            Part::DoesJobs => work(rt, domain, task, shared),
        }
    }
}

/// A part that is played in a round.
#[derive(Drop)]
pub(crate) struct Played<'a> {
    pub part: Part,
    pub shared: &'a Shared,
}

impl meetings::Part for Played<'_> {
    fn play<R: Wait>(self, rt: &R, domain: &Domain, task: &mut Task) -> bool {
        self.part.play(rt, domain, task, self.shared)
    }
}
