//! Calls that begin: each is tested, and goes on by `CheckedTask::advance`.

ghost use Rattle.std.specs.Prelude.{◌≡◌, true, false, IfErr, IfOk, None, Some};
ghost use Rattle.wq_checked.specs.{Calls.IsRunningSound, Kept.IsReadyWith};
ghost use Rattle.wq_checked.specs.Begins.{BeginsCall, HasJustBegun, is_short, is_unlisted, numbers_fit, keeping_reason};
ghost use Rattle.wq_checked.specs.Begins.{publishes_first, refusal_to};

use crate::admission::refusal_by;
use crate::at_once::do_at_once;
use crate::calls::{Call, Progress, Running};
use crate::kept_bits::KeptBits;
use crate::reasons::Refused;
use crate::tasks::CheckedTask;
use crate::wakings::{look, wake_of};
use bit_wait::lock_calls::begin_lock;
use bit_wait::lock_waits::LockTest;
use bit_wait::wait_calls::begin_bit;
use bit_wait::waits::BitTest;
use completion_cell::await_calls::begin_await;
use completion_cell::awaits::AwaitStage;
use completion_cell::cell_turns::{CellRun, CellStage};
use page_lock::wait_calls::begin_page;
use page_lock::waits::PageStage;
use swait_queue::begin_swait;
use swait_queue::swake_turns::{SwakeRun, SwakeStage};
use var_wait::begin_var;
use wait_class::frame_stages::Stage;
use wait_class::stages::Turn;
use wait_event::wait_events::begin_wait;
use wait_event::waits::WaitStage;
use wait_model::watches::{Mode, Watch};
use wait_rule::bits::bit_clear;
use wait_rule::queues::publish;
use wait_rule::{Domain, Task};

/// A call that publishes nothing and is not over at once, before its first stretch.
fn first_of(task: &Task, kept: &KeptBits, call: Call) -> Running
    requires ready { IsReadyWith kept.now task.now }
    requires within { numbers_fit call ≡ true }
    requires listed { is_unlisted call ≡ false }
    requires silent { publishes_first call ≡ false }
    requires long { is_short call ≡ false }
    ensures sound { IsRunningSound result kept.now task.now }
    ensures begun { HasJustBegun call task.now result }
{
    let _ = kept;
    match call {
        Call::Wait { cond, how } => {
            let run = begin_wait(task, cond, how);
            Running::Event(run, Turn::Again(WaitStage::First))
        }
        Call::SimpleWait { cond, state } => {
            let run = begin_swait(task, cond, state);
            Running::Event(run, Turn::Again(WaitStage::First))
        }
        Call::WaitVar { var, old, state } => {
            let run = begin_var(task, var, old, state);
            Running::Event(run, Turn::Again(WaitStage::First))
        }
        Call::WaitBit { word, bit, state } => {
            let run = begin_bit(task, word, bit, state);
            Running::Bit(run, Turn::Again(Stage::Test(BitTest::First)))
        }
        Call::LockBit { word, bit, state } => {
            let run = begin_lock(task, word, bit, state);
            Running::Lock(run, Turn::Again(Stage::Test(LockTest::First)))
        }
        Call::LockPage { page, state } => {
            let run = begin_page(task, page, state);
            Running::Page(run, Turn::Again(PageStage::First))
        }
        Call::WaitFor { cell, state } => {
            let run = begin_await(task, cell, state);
            Running::Await(run, Turn::Again(AwaitStage::First))
        }
        Call::Cell { call, cell } => Running::Cell(CellRun::new(call, cell), CellStage::First),
        Call::SimpleWake { cond, all } => {
            let run = SwakeRun::new(cond, all);
            Running::Swake(run, SwakeStage::First)
        }
        Call::Wake { cond, mode, count } => wake_of(Watch::Plain { cond }, mode, count),
        _ => unreachable!(),
    }
}

/// A call that publishes nothing and is not over at once: it is under way, and nothing of the task has changed.
fn begin_silently(task: &Task, kept: &KeptBits, call: Call) -> (Running, Progress)
    requires ready { IsReadyWith kept.now task.now }
    requires within { numbers_fit call ≡ true }
    requires listed { is_unlisted call ≡ false }
    requires silent { publishes_first call ≡ false }
    requires long { is_short call ≡ false }
    ensures sound { IsRunningSound result.0 kept.now task.now }
    ensures begun { BeginsCall call task.now task.now kept.now result.1 result.0 }
{
    (first_of(task, kept, call), Progress::Again)
}

/// A call that may begin: it publishes what it is to publish, and is under way, or is over.
fn begin_call(
    domain: &Domain,
    task: &mut Task,
    kept: &mut KeptBits,
    call: Call,
) -> (Running, Progress)
    requires of { task.old.domain ≡ domain.now }
    requires ready { IsReadyWith kept.old task.old }
    requires within { numbers_fit call ≡ true }
    requires listed { is_unlisted call ≡ false }
    requires keeps { keeping_reason call kept.old ≡ None }
    ensures of { task.new.domain ≡ domain.now }
    ensures sound { IsRunningSound result.0 kept.new task.new }
    ensures begun { BeginsCall call task.old task.new kept.new result.1 result.0 }
{
    match call {
        Call::SetAndWake { cond, value, count } => {
            publish(domain, task, Watch::Plain { cond }, value);
            (
                wake_of(Watch::Plain { cond }, Mode::Normal, count),
                Progress::Again,
            )
        }
        Call::SetAndSimpleWake { cond, value, all } => {
            publish(domain, task, Watch::Plain { cond }, value);
            let run = SwakeRun::new(cond, all);
            (Running::Swake(run, SwakeStage::First), Progress::Again)
        }
        Call::SetVar { var, value } => {
            let watch = Watch::Var { var, old: 0 };
            publish(domain, task, watch, value);
            look(domain, task, kept, watch)
        }
        Call::ClearBit { word, bit } => {
            bit_clear(domain, task, word, bit);
            kept.take(word, bit);
            look(domain, task, kept, Watch::Bit { word, bit })
        }
        Call::TryBit { .. }
        | Call::AddTally { .. }
        | Call::Take { .. }
        | Call::Signal { .. }
        | Call::Kick { .. }
        | Call::Accept => do_at_once(domain, task, kept, call),
        _ => begin_silently(task, kept, call),
    }
}

impl CheckedTask {
    /// Why a call may not begin: the first reason that holds, in the order of `Refused`, and None where it may.
    pub fn refusal_to(&self, call: Call) -> Option<Refused>
        ensures { result ≡ refusal_to call self.now }
    {
        refusal_by(call, &self.running, &self.kept)
    }

    /// Begins a call, or refuses it by the first reason that holds. Again: it is under way, and goes on by `advance`.
    /// Done: it is over already. Starved: all tries of the wake of a signal or a kick failed, as in no run.
    pub fn begin(&mut self, call: Call) -> Result<Progress, Refused>
        ensures refused { IfErr result (λ e. refusal_to call self.old ≡ Some e) }
        ensures same { IfErr result (λ _. self.new ≡ self.old) }
        ensures may { IfOk result (λ _. refusal_to call self.old ≡ None) }
        ensures begun { IfOk result (λ told. BeginsCall call self.old.task self.new.task self.new.kept told
            self.new.running) }
    {
        match refusal_by(call, &self.running, &self.kept) {
            Some(reason) => Err(reason),
            None => {
                let domain = &self.domain;
                let (next, told) = begin_call(domain, &mut self.task, &mut self.kept, call);
                self.running = next;
                Ok(told)
            }
        }
    }
}
