//! A thread's task, with what holds of it between any two of its calls.

ghost use Rattle.std.specs.Prelude.{◌≡◌, ◌<◌, IfErr, IfOk};
ghost use Rattle.wait_model.specs.{declared.layout.TheConstants.FIRST_SIMPLE, declared.queues.Walked.Walked};
ghost use Rattle.wait_model.specs.declared.watches.Mode.TheVariants as mode;
ghost use Rattle.wait_rule.specs.{Known.Known, Says.IsClean, Says.RestsIn};
ghost use Rattle.wait_event.specs.Conds.{HasSet, HasTakenCond};
ghost use Rattle.examples_threads.specs.Causes.{WaitEnded};

use std::sync::Wait;
use wait_event::{WaitEnd, set_and_wake, take_cond, wait_event};
use wait_model::tasks::How;
use wait_model::watches::Mode;
use wait_rule::{Domain, Task};

/// A task of a Domain that owes nothing: it is awake, holds no lock, has no entry queued, and has made each wake that
/// its stores ask for. So a function that is given a worker and gives it back can't forget a wake.
#[derive(Drop)]
pub struct Worker<'d> {
    pub(crate) domain: &'d Domain,
    pub(crate) task: Task,
    ghost of: { task.domain ≡ domain.now },
    ghost clean: { IsClean task },
}

impl<'d> Worker<'d> {
    /// Makes a task of this Domain a worker.
    pub fn new(domain: &'d Domain, task: Task) -> Worker<'d>
        requires rests { RestsIn domain.now task }
    {
        Worker { domain, task }
    }

    /// Waits until condition `cond`, below `FIRST_SIMPLE`, is set, and takes its value, which is not 0. Of several who
    /// take one condition another may be faster; then it waits again. Err Signal comes where a signal ended the last
    /// wait, and Err Worn where the head had no place left: as `wait_event` says.
    pub fn claim<R: Wait>(&mut self, rt: &R, cond: u8, how: How) -> Result<u64, WaitEnd>
        requires cond { cond < FIRST_SIMPLE }
        ensures some { IfOk result (λ value. 0 < value) }
        ensures took { IfOk result (λ value. (k : Known) × HasTakenCond k self.new.task cond value) }
        ensures ended { IfErr result (WaitEnded self.new.task cond how) }
    {
        for _ in rt.forever() {
            wait_event(rt, self.domain, &mut self.task, cond, how)?;
            let value = take_cond(self.domain, &mut self.task, cond);
            if value > 0 {
                return Ok(value);
            }
        }
        unreachable!()
    }

    /// Sets condition `cond`, below `FIRST_SIMPLE`, to a value, and wakes those who wait for it: with a count of 0 all
    /// of them, and with another one at most as many of those who are exclusive. Answers how many it woke.
    pub fn set<R: Wait>(&mut self, rt: &R, cond: u8, value: u64, count: u32) -> u32
        requires cond { cond < FIRST_SIMPLE }
        ensures { (walked : Walked) × HasSet self.old.task self.new.task cond value mode.Normal count walked
            × (result ≡ walked.woken) }
    {
        let task = &mut self.task;
        set_and_wake(rt, self.domain, task, cond, value, Mode::Normal, count).woken
    }
}
