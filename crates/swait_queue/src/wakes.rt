//! Wakes of simple queues: each selects the first entry, or all, in one hold.

ghost use Rattle.std.specs.Prelude.{◌≡◌, ◌<◌, ◌≤◌, ◌==◌, true, false};
ghost use Rattle.wait_model.specs.{declared.layout.TheConstants.FIRST_SIMPLE_HEAD, Words.flag};
ghost use Rattle.wait_model.specs.declared.watches.Mode.TheVariants as mode;
ghost use Rattle.wait_model.specs.declared.watches.Watch.TheVariants as watch;
ghost use Rattle.wait_rule.specs.{Queues.IsIdle, Queues.MayRise, Says.IsUp};
ghost use Rattle.wait_rule.specs.Stays.{Carries, only_looks, wake_all_change};
ghost use Rattle.wq_head.specs.{Holds.IsHolding, Selects.HasSelected, Selects.IsSimpleHold};
ghost use Rattle.swait_queue.specs.{SimpleWaits.IsSimpleCond, SimpleWakes.EndsSimpleWake, SimpleWakes.OwesAtMost};
ghost use Rattle.swait_queue.specs.SwakeTurns.{IsSwakeOver};

use crate::swake_turns::{SwakeRun, SwakeStage, SwakeTurn, swake_stretch};
use std::hint::spin_loop;
use std::sync::Wait;
use wait_model::heads::head_of;
use wait_model::watches::Watch;
use wait_rule::queues::Passing;
use wait_rule::{Domain, Task};
use wq_head::locks::pause;
use wq_head::{Rousing, select};

/// Wakes the first task that waits in the simple queue of condition `cond`, from `FIRST_SIMPLE` on and below
/// `PLAIN_CONDITIONS` (kernel/sched/swait.c, `swake_up_one`): takes its entry off and wakes it with NORMAL, also where
/// it was awake. False comes exactly where the queue was empty in its hold. Afterwards the task owes no wake of the
/// condition, and of all else what it owed, whether it had set the condition or not: it leaves nobody asleep
/// (`laws::swake_one_loses_none`).
pub fn swake_one<R: Wait>(rt: &R, domain: &Domain, task: &mut Task, cond: u8) -> bool
    requires of { task.old.domain ≡ domain.now }
    requires up { IsUp task.old }
    requires idle { IsIdle task.old }
    requires simple { IsSimpleCond cond }
    ensures woken { EndsSimpleWake task.old task.new cond false (flag result) }
    ensures up { IsUp task.new }
    ensures idle { IsIdle task.new }
    ensures carries { Carries (wake_all_change (watch.Plain cond) mode.Normal task.new.at) task.old task.new }
    ensures owing { OwesAtMost task.old task.new }
{
    swake(rt, domain, task, cond, false) != 0
}

/// Wakes all tasks that wait in the simple queue of condition `cond`, from `FIRST_SIMPLE` on and below
/// `PLAIN_CONDITIONS` (kernel/sched/swait.c, `swake_up_all`), in one hold: takes the entries off in the order of the
/// queue, and wakes the task of each with NORMAL, also where it was awake. The answer is how many there were; none is
/// left in the hold. Afterwards the task owes no wake of the condition, and of all else what it owed, whether it had
/// set the condition or not: it leaves nobody asleep (`laws::swake_all_loses_none`).
pub fn swake_all<R: Wait>(rt: &R, domain: &Domain, task: &mut Task, cond: u8) -> u32
    requires of { task.old.domain ≡ domain.now }
    requires up { IsUp task.old }
    requires idle { IsIdle task.old }
    requires simple { IsSimpleCond cond }
    ensures woken { EndsSimpleWake task.old task.new cond true result }
    ensures up { IsUp task.new }
    ensures idle { IsIdle task.new }
    ensures carries { Carries (wake_all_change (watch.Plain cond) mode.Normal task.new.at) task.old task.new }
    ensures owing { OwesAtMost task.old task.new }
{
    swake(rt, domain, task, cond, true)
}

/// Makes a wake of a condition's simple queue to its end: how many were selected.
fn swake<R: Wait>(rt: &R, domain: &Domain, task: &mut Task, cond: u8, all: bool) -> u32
    requires of { task.old.domain ≡ domain.now }
    requires up { IsUp task.old }
    requires idle { IsIdle task.old }
    requires simple { IsSimpleCond cond }
    ensures { IsSwakeOver task.old task.new cond all result }
{
    let head = head_of(Watch::Plain { cond });
    let mut rousing = Rousing::new();
    let mut passing = Passing::none();
    let mut run = SwakeRun::new(cond, all);
    let mut stage = SwakeStage::First;
    let mut looks = 0;
    for _ in rt.forever() {
        let turn = swake_stretch(domain, task, &mut run, stage, &mut rousing, &mut passing);
        passing.wake(domain);
        rousing.rouse_all(domain);
        match turn {
            SwakeTurn::Locked => {
                looks = pause(rt, domain, head, run.served, looks);
                stage = SwakeStage::Turn;
            }
            SwakeTurn::Done(selected) => {
                passing.end();
                rousing.end();
                return selected;
            }
            SwakeTurn::Starved(_) => {
                for _ in rt.forever() {
                    spin_loop();
                }
                unreachable!()
            }
        }
    }
    unreachable!()
}

/// Selects the first entry of the simple head `head`, from `FIRST_SIMPLE_HEAD` on, whose lock the task holds
/// (kernel/sched/swait.c, `swake_up_locked`): takes it off and wakes its task with NORMAL, also where that was awake.
/// False comes exactly where the queue is empty. The hold goes on; where the answer is true, the unlock may raise the
/// spent count.
pub fn swake_locked<R: Wait>(rt: &R, domain: &Domain, task: &mut Task, head: u16) -> bool
    requires of { task.old.domain ≡ domain.now }
    requires up { IsUp task.old }
    requires held { IsHolding task.old }
    requires head { head ≡ task.old.at }
    requires simple { FIRST_SIMPLE_HEAD ≤ head }
    ensures selected { HasSelected task.old task.new 1 (flag result) }
    ensures held { IsHolding task.new }
    ensures keeps { IsSimpleHold task.old → IsSimpleHold task.new }
    ensures rises { result ≡ true → IsSimpleHold task.old → MayRise task.new true }
    ensures carries { Carries only_looks task.old task.new }
{
    let mut rousing = Rousing::new();
    let selected = select(rt, domain, task, head, 1, &mut rousing);
    rousing.rouse_all(domain);
    rousing.end();
    selected != 0
}

/// Selects all entries of the simple head `head`, from `FIRST_SIMPLE_HEAD` on, whose lock the task holds
/// (kernel/sched/swait.c, `swake_up_all_locked`): takes them off in the order of the queue and wakes the task of each
/// with NORMAL, also where that was awake. The answer is how many there were. The hold goes on.
pub fn swake_all_locked<R: Wait>(rt: &R, domain: &Domain, task: &mut Task, head: u16) -> u32
    requires of { task.old.domain ≡ domain.now }
    requires up { IsUp task.old }
    requires held { IsHolding task.old }
    requires head { head ≡ task.old.at }
    requires simple { FIRST_SIMPLE_HEAD ≤ head }
    ensures selected { HasSelected task.old task.new 0 result }
    ensures held { IsHolding task.new }
    ensures keeps { IsSimpleHold task.old → IsSimpleHold task.new }
    ensures rises { 0 < result → IsSimpleHold task.old → MayRise task.new true }
    ensures carries { Carries only_looks task.old task.new }
{
    let mut rousing = Rousing::new();
    let selected = select(rt, domain, task, head, 0, &mut rousing);
    rousing.rouse_all(domain);
    rousing.end();
    selected
}
