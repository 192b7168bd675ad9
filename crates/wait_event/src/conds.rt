//! Conditions that wakers set, and that waiters take.

ghost use Rattle.std.specs.Prelude.{◌≡◌, ◌<◌};
ghost use Rattle.wait_model.specs.declared.layout.TheConstants.{FIRST_SIMPLE, PLAIN_CONDITIONS};
ghost use Rattle.wait_model.specs.declared.watches.Watch.TheVariants as watch;
ghost use Rattle.wait_rule.specs.{Says.IsUp, Queues.IsAgreedHold, Queues.IsIdle, Stays.Carries, Stays.unchanged};
ghost use Rattle.wait_event.specs.Conds.{HasSet, HasTakenCond, set_change};

use std::sync::Wait;
use wait_model::queues::Walked;
use wait_model::watches::{Mode, Watch};
use wait_rule::queues::{consume, publish};
use wait_rule::{Domain, Task};
use wq_head::wake;

/// Takes condition `cond`, below `PLAIN_CONDITIONS`: exchanges 0 for its value, and answers what was there. It needs no
/// idle task.
pub fn take_cond(domain: &Domain, task: &mut Task, cond: u8) -> u64
    requires of { task.old.domain ≡ domain.now }
    requires up { IsUp task.old }
    requires cond { cond < PLAIN_CONDITIONS }
    requires agreed { IsAgreedHold task.old }
    ensures took { HasTakenCond task.old task.new cond result }
    ensures carries { Carries unchanged task.old task.new }
{
    consume(domain, task, cond)
}

/// Sets condition `cond`, below `FIRST_SIMPLE`, to a value, and wakes those who wait for it in the states of the mode
/// (a store of the condition, and kernel/sched/wait.c, `__wake_up`). A count of 0 stops at no entry; another ends the
/// wake after so many exclusive entries whose tasks were woken, which is answered as `Spent`. The task is idle, and so
/// it is afterwards. With the Normal mode it owes nothing of the condition then; with the Interruptible one it owes
/// what it owed of it to the others, and of all other conditions what it owed before. So it leaves nobody asleep for
/// whom the wake was (`laws::set_and_wake_loses_none`).
pub fn set_and_wake<R: Wait>(
    rt: &R,
    domain: &Domain,
    task: &mut Task,
    cond: u8,
    value: u64,
    mode: Mode,
    count: u32,
) -> Walked
    requires of { task.old.domain ≡ domain.now }
    requires up { IsUp task.old }
    requires idle { IsIdle task.old }
    requires full { cond < FIRST_SIMPLE }
    ensures set { HasSet task.old task.new cond value mode count result }
    ensures up { IsUp task.new }
    ensures idle { IsIdle task.new }
    ensures carries { Carries (set_change (watch.Plain cond) mode task.new.at) task.old task.new }
{
    task.told();
    let watch = Watch::Plain { cond };
    publish(domain, task, watch, value);
    wake(rt, domain, task, watch, mode, count)
}
