//! Tasks that queue their entries for a bit or a variable, and wakes.

ghost use Rattle.wait_model.specs.declared.watches.Kind.TheVariants as kinds;
ghost use Rattle.wq_head.specs.{Adds.IsFor, Adds.IsForBit, Walks.IsFull};
ghost use Rattle.head_tests.specs.Ready.{IsFreeIn, IsReadyIn};

use crate::heads::scripts::{Did, is_done};
use std::sync::Wait;
use wait_model::heads::head_of;
use wait_model::layout::INTERRUPTIBLE;
use wait_model::queues::Walked;
use wait_model::watches::{Kind, Mode, Watch};
use wait_rule::tasks::set_state;
use wait_rule::{Domain, Task};
use wq_head::adds::{add_for_bit, add_front};
use wq_head::locks::{lock, unlock};
use wq_head::wakes::wake;

/// Queues the own entry at the front, and stores a state in the same hold: false where there is no place.
pub(crate) fn queue_for<R: Wait>(
    rt: &R,
    domain: &Domain,
    task: &mut Task,
    kind: Kind,
    watch: Watch,
) -> bool
    requires ready { IsReadyIn domain.now task.old }
    requires suits { IsFor watch kind }
    requires full { IsFull watch }
    ensures there { IsFreeIn domain.now task.new }
{
    lock(rt, domain, task, head_of(watch));
    let queued = add_front(domain, task, 0, kind, watch).is_ok();
    set_state(domain, task, INTERRUPTIBLE);
    unlock(rt, domain, task, false);
    queued
}

/// Queues an exclusive entry for a bit, and stores a state in the same hold.
pub(crate) fn queue_lock<R: Wait>(rt: &R, domain: &Domain, task: &mut Task, watch: Watch) -> bool
    requires ready { IsReadyIn domain.now task.old }
    requires suits { IsForBit watch kinds.Bit }
    requires full { IsFull watch }
    ensures there { IsFreeIn domain.now task.new }
{
    lock(rt, domain, task, head_of(watch));
    let queued = add_for_bit(domain, task, watch).is_ok();
    set_state(domain, task, INTERRUPTIBLE);
    unlock(rt, domain, task, false);
    queued
}

/// A wake by a task that has nothing queued.
pub(crate) fn wake_for<R: Wait>(
    rt: &R,
    domain: &Domain,
    task: &mut Task,
    watch: Watch,
    mode: Mode,
    count: u32,
) -> Walked
    requires ready { IsReadyIn domain.now task.old }
    requires full { IsFull watch }
{
    wake(rt, domain, task, watch, mode, count)
}

/// A new task makes such a wake, which does this: false where there is no number left, too.
pub(crate) fn wakes<R: Wait>(
    rt: &R,
    domain: &Domain,
    task: &mut Task,
    watch: Watch,
    mode: Mode,
    count: u32,
    did: Did,
) -> bool
    requires ready { IsReadyIn domain.now task.old }
    requires full { IsFull watch }
    ensures ready { IsReadyIn domain.now task.new }
{
    match task.fork(domain, 0) {
        Ok(mut other) => is_done(wake_for(rt, domain, &mut other, watch, mode, count), did),
        Err(_) => false,
    }
}
