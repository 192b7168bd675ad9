//! Variables that are published with a wake.

ghost use Rattle.std.specs.Prelude.{◌≡◌, ◌<◌, ◌≤◌};
ghost use Rattle.wait_model.specs.declared.layout.TheConstants.{CLAIMS, VARIABLES};
ghost use Rattle.wait_model.specs.declared.watches.Mode.TheVariants as mode;
ghost use Rattle.wait_model.specs.declared.watches.Watch.TheVariants as watch;
ghost use Rattle.wait_rule.specs.{Queues.IsIdle, Says.IsUp, Stays.Carries};
ghost use Rattle.wait_event.specs.Conds.{set_change};
ghost use Rattle.var_wait.specs.VarPublishes.{HasPublished};

use std::sync::Wait;
use wait_model::heads::head_of;
use wait_model::queues::Walked;
use wait_model::watches::{Mode, Watch};
use wait_rule::queues::publish;
use wait_rule::{Domain, Task};
use wq_head::{active, no_walk, wake};

/// Stores `value` in variable `var`, from `CLAIMS` on and below `VARIABLES`, and wakes those who wait for it to change
/// (a store of the variable, and kernel/sched/wait_bit.c, `wake_up_var`, by `__wake_up_bit`). The first `CLAIMS`
/// variables belong to pipes. After the store it looks without the lock whether the variable's head has members
/// (`waitqueue_active`), and where it has any it walks over its queue with NORMAL, past the entries of bits and of
/// other variables. `holds` is 0 exactly where the look showed none. The task is idle, and so it is afterwards; it owes
/// nothing of the variable then, and of all others what it owed. So it leaves nobody asleep who saw another value
/// (`laws::publish_var_and_wake_loses_none`).
pub fn publish_var_and_wake<R: Wait>(
    rt: &R,
    domain: &Domain,
    task: &mut Task,
    var: u8,
    value: u64,
) -> Walked
    requires of { task.old.domain ≡ domain.now }
    requires up { IsUp task.old }
    requires idle { IsIdle task.old }
    requires free { CLAIMS ≤ var }
    requires there { var < VARIABLES }
    ensures published { HasPublished task.old task.new var value result }
    ensures up { IsUp task.new }
    ensures idle { IsIdle task.new }
    ensures carries { Carries (set_change (watch.Var var 0) mode.Normal task.new.at) task.old task.new }
{
    task.told();
    let watch = Watch::Var { var, old: 0 };
    publish(domain, task, watch, value);
    if active(domain, task, head_of(watch)) {
        wake(rt, domain, task, watch, Mode::Normal, 1)
    } else {
        no_walk()
    }
}
