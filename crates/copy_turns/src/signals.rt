//! Signals that a worker takes and sends.

ghost use Rattle.std.specs.Prelude.{◌≡◌, ◌++◌, MatchBool};
ghost use Rattle.wait_rule.specs.{Aside.signals_of, PipeSays.EndsStay};
ghost use Rattle.copy_plan.specs.Plans.{due_in};
ghost use Rattle.copy_turns.specs.{Raises.sent_to, Transfers.SendsEach};
ghost use Rattle.copy_turns.specs.Work.{Apart, IsAtWork, SumsStay, TookKill, TookNoKill, TookOwn, Works};

use copy_plan::Planned;
use copy_plan::plan::target_of;
use std::sync::Wait;
use wait_model::tasks::Taken;
use wait_rule::running::{send_signal, take_signal};
use wait_rule::{Domain, Task};

/// Takes the own signals: true where a fatal one was pending.
pub fn is_killed(domain: &Domain, task: &mut Task) -> bool
    requires of { task.old.domain ≡ domain.now }
    requires work { IsAtWork task.old }
    ensures apart { Apart task.old task.new }
    ensures own { TookOwn task.old task.new result }
    ensures killed { MatchBool result (TookKill task.old task.new) (TookNoKill task.old task.new) }
{
    match take_signal(domain, task) {
        Taken::Fatal => true,
        Taken::Plain => false,
        Taken::Nothing => false,
    }
}

/// Sends the planned signals whose offset is from `from` to `to`, in the order of the plan.
pub fn send_due<R: Wait>(
    rt: &R,
    domain: &Domain,
    task: &mut Task,
    plan: &[Planned],
    targets: [u8; 3],
    from: u64,
    to: u64,
)
    requires of { task.old.domain ≡ domain.now }
    requires work { IsAtWork task.old }
    ensures works { Works task.old task.new }
    ensures ends { EndsStay task.old task.new }
    ensures sums { SumsStay task.old task.new }
    ensures spared { TookNoKill task.old task.new }
    ensures signals { signals_of task.new.view.items
        ≡ signals_of task.old.view.items ++ sent_to targets (due_in from to plan.now) }
    ensures goes { SendsEach (sent_to targets (due_in from to plan.now)) task.old task.new }
{
    for planned in plan {
        if from <= planned.offset && planned.offset <= to {
            let target = target_of(planned.who, targets);
            send_signal(rt, domain, task, target, planned.fatal);
        }
    }
}
