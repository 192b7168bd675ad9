//! Signals that a copy is told to send to its own workers.

ghost use Rattle.std.specs.Prelude.{◌≡◌, ◌≤◌, length};
ghost use Rattle.copy_plan.specs.declared.TheConstants.{SIGNALS};
ghost use Rattle.copy_plan.specs.Plans.{fatal_of, target_of, up_to};

use crate::gate::Who;

/// A signal that is sent to a worker once the source has given `offset` bytes.
#[derive(Clone, Copy, Debug, Default, PartialEq, Eq, Drop)]
pub struct Planned {
    pub who: Who,
    pub offset: u64,
    pub fatal: bool,
}

/// The number of a worker's task; `targets` are those of the reader, the relay and the writer.
pub fn target_of(who: Who, targets: [u8; 3]) -> u8
    ensures { result ≡ target_of targets who }
{
    match who {
        Who::Reader => targets[0],
        Who::Relay => targets[1],
        Who::Writer => targets[2],
    }
}

/// How many of the planned signals have an offset at most `to`, and how many of these are fatal.
pub fn count_due(plan: &[Planned], to: u64) -> (u8, u8)
    requires few { length plan.now ≤ SIGNALS }
    ensures sent { result.0 ≡ length (up_to to plan.now) }
    ensures kills { result.1 ≡ length (fatal_of (up_to to plan.now)) }
{
    let mut sent = 0;
    let mut kills = 0;
    for planned in plan {
        if planned.offset <= to {
            sent += 1;
            if planned.fatal {
                kills += 1;
            }
        }
    }
    (sent, kills)
}
