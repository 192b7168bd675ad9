//! Wakes that begin, and the look for members of a head before one.

ghost use Rattle.std.specs.Prelude.{◌≡◌, true};
ghost use Rattle.wait_model.specs.declared.watches.Mode.TheVariants as mode;
ghost use Rattle.wq_checked.specs.{Begins.LooksBehind, Calls.IsRunningSound, Calls.WakesFirst};
ghost use Rattle.wq_checked.specs.declared.calls.Call.{Call};
ghost use Rattle.wq_checked.specs.Advancing.{Waking, WakesAs, normal_wake};

use crate::calls::{Answer, Progress, Running};
use crate::kept_bits::KeptBits;
use wait_model::heads::head_of;
use wait_model::watches::{Mode, Watch};
use wait_rule::{Domain, Task};
use wq_head::wakes::{WakeRun, WakeStage};
use wq_head::{active, no_walk};

/// A wake before its first hold.
pub(crate) fn wake_of(watch: Watch, mode: Mode, count: u32) -> Running
    ensures { WakesFirst (record { watch = watch; mode = mode; count = count }) result }
{
    Running::Wake(WakeRun::new(watch, mode, count), WakeStage::First)
}

/// Behind a publish: looks for members of the watch's head without the lock. Where there are some the wake begins, and
/// else the call is over.
pub(crate) fn look(
    domain: &Domain,
    task: &mut Task,
    kept: &KeptBits,
    watch: Watch,
) -> (Running, Progress)
    requires of { task.old.domain ≡ domain.now }
    requires waking { Waking kept.now task.old (normal_wake watch) }
    ensures of { task.new.domain ≡ domain.now }
    ensures sound { IsRunningSound result.0 kept.now task.new }
    ensures looks { (c : Call) → WakesAs c (normal_wake watch)
        → LooksBehind c watch task.old task.new result.1 result.0 }
{
    let _ = kept;
    if active(domain, task, head_of(watch)) {
        (wake_of(watch, Mode::Normal, 1), Progress::Again)
    } else {
        (Running::Idle, Progress::Done(Answer::Walked(no_walk())))
    }
}
