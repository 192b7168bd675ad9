//! A script's lines played without their text.

ghost use Rattle.std.specs.Prelude.{◌≡◌, ◌≤◌, ◌<◌, All, length};
ghost use Rattle.wait_model.specs.{Admission.IsListed, Runs.state_of};
ghost use Rattle.wait_script.specs.{Spelling.IsPlayable, Replay.played_steps, Replay.replay_line};
ghost use Rattle.waitq_alone.specs.Drill.{run_after_lines, refuses, refused_in, asleep_below};

use crate::play::stops;
use wait_core::Core;
use wait_model::layout::SCRIPT_TASKS;
use wait_script::Line;

/// Makes up to `count` events of a task.
fn make_steps(core: &mut Core, task: u8, count: u32)
    ensures { core.new ≡ (played_steps count core.old task).1 }
{
    for _i in 0..count {
        let stepped = core.step(task);
        if stops(&stepped) {
            return;
        }
    }
}

/// Plays one line, and answers whether it is a call that was refused.
fn make_line(core: &mut Core, line: Line) -> bool
    requires { IsPlayable line }
    ensures run { core.new ≡ (replay_line core.old line).1 }
    ensures refused { result ≡ refuses core.old line }
{
    match line {
        Line::Call { task, call } => core.start(task, call).is_err(),
        Line::Step { task, count } => {
            make_steps(core, task, count);
            false
        }
    }
}

/// Plays the lines, and answers how many calls were refused.
pub fn make_lines(core: &mut Core, lines: &[Line]) -> u64
    requires { All IsPlayable lines.now }
    ensures run { core.new ≡ run_after_lines core.old lines.now }
    ensures refused { result ≡ refused_in core.old lines.now }
{
    let mut refused = 0;
    for line in lines {
        if make_line(core, *line) {
            refused += 1;
        }
    }
    refused
}

/// How many of the tasks that a script has are not runnable.
pub fn count_asleep(core: &Core) -> u64
    ensures { result ≡ asleep_below (state_of core.now) SCRIPT_TASKS }
{
    let mut asleep = 0;
    for task in 0..SCRIPT_TASKS as u8 {
        if !core.task_of(task).runnable {
            asleep += 1;
        }
    }
    asleep
}
