//! The two sides of a merger: looks at both, and a wait for either.

ghost use Rattle.std.specs.Prelude.{◌≡◌, IfSome};
ghost use Rattle.wait_rule.specs.PipeSays.{reading};
ghost use Rattle.wait_pipe.specs.Pieces.{IsSettled};
ghost use Rattle.poll_wait.specs.Polls.{EndsPoll};
ghost use Rattle.copy_turns.specs.Work.{IsAtWork};
ghost use Rattle.flow_merge.specs.declared.sides.Found.TheVariants as found;
ghost use Rattle.flow_merge.specs.MergerWords.{LooksBoth, both_words, found_in, poll_stop};
ghost use Rattle.flow_merge.specs.Passed.{side_pipe};
ghost use Rattle.flow_merge.specs.Sides.{BothAtEnd, IsWornStop, LookedAtSides};

use crate::{LEFT_PIPE, RIGHT_PIPE};
use copy_plan::Stop;
use poll_wait::{PollEnd, Ready, poll_two};
use std::sync::Wait;
use wait_model::layout::PIPE_ENDS;
use wait_model::tasks::SleepState;
use wait_model::watches::Watch;
use wait_pipe::{PipeState, peek_read};
use wait_rule::{Domain, Task};

/// A side of a merger: that of the first source, or of the second.
#[derive(Clone, Copy, Debug, PartialEq, Eq, Drop)]
pub enum Side {
    Left,
    Right,
}

impl Side {
    /// The pipe that is read there.
    pub fn pipe(self) -> u8
        ensures { result ≡ side_pipe self }
    {
        match self {
            Side::Left => LEFT_PIPE,
            Side::Right => RIGHT_PIPE,
        }
    }
}

/// What a look at both sides found. Cells: this side has some to be read, and, where it is the right one, the left one
/// has none. Ended: both writers are closed, and all that they sent was taken. Nothing: no side has a cell, and one of
/// the writers is not closed; the words are those of the two writers.
#[derive(Clone, Copy, Debug, PartialEq, Eq, Drop)]
pub enum Found {
    Cells(Side),
    Ended,
    Nothing { left: u64, right: u64 },
}

/// What the two looks found.
fn found_in(left: PipeState, right: PipeState) -> Found
    ensures { result ≡ found_in left right }
{
    if left.cells > 0 {
        return Found::Cells(Side::Left);
    }
    if right.cells > 0 {
        return Found::Cells(Side::Right);
    }
    if left.closed && right.closed {
        return Found::Ended;
    }
    Found::Nothing {
        left: left.word,
        right: right.word,
    }
}

/// Looks at both sides, the left one first, and takes nothing.
pub(crate) fn look_both(domain: &Domain, task: &mut Task) -> Found
    requires of { task.old.domain ≡ domain.now }
    requires work { IsAtWork task.old }
    requires taps { (s : Side) → IsSettled (reading (side_pipe s) task.old) }
    ensures looked { LookedAtSides task.old task.new }
    ensures ended { result ≡ found.Ended → BothAtEnd task.new }
    ensures goes { LooksBoth task.old task.new result }
{
    let left = peek_read(domain, task, LEFT_PIPE);
    let right = peek_read(domain, task, RIGHT_PIPE);
    found_in(left, right)
}

/// Waits, interruptibly, until one of the two writers' words is another than the one that was seen; also where a signal
/// ended the wait it goes on, and its next turn takes the signal. Worn: a head had no place left.
pub(crate) fn wait_both<R: Wait>(
    rt: &R,
    domain: &Domain,
    task: &mut Task,
    left: u64,
    right: u64,
) -> Option<Stop>
    requires of { task.old.domain ≡ domain.now }
    requires work { IsAtWork task.old }
    ensures looked { LookedAtSides task.old task.new }
    ensures worn { IfSome result (IsWornStop task.new) }
    ensures goes { (polled : _) × (EndsPoll (both_words left right) task.old task.new polled
        × (result ≡ poll_stop polled)) }
{
    let first = Watch::Var {
        var: PIPE_ENDS as u8 * LEFT_PIPE,
        old: left,
    };
    let second = Watch::Var {
        var: PIPE_ENDS as u8 * RIGHT_PIPE,
        old: right,
    };
    let polled = poll_two(rt, domain, task, first, second, SleepState::Interruptible);
    stop_of_poll(polled)
}

/// The stop of a merger by the answer of a poll, if it stops.
fn stop_of_poll(polled: Result<Ready, PollEnd>) -> Option<Stop>
    ensures { result ≡ poll_stop polled }
{
    match polled {
        Ok(_) => None,
        Err(PollEnd::Signal { .. }) => None,
        Err(PollEnd::Worn { head, place }) => Some(Stop::Worn { head, place }),
    }
}
