//! Pieces whose calls their task leaves.

ghost use Rattle.std.specs.Prelude.{◌≡◌, ◌<◌, ◌≤◌, length, true};
ghost use Rattle.std.specs.Prelude.{MatchOption};
ghost use Rattle.wait_model.specs.declared.layout.TheConstants.{PIPES};
ghost use Rattle.wait_rule.specs.{Pipes.read_end, Pipes.write_end, PipeSays.reading, PipeSays.writing, Queues.IsIdle};
ghost use Rattle.wait_rule.specs.Says.{IsUp};
ghost use Rattle.wait_class.specs.Posts.{IsOut};
ghost use Rattle.wait_pipe.specs.PieceLeaves.{
  GotUntil,
  PutUntil,
  ReadEndsUntil,
  ReadsUntil,
  TurnGoesOn,
  WriteEndsUntil,
  WritesUntil,
};
ghost use Rattle.wait_pipe.specs.Pieces.{IsReadyAtPipe, IsSettled, RestsBehindPiece, WaitsAtPipe};

use crate::ends::READ;
use crate::looks::wait_for_until;
use crate::pieces::{PipeEnd, read_now, write_now};
use std::sync::Wait;
use wait_leave::Until;
use wait_model::layout::PIPE_ENDS;
use wait_rule::{Domain, Task};

/// Puts bytes into a pipe as `write_piece` does, but leaves the call once `asks` has answered true: it is asked before
/// each event of a wait while the task is awake, so before it goes asleep and once it was woken, and never while a cell
/// is free. Who stores what `asks` reads and then wakes the task (`wake_task`) is heard. Left: asked so, its entry off,
/// and its last look found the reader's word as `seen`, which shows that end open and no cell free; no byte went in, as
/// where a pipe of the kernel that does not block answers -EAGAIN (fs/pipe.c, `pipe_write`). Over: as `write_piece`
/// answers, so also where a cell became free behind the asking.
pub fn write_piece_until<R: Wait, Q: Fn() -> bool + Copy>(
    rt: &R,
    domain: &Domain,
    task: &mut Task,
    pipe: u8,
    bytes: &[u8],
    asks: Q,
) -> Until<Result<usize, PipeEnd>>
    requires of { task.old.domain ≡ domain.now }
    requires up { IsUp task.old }
    requires idle { IsIdle task.old }
    requires out { IsOut task.old }
    requires pipe { pipe < PIPES }
    requires settled { IsSettled (writing pipe task.old) }
    requires bytes { 0 < length bytes.now }
    requires asks { Q.IsAlwaysCallable asks }
    ensures piece { PutUntil (Q.post asks true) pipe task.old task.new bytes.now result }
    ensures rests { RestsBehindPiece (write_end pipe) task.old task.new }
    ensures goes { WritesUntil (Q.post asks true) (write_end pipe) task.old task.new bytes.now result }
{
    for _ in rt.forever() {
        match write_turn_until(rt, domain, task, pipe, bytes, asks) {
            None => {}
            Some(end) => return end,
        }
    }
    unreachable!()
}

/// One turn of a task that writes a piece: free cells are filled, or it waits, unless it is asked to leave. None: it has
/// waited, and goes on.
fn write_turn_until<R: Wait, Q: Fn() -> bool>(
    rt: &R,
    domain: &Domain,
    task: &mut Task,
    pipe: u8,
    bytes: &[u8],
    asks: Q,
) -> Option<Until<Result<usize, PipeEnd>>>
    requires ready { IsReadyAtPipe domain.now task.old }
    requires pipe { pipe < PIPES }
    requires settled { IsSettled (writing pipe task.old) }
    requires bytes { 0 < length bytes.now }
    requires asks { Q.IsAlwaysCallable asks }
    ensures turn { MatchOption result (WaitsAtPipe (write_end pipe) task.old task.new)
        (PutUntil (Q.post asks true) pipe task.old task.new bytes.now) }
    ensures rests { RestsBehindPiece (write_end pipe) task.old task.new }
    ensures goes { MatchOption result (TurnGoesOn (Q.post asks true) (write_end pipe) task.old task.new)
        (WriteEndsUntil (Q.post asks true) (write_end pipe) task.old task.new bytes.now) }
{
    match write_now(rt, domain, task, pipe, bytes) {
        Ok(Some(put)) => Some(Until::Over(Ok(put))),
        Ok(None) => Some(Until::Over(Err(PipeEnd::Broken))),
        Err(word) => match wait_for_until(rt, domain, task, PIPE_ENDS as u8 * pipe, word, asks) {
            Until::Over(Ok(())) => None,
            Until::Over(Err(end)) => Some(Until::Over(Err(end))),
            Until::Left { seen } => Some(Until::Left { seen }),
        },
    }
}

/// Takes bytes out of a pipe as `read_piece` does, but leaves the call once `asks` has answered true: it is asked before
/// each event of a wait while the task is awake, so before it goes asleep and once it was woken, and never while a cell
/// is there. Who stores what `asks` reads and then wakes the task (`wake_task`) is heard. Left: asked so, its entry off,
/// and its last look found the writer's word as `seen`, which shows that end open and no cell there; no byte came out,
/// as where a pipe of the kernel that does not block answers -EAGAIN (fs/pipe.c, `pipe_read`). Over: as `read_piece`
/// answers, so also where a cell came behind the asking.
pub fn read_piece_until<R: Wait, Q: Fn() -> bool + Copy>(
    rt: &R,
    domain: &Domain,
    task: &mut Task,
    pipe: u8,
    buf: &mut [u8],
    asks: Q,
) -> Until<Result<usize, PipeEnd>>
    requires of { task.old.domain ≡ domain.now }
    requires up { IsUp task.old }
    requires idle { IsIdle task.old }
    requires out { IsOut task.old }
    requires pipe { pipe < PIPES }
    requires settled { IsSettled (reading pipe task.old) }
    requires buf { 7 ≤ length buf.old }
    requires asks { Q.IsAlwaysCallable asks }
    ensures same { length buf.new ≡ length buf.old }
    ensures piece { GotUntil (Q.post asks true) pipe task.old task.new buf.new result }
    ensures rests { RestsBehindPiece (read_end pipe) task.old task.new }
    ensures goes { ReadsUntil (Q.post asks true) (read_end pipe) task.old task.new buf.new result }
{
    for _ in rt.forever() {
        match read_turn_until(rt, domain, task, pipe, buf, asks) {
            None => {}
            Some(end) => return end,
        }
    }
    unreachable!()
}

/// One turn of a task that reads a piece: cells are taken, or it waits, unless it is asked to leave. None: it has
/// waited, and goes on.
fn read_turn_until<R: Wait, Q: Fn() -> bool>(
    rt: &R,
    domain: &Domain,
    task: &mut Task,
    pipe: u8,
    buf: &mut [u8],
    asks: Q,
) -> Option<Until<Result<usize, PipeEnd>>>
    requires ready { IsReadyAtPipe domain.now task.old }
    requires pipe { pipe < PIPES }
    requires settled { IsSettled (reading pipe task.old) }
    requires buf { 7 ≤ length buf.old }
    requires asks { Q.IsAlwaysCallable asks }
    ensures same { length buf.new ≡ length buf.old }
    ensures turn { MatchOption result (WaitsAtPipe (read_end pipe) task.old task.new)
        (GotUntil (Q.post asks true) pipe task.old task.new buf.new) }
    ensures rests { RestsBehindPiece (read_end pipe) task.old task.new }
    ensures goes { MatchOption result (TurnGoesOn (Q.post asks true) (read_end pipe) task.old task.new)
        (ReadEndsUntil (Q.post asks true) (read_end pipe) task.old task.new buf.new) }
{
    match read_now(rt, domain, task, pipe, buf) {
        Ok(got) => Some(Until::Over(Ok(got))),
        Err(word) => {
            match wait_for_until(rt, domain, task, PIPE_ENDS as u8 * pipe + READ, word, asks) {
                Until::Over(Ok(())) => None,
                Until::Over(Err(end)) => Some(Until::Over(Err(end))),
                Until::Left { seen } => Some(Until::Left { seen }),
            }
        }
    }
}
