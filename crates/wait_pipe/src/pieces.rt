//! Pieces of bytes that go into a pipe and come out of it.

ghost use Rattle.std.specs.Prelude.{◌≡◌, ◌<◌, ◌≤◌, ◌+◌, ◌%◌, length};
ghost use Rattle.std.specs.Prelude.{IfOk, MatchOption, MatchResult, Ok};
ghost use Rattle.wait_model.specs.declared.layout.TheConstants.{PIPES, PIPE_CELLS};
ghost use Rattle.wait_rule.specs.{PipeSays.reading, PipeSays.writing, Known.Known, Queues.IsIdle, Says.IsUp};
ghost use Rattle.wait_rule.specs.Pipes.{read_end, word_counts, write_end};
ghost use Rattle.wait_class.specs.Posts.{IsOut};
ghost use Rattle.wait_pipe.specs.PassedOn.{Drained, Filled, WokeWaiters};
ghost use Rattle.wait_pipe.specs.Pieces.{Got, GotNone, IsReadyAtPipe, IsSettled, Put, PutNone, RestsBehindPiece, WaitsAtPipe};
ghost use Rattle.wait_pipe.specs.PieceLeaves.{SeesNoCell};
ghost use Rattle.wait_pipe.specs.Trails.{
  FillsCells,
  ReadEnds,
  ReadsPiece,
  SeesClosed,
  WaitingTurn,
  WriteEnds,
  WritesPiece,
};
ghost use Rattle.wait_pipe.specs.declared.pieces.PipeEnd.TheVariants as end;

use crate::cells::{pack, unpack};
use crate::ends::{READ, WRITE, rouse};
use crate::looks::{COUNTS, between, look_over, look_to_write, wait_for};
use std::sync::Wait;
use thiserror::Error;
use wait_model::layout::{PIPE_CELLS, PIPE_ENDS};
use wait_rule::pipes::{advance, cell_load, cell_store};
use wait_rule::{Domain, Task};

/// Why no bytes went into a pipe, or came out of it. Broken: the read end was seen closed, so nothing can be sent any
/// more; only a write answers this. Interrupted: a signal ended the wait for the other end, and the load after it found
/// its word as it was before, `seen`. Worn: no place was left for the task's entry at head `head`, where a member
/// stands at `place`. Both come only where the other end's word showed that end open, and no cell free for a write, or
/// none there for a read.
#[derive(Clone, Copy, Debug, Drop, Error)]
pub enum PipeEnd {
    #[error("the read end is closed")]
    Broken,
    #[error("a signal ended the wait")]
    Interrupted { seen: u64 },
    #[error("head {head} has no place left: a member stands at place {place}")]
    Worn { head: u16, place: u64 },
}

/// Puts bytes into pipe `pipe`, below `PIPES`, whose write end the task has and has not closed: as many as the free
/// cells take, 7 bytes a cell but the last, and at least one. While no cell is free it waits, interruptibly, for the
/// reader's word to change. Then it passes the cells on, and wakes the reader. It answers how many bytes went in, and
/// then its last look showed the read end not closed; or why none did. The task is idle with no entry queued, and every
/// cell that it stored before was passed on; so it is afterwards, and it owes what it owed.
pub fn write_piece<R: Wait>(
    rt: &R,
    domain: &Domain,
    task: &mut Task,
    pipe: u8,
    bytes: &[u8],
) -> Result<usize, PipeEnd>
    requires of { task.old.domain ≡ domain.now }
    requires up { IsUp task.old }
    requires idle { IsIdle task.old }
    requires out { IsOut task.old }
    requires pipe { pipe < PIPES }
    requires settled { IsSettled (writing pipe task.old) }
    requires bytes { 0 < length bytes.now }
    ensures piece { MatchResult result (Put pipe task.old task.new bytes.now) (PutNone pipe task.old task.new) }
    ensures rests { RestsBehindPiece (write_end pipe) task.old task.new }
    ensures goes { WritesPiece (write_end pipe) task.old task.new bytes.now result }
{
    match write_turn(rt, domain, task, pipe, bytes) {
        Some(end) => end,
        None => write_on(rt, domain, task, pipe, bytes),
    }
}

/// The turns of a task that writes a piece, behind one that has waited.
fn write_on<R: Wait>(
    rt: &R,
    domain: &Domain,
    task: &mut Task,
    pipe: u8,
    bytes: &[u8],
) -> Result<usize, PipeEnd>
    requires ready { IsReadyAtPipe domain.now task.old }
    requires pipe { pipe < PIPES }
    requires settled { IsSettled (writing pipe task.old) }
    requires bytes { 0 < length bytes.now }
    ensures piece { MatchResult result (Put pipe task.old task.new bytes.now) (PutNone pipe task.old task.new) }
    ensures rests { RestsBehindPiece (write_end pipe) task.old task.new }
    ensures goes { WritesPiece (write_end pipe) task.old task.new bytes.now result }
{
    for _ in rt.forever() {
        match write_turn(rt, domain, task, pipe, bytes) {
            None => {}
            Some(end) => return end,
        }
    }
    unreachable!()
}

/// A turn of a task that writes a piece: a look at the reader's word, and then the free cells are filled, or it waits for
/// that word to change. None: it has waited, and goes on.
#[inline(always)]
fn write_turn<R: Wait>(
    rt: &R,
    domain: &Domain,
    task: &mut Task,
    pipe: u8,
    bytes: &[u8],
) -> Option<Result<usize, PipeEnd>>
    requires ready { IsReadyAtPipe domain.now task.old }
    requires pipe { pipe < PIPES }
    requires settled { IsSettled (writing pipe task.old) }
    requires bytes { 0 < length bytes.now }
    ensures turn { MatchOption result (WaitsAtPipe (write_end pipe) task.old task.new)
        (λ r. MatchResult r (Put pipe task.old task.new bytes.now) (PutNone pipe task.old task.new)) }
    ensures rests { RestsBehindPiece (write_end pipe) task.old task.new }
    ensures goes { MatchOption result (WaitingTurn (write_end pipe) task.old task.new (Ok tt))
        (WriteEnds (write_end pipe) task.old task.new bytes.now) }
{
    match write_now(rt, domain, task, pipe, bytes) {
        Ok(Some(put)) => Some(Ok(put)),
        Ok(None) => Some(Err(PipeEnd::Broken)),
        Err(word) => match wait_for(rt, domain, task, PIPE_ENDS as u8 * pipe, word) {
            Ok(()) => None,
            Err(end) => Some(Err(end)),
        },
    }
}

/// Writes a piece without waiting: a look at the reader's word, and then the free cells are filled, and the reader is
/// woken where it waits. None: that end is closed. Err: no cell is free, and its word is this.
#[inline(always)]
pub(crate) fn write_now<R: Wait>(
    rt: &R,
    domain: &Domain,
    task: &mut Task,
    pipe: u8,
    bytes: &[u8],
) -> Result<Option<usize>, u64>
    requires ready { IsReadyAtPipe domain.now task.old }
    requires pipe { pipe < PIPES }
    requires settled { IsSettled (writing pipe task.old) }
    requires bytes { 0 < length bytes.now }
    ensures look { MatchResult result
        (λ o. MatchOption o (PutNone pipe task.old task.new end.Broken) (Put pipe task.old task.new bytes.now))
        (SeesNoCell (write_end pipe) task.old task.new) }
    ensures rests { RestsBehindPiece (write_end pipe) task.old task.new }
    ensures goes { IfOk result (λ o. MatchOption o (SeesClosed (write_end pipe) task.old task.new)
        (FillsCells (write_end pipe) task.old task.new bytes.now)) }
{
    let look = look_to_write(domain, task, pipe);
    if look.closed {
        return Ok(None);
    }
    let used = between(look.other, look.own);
    if used >= PIPE_CELLS {
        return Err(look.word);
    }
    let put = fill(domain, task, pipe, look.own, PIPE_CELLS - used, bytes);
    rouse(rt, domain, task, PIPE_ENDS as u8 * pipe);
    Ok(Some(put))
}

/// Fills free cells with as many of the bytes as fit, and passes them on; who waits for them is not woken yet. `count`
/// is the number of cells that the task has stored, modulo `COUNTS`, and `free` that of the free ones.
fn fill(domain: &Domain, task: &mut Task, pipe: u8, count: u16, free: u16, bytes: &[u8]) -> usize
    requires ready { IsReadyAtPipe domain.now task.old }
    requires pipe { pipe < PIPES }
    requires settled { IsSettled (writing pipe task.old) }
    requires count { count ≡ length (writing pipe task.old).cells % word_counts }
    requires free { free + length (writing pipe task.old).cells ≡ (writing pipe task.old).seen + PIPE_CELLS }
    requires room { 0 < free }
    requires bytes { 0 < length bytes.now }
    ensures some { 0 < result }
    ensures most { result ≤ length bytes.now }
    ensures domain { task.new.domain ≡ task.old.domain }
    ensures up { IsUp task.new }
    ensures idle { IsIdle task.new }
    ensures filled { (last : Known) → WokeWaiters (write_end pipe) task.new last
        → Filled pipe task.old last bytes.now result }
{
    task.told();
    let mut at = count;
    let mut left = free;
    let mut done = 0;
    while left > 0 && done < bytes.len() {
        let end = if bytes.len() - done < 7 {
            bytes.len()
        } else {
            done + 7
        };
        cell_store(domain, task, pipe, at % PIPE_CELLS, pack(&bytes[done..end]));
        done = end;
        at = (at + 1) % COUNTS;
        left -= 1;
    }
    advance(domain, task, pipe, WRITE, at);
    done
}

/// Takes bytes out of pipe `pipe`, below `PIPES`, whose read end the task has and has not closed: whole cells as long
/// as there are some and 7 bytes of `buf` are free. While none is there it waits, interruptibly, for the writer's word
/// to change. Then it gives the cells back, and wakes the writer. It answers how many bytes it put into `buf`, or why
/// none came; 0 says that its last look showed the write end closed and no cell left, so all that it sent was taken. It
/// never answers Broken. What stands in `buf` behind the answer is not told. The task is idle with no entry queued, and
/// every cell that it loaded before was given back; so it is afterwards, and it owes what it owed.
pub fn read_piece<R: Wait>(
    rt: &R,
    domain: &Domain,
    task: &mut Task,
    pipe: u8,
    buf: &mut [u8],
) -> Result<usize, PipeEnd>
    requires of { task.old.domain ≡ domain.now }
    requires up { IsUp task.old }
    requires idle { IsIdle task.old }
    requires out { IsOut task.old }
    requires pipe { pipe < PIPES }
    requires settled { IsSettled (reading pipe task.old) }
    requires buf { 7 ≤ length buf.old }
    ensures same { length buf.new ≡ length buf.old }
    ensures piece { MatchResult result (Got pipe task.old task.new buf.new) (GotNone pipe task.old task.new) }
    ensures rests { RestsBehindPiece (read_end pipe) task.old task.new }
    ensures goes { ReadsPiece (read_end pipe) task.old task.new buf.new result }
{
    match read_turn(rt, domain, task, pipe, buf) {
        Some(end) => end,
        None => read_on(rt, domain, task, pipe, buf),
    }
}

/// The turns of a task that reads a piece, behind one that has waited.
fn read_on<R: Wait>(
    rt: &R,
    domain: &Domain,
    task: &mut Task,
    pipe: u8,
    buf: &mut [u8],
) -> Result<usize, PipeEnd>
    requires ready { IsReadyAtPipe domain.now task.old }
    requires pipe { pipe < PIPES }
    requires settled { IsSettled (reading pipe task.old) }
    requires buf { 7 ≤ length buf.old }
    ensures same { length buf.new ≡ length buf.old }
    ensures piece { MatchResult result (Got pipe task.old task.new buf.new) (GotNone pipe task.old task.new) }
    ensures rests { RestsBehindPiece (read_end pipe) task.old task.new }
    ensures goes { ReadsPiece (read_end pipe) task.old task.new buf.new result }
{
    for _ in rt.forever() {
        match read_turn(rt, domain, task, pipe, buf) {
            None => {}
            Some(end) => return end,
        }
    }
    unreachable!()
}

/// A turn of a task that reads a piece: a look at the writer's word, and then cells are taken, or it waits for that word
/// to change. None: it has waited, and goes on.
#[inline(always)]
fn read_turn<R: Wait>(
    rt: &R,
    domain: &Domain,
    task: &mut Task,
    pipe: u8,
    buf: &mut [u8],
) -> Option<Result<usize, PipeEnd>>
    requires ready { IsReadyAtPipe domain.now task.old }
    requires pipe { pipe < PIPES }
    requires settled { IsSettled (reading pipe task.old) }
    requires buf { 7 ≤ length buf.old }
    ensures same { length buf.new ≡ length buf.old }
    ensures turn { MatchOption result (WaitsAtPipe (read_end pipe) task.old task.new)
        (λ r. MatchResult r (Got pipe task.old task.new buf.new) (GotNone pipe task.old task.new)) }
    ensures rests { RestsBehindPiece (read_end pipe) task.old task.new }
    ensures goes { MatchOption result (WaitingTurn (read_end pipe) task.old task.new (Ok tt))
        (ReadEnds (read_end pipe) task.old task.new buf.new) }
{
    match read_now(rt, domain, task, pipe, buf) {
        Ok(got) => Some(Ok(got)),
        Err(word) => match wait_for(rt, domain, task, PIPE_ENDS as u8 * pipe + READ, word) {
            Ok(()) => None,
            Err(end) => Some(Err(end)),
        },
    }
}

/// Reads a piece without waiting: a look at the writer's word, and then cells are taken, and the writer is woken where
/// it waits; 0 where that end is closed and no cell is left. Err: no cell is there, and its word is this.
#[inline(always)]
pub(crate) fn read_now<R: Wait>(
    rt: &R,
    domain: &Domain,
    task: &mut Task,
    pipe: u8,
    buf: &mut [u8],
) -> Result<usize, u64>
    requires ready { IsReadyAtPipe domain.now task.old }
    requires pipe { pipe < PIPES }
    requires settled { IsSettled (reading pipe task.old) }
    requires buf { 7 ≤ length buf.old }
    ensures same { length buf.new ≡ length buf.old }
    ensures look { MatchResult result (Got pipe task.old task.new buf.new)
        (SeesNoCell (read_end pipe) task.old task.new) }
    ensures rests { RestsBehindPiece (read_end pipe) task.old task.new }
    ensures goes { IfOk result (λ n. ReadEnds (read_end pipe) task.old task.new buf.new (Ok n)) }
{
    let look = look_over(domain, task, pipe, READ);
    let there = between(look.own, look.other);
    if there == 0 {
        if look.closed {
            return Ok(0);
        }
        return Err(look.word);
    }
    let got = drain(domain, task, pipe, look.own, there, buf);
    rouse(rt, domain, task, PIPE_ENDS as u8 * pipe + READ);
    Ok(got)
}

/// Takes cells as long as the buffer has room for a whole one, and gives them back; who waits for that is not woken
/// yet. `count` is the number of cells that the task has loaded, modulo `COUNTS`, and `there` that of those that were
/// passed on.
fn drain(
    domain: &Domain,
    task: &mut Task,
    pipe: u8,
    count: u16,
    there: u16,
    buf: &mut [u8],
) -> usize
    requires ready { IsReadyAtPipe domain.now task.old }
    requires pipe { pipe < PIPES }
    requires settled { IsSettled (reading pipe task.old) }
    requires count { count ≡ length (reading pipe task.old).cells % word_counts }
    requires there { there + length (reading pipe task.old).cells ≡ (reading pipe task.old).seen }
    requires some_cell { 0 < there }
    requires buf { 7 ≤ length buf.old }
    ensures same { length buf.new ≡ length buf.old }
    ensures some { 0 < result }
    ensures most { result ≤ length buf.new }
    ensures domain { task.new.domain ≡ task.old.domain }
    ensures up { IsUp task.new }
    ensures idle { IsIdle task.new }
    ensures drained { (last : Known) → WokeWaiters (read_end pipe) task.new last
        → Drained pipe task.old last buf.new result }
{
    task.told();
    let mut at = count;
    let mut left = there;
    let mut done = 0;
    while left > 0 && done + 7 <= buf.len() {
        let word = cell_load(domain, task, pipe, at % PIPE_CELLS);
        done = unpack(word, buf, done);
        at = (at + 1) % COUNTS;
        left -= 1;
    }
    advance(domain, task, pipe, READ, at);
    done
}
