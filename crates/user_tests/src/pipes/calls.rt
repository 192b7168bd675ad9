//! The calls of tests: for tasks that owe nothing, and for those that owe nothing but that their end is closed.

ghost use Rattle.std.specs.Prelude.{◌≡◌, ◌<◌, ◌≤◌, IfOk, length, true};
ghost use Rattle.wait_model.specs.declared.layout.TheConstants.{PIPES};
ghost use Rattle.wait_rule.specs.Says.{RestsIn};
ghost use Rattle.user_tests.specs.PipeTasks.{IsAtMost, IsReader, IsWriter, MayRead, MayWrite};

use std::alloc::AllocError;
use std::sync::Wait;
use std::sync::atomic::{AtomicU64, Ordering};
use wait_leave::Until;
use wait_pipe::ends::{close_read, close_write, open_read, open_write};
use wait_pipe::leaves::{read_piece_until, write_piece_until};
use wait_pipe::peeks::{PipeState, peek_read};
use wait_pipe::pieces::{PipeEnd, read_piece, write_piece};
use wait_rule::{Domain, Task};

/// How many bytes a pipe takes in whole cells.
pub(crate) const FULL: usize = 7 * 1_024;

/// How a task makes a call: by the plain one; or by the one that it can leave, asked as is said, or asked where the count
/// of the asks differs from what it was.
#[derive(Copy)]
pub(crate) enum By<'a> {
    Plain,
    Said(bool),
    Count(&'a AtomicU64, u64),
}

impl Clone for By<'_> {
    fn clone(&self) -> Result<Self, AllocError> {
        Ok(*self)
    }
}

impl By<'_> {
    /// Whether it is asked to leave.
    fn asks(self) -> bool {
        match self {
            By::Plain => false,
            By::Said(asked) => asked,
            By::Count(asked, before) => asked.load(Ordering::SeqCst) != before,
        }
    }
}

/// By the plain call; or asked from now on, where there is a count of the asks.
pub(crate) fn by_now(asked: Option<&AtomicU64>) -> By<'_> {
    match asked {
        None => By::Plain,
        Some(asked) => By::Count(asked, asked.load(Ordering::SeqCst)),
    }
}

/// Takes the write end of a pipe: true where it has it.
pub(crate) fn take_write(domain: &Domain, task: &mut Task, pipe: u8) -> bool
    requires rests { RestsIn domain.now task.old }
    requires pipe { pipe < PIPES }
    ensures writer { MayWrite domain.now pipe task.new result }
{
    open_write(domain, task, pipe)
}

/// Takes the read end of a pipe: true where it has it.
pub(crate) fn take_read(domain: &Domain, task: &mut Task, pipe: u8) -> bool
    requires rests { RestsIn domain.now task.old }
    requires pipe { pipe < PIPES }
    ensures reader { MayRead domain.now pipe task.new result }
{
    open_read(domain, task, pipe)
}

/// Puts a piece in: how many bytes went in, or why none did.
pub(crate) fn put<R: Wait>(
    rt: &R,
    domain: &Domain,
    task: &mut Task,
    pipe: u8,
    bytes: &[u8],
) -> Result<usize, PipeEnd>
    requires writer { IsWriter domain.now pipe task.old }
    requires pipe { pipe < PIPES }
    requires bytes { 0 < length bytes.now }
    ensures writer { IsWriter domain.now pipe task.new }
    ensures some { IfOk result (λ n. 0 < n) }
    ensures most { IfOk result (λ n. n ≤ length bytes.now) }
{
    write_piece(rt, domain, task, pipe, bytes)
}

/// Takes a piece out: how many bytes came, or why none did.
pub(crate) fn get<R: Wait>(
    rt: &R,
    domain: &Domain,
    task: &mut Task,
    pipe: u8,
    buf: &mut [u8],
) -> Result<usize, PipeEnd>
    requires reader { IsReader domain.now pipe task.old }
    requires pipe { pipe < PIPES }
    requires buf { 7 ≤ length buf.old }
    ensures reader { IsReader domain.now pipe task.new }
    ensures most { IfOk result (λ n. n ≤ length buf.new) }
{
    read_piece(rt, domain, task, pipe, buf)
}

/// Looks what there is to be taken, and takes nothing.
pub(crate) fn look(domain: &Domain, task: &mut Task, pipe: u8) -> PipeState
    requires reader { IsReader domain.now pipe task.old }
    requires pipe { pipe < PIPES }
    ensures reader { IsReader domain.now pipe task.new }
{
    peek_read(domain, task, pipe)
}

/// Puts a piece in, unless it is asked to leave while no cell is free.
pub(crate) fn put_until<R: Wait, Q: Fn() -> bool + Copy>(
    rt: &R,
    domain: &Domain,
    task: &mut Task,
    pipe: u8,
    bytes: &[u8],
    asks: Q,
) -> Until<Result<usize, PipeEnd>>
    requires writer { IsWriter domain.now pipe task.old }
    requires pipe { pipe < PIPES }
    requires bytes { 0 < length bytes.now }
    requires asks { Q.IsAlwaysCallable asks }
    ensures writer { IsWriter domain.now pipe task.new }
    ensures most { IsAtMost (length bytes.now) result }
{
    write_piece_until(rt, domain, task, pipe, bytes, asks)
}

/// Takes a piece out, unless it is asked to leave while no cell is there.
pub(crate) fn get_until<R: Wait, Q: Fn() -> bool + Copy>(
    rt: &R,
    domain: &Domain,
    task: &mut Task,
    pipe: u8,
    buf: &mut [u8],
    asks: Q,
) -> Until<Result<usize, PipeEnd>>
    requires reader { IsReader domain.now pipe task.old }
    requires pipe { pipe < PIPES }
    requires buf { 7 ≤ length buf.old }
    requires asks { Q.IsAlwaysCallable asks }
    ensures reader { IsReader domain.now pipe task.new }
    ensures same { length buf.new ≡ length buf.old }
    ensures most { IsAtMost (length buf.new) result }
{
    read_piece_until(rt, domain, task, pipe, buf, asks)
}

/// Puts a piece in by one of these calls.
pub(crate) fn put_by<R: Wait>(
    rt: &R,
    domain: &Domain,
    task: &mut Task,
    pipe: u8,
    bytes: &[u8],
    by: By<'_>,
) -> Until<Result<usize, PipeEnd>>
    requires writer { IsWriter domain.now pipe task.old }
    requires pipe { pipe < PIPES }
    requires bytes { 0 < length bytes.now }
    ensures writer { IsWriter domain.now pipe task.new }
    ensures most { IsAtMost (length bytes.now) result }
{
    match by {
        By::Plain => Until::Over(put(rt, domain, task, pipe, bytes)),
        _ => put_until(rt, domain, task, pipe, bytes, || by.asks()),
    }
}

/// Takes a piece out by one of these calls.
pub(crate) fn get_by<R: Wait>(
    rt: &R,
    domain: &Domain,
    task: &mut Task,
    pipe: u8,
    buf: &mut [u8],
    by: By<'_>,
) -> Until<Result<usize, PipeEnd>>
    requires reader { IsReader domain.now pipe task.old }
    requires pipe { pipe < PIPES }
    requires buf { 7 ≤ length buf.old }
    ensures reader { IsReader domain.now pipe task.new }
    ensures same { length buf.new ≡ length buf.old }
    ensures most { IsAtMost (length buf.new) result }
{
    match by {
        By::Plain => Until::Over(get(rt, domain, task, pipe, buf)),
        _ => get_until(rt, domain, task, pipe, buf, || by.asks()),
    }
}

/// Closes the write end.
pub(crate) fn end_write<R: Wait>(rt: &R, domain: &Domain, task: &mut Task, pipe: u8)
    requires writer { IsWriter domain.now pipe task.old }
    requires pipe { pipe < PIPES }
    ensures rests { RestsIn domain.now task.new }
{
    close_write(rt, domain, task, pipe);
}

/// Closes the read end.
pub(crate) fn end_read<R: Wait>(rt: &R, domain: &Domain, task: &mut Task, pipe: u8)
    requires reader { IsReader domain.now pipe task.old }
    requires pipe { pipe < PIPES }
    ensures rests { RestsIn domain.now task.new }
{
    close_read(rt, domain, task, pipe);
}

/// The byte at a place of a stream.
fn byte_at(place: u32) -> u8 {
    (place % 251) as u8
}

/// Writes the bytes of a stream from this place on into a buffer.
pub(crate) fn fill_from(place: u32, buf: &mut [u8]) {
    let mut at = place;
    for byte in buf.iter_mut() {
        *byte = byte_at(at);
        at = at.wrapping_add(1);
    }
}

/// Whether these are the bytes of a stream from this place on.
pub(crate) fn are_from(place: u32, bytes: &[u8]) -> bool {
    let mut at = place;
    for byte in bytes {
        if *byte != byte_at(at) {
            return false;
        }
        at = at.wrapping_add(1);
    }
    true
}
