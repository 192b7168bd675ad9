//! A writer and a reader in threads of their own, again and again, in Domains whose tasks park at once when they are
//! put asleep.

ghost use Rattle.std.specs.Prelude.{◌<◌, ◌≤◌};
ghost use Rattle.wait_model.specs.declared.layout.TheConstants.{PIPES};
ghost use Rattle.wait_rule.specs.Says.{RestsIn};
ghost use Rattle.user_tests.specs.declared.pipes.calls.TheConstants.{FULL};

use crate::meetings::Part;
use crate::pipes::calls::{
    FULL, are_from, by_now, end_read, end_write, fill_from, get_by, put_by, take_read, take_write,
};
use std::alloc::AllocError;
use std::sync::Wait;
use std::sync::atomic::AtomicU64;
use std::test::Fail;
use test_tasks::meetings::two_meet;
use test_tasks::wants::all_so;
use wait_leave::Until;
use wait_rule::{Domain, Task};

/// How many rounds the test makes.
const ROUNDS: u32 = 300;

/// More turns than a writer or a reader has of a stream, each of which takes a byte at least or is left.
const TURNS: u32 = 10_000;

/// The bytes that a writer sends to a reader.
#[derive(Copy)]
pub(crate) enum Stream {
    /// 9,000 in pieces of several lengths, up to 64, which are others in each round: more than a pipe holds, so each of
    /// the two waits for the other in many rounds.
    Pieces { round: u32 },
    /// 40 pieces of as many as a pipe holds.
    Full,
}

impl Clone for Stream {
    fn clone(&self) -> Result<Self, AllocError> {
        Ok(*self)
    }
}

impl Stream {
    /// The pipe.
    fn pipe(self) -> u8
        ensures { result < PIPES }
    {
        match self {
            Stream::Pieces { .. } => 5,
            Stream::Full => 6,
        }
    }

    /// How many bytes it has.
    fn sent(self) -> u32 {
        match self {
            Stream::Pieces { .. } => 9_000,
            Stream::Full => 40 * 7_168,
        }
    }

    /// How long a piece is, where as much is left.
    fn piece(self, turn: u32) -> usize
        ensures some { 0 < result }
        ensures most { result ≤ FULL }
    {
        match self {
            Stream::Pieces { round } => 1
                + (round.wrapping_add(turn.wrapping_mul(11)) % 64) as usize,
            Stream::Full => FULL,
        }
    }

    /// How long the reader's buffer is.
    fn buffer(self, turn: u32) -> usize
        ensures least { 7 ≤ result }
        ensures most { result ≤ FULL }
    {
        match self {
            Stream::Pieces { round } => 7
                + (round.wrapping_add(turn.wrapping_mul(5)) % 58) as usize,
            Stream::Full => FULL,
        }
    }

    /// Whether so many bytes may go in, or come, by one call.
    fn may_be(self, number: usize) -> bool {
        match self {
            Stream::Pieces { .. } => true,
            Stream::Full => number == FULL,
        }
    }
}

/// Sends a stream, and closes the end: whether all of it went in, in pieces that may be. A call that is asked since it
/// began is left, and made again.
pub(crate) fn send<R: Wait>(
    rt: &R,
    domain: &Domain,
    task: &mut Task,
    stream: Stream,
    asked: Option<&AtomicU64>,
) -> bool
    requires rests { RestsIn domain.now task.old }
    ensures rests { RestsIn domain.now task.new }
{
    let pipe = stream.pipe();
    if !take_write(domain, task, pipe) {
        return false;
    }
    let all = stream.sent();
    let mut sent = 0u32;
    let mut right = true;
    for turn in 0..TURNS {
        if sent >= all {
            break;
        }
        let length = stream.piece(turn).min((all - sent) as usize);
        let mut bytes = [0u8; FULL];
        fill_from(sent, &mut bytes[..length]);
        match put_by(rt, domain, task, pipe, &bytes[..length], by_now(asked)) {
            Until::Over(Ok(n)) => {
                right = right && stream.may_be(n);
                sent = sent.wrapping_add(n as u32);
            }
            Until::Over(Err(_)) => break,
            Until::Left { seen: _ } => {}
        }
    }
    end_write(rt, domain, task, pipe);
    right && sent == all
}

/// Takes bytes until the end, and closes the end: whether they are those of the stream, and as many, in pieces that may
/// be. A call that is asked since it began is left, and made again.
pub(crate) fn receive<R: Wait>(
    rt: &R,
    domain: &Domain,
    task: &mut Task,
    stream: Stream,
    asked: Option<&AtomicU64>,
) -> bool
    requires rests { RestsIn domain.now task.old }
    ensures rests { RestsIn domain.now task.new }
{
    let pipe = stream.pipe();
    if !take_read(domain, task, pipe) {
        return false;
    }
    let mut got = 0u32;
    let mut right = true;
    for turn in 0..TURNS {
        let length = stream.buffer(turn);
        let mut buf = [0u8; FULL];
        match get_by(rt, domain, task, pipe, &mut buf[..length], by_now(asked)) {
            Until::Over(Ok(0)) => break,
            Until::Over(Ok(n)) => {
                right = right && stream.may_be(n) && are_from(got, &buf[..n]);
                got = got.wrapping_add(n as u32);
            }
            Until::Over(Err(_)) => right = false,
            Until::Left { seen: _ } => {}
        }
    }
    end_read(rt, domain, task, pipe);
    right && got == stream.sent()
}

/// Whatever the order of the steps, the bytes come out as they went in, each once.
#[test]
fn bytes_come_out_as_they_went_in(rt: HostRuntime) -> Result<(), Fail> {
    for round in 0..ROUNDS {
        let (domain, task) = Domain::with_looks(rt.alloc(), 0)?;
        let stream = Stream::Pieces { round };
        let parts = (Part::Sends(stream), Part::Receives(stream));
        let (_task, went) = two_meet(&rt, &domain, task, parts);
        all_so(&went)?;
    }
    Ok(())
}
