//! Pieces that a worker puts into a pipe and gets out of one.

ghost use Rattle.std.specs.Prelude.{◌≡◌, ◌<◌, ◌≤◌, [], length, take, IfErr, IfOk, MatchResult};
ghost use Rattle.wait_model.specs.declared.layout.TheConstants.{PIPES};
ghost use Rattle.wait_rule.specs.{Pipes.read_end, Pipes.write_end, PipeSays.reading, PipeSays.writing};
ghost use Rattle.wait_pipe.specs.Pieces.{IsAtEnd, IsSettled};
ghost use Rattle.copy_turns.specs.{Transfers.GetsPiece, Transfers.PutsWhole, Turns.HasGotBytes, Turns.HandedFront};
ghost use Rattle.copy_turns.specs.Work.{Apart, GoesOnBy, HaltsBy, IsAtWork, IsOwnHalt};

use crate::signals::is_killed;
use copy_plan::stop::Halt;
use std::sync::Wait;
use wait_pipe::{PipeEnd, read_piece, write_piece};
use wait_rule::{Domain, Task};

/// Puts all the bytes into a pipe, in as many pieces as it takes.
pub fn put_whole<R: Wait>(
    rt: &R,
    domain: &Domain,
    task: &mut Task,
    pipe: u8,
    bytes: &[u8],
) -> Result<(), Halt>
    requires of { task.old.domain ≡ domain.now }
    requires work { IsAtWork task.old }
    requires pipe { pipe < PIPES }
    requires settled { IsSettled (writing pipe task.old) }
    ensures put { MatchResult result (λ _. HasGotBytes (write_end pipe) task.old task.new bytes.now)
        (λ halt. HandedFront (write_end pipe) task.old task.new bytes.now halt) }
    ensures goes { PutsWhole (write_end pipe) task.old task.new bytes.now result }
{
    let mut done = 0;
    for _ in rt.forever() {
        if done == bytes.len() {
            return Ok(());
        }
        match write_piece(rt, domain, task, pipe, &bytes[done..]) {
            Ok(taken) => done += taken,
            Err(end) => {
                if let Err(halt) = halt_of(domain, task, end) {
                    return Err(halt);
                }
            }
        }
    }
    unreachable!()
}

/// What a call on a pipe that ended early makes of a worker's part: one that a signal ended is tried again, unless the
/// signal was fatal.
fn halt_of(domain: &Domain, task: &mut Task, end: PipeEnd) -> Result<(), Halt>
    requires of { task.old.domain ≡ domain.now }
    requires work { IsAtWork task.old }
    ensures apart { Apart task.old task.new }
    ensures halts { MatchResult result (λ _. GoesOnBy task.old task.new end) (HaltsBy task.old task.new end) }
{
    match end {
        PipeEnd::Broken => Err(Halt::Broken),
        PipeEnd::Worn { head, place } => Err(Halt::Worn { head, place }),
        PipeEnd::Interrupted { .. } => {
            if is_killed(domain, task) {
                Err(Halt::Killed)
            } else {
                Ok(())
            }
        }
    }
}

/// Takes bytes out of pipe `pipe` into a buffer of 7 bytes at least, and tries again where a signal that is not fatal ended
/// the wait. 0 says that the write end is closed and all is taken.
pub fn get<R: Wait>(
    rt: &R,
    domain: &Domain,
    task: &mut Task,
    pipe: u8,
    buf: &mut [u8],
) -> Result<usize, Halt>
    requires of { task.old.domain ≡ domain.now }
    requires work { IsAtWork task.old }
    requires pipe { pipe < PIPES }
    requires settled { IsSettled (reading pipe task.old) }
    requires buf { 7 ≤ length buf.old }
    ensures same { length buf.new ≡ length buf.old }
    ensures most { IfOk result (λ n. n ≤ length buf.new) }
    ensures got { MatchResult result (λ n. HasGotBytes (read_end pipe) task.old task.new (take n buf.new))
        (λ _. HasGotBytes (read_end pipe) task.old task.new []) }
    ensures end { IfOk result (λ n. n ≡ 0 → IsAtEnd (reading pipe task.new)) }
    ensures cause { IfErr result (IsOwnHalt task.old task.new) }
    ensures goes { GetsPiece (read_end pipe) task.old task.new buf.new result }
{
    for _ in rt.forever() {
        match read_piece(rt, domain, task, pipe, buf) {
            Ok(n) => return Ok(n),
            Err(end) => {
                if let Err(halt) = halt_of(domain, task, end) {
                    return Err(halt);
                }
            }
        }
    }
    unreachable!()
}
