//! Pieces of bytes that one task puts into a pipe, and another one takes out.

ghost use Rattle.std.specs.Prelude.{◌≡◌};
ghost use Rattle.wait_class.specs.Posts.{IsOut};
ghost use Rattle.wait_pipe.specs.Pieces.{IsSettled};
ghost use Rattle.wait_rule.specs.{PipeSays.reading, PipeSays.writing, Queues.IsIdle, Says.IsClean, Says.IsUp};

use std::sync::Wait;
use wait_pipe::{open_read, open_write, read_piece, write_piece};
use wait_rule::{Domain, Task};

/// The pipe.
const PIPE: u8 = 0;

/// How many bytes a piece has.
const BYTES: usize = 7;

/// Puts a piece in: true where all of it went in.
fn put<R: Wait>(rt: &R, domain: &Domain, task: &mut Task) -> bool
    requires of { task.old.domain ≡ domain.now }
    requires up { IsUp task.old }
    requires idle { IsIdle task.old }
    requires out { IsOut task.old }
    requires settled { IsSettled (writing 0 task.old) }
    ensures of { task.new.domain ≡ domain.now }
    ensures up { IsUp task.new }
    ensures idle { IsIdle task.new }
    ensures out { IsOut task.new }
    ensures settled { IsSettled (writing 0 task.new) }
{
    matches!(
        write_piece(rt, domain, task, PIPE, &[1u8; BYTES]),
        Ok(BYTES)
    )
}

/// Takes a piece out: true where all of it came.
fn get<R: Wait>(rt: &R, domain: &Domain, task: &mut Task) -> bool
    requires of { task.old.domain ≡ domain.now }
    requires up { IsUp task.old }
    requires idle { IsIdle task.old }
    requires out { IsOut task.old }
    requires settled { IsSettled (reading 0 task.old) }
    ensures of { task.new.domain ≡ domain.now }
    ensures up { IsUp task.new }
    ensures idle { IsIdle task.new }
    ensures out { IsOut task.new }
    ensures settled { IsSettled (reading 0 task.new) }
{
    let mut buf = [0u8; BYTES];
    matches!(read_piece(rt, domain, task, PIPE, &mut buf), Ok(BYTES))
}

/// Puts `n` pieces in, each of which is taken out before the next: true where each was.
fn often<R: Wait>(rt: &R, domain: &Domain, one: &mut Task, two: &mut Task, n: u64) -> bool
    requires of { (one.old.domain ≡ domain.now) × (two.old.domain ≡ domain.now) }
    requires up { IsUp one.old × IsUp two.old }
    requires idle { IsIdle one.old × IsIdle two.old }
    requires out { IsOut one.old × IsOut two.old }
    requires settled { IsSettled (writing 0 one.old) × IsSettled (reading 0 two.old) }
{
    let mut all = true;
    for _ in 0..n {
        if !put(rt, domain, one) || !get(rt, domain, two) {
            all = false;
        }
    }
    all
}

/// Opens the pipe, and puts `n` pieces in and takes them out: true where each went in and came out.
pub(crate) fn repeat_pieces<R: Wait>(
    rt: &R,
    domain: &Domain,
    one: &mut Task,
    two: &mut Task,
    n: u64,
) -> bool
    requires of { (one.old.domain ≡ domain.now) × (two.old.domain ≡ domain.now) }
    requires clean { IsClean one.old × IsClean two.old }
{
    if !open_write(domain, one, PIPE) || !open_read(domain, two, PIPE) {
        return false;
    }
    often(rt, domain, one, two, n)
}
