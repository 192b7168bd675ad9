//! Looks at pipes from their read ends, with nothing taken.

ghost use Rattle.std.specs.Prelude.{◌≡◌, ◌<◌};
ghost use Rattle.wait_model.specs.declared.layout.TheConstants.{PIPES};
ghost use Rattle.wait_rule.specs.{Pipes.read_end, PipeSays.reading, Says.IsFree, Says.IsUp};
ghost use Rattle.wait_pipe.specs.Pieces.{IsSettled};
ghost use Rattle.wait_pipe.specs.PipeStates.{OnlyLooked, PeeksRead, TellsOfPipe};

use crate::ends::READ;
use crate::looks::{between, load_over};
use wait_rule::{Domain, Task};

/// What a look at a pipe from its read end told: `word` is the writer's word as it was found, `cells` how many cells are
/// there for the reader, 0 to `PIPE_CELLS`, and `closed` whether the write end is closed.
#[derive(Clone, Copy, Debug, PartialEq, Eq, Drop)]
pub struct PipeState {
    pub word: u64,
    pub cells: u16,
    pub closed: bool,
}

/// Looks what a `read_piece` of pipe `pipe`, below `PIPES`, would find, and takes nothing: one load of the writer's word,
/// as `pipe_poll` tells whether there is something to be read, and whether a writer is left (fs/pipe.c); but it queues no
/// entry. Where a cell is there, a read takes some; where none is and the write end is closed, a read answers 0; where
/// none is and that end is open, it would wait for the word to be another than `word`, as `wait_var` of variable
/// 2 `pipe` does. It never waits. The task has the read end and has not closed it, and every cell that it loaded before
/// was given back; it holds no head, and may be in a state of a sleep with an entry queued. Nothing changes but what it
/// knows.
pub fn peek_read(domain: &Domain, task: &mut Task, pipe: u8) -> PipeState
    requires of { task.old.domain ≡ domain.now }
    requires up { IsUp task.old }
    requires free { IsFree task.old }
    requires pipe { pipe < PIPES }
    requires settled { IsSettled (reading pipe task.old) }
    ensures state { TellsOfPipe pipe task.new result }
    ensures looked { OnlyLooked (read_end pipe) task.old task.new }
    ensures goes { PeeksRead (read_end pipe) task.old task.new result }
{
    let look = load_over(domain, task, pipe, READ);
    let cells = between(look.own, look.other);
    PipeState {
        word: look.word,
        cells,
        closed: look.closed,
    }
}
