//! Looks from one end of a pipe at the other, and waits for it.

ghost use Rattle.std.specs.Prelude.{◌≡◌, ◌<◌, ◌+◌, ◌-◌, ◌*◌, ◌%◌};
ghost use Rattle.std.specs.Prelude.{IfErr, true};
ghost use Rattle.wait_model.specs.declared.layout.TheConstants.{CLAIMS, PIPES, PIPE_ENDS};
ghost use Rattle.wait_rule.specs.Pipes.{other_end, word_counts, write_end};
ghost use Rattle.wait_rule.specs.PipeSays.{IsOpen, end_at, writing};
ghost use Rattle.wait_rule.specs.Says.{IsFree, IsUp};
ghost use Rattle.wait_pipe.specs.{PipeStates.OnlyLooked, Trails.AwaitsOther, Trails.LoadsOther};
ghost use Rattle.wait_pipe.specs.PieceLeaves.{AwaitsUntil, IsPieceUntil, end_of_until};
ghost use Rattle.wait_pipe.specs.Pieces.{HasSeen, IsReadCause, IsReadyAtPipe, ShowsNoCell, WaitsAtPipe, end_of_wait};

use crate::ends::WRITE;
use crate::pieces::PipeEnd;
use std::sync::Wait;
use var_wait::{wait_var, wait_var_until};
use wait_event::wait_events::WaitEnd;
use wait_event::wait_leaves::WaitUntil;
use wait_leave::Until;
use wait_model::layout::{PIPE_CELLS, PIPE_ENDS};
use wait_model::tasks::SleepState;
use wait_model::watches::Watch;
use wait_rule::pipes::own_load;
use wait_rule::queues::cond_load;
use wait_rule::{Domain, Task};

/// The word of an end has its count of cells modulo this.
pub const COUNTS: u16 = 2 * PIPE_CELLS;

/// What a task saw of a pipe from one end: the own count and that of the other end, modulo `COUNTS`, the other end's
/// word, and whether this shows it closed.
#[derive(Clone, Copy, Drop)]
pub struct Look {
    pub own: u16,
    pub other: u16,
    pub word: u64,
    pub closed: bool,
}

/// A look from end `end`, 0 write and 1 read, of pipe `pipe`, below `PIPES`, at the other end, and at the own word. It
/// changes nothing but what the task knows. The task holds no head; it has the end and has not closed it.
#[inline(always)]
pub fn load_over(domain: &Domain, task: &mut Task, pipe: u8, end: u8) -> Look
    requires of { task.old.domain ≡ domain.now }
    requires up { IsUp task.old }
    requires free { IsFree task.old }
    requires pipe { pipe < PIPES }
    requires end { end < PIPE_ENDS }
    requires still { IsOpen (end_at (PIPE_ENDS * pipe + end) task.old) }
    ensures looked { OnlyLooked (PIPE_ENDS * pipe + end) task.old task.new }
    ensures seen { HasSeen (PIPE_ENDS * pipe + end) task.new result }
    ensures loads { LoadsOther (PIPE_ENDS * pipe + end) result.word task.old task.new }
{
    let var = PIPE_ENDS as u8 * pipe + (1 - end);
    let word = cond_load(domain, task, Watch::Var { var, old: 0 });
    let own = own_load(domain, task, pipe, end);
    Look {
        own: (own / 2) as u16,
        other: (word / 2 % u64::from(COUNTS)) as u16,
        word,
        closed: word % 2 == 1,
    }
}

/// The same of an idle task with no entry queued, as a turn of a call begins.
#[inline(always)]
pub fn look_over(domain: &Domain, task: &mut Task, pipe: u8, end: u8) -> Look
    requires ready { IsReadyAtPipe domain.now task.old }
    requires pipe { pipe < PIPES }
    requires end { end < PIPE_ENDS }
    requires still { IsOpen (end_at (PIPE_ENDS * pipe + end) task.old) }
    ensures waits { WaitsAtPipe (PIPE_ENDS * pipe + end) task.old task.new }
    ensures seen { HasSeen (PIPE_ENDS * pipe + end) task.new result }
    ensures loads { LoadsOther (PIPE_ENDS * pipe + end) result.word task.old task.new }
{
    load_over(domain, task, pipe, end)
}

/// A look from the write end of pipe `pipe`.
pub fn look_to_write(domain: &Domain, task: &mut Task, pipe: u8) -> Look
    requires ready { IsReadyAtPipe domain.now task.old }
    requires pipe { pipe < PIPES }
    requires still { IsOpen (writing pipe task.old) }
    ensures waits { WaitsAtPipe (write_end pipe) task.old task.new }
    ensures seen { HasSeen (write_end pipe) task.new result }
    ensures loads { LoadsOther (write_end pipe) result.word task.old task.new }
{
    look_over(domain, task, pipe, WRITE)
}

/// How many cells lie between two counts.
pub fn between(from: u16, to: u16) -> u16
    requires from { from < word_counts }
    requires to { to < word_counts }
    ensures { result ≡ (to + word_counts - from) % word_counts }
{
    (to + COUNTS - from) % COUNTS
}

/// The number of the other end of the pipe of end `own`, below `CLAIMS`.
fn other_of(own: u8) -> u8
    requires { own < CLAIMS }
    ensures { result ≡ other_end own }
{
    if own % 2 == 0 { own + 1 } else { own - 1 }
}

/// Waits until the word of the other end of end `own`, below `CLAIMS`, is not `word` any more, which shows that end open
/// and no cell for this one.
#[inline(never)]
pub fn wait_for<R: Wait>(
    rt: &R,
    domain: &Domain,
    task: &mut Task,
    own: u8,
    word: u64,
) -> Result<(), PipeEnd>
    requires ready { IsReadyAtPipe domain.now task.old }
    requires own { own < CLAIMS }
    requires none { ShowsNoCell own (end_at own task.old) word }
    ensures waits { WaitsAtPipe own task.old task.new }
    ensures cause { IfErr result (IsReadCause own task.new) }
    ensures awaits { AwaitsOther own word task.old task.new result }
{
    task.told();
    let var = other_of(own);
    let waited = wait_var(rt, domain, task, var, word, SleepState::Interruptible);
    answer_of(waited)
}

/// The answer of a wait for the other end.
fn answer_of(waited: Result<u64, WaitEnd>) -> Result<(), PipeEnd>
    ensures { result ≡ end_of_wait waited }
{
    match waited {
        Ok(_) => Ok(()),
        Err(WaitEnd::Signal { seen, .. }) => Err(PipeEnd::Interrupted { seen }),
        Err(WaitEnd::Worn { head, place }) => Err(PipeEnd::Worn { head, place }),
    }
}

/// Waits as `wait_for` does, but leaves the wait once `asks` has answered true.
pub(crate) fn wait_for_until<R: Wait, Q: Fn() -> bool>(
    rt: &R,
    domain: &Domain,
    task: &mut Task,
    own: u8,
    word: u64,
    asks: Q,
) -> Until<Result<(), PipeEnd>>
    requires ready { IsReadyAtPipe domain.now task.old }
    requires own { own < CLAIMS }
    requires none { ShowsNoCell own (end_at own task.old) word }
    requires asks { Q.IsAlwaysCallable asks }
    ensures waits { WaitsAtPipe own task.old task.new }
    ensures cause { IsPieceUntil (Q.post asks true) own task.new result }
    ensures awaits { AwaitsUntil (Q.post asks true) own word task.old task.new result }
{
    task.told();
    let var = other_of(own);
    let state = SleepState::Interruptible;
    let waited = wait_var_until(rt, domain, task, var, word, state, asks);
    until_of(waited)
}

/// The answer of a wait for the other end that may have been left.
fn until_of(waited: WaitUntil<Result<u64, WaitEnd>>) -> Until<Result<(), PipeEnd>>
    ensures { result ≡ end_of_until waited }
{
    match waited {
        WaitUntil::Over(end) => Until::Over(answer_of(end)),
        WaitUntil::Left { seen, selected: _ } => Until::Left { seen },
    }
}
