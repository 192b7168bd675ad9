//! Ends of pipes: they are opened once, and closed with a wake of those who wait for them.

ghost use Rattle.std.specs.Prelude.{◌≡◌, ◌<◌, ◌+◌, ◌*◌, ◌==◌, if◌then◌else◌, true};
ghost use Rattle.wait_model.specs.declared.layout.TheConstants.{CLAIMS, PIPES, PIPE_ENDS};
ghost use Rattle.wait_rule.specs.declared.journal.EndAct.TheVariants as act;
ghost use Rattle.wait_rule.specs.declared.journal.Item.TheVariants as item;
ghost use Rattle.wait_rule.specs.{Queues.IsIdle, Says.IsUp, Says.added};
ghost use Rattle.wait_rule.specs.Pipes.{closed, new_end, read_end, write_end};
ghost use Rattle.wait_rule.specs.PipeSays.{EndBecomes, IsOpen, end_at, reading, writing};
ghost use Rattle.wait_rule.specs.Stays.{Carries, claim_change, wake_all_change};
ghost use Rattle.wait_model.specs.declared.watches.Mode.TheVariants as mode;
ghost use Rattle.wait_model.specs.declared.watches.Watch.TheVariants as watch;
ghost use Rattle.wait_class.specs.Posts.{IsOut};
ghost use Rattle.wq_head.specs.Walks.{HasEnded, HasWoken};
ghost use Rattle.var_wait.specs.VarPublishes.{aim_of};
ghost use Rattle.wait_pipe.specs.{PassedOn.WokeWaiters, Trails.ClosesEnd};
ghost use Rattle.wait_pipe.specs.Pieces.{EndsPipe, IsPipeOpened, IsReadyAtPipe, OtherPipesStay};

use std::sync::Wait;
use wait_model::heads::head_of;
use wait_model::layout::PIPE_ENDS;
use wait_model::queues::Walked;
use wait_model::watches::{Mode, Watch};
use wait_rule::pipes::{claim, close};
use wait_rule::{Domain, Task};
use wq_head::{active, wake};

/// The number of the write end.
pub(crate) const WRITE: u8 = 0;

/// The number of the read end.
pub(crate) const READ: u8 = 1;

/// Takes the write end of pipe `pipe`, below `PIPES`. False exactly where it was taken before, by whomever. A task
/// that has an end owes that it is closed.
pub fn open_write(domain: &Domain, task: &mut Task, pipe: u8) -> bool
    requires of { task.old.domain ≡ domain.now }
    requires up { IsUp task.old }
    requires pipe { pipe < PIPES }
    ensures becomes { EndBecomes (write_end pipe) task.old task.new
        (if result then new_end else writing pipe task.old) }
    ensures opened { result ≡ true → IsPipeOpened (writing pipe task.new) }
    ensures step { (found : _) × ((task.new ≡ added task.old (item.Piped (write_end pipe) act.Claim found))
        × (result ≡ (found == 0))) }
    ensures carries { Carries (claim_change (write_end pipe) result) task.old task.new }
{
    claim(domain, task, pipe, WRITE)
}

/// Takes the read end of pipe `pipe`, below `PIPES`. False exactly where it was taken before, by whomever. A task
/// that has an end owes that it is closed.
pub fn open_read(domain: &Domain, task: &mut Task, pipe: u8) -> bool
    requires of { task.old.domain ≡ domain.now }
    requires up { IsUp task.old }
    requires pipe { pipe < PIPES }
    ensures becomes { EndBecomes (read_end pipe) task.old task.new
        (if result then new_end else reading pipe task.old) }
    ensures opened { result ≡ true → IsPipeOpened (reading pipe task.new) }
    ensures step { (found : _) × ((task.new ≡ added task.old (item.Piped (read_end pipe) act.Claim found))
        × (result ≡ (found == 0))) }
    ensures carries { Carries (claim_change (read_end pipe) result) task.old task.new }
{
    claim(domain, task, pipe, READ)
}

/// Wakes those who wait for variable `var`, below `CLAIMS`, which is the word of an end that its task has published: a
/// look without the lock whether the variable's head has members, and where it has any a walk over its queue with
/// NORMAL: with the publish, what `publish_var_and_wake` makes. The task is idle, and so it is afterwards.
#[inline(always)]
pub(crate) fn rouse<R: Wait>(rt: &R, domain: &Domain, task: &mut Task, var: u8)
    requires of { task.old.domain ≡ domain.now }
    requires up { IsUp task.old }
    requires idle { IsIdle task.old }
    requires var { var < CLAIMS }
    ensures roused { WokeWaiters var task.old task.new }
{
    task.told();
    if active(domain, task, head_of(Watch::Var { var, old: 0 })) {
        wake_end(rt, domain, task, var);
    }
}

/// Wakes those who wait for variable `var`, below `CLAIMS`, by a walk over the queue of its head with NORMAL.
fn wake_end<R: Wait>(rt: &R, domain: &Domain, task: &mut Task, var: u8) -> Walked
    requires of { task.old.domain ≡ domain.now }
    requires up { IsUp task.old }
    requires idle { IsIdle task.old }
    requires var { var < CLAIMS }
    ensures woken { HasWoken task.old task.new (aim_of var) result }
    ensures ended { HasEnded task.old task.new (aim_of var) }
    ensures up { IsUp task.new }
    ensures idle { IsIdle task.new }
    ensures carries { Carries (wake_all_change (watch.Var var 0) mode.Normal task.new.at) task.old task.new }
{
    wake(
        rt,
        domain,
        task,
        Watch::Var { var, old: 0 },
        Mode::Normal,
        1,
    )
}

/// Closes the write end of pipe `pipe`, below `PIPES`, and wakes the reader. The task has the end and has not closed
/// it; it is idle with no entry queued, and so it is afterwards.
pub fn close_write<R: Wait>(rt: &R, domain: &Domain, task: &mut Task, pipe: u8)
    requires of { task.old.domain ≡ domain.now }
    requires up { IsUp task.old }
    requires idle { IsIdle task.old }
    requires out { IsOut task.old }
    requires pipe { pipe < PIPES }
    requires still { IsOpen (writing pipe task.old) }
    ensures own { writing pipe task.new ≡ closed (writing pipe task.old) }
    ensures others { OtherPipesStay (write_end pipe) task.old task.new }
    ensures ends { EndsPipe (write_end pipe) task.old task.new }
    ensures closes { ClosesEnd (write_end pipe) task.old task.new }
{
    close_end(rt, domain, task, pipe, WRITE);
}

/// Closes the read end of pipe `pipe`, below `PIPES`, and wakes the writer. The task has the end and has not closed it;
/// it is idle with no entry queued, and so it is afterwards.
pub fn close_read<R: Wait>(rt: &R, domain: &Domain, task: &mut Task, pipe: u8)
    requires of { task.old.domain ≡ domain.now }
    requires up { IsUp task.old }
    requires idle { IsIdle task.old }
    requires out { IsOut task.old }
    requires pipe { pipe < PIPES }
    requires still { IsOpen (reading pipe task.old) }
    ensures own { reading pipe task.new ≡ closed (reading pipe task.old) }
    ensures others { OtherPipesStay (read_end pipe) task.old task.new }
    ensures ends { EndsPipe (read_end pipe) task.old task.new }
    ensures closes { ClosesEnd (read_end pipe) task.old task.new }
{
    close_end(rt, domain, task, pipe, READ);
}

/// Closes an end and wakes who waits for it.
fn close_end<R: Wait>(rt: &R, domain: &Domain, task: &mut Task, pipe: u8, end: u8)
    requires ready { IsReadyAtPipe domain.now task.old }
    requires pipe { pipe < PIPES }
    requires end { end < PIPE_ENDS }
    requires still { IsOpen (end_at (PIPE_ENDS * pipe + end) task.old) }
    ensures own { end_at (PIPE_ENDS * pipe + end) task.new ≡ closed (end_at (PIPE_ENDS * pipe + end) task.old) }
    ensures others { OtherPipesStay (PIPE_ENDS * pipe + end) task.old task.new }
    ensures ends { EndsPipe (PIPE_ENDS * pipe + end) task.old task.new }
    ensures closes { ClosesEnd (PIPE_ENDS * pipe + end) task.old task.new }
{
    task.told();
    close(domain, task, pipe, end);
    rouse(rt, domain, task, PIPE_ENDS as u8 * pipe + end);
}
