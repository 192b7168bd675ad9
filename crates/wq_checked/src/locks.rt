//! The lock of a head that a call waits for, and the one that it gave back.

ghost use Rattle.std.specs.Prelude.{◌≡◌};
ghost use Rattle.wq_checked.specs.Locks.{Passes, awaited_in, lock_at, lock_with, refusal_told, turn_ticket, wake_ticket};

use crate::calls::{Awaited, Progress, Running};
use completion_cell::cell_turns::CellStage;
use swait_queue::swake_turns::SwakeStage;
use wait_class::machines::Machine;
use wait_class::stages::{Doing, Run, Turn};
use wait_model::heads::head_of;
use wait_model::watches::Watch;
use wq_head::wakes::WakeStage;

/// The lock of a watch's head, where a ticket of it is drawn.
fn lock_with(watch: Watch, served: u64, ticket: Option<u64>) -> Option<Awaited>
    ensures { result ≡ lock_with watch served ticket }
{
    match ticket {
        Some(number) => Some(Awaited {
            head: head_of(watch),
            ticket: number,
            served,
        }),
        None => None,
    }
}

/// The ticket that is out where a wait of the ground waits for a lock: None where it does something else.
fn turn_ticket(doing: Doing, ticket: u64) -> Option<u64>
    ensures { result ≡ turn_ticket doing ticket }
{
    match doing {
        Doing::Lock => Some(ticket),
        _ => None,
    }
}

/// The lock for which a wait of the ground waits at a stage.
fn lock_at<C: Machine>(run: Run<C>, stage: C::Stage) -> Option<Awaited>
    ensures { result ≡ lock_at C.table run stage }
{
    let ticket = turn_ticket(C::doing(stage), run.ticket);
    lock_with(run.of.watch(stage), run.served, ticket)
}

fn wake_ticket(stage: WakeStage, ticket: u64) -> Option<u64>
    ensures { result ≡ wake_ticket stage ticket }
{
    match stage {
        WakeStage::FirstTurn => Some(ticket),
        WakeStage::NextTurn => Some(ticket),
        _ => None,
    }
}

/// The lock that the call under way waits for, whose last stretch found another ticket served. None: it waits for none.
pub(crate) fn awaited(running: Running) -> Option<Awaited>
    ensures { result ≡ awaited_in running }
{
    match running {
        Running::Event(run, Turn::Locked(stage)) => lock_at(run, stage),
        Running::Bit(run, Turn::Locked(stage)) => lock_at(run, stage),
        Running::Lock(run, Turn::Locked(stage)) => lock_at(run, stage),
        Running::Page(run, Turn::Locked(stage)) => lock_at(run, stage),
        Running::Await(run, Turn::Locked(stage)) => lock_at(run, stage),
        Running::Wake(run, stage) => {
            lock_with(run.aim.watch, run.served, wake_ticket(stage, run.ticket))
        }
        Running::Swake(run, SwakeStage::Turn) => {
            let watch = Watch::Plain { cond: run.cond };
            lock_with(watch, run.served, Some(run.ticket))
        }
        Running::Cell(run, CellStage::Turn) => {
            let watch = Watch::Done { cell: run.cell };
            lock_with(watch, run.served, Some(run.ticket))
        }
        _ => None,
    }
}

/// A call whose stretch was refused its lock.
pub(crate) fn refused(next: Running) -> (Running, Progress)
    ensures left { result.0 ≡ next }
    ensures shown { result.1 ≡ refusal_told next }
{
    match awaited(next) {
        Some(lock) => (next, Progress::Locked(lock)),
        None => (next, Progress::Again),
    }
}

/// The head whose lock was passed on, in the stretches of one call so far: `before` up to this one, which began with
/// the ticket `out` and told so; `handed` has the lock that was handed on in it.
pub(crate) fn passed_on(
    before: Option<u16>,
    out: Option<Awaited>,
    told: Progress,
    handed: Option<u16>,
) -> Option<u16>
    ensures { Passes out told before result }
{
    if before.is_some() {
        return before;
    }
    match (out, told) {
        (_, Progress::Locked(_)) => handed,
        (_, Progress::Starved) => handed,
        (Some(lock), _) => Some(lock.head),
        (None, _) => handed,
    }
}
