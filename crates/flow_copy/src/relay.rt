//! The worker between the two pipes.

ghost use Rattle.std.specs.Prelude.{◌≡◌, ◌≢◌, ◌<◌, Some};
ghost use Rattle.wait_model.specs.declared.layout.TheConstants.{PIPES};
ghost use Rattle.wait_rule.specs.{Pipes.read_end, PipeSays.reading, PipeSays.writing};
ghost use Rattle.wait_pipe.specs.Pieces.{IsSettled};
ghost use Rattle.copy_plan.specs.declared.gate.Who.TheVariants as who;
ghost use Rattle.copy_plan.specs.declared.TheConstants.{SINK_PIPE, SOURCE_PIPE};
ghost use Rattle.copy_ends.specs.Did.{IsIdler, RelayDid, RelayWorked};
ghost use Rattle.copy_turns.specs.{Turns.Relaying, Work.IsAtWork};
ghost use Rattle.flow_copy.specs.Workers.{GetsAnd, RelayGoes, RelayTurn, RelayTurns, RelayWorks, RelaysPiece};

use crate::parts::hand_on;
use completion_cell::completes::complete;
use copy_plan::gate::{Gate, GatePass, Who, pass_gate};
use copy_plan::stop::{NOT_TAKEN, Stop, WorkerEnd, stop_of};
use copy_plan::{ENDED_CELL, PIECE, SINK_PIPE, SOURCE_PIPE};
use copy_turns::{get, is_killed};
use std::sync::Wait;
use wait_pipe::{close_read, close_write, open_read, open_write};
use wait_rule::{Domain, Task};

/// Takes a piece out of pipe `from`, and puts it into pipe `to`, both below `PIPES` and not the same; `moved` is what the
/// worker has counted, modulo 2^64. None where it goes on; Finished: the first pipe is at its end.
pub fn pass_piece<R: Wait>(
    rt: &R,
    domain: &Domain,
    task: &mut Task,
    from: u8,
    to: u8,
    moved: &mut u64,
) -> Option<Stop>
    requires of { task.old.domain ≡ domain.now }
    requires work { IsAtWork task.old }
    requires from { from < PIPES }
    requires to { to < PIPES }
    requires apart { from ≢ to }
    requires tap { IsSettled (reading from task.old) }
    requires pen { IsSettled (writing to task.old) }
    ensures turn { Relaying from to task.old task.new moved.old moved.new result }
    ensures goes { (piece : _) × GetsAnd (read_end from) (RelaysPiece to) task.old task.new piece result }
{
    let counted = *moved;
    let mut buf = [0; PIECE];
    let taken = match get(rt, domain, task, from, &mut buf) {
        Ok(taken) => taken,
        Err(halt) => return Some(stop_of(halt)),
    };
    if taken == 0 {
        return Some(Stop::Finished);
    }
    match hand_on(rt, domain, task, to, &buf[..taken]) {
        Ok(()) => {
            *moved = counted.wrapping_add(taken as u64);
            None
        }
        Err(halt) => Some(stop_of(halt)),
    }
}

/// A turn: takes the own signals, takes a piece out of the first pipe, and puts it into the second. `moved` is what the
/// relay has counted, modulo 2^64. None where it goes on.
fn relay_turn<R: Wait>(
    rt: &R,
    domain: &Domain,
    task: &mut Task,
    pass: GatePass,
    moved: &mut u64,
) -> Option<Stop>
    requires of { task.old.domain ≡ domain.now }
    requires work { IsAtWork task.old }
    requires own { pass.who ≡ who.Relay }
    requires tap { IsSettled (reading SOURCE_PIPE task.old) }
    requires pen { IsSettled (writing SINK_PIPE task.old) }
    ensures turn { Relaying SOURCE_PIPE SINK_PIPE task.old task.new moved.old moved.new result }
    ensures goes { (piece : _) × RelayTurn piece task.old task.new result }
{
    let _counted = *moved;
    pass.spend();
    if is_killed(domain, task) {
        return Some(Stop::Killed);
    }
    pass_piece(rt, domain, task, SOURCE_PIPE, SINK_PIPE, moved)
}

/// Turns up to a stop.
fn relay_on<R: Wait, G: Gate>(rt: &R, domain: &Domain, task: &mut Task, gate: &G) -> WorkerEnd
    requires of { task.old.domain ≡ domain.now }
    requires work { IsAtWork task.old }
    requires tap { IsSettled (reading SOURCE_PIPE task.old) }
    requires pen { IsSettled (writing SINK_PIPE task.old) }
    ensures turns { Relaying SOURCE_PIPE SINK_PIPE task.old task.new 0 result.moved (Some result.stop) }
    ensures goes { (bytes : _) × RelayTurns task.old bytes task.new (Some result.stop) }
{
    let mut moved = 0;
    let mut turn: u64 = 0;
    for _ in rt.forever() {
        turn = turn.saturating_add(1);
        let pass = pass_gate(gate, Who::Relay, turn);
        if let Some(stop) = relay_turn(rt, domain, task, pass, &mut moved) {
            return WorkerEnd { stop, moved };
        }
    }
    unreachable!()
}

/// Passes on what comes out of pipe `SOURCE_PIPE` into pipe `SINK_PIPE`, a piece of at most `PIECE` bytes a turn.
///
/// The task owes nothing, and so it is afterwards. It opens the read end of the first pipe and the write end of the
/// second, and stops as Taken exactly where one of them was opened before. Gate, signals, the tally of page
/// `COUNTED_PAGE`, Killed and Worn are as of `reader_task`. Broken: the read end of the second pipe was closed.
/// Finished exactly where the write end of the first was closed, all that it sent was taken, and all of that went on.
/// At its end, for whatever cause, it closes the ends that it opened, and completes `ENDED_CELL`.
pub fn relay_task<R: Wait, G: Gate>(rt: &R, domain: &Domain, task: &mut Task, gate: &G) -> WorkerEnd
    requires of { task.old.domain ≡ domain.now }
    requires idler { IsIdler task.old }
    ensures did { RelayDid task.old task.new result }
    ensures goes { RelayGoes task.old task.new result.stop }
{
    let ended = relay_through(rt, domain, task, gate);
    complete(rt, domain, task, ENDED_CELL);
    ended
}

/// The work of a relay, from the opening of its ends to their closing.
fn relay_through<R: Wait, G: Gate>(rt: &R, domain: &Domain, task: &mut Task, gate: &G) -> WorkerEnd
    requires of { task.old.domain ≡ domain.now }
    requires idler { IsIdler task.old }
    ensures did { RelayWorked task.old task.new result }
    ensures goes { RelayWorks task.old task.new result.stop }
{
    if !open_read(domain, task, SOURCE_PIPE) {
        return NOT_TAKEN;
    }
    if !open_write(domain, task, SINK_PIPE) {
        close_read(rt, domain, task, SOURCE_PIPE);
        return NOT_TAKEN;
    }
    let ended = relay_on(rt, domain, task, gate);
    close_read(rt, domain, task, SOURCE_PIPE);
    close_write(rt, domain, task, SINK_PIPE);
    ended
}
