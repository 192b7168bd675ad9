//! The worker that writes the sink.

ghost use Rattle.std.specs.Prelude.{◌≡◌, ◌<◌, Some};
ghost use Rattle.wait_model.specs.declared.layout.TheConstants.{PIPES};
ghost use Rattle.wait_rule.specs.PipeSays.{reading};
ghost use Rattle.wait_pipe.specs.Pieces.{IsSettled};
ghost use Rattle.copy_plan.specs.declared.gate.Who.TheVariants as who;
ghost use Rattle.copy_ends.specs.Did.{IsIdler, WriterDid, WriterWorked};
ghost use Rattle.copy_turns.specs.{Turns.Writing, Work.IsAtWork};
ghost use Rattle.flow_copy.specs.Workers.{WriterGoes, WriterTurn, WriterTurns, WriterWorks};

use crate::parts::count;
use completion_cell::completes::complete;
use copy_plan::gate::{Gate, GatePass, Who, pass_gate};
use copy_plan::stop::{NOT_TAKEN, Stop, WorkerEnd, stop_of};
use copy_plan::{ENDED_CELL, PIECE};
use copy_turns::{get, is_killed};
use edge_io::{Sink, SinkFault, write_all};
use func_head::Watchers;
use std::sync::Wait;
use wait_pipe::{close_read, open_read};
use wait_rule::{Domain, Task};

/// A turn: takes the own signals, takes a piece out of the pipe, writes it into the sink, and shows it to the
/// watchers. `moved` is what the writer has counted, modulo 2^64. None where it goes on.
fn write_turn<R: Wait, K: Sink, W: Watchers>(
    rt: &R,
    domain: &Domain,
    task: &mut Task,
    pipe: u8,
    pass: GatePass,
    sink: &mut K,
    watch: &mut W,
    moved: &mut u64,
) -> Option<Stop>
    requires of { task.old.domain ≡ domain.now }
    requires work { IsAtWork task.old }
    requires pipe { pipe < PIPES }
    requires own { pass.who ≡ who.Writer }
    requires settled { IsSettled (reading pipe task.old) }
    ensures turn { Writing pipe task.old task.new (K.held sink.old) (K.held sink.new) (K.faults sink.old) (K.faults sink.new)
        (K.wants sink.old) (K.wants sink.new) (W.entries watch.old) (W.entries watch.new) moved.old moved.new result }
    ensures goes { (piece : _) × WriterTurn pipe piece task.old task.new result }
{
    let counted = *moved;
    pass.spend();
    if is_killed(domain, task) {
        return Some(Stop::Killed);
    }
    let mut buf = [0; PIECE];
    let taken = match get(rt, domain, task, pipe, &mut buf) {
        Ok(taken) => taken,
        Err(halt) => return Some(stop_of(halt)),
    };
    if taken == 0 {
        return Some(Stop::Finished);
    }
    match write_all(sink, &buf[..taken]) {
        Ok(()) => {}
        Err(SinkFault::Failed) => return Some(Stop::WriteFault),
        Err(SinkFault::OutOfMemory) => return Some(Stop::Memory),
    }
    watch.show(&buf[..taken]);
    match count(rt, domain, task, taken as u64) {
        Ok(()) => {
            *moved = counted.wrapping_add(taken as u64);
            None
        }
        Err(halt) => Some(stop_of(halt)),
    }
}

/// Turns up to a stop.
fn write_on<R: Wait, K: Sink, W: Watchers, G: Gate>(
    rt: &R,
    domain: &Domain,
    task: &mut Task,
    pipe: u8,
    sink: &mut K,
    watch: &mut W,
    gate: &G,
) -> WorkerEnd
    requires of { task.old.domain ≡ domain.now }
    requires work { IsAtWork task.old }
    requires pipe { pipe < PIPES }
    requires settled { IsSettled (reading pipe task.old) }
    ensures turns { Writing pipe task.old task.new (K.held sink.old) (K.held sink.new) (K.faults sink.old)
        (K.faults sink.new) (K.wants sink.old) (K.wants sink.new) (W.entries watch.old) (W.entries watch.new) 0
        result.moved (Some result.stop) }
    ensures goes { (bytes : _) × WriterTurns pipe task.old bytes task.new (Some result.stop) }
{
    let mut moved = 0;
    let mut turn: u64 = 0;
    for _ in rt.forever() {
        turn = turn.saturating_add(1);
        let pass = pass_gate(gate, Who::Writer, turn);
        if let Some(stop) = write_turn(rt, domain, task, pipe, pass, sink, watch, &mut moved) {
            return WorkerEnd { stop, moved };
        }
    }
    unreachable!()
}

/// Writes what comes out of pipe `pipe`, below `PIPES`, into a sink, a piece of at most `PIECE` bytes a turn.
///
/// The task owes nothing, and so it is afterwards. It opens the read end of the pipe, and stops as Taken exactly where
/// it was opened before. Gate, signals, the tally of page `COUNTED_PAGE`, Killed and Worn are as of `reader_task`; a
/// piece that went wholly into the sink is shown to the watchers, and counted after that. WriteFault: the sink failed;
/// Memory: it wanted memory. Finished exactly where the write end of the pipe was closed, all that it sent was taken,
/// and all of that went into the sink. For every stop the sink got a front of what came out of the pipe. At its end,
/// for whatever cause, it closes the end that it opened, and completes `ENDED_CELL`.
pub fn writer_task<R: Wait, K: Sink, W: Watchers, G: Gate>(
    rt: &R,
    domain: &Domain,
    task: &mut Task,
    pipe: u8,
    sink: &mut K,
    watch: &mut W,
    gate: &G,
) -> WorkerEnd
    requires of { task.old.domain ≡ domain.now }
    requires idler { IsIdler task.old }
    requires pipe { pipe < PIPES }
    ensures did { WriterDid pipe task.old task.new (K.held sink.old) (K.held sink.new) (K.faults sink.old)
        (K.faults sink.new) (K.wants sink.old) (K.wants sink.new) (W.entries watch.old) (W.entries watch.new) result }
    ensures goes { WriterGoes pipe task.old task.new result.stop }
{
    let ended = write_through(rt, domain, task, pipe, sink, watch, gate);
    complete(rt, domain, task, ENDED_CELL);
    ended
}

/// The work of a writer, from the opening of its end to its closing.
fn write_through<R: Wait, K: Sink, W: Watchers, G: Gate>(
    rt: &R,
    domain: &Domain,
    task: &mut Task,
    pipe: u8,
    sink: &mut K,
    watch: &mut W,
    gate: &G,
) -> WorkerEnd
    requires of { task.old.domain ≡ domain.now }
    requires idler { IsIdler task.old }
    requires pipe { pipe < PIPES }
    ensures did { WriterWorked pipe task.old task.new (K.held sink.old) (K.held sink.new) (K.faults sink.old)
        (K.faults sink.new) (K.wants sink.old) (K.wants sink.new) (W.entries watch.old) (W.entries watch.new) result }
    ensures goes { WriterWorks pipe task.old task.new result.stop }
{
    if !open_read(domain, task, pipe) {
        return NOT_TAKEN;
    }
    let ended = write_on(rt, domain, task, pipe, sink, watch, gate);
    close_read(rt, domain, task, pipe);
    ended
}
