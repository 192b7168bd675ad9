//! The worker that reads the source.

ghost use Rattle.std.specs.Prelude.{◌≡◌, ◌≤◌, ◌<◌, Some, [], length, take, IfOk, IfSome, OnErr};
ghost use Rattle.std.specs.Io.KnownBytes.{prepend_known};
ghost use Rattle.wait_model.specs.declared.layout.TheConstants.{PIPES};
ghost use Rattle.wait_rule.specs.PipeSays.{writing};
ghost use Rattle.wait_pipe.specs.Pieces.{IsSettled};
ghost use Rattle.edge_io.specs.Faults.{HasRisen};
ghost use Rattle.copy_plan.specs.declared.gate.Who.TheVariants as who;
ghost use Rattle.copy_plan.specs.declared.TheConstants.{LONGEST, PIECE, SIGNALS};
ghost use Rattle.copy_ends.specs.Did.{IsIdler, ReaderDid, ReaderWorked};
ghost use Rattle.copy_turns.specs.{Turns.Reading, Work.IsAtWork};
ghost use Rattle.flow_copy.specs.Workers.{FromSource, ReaderGoes, ReaderTurn, ReaderTurns, ReaderWorks};

use crate::parts::hand_on;
use completion_cell::completes::complete;
use copy_plan::gate::{Gate, GatePass, Who, pass_gate};
use copy_plan::plan::count_due;
use copy_plan::stop::{NOT_READ, ReaderEnd, Stop, stop_of};
use copy_plan::{ENDED_CELL, LONGEST, PIECE, Planned};
use copy_turns::{is_killed, send_due};
use edge_io::{Failed, Source};
use std::sync::Wait;
use wait_pipe::{close_write, open_write};
use wait_rule::{Domain, Task};

/// A turn: takes the own signals, reads a piece, sends the signals that are due then, and puts the piece into the
/// pipe. `read` is how many bytes the source has given. None where the reader goes on.
fn read_turn<R: Wait, S: Source>(
    rt: &R,
    domain: &Domain,
    task: &mut Task,
    pipe: u8,
    pass: GatePass,
    source: &mut S,
    plan: &[Planned],
    targets: [u8; 3],
    read: &mut u64,
) -> Option<Stop>
    requires of { task.old.domain ≡ domain.now }
    requires work { IsAtWork task.old }
    requires pipe { pipe < PIPES }
    requires own { pass.who ≡ who.Reader }
    requires settled { IsSettled (writing pipe task.old) }
    requires short { read.old ≤ LONGEST }
    ensures turn { Reading pipe task.old task.new (S.left source.old) (S.left source.new) (S.faults source.old)
        (S.faults source.new) read.old read.new targets plan.now result }
    ensures goes { FromSource (S.left source.old) (S.left source.new) read.old read.new
        (λ piece. ReaderTurn pipe targets plan.now read.old task.old task.new piece result) }
{
    pass.spend();
    if is_killed(domain, task) {
        return Some(Stop::Killed);
    }
    let mut buf = [0; PIECE];
    let taken = match take_in(source, &mut buf) {
        Ok(taken) => taken,
        Err(_) => return Some(Stop::ReadFault),
    };
    if taken == 0 {
        return Some(Stop::Finished);
    }
    let before = *read;
    *read = before + taken as u64;
    send_due(rt, domain, task, plan, targets, before + 1, *read);
    if *read > LONGEST {
        return Some(Stop::Long);
    }
    match hand_on(rt, domain, task, pipe, &buf[..taken]) {
        Ok(()) => None,
        Err(halt) => Some(stop_of(halt)),
    }
}

/// Reads the next bytes of a source into a buffer of `PIECE` bytes.
fn take_in<S: Source>(source: &mut S, buf: &mut [u8]) -> Result<usize, Failed>
    requires buf { length buf.old ≡ PIECE }
    ensures same { length buf.new ≡ length buf.old }
    ensures fits { IfOk result (λ n. n ≤ length buf.old) }
    ensures bytes { IfOk result (λ n. S.left source.old ≡ prepend_known (take n buf.new) (S.left source.new)) }
    ensures end { IfOk result (λ n. n ≡ 0 → 0 < length buf.old → IfSome (S.left source.old) (λ bytes. bytes ≡ [])) }
    ensures nothing { OnErr result (S.left source.new ≡ S.left source.old) }
    ensures cause { OnErr result (HasRisen (S.faults source.old) (S.faults source.new)) }
    ensures later { S.faults source.old ≤ S.faults source.new }
{
    source.read(buf)
}

/// Turns up to a stop.
fn read_on<R: Wait, S: Source, G: Gate>(
    rt: &R,
    domain: &Domain,
    task: &mut Task,
    pipe: u8,
    source: &mut S,
    plan: &[Planned],
    targets: [u8; 3],
    gate: &G,
    read: &mut u64,
) -> Stop
    requires of { task.old.domain ≡ domain.now }
    requires work { IsAtWork task.old }
    requires pipe { pipe < PIPES }
    requires settled { IsSettled (writing pipe task.old) }
    requires short { read.old ≤ LONGEST }
    ensures turns { Reading pipe task.old task.new (S.left source.old) (S.left source.new) (S.faults source.old)
        (S.faults source.new) read.old read.new targets plan.now (Some result) }
    ensures goes { FromSource (S.left source.old) (S.left source.new) read.old read.new
        (λ bytes. ReaderTurns pipe targets plan.now read.old task.old bytes task.new (Some result)) }
{
    let mut turn: u64 = 0;
    for _ in rt.forever() {
        turn = turn.saturating_add(1);
        let pass = pass_gate(gate, Who::Reader, turn);
        match read_turn(rt, domain, task, pipe, pass, source, plan, targets, read) {
            None => {}
            Some(stop) => return stop,
        }
    }
    unreachable!()
}

/// Reads a source to its end, and puts its bytes into pipe `pipe`, below `PIPES`, a piece of at most `PIECE` bytes a turn.
///
/// The task owes nothing, and so it is afterwards. It opens the write end of the pipe, and stops as Taken exactly where
/// it was opened before. At the beginning of each turn it passes the gate and takes its own signals: it stops as Killed
/// where a fatal one was pending, also where one ended a wait of it for the pipe or for the page. After it has opened
/// its end, and in each turn before it puts the bytes that came in it, it sends the planned signals whose offset is at
/// most the number of bytes that the source has given, each once, in the order of the plan; `targets` are the numbers of the tasks that are reader, relay
/// and writer. Where more than `LONGEST` bytes were given it stops as Long before it puts the last piece, and where the
/// source failed as ReadFault. Broken: the read end of the pipe was closed. Worn: a wait found no place. Finished
/// exactly where the end of the source was read and all went in. After each piece that went in wholly it locks page
/// `COUNTED_PAGE`, adds the piece's length to its tally, and unlocks it. At its end, for whatever cause, it closes the
/// end that it opened, and completes `ENDED_CELL`.
pub fn reader_task<R: Wait, S: Source, G: Gate>(
    rt: &R,
    domain: &Domain,
    task: &mut Task,
    pipe: u8,
    source: &mut S,
    plan: &[Planned],
    targets: [u8; 3],
    gate: &G,
) -> ReaderEnd
    requires of { task.old.domain ≡ domain.now }
    requires idler { IsIdler task.old }
    requires pipe { pipe < PIPES }
    requires few { length plan.now ≤ SIGNALS }
    ensures did { ReaderDid pipe task.old task.new (S.left source.old) (S.left source.new) (S.faults source.old)
        (S.faults source.new) targets plan.now result }
    ensures goes { FromSource (S.left source.old) (S.left source.new) 0 result.read
        (λ bytes. ReaderGoes pipe targets plan.now task.old task.new bytes result.stop) }
{
    let ended = reader_through(rt, domain, task, pipe, source, plan, targets, gate);
    complete(rt, domain, task, ENDED_CELL);
    ended
}

/// The work of a reader, from the opening of its end to its closing.
fn reader_through<R: Wait, S: Source, G: Gate>(
    rt: &R,
    domain: &Domain,
    task: &mut Task,
    pipe: u8,
    source: &mut S,
    plan: &[Planned],
    targets: [u8; 3],
    gate: &G,
) -> ReaderEnd
    requires of { task.old.domain ≡ domain.now }
    requires idler { IsIdler task.old }
    requires pipe { pipe < PIPES }
    requires few { length plan.now ≤ SIGNALS }
    ensures did { ReaderWorked pipe task.old task.new (S.left source.old) (S.left source.new) (S.faults source.old)
        (S.faults source.new) targets plan.now result }
    ensures goes { FromSource (S.left source.old) (S.left source.new) 0 result.read
        (λ bytes. ReaderWorks pipe targets plan.now task.old task.new bytes result.stop) }
{
    if !open_write(domain, task, pipe) {
        return NOT_READ;
    }
    send_due(rt, domain, task, plan, targets, 0, 0);
    let mut read = 0;
    let stop = read_on(
        rt, domain, task, pipe, source, plan, targets, gate, &mut read,
    );
    close_write(rt, domain, task, pipe);
    let (sent, kills) = count_due(plan, read);
    ReaderEnd {
        stop,
        read,
        sent,
        kills,
    }
}
