//! The worker that reads two pipes, whichever has bytes first, and writes into a third.

ghost use Rattle.std.specs.Prelude.{◌≡◌, ◌<◌, ◌&&◌, true, Some};
ghost use Rattle.wait_model.specs.declared.layout.TheConstants.{PIPES};
ghost use Rattle.wait_rule.specs.Pipes.{read_end, write_end};
ghost use Rattle.wait_rule.specs.PipeSays.{IsOpen, reading, writing};
ghost use Rattle.wait_pipe.specs.Pieces.{IsSettled};
ghost use Rattle.copy_plan.specs.declared.gate.Who.TheVariants as who;
ghost use Rattle.copy_ends.specs.Did.{IsIdler};
ghost use Rattle.copy_turns.specs.Work.{IsAtWork};
ghost use Rattle.flow_merge.specs.{declared.TheConstants.MERGED_PIPE, declared.sides.Side.Side, Passed.side_pipe};
ghost use Rattle.flow_merge.specs.Mergers.{MergerDid, MergerWorked, Merging};
ghost use Rattle.flow_merge.specs.MergerSteps.{HoldsOpen, MergesIf, OpensEnds, Shut, ShutsEnds};
ghost use Rattle.flow_merge.specs.MergerWords.{
  ClaimsEnds,
  ClosesEnds,
  ClosesIf,
  MergerGoes,
  MergerTurn,
  MergerTurns,
  MergerWorks,
  PassesFrom,
  TurnsIf,
  goes_behind,
};

use crate::sides::{Found, Side, look_both, wait_both};
use crate::{LEFT_PIPE, MERGED_PIPE, RIGHT_PIPE};
use completion_cell::completes::complete;
use copy_plan::ENDED_CELL;
use copy_plan::gate::{Gate, GatePass, Who, pass_gate};
use copy_plan::stop::{NOT_TAKEN, Stop, WorkerEnd};
use copy_turns::is_killed;
use flow_copy::relay::pass_piece;
use std::sync::Wait;
use wait_pipe::{close_read, close_write, open_read, open_write};
use wait_rule::{Domain, Task};

/// Passes a piece on from a side that has cells. None where the merger goes on.
fn pass_from<R: Wait>(
    rt: &R,
    domain: &Domain,
    task: &mut Task,
    side: Side,
    moved: &mut u64,
) -> Option<Stop>
    requires of { task.old.domain ≡ domain.now }
    requires work { IsAtWork task.old }
    requires taps { (s : Side) → IsSettled (reading (side_pipe s) task.old) }
    requires pen { IsSettled (writing MERGED_PIPE task.old) }
    ensures turn { Merging task.old task.new moved.old moved.new result }
    ensures goes { PassesFrom side task.old task.new result }
{
    let how = pass_piece(rt, domain, task, side.pipe(), MERGED_PIPE, moved);
    goes_behind(how)
}

/// Where a piece was asked for that is not there, the next turn looks again.
fn goes_behind(how: Option<Stop>) -> Option<Stop>
    ensures { result ≡ goes_behind how }
{
    match how {
        Some(Stop::Finished) => None,
        _ => how,
    }
}

/// A turn: takes the own signals, looks at both sides, and passes a piece on from one that has cells, the left one
/// first; or waits for either of them. `moved` is what the merger has counted, modulo 2^64. None where it goes on.
fn merge_turn<R: Wait>(
    rt: &R,
    domain: &Domain,
    task: &mut Task,
    pass: GatePass,
    moved: &mut u64,
) -> Option<Stop>
    requires of { task.old.domain ≡ domain.now }
    requires work { IsAtWork task.old }
    requires own { pass.who ≡ who.Relay }
    requires taps { (s : Side) → IsSettled (reading (side_pipe s) task.old) }
    requires pen { IsSettled (writing MERGED_PIPE task.old) }
    ensures turn { Merging task.old task.new moved.old moved.new result }
    ensures goes { MergerTurn task.old task.new result }
{
    let _counted = *moved;
    pass.spend();
    if is_killed(domain, task) {
        return Some(Stop::Killed);
    }
    match look_both(domain, task) {
        Found::Cells(side) => pass_from(rt, domain, task, side, moved),
        Found::Ended => Some(Stop::Finished),
        Found::Nothing { left, right } => wait_both(rt, domain, task, left, right),
    }
}

/// Turns up to a stop.
fn merge_on<R: Wait, G: Gate>(rt: &R, domain: &Domain, task: &mut Task, gate: &G) -> WorkerEnd
    requires of { task.old.domain ≡ domain.now }
    requires work { IsAtWork task.old }
    requires taps { (s : Side) → IsSettled (reading (side_pipe s) task.old) }
    requires pen { IsSettled (writing MERGED_PIPE task.old) }
    ensures turns { Merging task.old task.new 0 result.moved (Some result.stop) }
    ensures goes { MergerTurns task.old task.new (Some result.stop) }
{
    let mut moved = 0;
    let mut turn: u64 = 0;
    for _ in rt.forever() {
        turn = turn.saturating_add(1);
        let pass = pass_gate(gate, Who::Relay, turn);
        if let Some(stop) = merge_turn(rt, domain, task, pass, &mut moved) {
            return WorkerEnd { stop, moved };
        }
    }
    unreachable!()
}

/// Passes on what comes out of the pipes `LEFT_PIPE` and `RIGHT_PIPE` into pipe `MERGED_PIPE`, a piece of at most
/// `PIECE` bytes a turn, from the left one where both have cells.
///
/// The task owes nothing, and so it is afterwards. It opens the two read ends and the write end, and stops as Taken
/// exactly where one of them was opened before. Gate, signals, the tally of page `COUNTED_PAGE`, Killed and Worn are as
/// of `flow_copy::reader_task`; it passes the gate as the relay of a copy. Where neither pipe has cells and one is open
/// it waits for both of them at once. Broken: the read end of the third pipe was closed. Finished exactly where both
/// write ends were closed, all that they sent was taken, and all of that went on. At its end, for whatever cause, it
/// closes the ends that it opened, and completes `ENDED_CELL`.
pub fn merger_task<R: Wait, G: Gate>(
    rt: &R,
    domain: &Domain,
    task: &mut Task,
    gate: &G,
) -> WorkerEnd
    requires of { task.old.domain ≡ domain.now }
    requires idler { IsIdler task.old }
    ensures did { MergerDid task.old task.new result }
    ensures goes { MergerGoes task.old task.new result.stop }
{
    let ended = merge_through(rt, domain, task, gate);
    complete(rt, domain, task, ENDED_CELL);
    ended
}

/// Which of its three ends a merger has.
#[derive(Clone, Copy, Drop)]
pub struct Has {
    pub left: bool,
    pub right: bool,
    pub pen: bool,
}

/// Opens the three ends.
fn open_ends(domain: &Domain, task: &mut Task) -> Has
    requires of { task.old.domain ≡ domain.now }
    requires work { IsAtWork task.old }
    ensures opens { OpensEnds task.old task.new result }
    ensures goes { ClaimsEnds task.old task.new result }
{
    let left = open_read(domain, task, LEFT_PIPE);
    let right = open_read(domain, task, RIGHT_PIPE);
    let pen = open_write(domain, task, MERGED_PIPE);
    Has { left, right, pen }
}

/// Closes the read end of a pipe, below `PIPES`, where the task has it.
fn shut_read<R: Wait>(rt: &R, domain: &Domain, task: &mut Task, pipe: u8, has: bool)
    requires of { task.old.domain ≡ domain.now }
    requires work { IsAtWork task.old }
    requires pipe { pipe < PIPES }
    requires still { has ≡ true → IsOpen (reading pipe task.old) }
    ensures shut { Shut (read_end pipe) has task.old task.new }
    ensures goes { ClosesIf (read_end pipe) has task.old task.new }
{
    if has {
        close_read(rt, domain, task, pipe);
    }
}

/// Closes the write end of a pipe, below `PIPES`, where the task has it.
fn shut_write<R: Wait>(rt: &R, domain: &Domain, task: &mut Task, pipe: u8, has: bool)
    requires of { task.old.domain ≡ domain.now }
    requires work { IsAtWork task.old }
    requires pipe { pipe < PIPES }
    requires still { has ≡ true → IsOpen (writing pipe task.old) }
    ensures shut { Shut (write_end pipe) has task.old task.new }
    ensures goes { ClosesIf (write_end pipe) has task.old task.new }
{
    if has {
        close_write(rt, domain, task, pipe);
    }
}

/// Closes those of the three ends that it has.
fn close_ends<R: Wait>(rt: &R, domain: &Domain, task: &mut Task, has: Has)
    requires of { task.old.domain ≡ domain.now }
    requires work { IsAtWork task.old }
    requires still { HoldsOpen task.old has }
    ensures shuts { ShutsEnds task.old task.new has }
    ensures goes { ClosesEnds task.old task.new has }
{
    shut_write(rt, domain, task, MERGED_PIPE, has.pen);
    shut_read(rt, domain, task, RIGHT_PIPE, has.right);
    shut_read(rt, domain, task, LEFT_PIPE, has.left);
}

impl Has {
    /// Whether it has all three.
    fn all(self) -> bool
        ensures { result ≡ (self.left && (self.right && self.pen)) }
    {
        self.left && self.right && self.pen
    }
}

/// Turns up to a stop where it has all its ends; none where it lacks one.
fn merge_if<R: Wait, G: Gate>(
    rt: &R,
    domain: &Domain,
    task: &mut Task,
    gate: &G,
    all: bool,
) -> WorkerEnd
    requires of { task.old.domain ≡ domain.now }
    requires work { IsAtWork task.old }
    requires taps { all ≡ true → (s : Side) → IsSettled (reading (side_pipe s) task.old) }
    requires pen { all ≡ true → IsSettled (writing MERGED_PIPE task.old) }
    ensures turns { MergesIf all task.old task.new result }
    ensures goes { TurnsIf all task.old task.new result.stop }
{
    if all {
        merge_on(rt, domain, task, gate)
    } else {
        NOT_TAKEN
    }
}

/// The work of a merger, from the opening of its ends to their closing.
fn merge_through<R: Wait, G: Gate>(rt: &R, domain: &Domain, task: &mut Task, gate: &G) -> WorkerEnd
    requires of { task.old.domain ≡ domain.now }
    requires idler { IsIdler task.old }
    ensures did { MergerWorked task.old task.new result }
    ensures goes { MergerWorks task.old task.new result.stop }
{
    let has = open_ends(domain, task);
    let ended = merge_if(rt, domain, task, gate, has.all());
    close_ends(rt, domain, task, has);
    ended
}
