//! What the program does with a command that takes no files, and with the fault of any.

ghost use Rattle.std.specs.Prelude.{◌≡◌, [], IfSome, IsErrOf, OnOk, IsTrue, IsFalse};
ghost use Rattle.edge_io.specs.Faults.{HasRisen, HasStayed};
ghost use Rattle.waitq_alone.specs.Alone.{Finishes, Reports, exit_status, is_quiet};
ghost use Rattle.waitq_alone.specs.Commands.{IsFitRequest, asked_by, may_end_with, reads_input, takes_files, verdict_at};
ghost use Rattle.waitq_alone.specs.Outcome.{Answers, Writes, IsBad, IsLong, IsNoCopyEnd, LeavesUnwritten};

use crate::command::Command;
use crate::drill::drill;
use crate::fault::Fault;
use crate::replay::replay;
use crate::report::report;
use edge_io::{Sink, Source};
use std::alloc::Global;

/// Does what a command says that is neither a copy nor a merge, or answers why not.
fn answer<I: Source, O: Sink>(
    alloc: Global,
    command: Command<'_>,
    input: &mut I,
    out: &mut O,
) -> Result<(), Fault<'static>>
    requires no_files { IsFalse (takes_files (Some (asked_by command))) }
    requires fit { IsFitRequest (asked_by command) }
    ensures statuses { IsTrue (may_end_with (Some (asked_by command.entry)) (exit_status result)) }
    ensures drained { OnOk result (IsTrue (reads_input (Some (asked_by command.entry)))
        → IfSome (I.left input.new) (λ bytes. bytes ≡ [])) }
    ensures outcome { IfSome (verdict_at (Some (asked_by command.entry)) (I.left input.old))
        (λ v. Answers v (O.held out.old) (O.held out.new) result) }
    ensures unwritten { LeavesUnwritten (O.held out.old) (O.held out.new) result }
    ensures no_copy { IsNoCopyEnd result }
    ensures no_input { IsFalse (reads_input (Some (asked_by command.entry))) → input.new ≡ input.old }
    ensures read { IsErrOf result Fault.Read → HasRisen (I.faults input.old) (I.faults input.new) }
    ensures write { IsErrOf result Fault.Write → HasRisen (O.faults out.old) (O.faults out.new) }
{
    match command {
        Command::Replay => replay(alloc, input, out),
        Command::Drill { seed, count } => drill(alloc, seed, count, out),
        Command::Copy { .. } | Command::Merge { .. } => unreachable!(),
    }
}

/// Writes the line of a fault to `err`, if there is one, and answers the status.
pub fn finish<E: Sink>(err: &mut E, answer: Result<(), Fault>) -> u8
    ensures number { result ≡ exit_status answer.entry }
    ensures line { Reports (E.held err.old) (E.held err.new)
        (HasStayed (E.faults err.old) (E.faults err.new) × HasStayed (E.wants err.old) (E.wants err.new)) answer.entry }
{
    match answer {
        Ok(()) => 0,
        Err(fault) => {
            let _ = report(err, &fault);
            fault.status()
        }
    }
}

/// Does what a command says that is neither a copy nor a merge, with `input`, `out` and `err` for the standard streams, and answers the
/// status.
///
/// The command `replay` reads a script of `input`, plays it in a fresh core, and writes its text to `out`. The command
/// `drill SEED COUNT` plays the script that the seed gives, of at most 20,000 calls, and writes its summary to `out`.
/// The status is 0 where the whole text was written, 3 where the input is no script, 4 and 5 where a read of `input` or a
/// write to `out` failed, 7 where memory ran out, and 8 where the input is too long or asks for too many events. Each
/// but 0 has its line on `err`: the whole line, or a front of it where a write fails or wants memory, which changes no
/// status. `drill` leaves the input untouched, and ends with 0, 5 or 7.
pub fn run_alone<I: Source, O: Sink, E: Sink>(
    alloc: Global,
    command: Command<'_>,
    input: &mut I,
    out: &mut O,
    err: &mut E,
) -> u8
    requires no_files { IsFalse (takes_files (Some (asked_by command))) }
    requires fit { IsFitRequest (asked_by command) }

    // The command decides which statuses there may be.
    ensures statuses { IsTrue (may_end_with (Some (asked_by command.entry)) result) }
    ensures no_input { IsFalse (reads_input (Some (asked_by command.entry))) → input.new ≡ input.old }
    ensures no_text { IsTrue (is_quiet result) → O.held out.new ≡ O.held out.old }

    // What the status says of the command, and what was written. The line on err is whole where none of its writes was
    // counted as failed or in want of memory.
    ensures finishes { Finishes (verdict_at (Some (asked_by command.entry)) (I.left input.old))
        (O.held out.old) (O.held out.new) (E.held err.old) (E.held err.new)
        (HasStayed (E.faults err.old) (E.faults err.new) × HasStayed (E.wants err.old) (E.wants err.new)) result }

    // A fault is answered only where one was counted.
    ensures read { result ≡ 4 → HasRisen (I.faults input.old) (I.faults input.new) }
    ensures write { result ≡ 5 → HasRisen (O.faults out.old) (O.faults out.new) }

    // Status 0 says that an input that is read was read to its end, and that the text was written whole.
    ensures drained { result ≡ 0 → IsTrue (reads_input (Some (asked_by command.entry)))
        → IfSome (I.left input.new) (λ bytes. bytes ≡ []) }
    ensures done { result ≡ 0 → IfSome (verdict_at (Some (asked_by command.entry)) (I.left input.old))
        (λ v. Writes v (O.held out.old) (O.held out.new)) }
    ensures script { result ≡ 3 → IfSome (verdict_at (Some (asked_by command.entry)) (I.left input.old)) IsBad }
    ensures long { result ≡ 8 → IfSome (verdict_at (Some (asked_by command.entry)) (I.left input.old)) IsLong }
{
    let answer = answer(alloc, command, input, out);
    finish(err, answer)
}
