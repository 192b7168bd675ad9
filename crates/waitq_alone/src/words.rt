//! What a program does with its words that has no files.

ghost use Rattle.std.specs.Prelude.{◌≡◌, ◌⊎◌, [], None, IfSome, IsTrue, IsFalse, map, string_bytes};
ghost use Rattle.edge_io.specs.Faults.{HasRisen, HasStayed};
ghost use Rattle.waitq_alone.specs.Alone.{Finishes, is_quiet};
ghost use Rattle.waitq_alone.specs.Commands.{command_of, may_end_with, reads_input, verdict_at, without_files};
ghost use Rattle.waitq_alone.specs.Outcome.{Writes, IsBad, IsLong};

use crate::alone::{finish, run_alone};
use crate::command::{Command, read_command};
use crate::fault::Fault;
use edge_io::{Sink, Source};
use std::alloc::Global;

/// Does what the words say, for a program that has no files, with `input`, `out` and `err` for the standard streams, and
/// answers the status.
///
/// The commands `replay` and `drill` are done as `run_alone` does them. All other words, those of a copy and of a merge
/// among them, are no command of this program: the status is 2, or 7 where memory ran out before they were known to be
/// none, with its line on `err` as of `run_alone`. Then the input is as it was, and so is `out`.
pub fn run_words<I: Source, O: Sink, E: Sink>(
    alloc: Global,
    words: &[String],
    input: &mut I,
    out: &mut O,
    err: &mut E,
) -> u8
    ensures usage { result ≡ 2 → without_files (command_of (map string_bytes words.now)) ≡ None }
    ensures refused { without_files (command_of (map string_bytes words.now)) ≡ None → (result ≡ 2) ⊎ (result ≡ 7) }
    ensures statuses { IsTrue (may_end_with (without_files (command_of (map string_bytes words.now))) result) }
    ensures no_input { IsFalse (reads_input (without_files (command_of (map string_bytes words.now))))
        → input.new ≡ input.old }
    ensures no_text { IsTrue (is_quiet result) → O.held out.new ≡ O.held out.old }
    ensures no_output { without_files (command_of (map string_bytes words.now)) ≡ None → out.new ≡ out.old }

    // What the status says of the command, and what was written, as of `run_alone`.
    ensures finishes { Finishes (verdict_at (without_files (command_of (map string_bytes words.now))) (I.left input.old))
        (O.held out.old) (O.held out.new) (E.held err.old) (E.held err.new)
        (HasStayed (E.faults err.old) (E.faults err.new) × HasStayed (E.wants err.old) (E.wants err.new)) result }
    ensures read { result ≡ 4 → HasRisen (I.faults input.old) (I.faults input.new) }
    ensures write { result ≡ 5 → HasRisen (O.faults out.old) (O.faults out.new) }
    ensures drained { result ≡ 0 → IsTrue (reads_input (without_files (command_of (map string_bytes words.now))))
        → IfSome (I.left input.new) (λ bytes. bytes ≡ []) }
    ensures done { result ≡ 0
        → IfSome (verdict_at (without_files (command_of (map string_bytes words.now))) (I.left input.old))
        (λ v. Writes v (O.held out.old) (O.held out.new)) }
    ensures script { result ≡ 3
        → IfSome (verdict_at (without_files (command_of (map string_bytes words.now))) (I.left input.old)) IsBad }
    ensures long { result ≡ 8
        → IfSome (verdict_at (without_files (command_of (map string_bytes words.now))) (I.left input.old)) IsLong }
{
    match read_command(alloc, words) {
        Ok(Command::Copy { .. } | Command::Merge { .. }) => finish(err, Err(Fault::Usage)),
        Ok(command) => run_alone(alloc, command, input, out, err),
        Err(fault) => finish(err, Err(fault)),
    }
}
