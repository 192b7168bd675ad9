//! What the program does with its words.

ghost use Rattle.std.specs.Prelude.{◌≡◌, ◌≢◌, ◌≤◌, ◌-◌, ◌⊎◌, [], Some, length, map, string_bytes};
ghost use Rattle.std.specs.Prelude.{IfSome, IsErrOf, OnOk, IsTrue, IsFalse, None};
ghost use Rattle.edge_io.specs.Faults.{HasRisen, HasStayed};
ghost use Rattle.wait_model.specs.declared.layout.TheConstants.{TASKS};
ghost use Rattle.wait_rule.specs.Says.{IsClean, newcomer};
ghost use Rattle.copy_plan.specs.{declared.TheConstants.SIGNALS, Plans.fatal_of};
ghost use Rattle.waitq_alone.specs.Commands.{Copy, IsFitRequest, Merge, asked_by, command_of, may_end_with, reads_input};
ghost use Rattle.waitq_alone.specs.Commands.{takes_files, verdict_at};
ghost use Rattle.waitq_copy.specs.Copying.{outside};
ghost use Rattle.waitq_alone.specs.Outcome.{Answers, Writes, IsBad, IsLong, IsNoCopyEnd, LeavesUnwritten};
ghost use Rattle.waitq_alone.specs.Alone.{exit_status, is_quiet, Finishes, Reports};
ghost use Rattle.waitq_copy.specs.Run.{CopyEnds, DeliversFile, IfCopy, Spares};
ghost use Rattle.waitq_merge.specs.MergeRun.{IfMerge, DeliversBoth, MergeEnds, MergeSpares};

use crate::copy::{Order, copy};
use crate::merge::{Names, merge};
use copy_plan::Gate;
use edge_io::{Folder, Sink, Source};
use std::alloc::Global;
use std::sync::Wait;
use std::thread::Threads;
use wait_rule::{Domain, Task};
use waitq_alone::alone::{finish, run_alone};
use waitq_alone::command::{Command, read_command};
use waitq_copy::watching::Tellers;

/// Copies as an order says, writes the line of its fault to `err` where it has one, and answers the status.
fn run_copy<
    R: Threads + Wait + Sync,
    F: Folder,
    O: Sink,
    E: Sink,
    W: Tellers + Send + Drop,
    G: Gate + Sync,
>(
    rt: &R,
    alloc: Global,
    folder: &mut F,
    out: &mut O,
    err: &mut E,
    domain: &Domain,
    task: &mut Task,
    watch: W,
    gate: &G,
    order: Order<'_, '_>,
) -> u8
    requires fresh { task.old ≡ newcomer domain.now 0 1 (TASKS - 1) }
    requires few { length order.plan.now ≤ SIGNALS }
    ensures statuses { IsTrue (may_end_with (Some (Copy order.entry.src.now order.entry.dst.now order.entry.plan.now))
        result) }
    ensures no_text { IsTrue (is_quiet result) → O.held out.new ≡ O.held out.old }
    ensures ends { CopyEnds domain.now task.old task.new
        (outside (F.files folder.old) (F.read_faults folder.old) (F.write_faults folder.old) (O.held out.old)
        (O.faults out.old))
        (outside (F.files folder.new) (F.read_faults folder.new) (F.write_faults folder.new) (O.held out.new)
        (O.faults out.new)) order.entry.src.now order.entry.dst.now order.entry.plan.now
        (W.entries watch) (E.held err.old) (E.held err.new)
        (HasStayed (E.faults err.old) (E.faults err.new) × HasStayed (E.wants err.old) (E.wants err.new)) result }
    ensures delivers { result ≡ 0
        → DeliversFile order.entry.src.now order.entry.dst.now (F.files folder.old) (F.files folder.new) }
    ensures spares { Spares order.entry.src.now order.entry.dst.now (F.files folder.old) (F.files folder.new) }
    ensures plain { fatal_of order.entry.plan.now ≡ [] → result ≢ 6 }
    ensures closes { F.opened folder.new ≡ F.opened folder.old }
    ensures clean { IsClean task.new }
{
    let answer = copy(rt, alloc, folder, out, domain, task, watch, gate, order);
    finish(err, answer)
}

/// Merges as names say, writes the line of its fault to `err` where it has one, and answers the status.
fn run_merge<R: Threads + Wait + Sync, F: Folder, O: Sink, E: Sink, G: Gate + Sync>(
    rt: &R,
    alloc: Global,
    folder: &mut F,
    out: &mut O,
    err: &mut E,
    domain: &Domain,
    task: &mut Task,
    gate: &G,
    names: Names<'_>,
) -> u8
    requires fresh { task.old ≡ newcomer domain.now 0 1 (TASKS - 1) }
    ensures statuses { IsTrue (may_end_with (Some (Merge names.entry.first.now names.entry.second.now
        names.entry.dst.now)) result) }
    ensures no_text { IsTrue (is_quiet result) → O.held out.new ≡ O.held out.old }
    ensures ends { MergeEnds domain.now task.old task.new
        (outside (F.files folder.old) (F.read_faults folder.old) (F.write_faults folder.old) (O.held out.old)
        (O.faults out.old))
        (outside (F.files folder.new) (F.read_faults folder.new) (F.write_faults folder.new) (O.held out.new)
        (O.faults out.new)) names.entry.first.now names.entry.second.now names.entry.dst.now (E.held err.old)
        (E.held err.new)
        (HasStayed (E.faults err.old) (E.faults err.new) × HasStayed (E.wants err.old) (E.wants err.new)) result }
    ensures joins { result ≡ 0 → DeliversBoth names.entry.first.now names.entry.second.now names.entry.dst.now
        (F.files folder.old) (F.files folder.new) }
    ensures spares { MergeSpares names.entry.first.now names.entry.second.now names.entry.dst.now (F.files folder.old)
        (F.files folder.new) }
    ensures closes { F.opened folder.new ≡ F.opened folder.old }
    ensures clean { IsClean task.new }
{
    let answer = merge(rt, alloc, folder, out, domain, task, gate, names);
    finish(err, answer)
}

/// Does what the words say, over a folder and with the standard streams, and answers the status.
///
/// The command `copy SRC DST [EVENT]...` copies the file SRC of the folder to the file DST by four tasks in threads of
/// their own, calls the watchers with each piece that goes into it, sends the planned signals meanwhile, and writes
/// what is told of it to `out`. Its status is 0 where the source was read to its end, the file has all its bytes, the
/// whole text was written, and no planned kill was sent; 4 where SRC can't be read or is not there, 5 where DST or
/// `out` can't be written, 6 where a planned kill was sent, 7 where memory ran out, 8 where the source gave more than
/// 2^40 bytes, and 9 where a queue had no place left. Where several causes stand it is the first of 7, 9, 4, 5, 8, 6.
/// The source is closed whatever the status is. Of the commands only `replay` touches `input`.
///
/// The command `merge A B DST` merges the files A and B into the file DST by five tasks, whichever of the two has bytes
/// first, and writes what is told of it to `out`. Its statuses are those of a copy but 6, for the same causes, and each
/// source may give 2^40 bytes; where no file has a name, the first such of A and B is told. Both sources are closed
/// whatever the status is, and the watchers are dropped.
///
/// For the other commands `run_alone` says what is done, and folder and task are as they were; so are they for words that
/// are no command, whose status is 2, or 7 where memory ran out, with its line on `err` as of `run_alone`. Then the input
/// is as it was, and so is `out`.
pub fn run<
    R: Threads + Wait + Sync,
    F: Folder,
    I: Source,
    O: Sink,
    E: Sink,
    W: Tellers + Send + Drop,
    G: Gate + Sync,
>(
    rt: &R,
    alloc: Global,
    words: &[String],
    folder: &mut F,
    input: &mut I,
    out: &mut O,
    err: &mut E,
    domain: &Domain,
    task: &mut Task,
    watch: W,
    gate: &G,
) -> u8
    requires fresh { task.old ≡ newcomer domain.now 0 1 (TASKS - 1) }

    // The words decide the command, and so which statuses there may be.
    ensures usage { result ≡ 2 → command_of (map string_bytes words.now) ≡ None }
    ensures refused { command_of (map string_bytes words.now) ≡ None → (result ≡ 2) ⊎ (result ≡ 7) }
    ensures statuses { IsTrue (may_end_with (command_of (map string_bytes words.now)) result) }
    ensures no_input { IsFalse (reads_input (command_of (map string_bytes words.now))) → input.new ≡ input.old }
    ensures no_text { IsTrue (is_quiet result) → O.held out.new ≡ O.held out.old }
    ensures no_output { command_of (map string_bytes words.now) ≡ None → out.new ≡ out.old }

    // What the status says of a command that is neither a copy nor a merge, as of `run_alone`.
    ensures finishes { Finishes (verdict_at (command_of (map string_bytes words.now)) (I.left input.old))
        (O.held out.old) (O.held out.new) (E.held err.old) (E.held err.new)
        (HasStayed (E.faults err.old) (E.faults err.new) × HasStayed (E.wants err.old) (E.wants err.new)) result }
    ensures read { result ≡ 4 → IsFalse (takes_files (command_of (map string_bytes words.now)))
        → HasRisen (I.faults input.old) (I.faults input.new) }
    ensures write { result ≡ 5 → IsFalse (takes_files (command_of (map string_bytes words.now)))
        → HasRisen (O.faults out.old) (O.faults out.new) }
    ensures drained { result ≡ 0 → IsTrue (reads_input (command_of (map string_bytes words.now)))
        → IfSome (I.left input.new) (λ bytes. bytes ≡ []) }
    ensures done { result ≡ 0 → IfSome (verdict_at (command_of (map string_bytes words.now)) (I.left input.old))
        (λ v. Writes v (O.held out.old) (O.held out.new)) }
    ensures script { result ≡ 3
        → IfSome (verdict_at (command_of (map string_bytes words.now)) (I.left input.old)) IsBad }
    ensures long { result ≡ 8
        → IfSome (verdict_at (command_of (map string_bytes words.now)) (I.left input.old)) IsLong }
    ensures alone { IsFalse (takes_files (command_of (map string_bytes words.now)))
        → (folder.new ≡ folder.old) × (task.new ≡ task.old) }

    // What a copy leaves, with the cause of each of its answers; what is delivered where it went well; what becomes of
    // the files whatever the status is; and that plain signals end no copy.
    ensures copies { IfCopy (command_of (map string_bytes words.now)) (λ src dst plan.
        CopyEnds domain.now task.old task.new
        (outside (F.files folder.old) (F.read_faults folder.old) (F.write_faults folder.old) (O.held out.old)
        (O.faults out.old))
        (outside (F.files folder.new) (F.read_faults folder.new) (F.write_faults folder.new) (O.held out.new)
        (O.faults out.new)) src dst plan (W.entries watch) (E.held err.old) (E.held err.new)
        (HasStayed (E.faults err.old) (E.faults err.new) × HasStayed (E.wants err.old) (E.wants err.new)) result) }
    ensures delivers { result ≡ 0 → IfCopy (command_of (map string_bytes words.now)) (λ src dst plan.
        DeliversFile src dst (F.files folder.old) (F.files folder.new)) }
    ensures spares { IfCopy (command_of (map string_bytes words.now)) (λ src dst plan.
        Spares src dst (F.files folder.old) (F.files folder.new)) }
    ensures plain { IfCopy (command_of (map string_bytes words.now)) (λ src dst plan.
        fatal_of plan ≡ [] → result ≢ 6) }

    // The same of a merge: where it went well its file is all bytes of both, piece by piece.
    ensures merges { IfMerge (command_of (map string_bytes words.now)) (λ first second dst.
        MergeEnds domain.now task.old task.new
        (outside (F.files folder.old) (F.read_faults folder.old) (F.write_faults folder.old) (O.held out.old)
        (O.faults out.old))
        (outside (F.files folder.new) (F.read_faults folder.new) (F.write_faults folder.new) (O.held out.new)
        (O.faults out.new)) first second dst (E.held err.old) (E.held err.new)
        (HasStayed (E.faults err.old) (E.faults err.new) × HasStayed (E.wants err.old) (E.wants err.new)) result) }
    ensures joins { result ≡ 0 → IfMerge (command_of (map string_bytes words.now)) (λ first second dst.
        DeliversBoth first second dst (F.files folder.old) (F.files folder.new)) }
    ensures merge_spares { IfMerge (command_of (map string_bytes words.now)) (λ first second dst.
        MergeSpares first second dst (F.files folder.old) (F.files folder.new)) }

    // Whatever the words and the status are, as many sources of the folder are open as before.
    ensures closes { F.opened folder.new ≡ F.opened folder.old }
    ensures clean { IsClean task.new }
{
    match read_command(alloc, words) {
        Ok(Command::Copy { src, dst, plan }) => {
            let order = Order {
                src,
                dst,
                plan: plan.as_slice(),
            };
            run_copy(
                rt, alloc, folder, out, err, domain, task, watch, gate, order,
            )
        }
        Ok(Command::Merge { first, second, dst }) => {
            let names = Names { first, second, dst };
            run_merge(rt, alloc, folder, out, err, domain, task, gate, names)
        }
        Ok(command) => run_alone(alloc, command, input, out, err),
        Err(fault) => finish(err, Err(fault)),
    }
}
