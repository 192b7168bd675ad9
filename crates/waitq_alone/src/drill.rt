//! The command `drill`: from a seed to the summary of its script's replay.

ghost use Rattle.std.specs.Prelude.{◌≡◌, ◌+◌, ◌≤◌, ◌++◌, IfOk, IsErrOf, IsTrue, Some, codes, length};
ghost use Rattle.arrayvec.specs.ArrayVec.{array_vec_len};
ghost use Rattle.edge_io.specs.Faults.{HasRisen};
ghost use Rattle.waitq_alone.specs.{Commands.Drill, Commands.may_end_with, Alone.exit_status};
ghost use Rattle.waitq_alone.specs.Drill.{number_line, head_line, drill_text};
ghost use Rattle.waitq_alone.specs.Outcome.{Text, Answers, LeavesUnwritten};

use crate::fault::Fault;
use crate::silent::{count_asleep, make_lines};
use drill_gen::MOST_CALLS;
use edge_io::{Sink, write_all};
use std::alloc::{AllocError, Global};
use wait_core::Core;
use wait_model::layout::TEXT_BYTES;
use wait_script::{LineText, push_number, push_text};

/// Puts a line of a name and a number after a text.
fn push_line(line: &mut LineText, name: &[u8], number: u64)
    requires { array_vec_len line.old + length name.now + 21 ≤ TEXT_BYTES }
    ensures text { line.new.items ≡ line.old.items ++ number_line name.now number }
    ensures len { array_vec_len line.new ≤ array_vec_len line.old + length name.now + 21 }
{
    push_text(line, name);
    push_number(line, number);
    push_text(line, b"\n");
}

/// Puts the first line of a summary after a text.
fn push_head(line: &mut LineText, seed: u64, count: u32)
    requires { array_vec_len line.old + 48 ≤ TEXT_BYTES }
    ensures text { line.new.items ≡ line.old.items ++ head_line seed count }
    ensures len { array_vec_len line.new ≤ array_vec_len line.old + 48 }
{
    push_text(line, b"drill ");
    push_number(line, seed);
    push_line(line, b" ", count.into());
}

/// The text of a summary, by its numbers.
fn summary(seed: u64, count: u32, events: u32, refused: u64, asleep: u64) -> LineText
    ensures { result.items ≡ head_line seed count ++ number_line (codes "events ") events
        ++ number_line (codes "refused ") refused ++ number_line (codes "asleep ") asleep ++ codes "end\n" }
{
    let mut text = LineText::new();
    push_head(&mut text, seed, count);
    push_line(&mut text, b"events ", events.into());
    push_line(&mut text, b"refused ", refused);
    push_line(&mut text, b"asleep ", asleep);
    push_text(&mut text, b"end\n");
    text
}

/// Makes the script of a seed and plays it in a fresh core without its text. The summary has the numbers of events made,
/// of calls refused, and of tasks that are not runnable at the end. The script has at most 20,000 calls, and so asks for
/// at most 800,000 events.
fn played(alloc: Global, seed: u64, count: u32) -> Result<LineText, AllocError>
    requires { count ≤ MOST_CALLS }
    ensures { IfOk result (λ text. text.items ≡ drill_text seed count) }
{
    let script = drill_gen::drill(alloc, seed, count)?;
    let mut core = Core::new(alloc)?;
    let refused = make_lines(&mut core, &script.lines);
    let asleep = count_asleep(&core);
    Ok(summary(seed, count, core.made(), refused, asleep))
}

/// Makes the script of a seed, plays it in a fresh core, and writes its summary.
pub fn drill<O: Sink>(
    alloc: Global,
    seed: u64,
    count: u32,
    out: &mut O,
) -> Result<(), Fault<'static>>
    requires { count ≤ MOST_CALLS }
    ensures outcome { Answers (Text (drill_text seed count)) (O.held out.old) (O.held out.new) result }
    ensures unwritten { LeavesUnwritten (O.held out.old) (O.held out.new) result }
    ensures statuses { IsTrue (may_end_with (Some (Drill seed count)) (exit_status result)) }
    ensures write { IsErrOf result Fault.Write → HasRisen (O.faults out.old) (O.faults out.new) }
{
    let text = played(alloc, seed, count)?;
    write_all(out, text.as_slice())?;
    Ok(())
}
