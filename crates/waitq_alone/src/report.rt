//! The line of a fault. It is put together whole before it is written, but where it has the name of a file.

ghost use Rattle.std.specs.Prelude.{◌≡◌, ◌+◌, ◌≤◌, ◌++◌, codes};
ghost use Rattle.arrayvec.specs.ArrayVec.{array_vec_len};
ghost use Rattle.edge_io.specs.{Faults.CountsFailed, Faults.CountsWanted, Text.WritesText};
ghost use Rattle.waitq_alone.specs.Fault.{fault_text, why_text};

use crate::fault::Fault;
use edge_io::{Sink, SinkFault, write_all};
use wait_model::layout::TEXT_BYTES;
use wait_script::{LineText, Reason, push_number, push_text};

/// Puts why a line is bad after a text.
fn push_why(line: &mut LineText, why: Reason)
    requires { array_vec_len line.old + 13 ≤ TEXT_BYTES }
    ensures text { line.new.items ≡ line.old.items ++ why_text why }
    ensures len { array_vec_len line.new ≤ array_vec_len line.old + 13 }
{
    match why {
        Reason::CutLine => push_text(line, b"cut line"),
        Reason::LongLine => push_text(line, b"long line"),
        Reason::BadByte => push_text(line, b"bad byte"),
        Reason::NoHeader => push_text(line, b"no header"),
        Reason::UnknownWord => push_text(line, b"unknown word"),
        Reason::WordCount => push_text(line, b"word count"),
        Reason::BadNumber => push_text(line, b"bad number"),
        Reason::BadForm => push_text(line, b"bad form"),
        Reason::BadCondition => push_text(line, b"bad condition"),
    }
}

/// Puts the line of a bad script after a text.
fn push_bad(line: &mut LineText, number: u32, why: Reason)
    requires { array_vec_len line.old + 48 ≤ TEXT_BYTES }
    ensures { line.new.items ≡ line.old.items ++ fault_text (Fault.Script number why) }
{
    push_text(line, b"waitq: line ");
    push_number(line, number.into());
    push_text(line, b": ");
    push_why(line, why);
    push_text(line, b"\n");
}

/// Puts the line of a queue without a place after a text.
fn push_worn(line: &mut LineText, place: u64)
    requires { array_vec_len line.old + 48 ≤ TEXT_BYTES }
    ensures { line.new.items ≡ line.old.items ++ fault_text (Fault.Worn place) }
{
    push_text(line, b"waitq: queue worn at place ");
    push_number(line, place);
    push_text(line, b"\n");
}

/// Writes the line of a file that is not there, whose name may have any length.
fn report_missing<E: Sink>(err: &mut E, name: &str) -> Result<(), SinkFault>
    ensures text { WritesText (E.held err.old) (E.held err.new)
        (codes "waitq: no file " ++ name.now ++ codes "\n") result }
    ensures failed { CountsFailed (E.faults err.old) (E.faults err.new) result }
    ensures wanted { CountsWanted (E.wants err.old) (E.wants err.new) result }
{
    write_all(err, b"waitq: no file ")?;
    write_all(err, name.as_bytes())?;
    write_all(err, b"\n")
}

/// Writes the line of a bad script.
fn report_bad<E: Sink>(err: &mut E, number: u32, why: Reason) -> Result<(), SinkFault>
    ensures text { WritesText (E.held err.old) (E.held err.new) (fault_text (Fault.Script number why)) result }
    ensures failed { CountsFailed (E.faults err.old) (E.faults err.new) result }
    ensures wanted { CountsWanted (E.wants err.old) (E.wants err.new) result }
{
    let mut line = LineText::new();
    push_bad(&mut line, number, why);
    write_all(err, line.as_slice())
}

/// Writes the line of a queue without a place.
fn report_worn<E: Sink>(err: &mut E, place: u64) -> Result<(), SinkFault>
    ensures text { WritesText (E.held err.old) (E.held err.new) (fault_text (Fault.Worn place)) result }
    ensures failed { CountsFailed (E.faults err.old) (E.faults err.new) result }
    ensures wanted { CountsWanted (E.wants err.old) (E.wants err.new) result }
{
    let mut line = LineText::new();
    push_worn(&mut line, place);
    write_all(err, line.as_slice())
}

/// Writes the line of a fault. Any fault that is answered is that of the last write to `err`.
pub fn report<E: Sink>(err: &mut E, fault: &Fault) -> Result<(), SinkFault>
    ensures text { WritesText (E.held err.old) (E.held err.new) (fault_text fault.now) result }
    ensures failed { CountsFailed (E.faults err.old) (E.faults err.new) result }
    ensures wanted { CountsWanted (E.wants err.old) (E.wants err.new) result }
{
    match *fault {
        Fault::Usage => write_all(
            err,
            b"waitq: usage: waitq replay | waitq copy SRC DST [EVENT]... | waitq drill SEED COUNT \
              | waitq merge A B DST\n",
        ),
        Fault::Script { line, why } => report_bad(err, line, why),
        Fault::Read => write_all(err, b"waitq: read failed\n"),
        Fault::NoFile { name } => report_missing(err, name),
        Fault::Write => write_all(err, b"waitq: write failed\n"),
        Fault::Killed => write_all(err, b"waitq: killed\n"),
        Fault::Memory => write_all(err, b"waitq: out of memory\n"),
        Fault::Long => write_all(err, b"waitq: input too long\n"),
        Fault::Worn { place } => report_worn(err, place),
    }
}
