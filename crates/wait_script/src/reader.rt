//! Scripts by their bytes.

ghost use Rattle.std.specs.Prelude.{◌≡◌, ◌<◌, ◌≤◌, ◌∷◌, [], length, position, sum_by};
ghost use Rattle.std.specs.Prelude.{IfSome, IfNone, IfOk, All};
ghost use Rattle.wait_script.specs.{Lines.VersionedLines, Lines.events_asked, Reading.IsFirstLine};
ghost use Rattle.wait_script.specs.Spelling.{script_text, IsFitScript, IsPlayable};
ghost use Rattle.wait_script.specs.Script.{is_end, parts_of, lines_from, script_of, AnswersAs, IsReadAs};

use crate::line::{Line, read_header, read_line};
use crate::reason::Reason;
use crate::script::{ReadScript, Script};
use crate::steps::first_step;
use crate::version::Version;
use std::alloc::{AllocError, Global};
use wait_model::layout::INPUT_BYTES;

/// Where the first line ends, if it has an end.
fn line_end(bytes: &[u8]) -> Option<usize>
    ensures { result ≡ position is_end bytes.now }
{
    bytes.iter().position(|b| *b == b'\n')
}

/// The first line and what follows its end, if it has an end.
fn first_line(bytes: &[u8]) -> Option<(&[u8], &[u8])>
    ensures some { IfSome result (λ p. parts_of bytes.now ≡ p.0.now ∷ parts_of p.1.now) }
    ensures shorter { IfSome result (λ p. length p.1.now < length bytes.now) }
    ensures none { IfNone result (parts_of bytes.now ≡ bytes.now ∷ []) }
{
    let end = line_end(bytes)?;
    Some((&bytes[..end], &bytes[end + 1..]))
}

/// The first line, if it has an end, and what follows its end: what it says in a script of this version, or the first
/// reason why it is bad. `words` is room for its words.
fn next_line<'a>(
    version: Version,
    words: &mut Vec<&'a [u8]>,
    bytes: &'a [u8],
) -> Result<Option<(Result<Line, Reason>, &'a [u8])>, AllocError>
    ensures some { IfOk result (λ next. IfSome next (λ p. IsFirstLine version bytes.now p.0 p.1.now)) }
    ensures shorter { IfOk result (λ next. IfSome next (λ p. length p.1.now < length bytes.now)) }
    ensures none { IfOk result (λ next. IfNone next (parts_of bytes.now ≡ bytes.now ∷ [])) }
{
    if let Some((line, more)) = first_step(version, bytes) {
        return Ok(Some((Ok(line), more)));
    }
    let Some((line, more)) = first_line(bytes) else {
        return Ok(None);
    };
    let line = read_line(version, words, line)?;
    Ok(Some((line, more)))
}

/// The lines after the header of a script of this version.
fn read_lines(alloc: Global, version: Version, bytes: &[u8]) -> Result<Vec<Line>, ReadScript>
    requires { length bytes.now ≤ INPUT_BYTES }
    ensures { AnswersAs (λ v. v.items) result (lines_from version 2 (parts_of bytes.now)) }
{
    let mut lines = Vec::new(alloc);
    let mut words = Vec::new(alloc);
    let mut number = 2;
    let mut rest = bytes;
    'lines: while let Some((line, more)) = next_line(version, &mut words, rest)? {
        match line {
            Ok(line) => lines.push(line)?,
            Err(why) => return Err(ReadScript::Bad { line: number, why }),
        }
        rest = more;
        number += 1;
    }
    if !rest.is_empty() {
        return Err(ReadScript::Bad {
            line: number,
            why: Reason::CutLine,
        });
    }
    Ok(lines)
}

/// Reads the header and the lines after it.
fn read_headed(alloc: Global, bytes: &[u8]) -> Result<Script, ReadScript>
    requires { length bytes.now ≤ INPUT_BYTES }
    ensures { AnswersAs (λ s. s) result (script_of bytes.now) }
{
    let Some((header, rest)) = first_line(bytes) else {
        let why = if bytes.is_empty() {
            Reason::NoHeader
        } else {
            Reason::CutLine
        };
        return Err(ReadScript::Bad { line: 1, why });
    };
    let version = match read_header(header) {
        Ok(version) => version,
        Err(why) => return Err(ReadScript::Bad { line: 1, why }),
    };
    let lines = read_lines(alloc, version, rest)?;
    Ok(Script { version, lines })
}

/// Reads a script of at most `INPUT_BYTES` bytes, of the version that its first line names, or answers the first bad
/// line and the first reason that stands there, or that memory ran out. What is read has its numbers in the version's
/// ranges and is spelled just so; and whatever is spelled so, with its numbers in those ranges, is read. A core can
/// open each of its calls.
pub fn read_script(alloc: Global, bytes: &[u8]) -> Result<Script, ReadScript>
    requires { length bytes.now ≤ INPUT_BYTES }
    ensures script { AnswersAs (λ s. s) result (script_of bytes.now) }
    ensures spelled { IfOk result (λ s. bytes.now ≡ script_text s) }
    ensures fits { IfOk result IsFitScript }
    ensures plays { IfOk result (λ s. All IsPlayable s.lines) }
    ensures read { (s : VersionedLines) → IsFitScript s → bytes.now ≡ script_text s → IsReadAs s result }
{
    read_headed(alloc, bytes)
}

/// How many events a script asks for: the sum of its step counts.
pub fn asked(script: &Script) -> u128
    ensures { result ≡ sum_by events_asked script.now.lines }
{
    let mut total = 0;
    for line in &script.lines {
        total += match line {
            Line::Call { .. } => 0,
            Line::Step { count, .. } => u128::from(*count),
        };
    }
    total
}
