//! The words of a line, and the fields of several of them together.

ghost use Rattle.std.specs.Prelude.{◌≡◌, ◌<◌, length, map, IfOk, IfSome, IsTrue, position};
ghost use Rattle.std.specs.List.{list_all};
ghost use Rattle.wait_script.specs.{Lines.is_printable, Words.words_of, Words.both_of, Reading.is_stop};

use crate::reason::Reason;
use std::alloc::AllocError;

/// Where the first word ends, if another byte than a word's stands after it.
fn word_end(text: &[u8]) -> Option<usize>
    ensures first { result ≡ position is_stop text.now }
    ensures within { IfSome result (λ n. n < length text.now) }
{
    text.iter().position(|b| *b <= 0x20 || 0x7E < *b)
}

/// Puts into `words` what stands between single spaces: two in a row have an empty word between them. Answers
/// whether the line has no byte but those of plain text; where it has, `words` holds no words of it.
pub fn split<'a>(words: &mut Vec<&'a [u8]>, line: &'a [u8]) -> Result<bool, AllocError>
    ensures plain { IfOk result (λ r. r ≡ list_all is_printable line.now) }
    ensures words { IfOk result (λ r. IsTrue r → map (λ w. w.now) words.new.items ≡ words_of line.now) }
{
    words.clear();
    let mut rest = line;
    'words: while let Some(end) = word_end(rest) {
        if rest[end] != b' ' {
            return Ok(false);
        }
        words.push(&rest[..end])?;
        rest = &rest[end + 1..];
    }
    words.push(rest)?;
    Ok(true)
}

/// Two fields, or the lesser of the reasons why they are none.
pub fn both<A: Drop, B: Drop>(
    first: Result<A, Reason>,
    second: Result<B, Reason>,
) -> Result<(A, B), Reason>
    ensures { result ≡ both_of first second }
{
    match (first, second) {
        (Ok(a), Ok(b)) => Ok((a, b)),
        (Err(u), Err(v)) => Err(u.first(v)),
        (Err(u), Ok(_)) => Err(u),
        (Ok(_), Err(v)) => Err(v),
    }
}
