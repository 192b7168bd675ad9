//! Lines of steps, of which a script has most: each is read in one pass over its bytes.

ghost use Rattle.std.specs.Prelude.{◌≡◌, ◌∷◌, ◌++◌, ◌&&◌, nat_lt, length, IfSome, codes, decimal};
ghost use Rattle.wait_script.specs.{Number.is_plain, Spelling.line_text, Spelling.IsFit};

use crate::line::Line;
use crate::number::plain;
use crate::version::Version;
use wait_model::layout::EVENTS;

/// Whether digits are a number's: there are some, and no zero in front of more.
fn is_whole(digits: &[u8]) -> bool
    ensures { result ≡ (nat_lt 0 (length digits.now) && is_plain digits.now) }
{
    !digits.is_empty() && plain(digits)
}

/// The number that bytes begin with and `end` ends, and what follows: nothing for a number above 9,999,999, or where
/// none stands so.
fn number_before(bytes: &[u8], end: u8) -> Option<(u32, &[u8])>
    ensures { IfSome result (λ p. bytes.now ≡ decimal p.0 ++ end ∷ p.1.now) }
{
    let mut value = 0;
    for (at, b) in bytes.iter().enumerate() {
        if !b.is_ascii_digit() {
            if *b != end || !is_whole(&bytes[..at]) {
                return None;
            }
            return Some((value, &bytes[at + 1..]));
        }
        if value > 999_999 {
            return None;
        }
        value = value * 10 + u32::from(*b - b'0');
    }
    None
}

/// What follows `step` and a space.
fn after_step(bytes: &[u8]) -> Option<&[u8]>
    ensures { IfSome result (λ rest. bytes.now ≡ codes "step " ++ rest.now) }
{
    match bytes {
        [b's', b't', b'e', b'p', b' ', rest @ ..] => Some(rest),
        _ => None,
    }
}

/// The first line and what follows its end, where it is a good line of steps with short numbers. After a `None` the
/// line is to be read by its words.
pub fn first_step(version: Version, bytes: &[u8]) -> Option<(Line, &[u8])>
    ensures fits { IfSome result (λ p. IsFit version p.0) }
    ensures spelled { IfSome result (λ p. bytes.now ≡ line_text p.0 ++ 10 ∷ p.1.now) }
{
    let rest = after_step(bytes)?;
    let (task, rest) = number_before(rest, b' ')?;
    let (count, rest) = number_before(rest, b'\n')?;
    if task > u32::from(version.last_task()) || count == 0 || count > EVENTS {
        return None;
    }
    let task = task as u8;
    Some((Line::Step { task, count }, rest))
}
