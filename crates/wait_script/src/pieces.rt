//! Texts of lines, put together piece by piece. Who puts a piece after a text has seen to the room for it: a text has
//! at most `TEXT_BYTES` bytes, and each contract says how many more there may be after the call.

ghost use Rattle.std.specs.Prelude.{◌≡◌, ◌+◌, ◌<◌, ◌≤◌, ◌++◌, ◌∷◌, [], length, decimal};
ghost use Rattle.std.specs.Fmt.{signed_decimal};
ghost use Rattle.arrayvec.specs.ArrayVec.{array_vec_len};

use arrayvec::ArrayVec;
use itoa::Buffer;
use wait_model::layout::TEXT_BYTES;

/// A text on its way: what is written at once, the lines of one step or one other line.
pub type LineText = ArrayVec<u8, TEXT_BYTES>;

/// Puts a piece after a text.
#[inline(always)]
pub fn push_text(line: &mut LineText, piece: &[u8])
    requires { array_vec_len line.old + length piece.now ≤ TEXT_BYTES }
    ensures text { line.new.items ≡ line.old.items ++ piece.now }
    ensures len { array_vec_len line.new ≡ array_vec_len line.old + length piece.now }
{
    for byte in piece {
        line.push(*byte);
    }
}

/// Puts the digit of a number below 10 after a text.
#[inline(always)]
fn push_digit(line: &mut LineText, digit: u64)
    requires digit { digit < 10 }
    requires room { array_vec_len line.old < TEXT_BYTES }
    ensures text { line.new.items ≡ line.old.items ++ (48 + digit) ∷ [] }
    ensures len { array_vec_len line.new ≡ array_vec_len line.old + 1 }
{
    line.push(b'0' + digit as u8);
}

/// Puts a number from 10 to 99 after a text.
#[inline(always)]
fn push_two(line: &mut LineText, number: u64)
    requires from { 10 ≤ number }
    requires below { number < 100 }
    requires room { array_vec_len line.old + 2 ≤ TEXT_BYTES }
    ensures text { line.new.items ≡ line.old.items ++ decimal number }
    ensures len { array_vec_len line.new ≡ array_vec_len line.old + 2 }
{
    push_digit(line, number / 10);
    push_digit(line, number % 10);
}

/// Puts a number after a text. Most numbers have at most three digits.
#[inline(never)]
fn push_decimal(line: &mut LineText, number: u64)
    requires { array_vec_len line.old + length (decimal number) ≤ TEXT_BYTES }
    ensures text { line.new.items ≡ line.old.items ++ decimal number }
{
    match number {
        0..10 => push_digit(line, number),
        10..100 => push_two(line, number),
        100..1000 => {
            push_two(line, number / 10);
            push_digit(line, number % 10);
        }
        _ => push_long(line, number),
    }
}

/// Puts a number after a text, whatever its length.
#[cold]
#[inline(never)]
fn push_long(line: &mut LineText, number: u64)
    requires { array_vec_len line.old + length (decimal number) ≤ TEXT_BYTES }
    ensures text { line.new.items ≡ line.old.items ++ decimal number }
{
    push_text(line, Buffer::new().format(number).as_bytes());
}

/// Puts a number after a text.
#[inline]
pub fn push_number(line: &mut LineText, number: u64)
    requires { array_vec_len line.old + 20 ≤ TEXT_BYTES }
    ensures text { line.new.items ≡ line.old.items ++ decimal number }
    ensures len { array_vec_len line.new ≤ array_vec_len line.old + 20 }
{
    push_decimal(line, number);
}

/// Puts a name and a number of up to 64 bits after a text.
#[inline(always)]
pub fn push_counted(line: &mut LineText, name: &[u8], number: u64)
    requires { array_vec_len line.old + length name.now + 20 ≤ TEXT_BYTES }
    ensures text { line.new.items ≡ line.old.items ++ name.now ++ decimal number }
    ensures len { array_vec_len line.new ≤ array_vec_len line.old + length name.now + 20 }
{
    push_text(line, name);
    push_number(line, number);
}

/// Puts a number of 16 bits after a text.
#[inline]
pub fn push_short(line: &mut LineText, number: u16)
    requires { array_vec_len line.old + 5 ≤ TEXT_BYTES }
    ensures text { line.new.items ≡ line.old.items ++ decimal number }
    ensures len { array_vec_len line.new ≤ array_vec_len line.old + 5 }
{
    push_decimal(line, number.into());
}

/// Puts a number that may be below 0 after a text.
pub fn push_signed(line: &mut LineText, number: i32)
    requires { array_vec_len line.old + 21 ≤ TEXT_BYTES }
    ensures text { line.new.items ≡ line.old.items ++ signed_decimal number }
    ensures len { array_vec_len line.new ≤ array_vec_len line.old + 21 }
{
    if number < 0 {
        push_text(line, b"-");
    }
    push_number(line, number.unsigned_abs().into());
}
