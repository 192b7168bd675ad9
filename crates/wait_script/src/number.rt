//! Numbers as a script spells them.

ghost use Rattle.std.specs.Prelude.{◌≡◌, ◌+◌, ◌-◌, ◌*◌, ◌≤◌};
ghost use Rattle.wait_script.specs.{Number.numeral_value, Number.is_plain, Reading.fitting, Reading.digits_of};

/// No sign, and no zero in front of more digits.
pub fn plain(word: &[u8]) -> bool
    ensures { result ≡ is_plain word.now }
{
    match word {
        [b'+', ..] => false,
        [b'0', rest @ ..] => rest.is_empty(),
        _ => true,
    }
}

/// A number with one more digit after it, if it has 64 bits.
fn with_digit(value: u64, digit: u8) -> Option<u64>
    requires { (48 ≤ digit) × (digit ≤ 57) }
    ensures { result ≡ fitting (value * 10 + (digit - 48)) }
{
    value.checked_mul(10)?.checked_add(u64::from(digit - b'0'))
}

/// The number that digits spell, if it has 64 bits.
fn value_of(word: &[u8]) -> Option<u64>
    ensures { result ≡ digits_of word.now }
{
    let mut value = 0;
    for b in word {
        if !b.is_ascii_digit() {
            return None;
        }
        value = with_digit(value, *b)?;
    }
    Some(value)
}

/// A number of 64 bits, in its one spelling: decimal digits, without a sign and without a leading zero but `0`
/// itself.
pub fn number(word: &[u8]) -> Option<u64>
    ensures { result ≡ numeral_value word.now }
{
    if word.is_empty() || !plain(word) {
        return None;
    }
    value_of(word)
}
