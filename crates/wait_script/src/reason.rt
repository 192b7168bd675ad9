//! Why a line of a script is bad.

ghost use Rattle.std.specs.Prelude.{◌≡◌};
ghost use Rattle.wait_script.specs.Reasons.{reason_number, first_reason};

use std::fmt;

/// A reason why a line is bad. A line is bad by the first of these that stands.
#[derive(Clone, Copy, Debug, PartialEq, Eq)]
pub enum Reason {
    /// The last line has no line feed at its end.
    CutLine = 1,
    /// The line has more than `LINE_BYTES` bytes, without its line feed.
    LongLine,
    /// The line has a byte outside 0x20 to 0x7E.
    BadByte,
    /// The first line is neither `waitq 1` nor `waitq 2`.
    NoHeader,
    /// The first word is neither `call` nor `step`, or the third word of a `call` is the name of no call.
    UnknownWord,
    /// The line doesn't have the number of words of its form.
    WordCount,
    /// A word in a number's place is no number, or outside its range.
    BadNumber,
    /// A word in a keyword's place is none of those that stand there.
    BadForm,
    /// A word in a condition's place is no condition of the kind that the call takes.
    BadCondition,
}

impl Reason {
    /// The reason's number, 1 to 9.
    pub fn number(self) -> u8
        ensures { result ≡ reason_number self }
    {
        self as u8
    }

    /// The one of two reasons that comes first.
    pub fn first(self, other: Reason) -> Reason
        ensures { result ≡ first_reason self other }
    {
        if self.number() <= other.number() {
            self
        } else {
            other
        }
    }
}

impl fmt::Display for Reason {
    /// Writes the reason's number.
    fn fmt<W: fmt::Write>(&self, f: &mut fmt::Formatter<W>) -> fmt::Result {
        let number = self.number();
        write!(f, "{number}")
    }
}
