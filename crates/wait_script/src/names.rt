//! The names of the calls that scripts of all versions have.

ghost use Rattle.std.specs.Prelude.{◌≡◌, map};
ghost use Rattle.wait_script.specs.Names as spec;

/// A name of a call.
#[derive(Clone, Copy)]
pub enum Name {
    Wait,
    Set,
    Take,
    Read,
    Wake,
    Add,
    Remove,
    Woken,
    Signal,
    Accept,
    Kick,
    SimpleWait,
    SimpleWake,
    Complete,
    CompleteAll,
    Reinit,
    WaitFor,
    TryWait,
    IsDone,
    TryBit,
    WaitBit,
    LockBit,
    ClearBit,
    WaitVar,
    SetVar,
}

/// The value that a table has at a word, if it has the word.
pub fn value_in<T: Copy>(table: &[(&[u8], T)], word: &[u8]) -> Option<T>
    ensures { result ≡ spec.value_in (map (λ entry. (entry.0.now, entry.1)) table.now) word.now }
{
    for (spelled, value) in table {
        if word == *spelled {
            return Some(*value);
        }
    }
    None
}

/// The name that a word is.
pub fn name_of(word: &[u8]) -> Option<Name>
    ensures { result ≡ spec.value_in spec.spelled_names word.now }
{
    value_in(
        &[
            (b"wait", Name::Wait),
            (b"set", Name::Set),
            (b"take", Name::Take),
            (b"read", Name::Read),
            (b"wake", Name::Wake),
            (b"add", Name::Add),
            (b"remove", Name::Remove),
            (b"woken", Name::Woken),
            (b"signal", Name::Signal),
            (b"accept", Name::Accept),
            (b"kick", Name::Kick),
            (b"swait", Name::SimpleWait),
            (b"swake", Name::SimpleWake),
            (b"complete", Name::Complete),
            (b"completeall", Name::CompleteAll),
            (b"reinit", Name::Reinit),
            (b"waitfor", Name::WaitFor),
            (b"trywait", Name::TryWait),
            (b"isdone", Name::IsDone),
            (b"trybit", Name::TryBit),
            (b"waitbit", Name::WaitBit),
            (b"lockbit", Name::LockBit),
            (b"clearbit", Name::ClearBit),
            (b"waitvar", Name::WaitVar),
            (b"setvar", Name::SetVar),
        ],
        word,
    )
}
