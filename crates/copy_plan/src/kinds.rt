//! How a copy ends, by how its tasks did.

ghost use Rattle.std.specs.Prelude.{◌≡◌};
ghost use Rattle.copy_plan.specs.Kinds.{copy_stop, first_or, is_of};

use crate::stop::Stop;

/// A kind of stop that a copy names wherever one of its tasks stopped so.
#[derive(Clone, Copy, Debug, PartialEq, Eq, Drop)]
pub enum Kind {
    Memory,
    Worn,
    ReadFault,
    WriteFault,
    Long,
}

/// Whether a stop is of a kind.
pub fn is_of(kind: Kind, stop: Stop) -> bool
    ensures { result ≡ is_of kind stop }
{
    match kind {
        Kind::Memory => matches!(stop, Stop::Memory),
        Kind::Worn => matches!(stop, Stop::Worn { .. }),
        Kind::ReadFault => matches!(stop, Stop::ReadFault),
        Kind::WriteFault => matches!(stop, Stop::WriteFault),
        Kind::Long => matches!(stop, Stop::Long),
    }
}

/// The first of the stops that is of a kind, or else another.
pub fn first_or(kind: Kind, stops: &[Stop], other: Stop) -> Stop
    ensures { result ≡ first_or kind stops.now other }
{
    for stop in stops {
        if is_of(kind, *stop) {
            return *stop;
        }
    }
    other
}

/// How a copy ended, by how its tasks did, and how many kills were sent.
pub fn copy_stop(stops: &[Stop], kills: u8) -> Stop
    ensures { result ≡ copy_stop stops.now kills }
{
    let none = if kills == 0 {
        Stop::Finished
    } else {
        Stop::Killed
    };
    let long = first_or(Kind::Long, stops, none);
    let unwritten = first_or(Kind::WriteFault, stops, long);
    let unread = first_or(Kind::ReadFault, stops, unwritten);
    let worn = first_or(Kind::Worn, stops, unread);
    first_or(Kind::Memory, stops, worn)
}
