//! How workers end.

ghost use Rattle.std.specs.Prelude.{◌≡◌};
ghost use Rattle.copy_plan.specs.Stops.{stop_of};

/// Why a worker of a copy ended.
///
/// Finished: all that there was is passed on. Broken: who takes from its pipe closed the read end. Killed: it took a
/// fatal signal. Taken: an end of a pipe that it wanted was somebody else's. ReadFault and WriteFault: the source, or
/// the sink, failed. Memory: the sink wanted memory. Long: the source gave more than `LONGEST` bytes. Worn: head `head`
/// had no place left for its entry, where a member stands at `place`.
#[derive(Clone, Copy, Debug, PartialEq, Eq, Drop)]
pub enum Stop {
    Finished,
    Broken,
    Killed,
    Taken,
    ReadFault,
    WriteFault,
    Memory,
    Long,
    Worn { head: u16, place: u64 },
}

/// How a reader ended: how many bytes the source gave in the call; how many of the planned signals have an offset at
/// most that number, and how many of these are fatal; 0 both where it stopped as Taken.
#[derive(Clone, Copy, Debug, PartialEq, Eq, Drop)]
pub struct ReaderEnd {
    pub stop: Stop,
    pub read: u64,
    pub sent: u8,
    pub kills: u8,
}

/// How a relay or a writer ended, and the sum of what it added to the tally, modulo 2^64.
#[derive(Clone, Copy, Debug, PartialEq, Eq, Drop)]
pub struct WorkerEnd {
    pub stop: Stop,
    pub moved: u64,
}

/// An end of a relay or a writer that was not to have its ends.
pub const NOT_TAKEN: WorkerEnd = WorkerEnd {
    stop: Stop::Taken,
    moved: 0,
};

/// The end of a reader that was not to have its end of a pipe.
pub const NOT_READ: ReaderEnd = ReaderEnd {
    stop: Stop::Taken,
    read: 0,
    sent: 0,
    kills: 0,
};

/// What ends a part of a worker's turn before its time.
#[derive(Clone, Copy, Debug, PartialEq, Eq, Drop)]
pub enum Halt {
    Broken,
    Killed,
    Worn { head: u16, place: u64 },
}

/// The stop of a worker that was halted.
pub fn stop_of(halt: Halt) -> Stop
    ensures { result ≡ stop_of halt }
{
    match halt {
        Halt::Broken => Stop::Broken,
        Halt::Killed => Stop::Killed,
        Halt::Worn { head, place } => Stop::Worn { head, place },
    }
}
