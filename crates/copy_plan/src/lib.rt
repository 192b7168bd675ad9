//! What a copy is told and how it ends, as plain values: its workers, the signals that are planned for them, the gate
//! that they pass, their stops and that of the whole copy. Nothing here waits, and it knows nothing of words.
#![tactic(auto)]

pub mod gate;
pub mod kinds;
pub mod plan;
pub mod stop;

pub use gate::{Gate, GatePass, OpenGate, Who, pass_gate};
pub use plan::Planned;
pub use stop::{ReaderEnd, Stop, WorkerEnd};

/// The pipe from the reader to the relay.
pub const SOURCE_PIPE: u8 = 0;

/// The pipe from the relay to the writer.
pub const SINK_PIPE: u8 = 1;

/// The page whose tally counts the bytes that were passed on.
pub const COUNTED_PAGE: u8 = 0;

/// The completion that each worker completes at its end.
pub const ENDED_CELL: u8 = 0;

/// How many bytes a worker passes on at a time, at most.
pub const PIECE: usize = 4096;

/// How many bytes a source may give.
pub const LONGEST: u64 = 1 << 40;

/// How many signals may be planned.
pub const SIGNALS: usize = 16;
