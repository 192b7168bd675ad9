//! Why a command ends early, and with which status.

ghost use Rattle.std.specs.Prelude.{◌≡◌};
ghost use Rattle.waitq_alone.specs.Fault.{status_of, read_fault, script_fault, sink_fault};
ghost use Rattle.waitq_alone.specs.declared.fault.Fault.TheVariants.{Memory};

use edge_io::{ReadFault, SinkFault};
use std::alloc::AllocError;
use wait_script::{ReadScript, Reason};

/// Why a command ends early: each has a status and a line of its own.
#[derive(Clone, Copy, Debug, PartialEq, Eq)]
pub enum Fault<'a> {
    /// The words are no command: status 2.
    Usage,
    /// The input is no script, with its first bad line and its first reason: status 3.
    Script { line: u32, why: Reason },
    /// The input, or a file that is copied or merged, can't be read: status 4.
    Read,
    /// There is no file of a name that is to be copied or merged: status 4.
    NoFile { name: &'a str },
    /// The output, or the file that is written, can't be written: status 5.
    Write,
    /// A fatal signal that was planned was sent to a worker of a copy: status 6.
    Killed,
    /// Memory ran out: status 7.
    Memory,
    /// The input has more than `INPUT_BYTES` bytes, or asks for more than `EVENTS` events, or a file that is
    /// copied or merged gave more than `LONGEST` bytes: status 8.
    Long,
    /// A worker of a copy or of a merge found no place in a queue, where an entry stands at `place`: status 9.
    Worn { place: u64 },
}

impl Fault<'_> {
    /// The status with which the program ends.
    pub fn status(&self) -> u8
        ensures { result ≡ status_of self.now }
    {
        match self {
            Fault::Usage => 2,
            Fault::Script { .. } => 3,
            Fault::Read | Fault::NoFile { .. } => 4,
            Fault::Write => 5,
            Fault::Killed => 6,
            Fault::Memory => 7,
            Fault::Long => 8,
            Fault::Worn { .. } => 9,
        }
    }
}

impl From<ReadFault> for Fault<'_> {
    ghost from_gives = { λ fault e. e ≡ read_fault fault };

    fn from(fault: ReadFault) -> Self {
        match fault {
            ReadFault::Failed => Fault::Read,
            ReadFault::OutOfMemory => Fault::Memory,
            ReadFault::Long => Fault::Long,
        }
    }
}

impl From<ReadScript> for Fault<'_> {
    ghost from_gives = { λ fault e. e ≡ script_fault fault };

    fn from(fault: ReadScript) -> Self {
        match fault {
            ReadScript::Bad { line, why } => Fault::Script { line, why },
            ReadScript::OutOfMemory => Fault::Memory,
        }
    }
}

impl From<SinkFault> for Fault<'_> {
    ghost from_gives = { λ fault e. e ≡ sink_fault fault };

    fn from(fault: SinkFault) -> Self {
        match fault {
            SinkFault::Failed => Fault::Write,
            SinkFault::OutOfMemory => Fault::Memory,
        }
    }
}

impl From<AllocError> for Fault<'_> {
    ghost from_gives = { λ _ e. e ≡ Memory };

    fn from(_error: AllocError) -> Self {
        Fault::Memory
    }
}
