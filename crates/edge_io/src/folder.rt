ghost use Rattle.std.specs.Prelude.{◌≡◌, ℕ, ◌+◌, ◌-◌, ◌<◌, ◌≤◌, IfOk, OnOk, OnErr, IsErrOf, Option};
ghost use Rattle.edge_io.specs.Faults.{HasRisen, CountsFailed};
ghost use Rattle.edge_io.specs.Folders.{Files, HasBytes, HasNone, HoldsNothing, Stores, CountsOpening};
ghost use Rattle.edge_io.specs.declared.folder.OpenFault.TheVariants.{OutOfMemory};

use crate::{Sink, SinkFault, Source};
use std::alloc::{AllocError, Global};
use thiserror::Error;

/// Why a file couldn't be opened or made.
#[derive(Clone, Copy, Debug, PartialEq, Eq, Error)]
pub enum OpenFault {
    /// The outside failed.
    #[error("a file can't be opened")]
    Failed = 1,
    /// There is no memory for what is opened.
    #[error("there is no memory to open a file")]
    OutOfMemory = 2,
    /// No file has the name.
    #[error("there is no file of this name")]
    NoSuchFile = 3,
}

impl From<AllocError> for OpenFault {
    ghost from_gives = { λ _ e. e ≡ OutOfMemory };

    fn from(_error: AllocError) -> OpenFault {
        OpenFault::OutOfMemory
    }
}

/// Files by their names, which are opened to be read, and made anew by storing what a sink holds.
///
/// A folder may tell which files it has, as one in memory does; one of a disk doesn't. It counts its faults of
/// reading apart from those of writing, and no call of one kind counts a fault of the other. It also counts the sources
/// that are open, so that a caller can say that it has closed what it opened.
pub trait Folder {
    /// What a file is read by. Nobody has read of it yet when it is opened, so it has counted no fault.
    type In: Source + Send + Drop;
    /// What the bytes of a file are written to before it is stored.
    type Out: Sink + Send + Drop;

    /// The bytes of each file by its name, where the folder tells them.
    ghost files: { Self → Option Files };
    /// How many of its faults were of reading. Counted in 64 bits, up to 2^64 - 1.
    ghost read_faults: { Self → ℕ };
    /// How many of its faults were of writing. Counted in 64 bits, up to 2^64 - 1.
    ghost write_faults: { Self → ℕ };
    /// How many sources are open: given out by `open`, and not taken back by `close`.
    ghost opened: { Self → ℕ };

    /// Opens the file of that name to be read from its front. It changes no file. Exactly where Ok is answered one
    /// source more is open.
    ///
    /// NoSuchFile comes only where no file has the name, and Ok only where one has it. Failed comes exactly where
    /// a fault of reading is counted, and OutOfMemory where there is no memory for what is opened, or too many sources
    /// are open.
    fn open(&mut self, alloc: Global, name: &str) -> Result<Self::In, OpenFault>
        ensures found { IfOk result (λ input. HasBytes (files self.old) name.now (Self.In.left input)) }
        ensures fresh { IfOk result (λ input. Self.In.faults input ≡ 0) }
        ensures missing { IsErrOf result OpenFault.NoSuchFile → HasNone (files self.old) name.now }
        ensures same { files self.new ≡ files self.old }
        ensures failed { CountsOpening (read_faults self.old) (read_faults self.new) result }
        ensures kept { write_faults self.new ≡ write_faults self.old }
        ensures given { OnOk result (opened self.new ≡ opened self.old + 1) }
        ensures not_given { OnErr result (opened self.new ≡ opened self.old) };

    /// Makes a sink that holds nothing, for a file of that name. No file is changed before it is stored.
    ///
    /// Failed comes exactly where a fault of writing is counted, and OutOfMemory where there is no memory for the
    /// sink. NoSuchFile never comes.
    fn create(&mut self, alloc: Global, name: &str) -> Result<Self::Out, OpenFault>
        ensures empty { IfOk result (λ out. HoldsNothing (files self.old) (Self.Out.held out)) }
        ensures fresh { IfOk result (λ out. Self.Out.faults out ≡ 0) }
        ensures always { IsErrOf result OpenFault.NoSuchFile → ⊥ }
        ensures same { files self.new ≡ files self.old }
        ensures failed { CountsOpening (write_faults self.old) (write_faults self.new) result }
        ensures kept { read_faults self.new ≡ read_faults self.old }
        ensures as_open { opened self.new ≡ opened self.old };

    /// Takes back what a file was read by: one source fewer is open. A fault of reading is counted exactly where that
    /// has counted one.
    fn close(&mut self, input: Self::In)
        ensures same { files self.new ≡ files self.old }
        ensures risen { 0 < Self.In.faults input → HasRisen (read_faults self.old) (read_faults self.new) }
        ensures quiet { Self.In.faults input ≡ 0 → read_faults self.new ≡ read_faults self.old }
        ensures later { read_faults self.old ≤ read_faults self.new }
        ensures kept { write_faults self.new ≡ write_faults self.old }
        ensures taken_back { opened self.new ≡ opened self.old - 1 };

    /// Makes what the sink holds the bytes of the file of that name, in one step. A file that had the name before
    /// is gone then, and no other file is changed. After a fault every file is as it was.
    ///
    /// Failed comes only where a fault of writing is counted. Such a fault is also counted, whatever is answered,
    /// where the sink has counted one. OutOfMemory comes where there is no memory, or no room, for the file.
    fn store(&mut self, alloc: Global, name: &str, out: Self::Out) -> Result<(), SinkFault>
        ensures stored { IfOk result (λ _. Stores (files self.old) (files self.new) name.now (Self.Out.held out)) }
        ensures same { OnErr result (files self.new ≡ files self.old) }
        ensures cause { IsErrOf result SinkFault.Failed
            → HasRisen (write_faults self.old) (write_faults self.new) }
        ensures risen { 0 < Self.Out.faults out → HasRisen (write_faults self.old) (write_faults self.new) }
        ensures quiet { Self.Out.faults out ≡ 0
            → CountsFailed (write_faults self.old) (write_faults self.new) result }
        ensures later { write_faults self.old ≤ write_faults self.new }
        ensures kept { read_faults self.new ≡ read_faults self.old }
        ensures as_open { opened self.new ≡ opened self.old };
}
