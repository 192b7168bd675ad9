ghost use Rattle.std.specs.Prelude.{◌≡◌, ◌<◌, ◌≤◌, [], length, IfOk, IfSome, IsErrOf, OnOk, Some};
ghost use Rattle.edge_io.specs.Faults.{HasRisen};
ghost use Rattle.edge_io.specs.declared.whole.ReadFault.TheVariants.{OutOfMemory, Failed as FailedFault};

use crate::{Failed, Source};
use std::alloc::{AllocError, Global};
use thiserror::Error;

// The bytes of one read.
const READ_SIZE: usize = 4096;

/// Why a source couldn't be read whole.
#[derive(Clone, Copy, Debug, PartialEq, Eq, Error)]
pub enum ReadFault {
    /// A read failed.
    #[error("a read failed")]
    Failed,
    /// There was no memory for the bytes.
    #[error("there is no memory for the bytes that are read")]
    OutOfMemory,
    /// The source has more bytes than were asked for.
    #[error("there are too many bytes to read")]
    Long,
}

impl From<Failed> for ReadFault {
    ghost from_gives = { λ _ e. e ≡ FailedFault };

    fn from(_fault: Failed) -> ReadFault {
        ReadFault::Failed
    }
}

impl From<AllocError> for ReadFault {
    ghost from_gives = { λ _ e. e ≡ OutOfMemory };

    fn from(_error: AllocError) -> ReadFault {
        ReadFault::OutOfMemory
    }
}

/// Reads a source to its end, and answers its bytes where they are at most `most`.
///
/// Failed comes only with a fault of the source, and Long only where more than `most` bytes are left.
/// After a fault the bytes that were read are gone.
pub fn read_all<S: Source>(alloc: Global, source: &mut S, most: usize) -> Result<Vec<u8>, ReadFault>
    ensures fits { IfOk result (λ v. length v.items ≤ most) }
    ensures whole { IfOk result (λ v. IfSome (S.left source.old) (λ bytes. bytes ≡ v.items)) }
    ensures end { OnOk result (IfSome (S.left source.new) (λ bytes. bytes ≡ [])) }
    ensures long { IsErrOf result ReadFault.Long → IfSome (S.left source.old) (λ bytes. most < length bytes) }
    ensures cause { IsErrOf result ReadFault.Failed → HasRisen (S.faults source.old) (S.faults source.new) }
    ensures later { S.faults source.old ≤ S.faults source.new }
{
    let mut bytes = Vec::new(alloc);
    let mut buf = [0u8; READ_SIZE];
    'reads: while bytes.len() <= most {
        let count = source.read(&mut buf)?;
        if count == 0 {
            return Ok(bytes);
        }
        bytes.extend_from_slice(&buf[..count])?;
    }
    Err(ReadFault::Long)
}
