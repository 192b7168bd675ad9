//! How a copy ends.

ghost use Rattle.std.specs.Prelude.{◌≡◌};
ghost use Rattle.waitq_copy.specs.Copying.{fault_after};

use copy_plan::Stop;
use edge_io::SinkFault;
use waitq_alone::fault::Fault;

/// Why a copy that was begun ends early, by how it stopped and by what storing its sink answered: the first of these
/// causes.
pub fn fault_after(stop: Stop, stored: Result<(), SinkFault>) -> Option<Fault<'static>>
    ensures { result ≡ fault_after stop stored }
{
    match (stop, stored) {
        (Stop::Memory, _) | (_, Err(SinkFault::OutOfMemory)) => Some(Fault::Memory),
        (Stop::Worn { place, .. }, _) => Some(Fault::Worn { place }),
        (Stop::ReadFault, _) => Some(Fault::Read),
        (Stop::WriteFault, _) | (_, Err(SinkFault::Failed)) => Some(Fault::Write),
        (Stop::Long, _) => Some(Fault::Long),
        (Stop::Killed, _) => Some(Fault::Killed),
        (Stop::Finished | Stop::Broken | Stop::Taken, Ok(())) => None,
    }
}
