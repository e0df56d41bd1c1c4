//! Why a call of a journal fails: there is no memory.
ghost use Rattle.std.specs.Prelude.{◌≡◌};
ghost use Rattle.gp_journal.specs.declared.fault.JournalFault.TheVariants.{OutOfMemory};

use gp_port::ImageFault;
use std::alloc::AllocError;
use thiserror::Error;

/// Why a journal has no further room, or is not compared with a port.
#[derive(Clone, Copy, Debug, PartialEq, Eq, Error)]
pub enum JournalFault {
    /// The allocator refused memory for an entry, or for the port that follows the entries.
    #[error("out of memory")]
    OutOfMemory,
}

impl From<AllocError> for JournalFault {
    ghost from_gives = { λ _ fault. fault ≡ OutOfMemory };

    fn from(_error: AllocError) -> JournalFault {
        JournalFault::OutOfMemory
    }
}

impl From<ImageFault> for JournalFault {
    ghost from_gives = { λ _ fault. fault ≡ OutOfMemory };

    fn from(_fault: ImageFault) -> JournalFault {
        JournalFault::OutOfMemory
    }
}
