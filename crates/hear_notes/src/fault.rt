//! Why something can't be noted.
ghost use Rattle.std.specs.Prelude.{◌≡◌};

use std::alloc::AllocError;
use thiserror::Error;

/// Why something can't be noted. Nothing is noted of it then.
#[derive(Clone, Copy, Debug, PartialEq, Eq, Error)]
pub enum NoteFault {
    /// Out of memory for a serial number that is new.
    #[error("out of memory")]
    OutOfMemory,
    /// A serial number would be the 65,537th that answers a search, or there were 2^64 - 1 windows, or messages about
    /// one thing.
    #[error("too many serial numbers, windows or messages")]
    Full,
}

impl From<AllocError> for NoteFault {
    ghost use Rattle.hear_notes.specs.declared.fault.NoteFault.{NoteFault};

    ghost from_gives = { λ _ fault. fault ≡ NoteFault.OutOfMemory };

    fn from(_: AllocError) -> NoteFault {
        NoteFault::OutOfMemory
    }
}
