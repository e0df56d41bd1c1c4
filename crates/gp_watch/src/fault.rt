//! Why something that is heard can't be noted.
ghost use Rattle.std.specs.Prelude.{◌≡◌};

use std::alloc::AllocError;
use thiserror::Error;

/// Why something that is heard can't be noted. Nothing is noted of it then.
#[derive(Clone, Copy, Debug, PartialEq, Eq, Error)]
pub enum WatchFault {
    /// Out of memory for a serial number that is new.
    #[error("out of memory")]
    OutOfMemory,
    /// A serial number has asked 2^64 - 1 times more than it was assigned.
    #[error("a serial number asks too often")]
    Full,
}

impl From<AllocError> for WatchFault {
    ghost use Rattle.gp_watch.specs.declared.fault.WatchFault.{WatchFault};

    ghost from_gives = { λ _ fault. fault ≡ WatchFault.OutOfMemory };

    fn from(_: AllocError) -> WatchFault {
        WatchFault::OutOfMemory
    }
}
