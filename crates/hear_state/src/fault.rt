//! Why what is heard can't be noted.
ghost use Rattle.std.specs.Prelude.{◌≡◌};

use std::alloc::AllocError;
use thiserror::Error;

/// Why what is heard can't be noted. Nothing is noted of it then.
#[derive(Clone, Copy, Debug, PartialEq, Eq, Error)]
pub enum HearFault {
    /// Out of memory for a serial number that is new.
    #[error("out of memory")]
    OutOfMemory,
    /// A serial number has asked 2^64 - 1 times more than it was assigned, or would be the 65,537th of its port.
    #[error("too many serial numbers, or one asks too often")]
    Full,
}

impl From<AllocError> for HearFault {
    ghost use Rattle.hear_state.specs.declared.fault.HearFault.{HearFault};

    ghost from_gives = { λ _ fault. fault ≡ HearFault.OutOfMemory };

    fn from(_: AllocError) -> HearFault {
        HearFault::OutOfMemory
    }
}
