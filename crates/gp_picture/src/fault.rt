//! Why a line can't be drawn: there is no memory, or a count can't go on.
ghost use Rattle.std.specs.Prelude.{◌≡◌};
ghost use Rattle.gp_picture.specs.Faults.{of_watch, undrawn};

use gp_flow::Unanswered;
use gp_watch::WatchFault;
use std::alloc::AllocError;

/// Why a line can't be drawn.
#[derive(Clone, Copy, Debug, PartialEq, Eq)]
pub(crate) enum PictureFault {
    /// Out of memory.
    OutOfMemory,
    /// A count can't go on.
    Full,
}

impl From<AllocError> for PictureFault {
    ghost use Rattle.gp_picture.specs.declared.fault.PictureFault.{PictureFault};

    ghost from_gives = { λ _ fault. fault ≡ PictureFault.OutOfMemory };

    fn from(_error: AllocError) -> PictureFault {
        PictureFault::OutOfMemory
    }
}

impl From<WatchFault> for PictureFault {
    ghost from_gives = { λ watch fault. fault ≡ of_watch watch };

    fn from(fault: WatchFault) -> PictureFault {
        match fault {
            WatchFault::OutOfMemory => PictureFault::OutOfMemory,
            WatchFault::Full => PictureFault::Full,
        }
    }
}

impl From<PictureFault> for Unanswered {
    ghost from_gives = { λ picture fault. fault ≡ undrawn picture };

    fn from(fault: PictureFault) -> Unanswered {
        match fault {
            PictureFault::OutOfMemory => Unanswered::OutOfMemory,
            PictureFault::Full => Unanswered::Full,
        }
    }
}
