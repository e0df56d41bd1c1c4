//! Why a line can't be dumped: there is no memory, a count can't go on, or a change has no variable.
ghost use Rattle.std.specs.Prelude.{◌≡◌};
ghost use Rattle.gp_waves.specs.Faults.{of_watch, undumped};

use gp_flow::Unanswered;
use gp_watch::WatchFault;
use std::alloc::AllocError;

/// Why a line can't be dumped.
#[derive(Clone, Copy, Debug, PartialEq, Eq)]
pub(crate) enum WavesFault {
    /// Out of memory.
    OutOfMemory,
    /// A count can't go on, or there is no variable for a change.
    Full,
}

impl From<AllocError> for WavesFault {
    ghost use Rattle.gp_waves.specs.declared.fault.WavesFault.{WavesFault};

    ghost from_gives = { λ _ fault. fault ≡ WavesFault.OutOfMemory };

    fn from(_error: AllocError) -> WavesFault {
        WavesFault::OutOfMemory
    }
}

impl From<WatchFault> for WavesFault {
    ghost from_gives = { λ watch fault. fault ≡ of_watch watch };

    fn from(fault: WatchFault) -> WavesFault {
        match fault {
            WatchFault::OutOfMemory => WavesFault::OutOfMemory,
            WatchFault::Full => WavesFault::Full,
        }
    }
}

impl From<WavesFault> for Unanswered {
    ghost from_gives = { λ waves fault. fault ≡ undumped waves };

    fn from(fault: WavesFault) -> Unanswered {
        match fault {
            WavesFault::OutOfMemory => Unanswered::OutOfMemory,
            WavesFault::Full => Unanswered::Full,
        }
    }
}
