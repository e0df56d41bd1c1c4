//! Why nothing is said of a line: there is no memory, or a count can't go on.
ghost use Rattle.std.specs.Prelude.{◌≡◌};
ghost use Rattle.gp_audit.specs.Faults.{of_watch, unanswered};

use gp_flow::Unanswered;
use gp_watch::WatchFault;
use std::alloc::AllocError;

/// Why nothing is said of a line.
#[derive(Clone, Copy, Debug, PartialEq, Eq)]
pub(crate) enum AuditFault {
    /// Out of memory.
    OutOfMemory,
    /// A count can't go on.
    Full,
}

impl From<AllocError> for AuditFault {
    ghost use Rattle.gp_audit.specs.declared.fault.AuditFault.{AuditFault};

    ghost from_gives = { λ _ fault. fault ≡ AuditFault.OutOfMemory };

    fn from(_error: AllocError) -> AuditFault {
        AuditFault::OutOfMemory
    }
}

impl From<WatchFault> for AuditFault {
    ghost from_gives = { λ watch fault. fault ≡ of_watch watch };

    fn from(fault: WatchFault) -> AuditFault {
        match fault {
            WatchFault::OutOfMemory => AuditFault::OutOfMemory,
            WatchFault::Full => AuditFault::Full,
        }
    }
}

impl From<AuditFault> for Unanswered {
    ghost from_gives = { λ audit fault. fault ≡ unanswered audit };

    fn from(fault: AuditFault) -> Unanswered {
        match fault {
            AuditFault::OutOfMemory => Unanswered::OutOfMemory,
            AuditFault::Full => Unanswered::Full,
        }
    }
}
