//! Why a storm has no totals: of several threads' faults one is told, the operator's first.
ghost use Rattle.std.specs.Prelude.{◌≡◌};
ghost use Rattle.gp_storm.specs.Faults.{storm_fault_of};

use gp_chassis::ApplyFault;
use gp_replay::RunFault;
use thiserror::Error;

/// Why a storm has no totals. Of several threads' faults the operator's is told, else that of the first reader by
/// port, else the clock's.
#[derive(Clone, Copy, Debug, PartialEq, Eq, Error)]
pub enum StormFault {
    /// The configuration is outside its limits.
    #[error("configuration outside its limits")]
    Limit,
    /// The plan names a port that is not there, or has a list of bursts for one.
    #[error("no such port")]
    NoPort,
    /// A journal keeps as many entries as it may.
    #[error("journal full")]
    JournalFull,
    /// The allocator refused memory.
    #[error("out of memory")]
    OutOfMemory,
    /// A thread was not started, or the chassis does not close.
    #[error("mismatch")]
    Mismatch,
}

/// Why the threads of a storm did not serve all of its plan.
#[derive(Clone, Copy)]
pub(crate) enum PlanFault {
    NoPort,
    JournalFull,
    OutOfMemory,
    /// A thread was not started, or has no worker.
    Mismatch,
}

impl From<ApplyFault> for PlanFault {
    ghost use Rattle.std.specs.Prelude.{◌≡◌};
    ghost use Rattle.gp_storm.specs.Faults.{plan_fault_of};

    ghost from_gives = { λ applied fault. fault ≡ plan_fault_of applied };

    fn from(fault: ApplyFault) -> PlanFault {
        match fault {
            ApplyFault::NoPort => PlanFault::NoPort,
            ApplyFault::OutOfMemory => PlanFault::OutOfMemory,
            ApplyFault::JournalFull => PlanFault::JournalFull,
        }
    }
}

/// The same fault, told by a storm: its configuration was within the limits.
pub(crate) fn storm_fault(fault: PlanFault) -> StormFault
    ensures { result ≡ storm_fault_of fault }
{
    match fault {
        PlanFault::NoPort => StormFault::NoPort,
        PlanFault::JournalFull => StormFault::JournalFull,
        PlanFault::OutOfMemory => StormFault::OutOfMemory,
        PlanFault::Mismatch => StormFault::Mismatch,
    }
}

impl From<StormFault> for RunFault {
    ghost use Rattle.std.specs.Prelude.{◌≡◌};
    ghost use Rattle.gp_storm.specs.Faults.{fault_of_storm};

    ghost from_gives = { λ storm fault. fault ≡ fault_of_storm storm };

    fn from(fault: StormFault) -> RunFault {
        match fault {
            StormFault::JournalFull => RunFault::JournalFull,
            StormFault::OutOfMemory => RunFault::OutOfMemory,
            StormFault::Limit | StormFault::NoPort | StormFault::Mismatch => RunFault::Mismatch,
        }
    }
}
