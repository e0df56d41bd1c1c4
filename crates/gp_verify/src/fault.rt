//! Why a line was not judged: there is no memory, or there were more lines than can be counted.
ghost use Rattle.std.specs.Prelude.{◌≡◌};
ghost use Rattle.gp_flow.specs.declared.fault.Unanswered.TheVariants as lines;
ghost use Rattle.gp_verify.specs.declared.fault.LineRefusal.TheVariants.{OutOfMemory, Full};
ghost use Rattle.gp_verify.specs.Faults.{line_fault};

use gp_flow::Unanswered;
use std::alloc::AllocError;
use thiserror::Error;

/// Why a line was not judged.
#[derive(Clone, Copy, Debug, PartialEq, Eq, Error)]
pub enum LineRefusal {
    /// Out of memory for the journal of a port.
    #[error("out of memory")]
    OutOfMemory,
    /// `u64::MAX` lines were judged before.
    #[error("more lines than can be counted")]
    Full,
}

impl From<AllocError> for LineRefusal {
    ghost from_gives = { λ _ fault. fault ≡ OutOfMemory };

    fn from(_error: AllocError) -> LineRefusal {
        LineRefusal::OutOfMemory
    }
}

impl From<LineRefusal> for Unanswered {
    ghost from_gives = { λ refusal fault. fault ≡ line_fault refusal };

    fn from(refusal: LineRefusal) -> Unanswered {
        match refusal {
            LineRefusal::OutOfMemory => Unanswered::OutOfMemory,
            LineRefusal::Full => Unanswered::Full,
        }
    }
}
