//! Why a line was not answered, and why not all lines of an input were.
ghost use Rattle.std.specs.Prelude.{◌≡◌};
ghost use Rattle.gp_flow.specs.declared.fault.Unanswered.TheVariants.{Write, OutOfMemory};
ghost use Rattle.gp_flow.specs.declared.fault.LinesFault.TheVariants.{Line};

use gp_stream::WriteStopped;
use std::alloc::AllocError;
use thiserror::Error;

/// Why a line was not answered.
#[derive(Clone, Copy, Debug, PartialEq, Eq, Error)]
pub enum Unanswered {
    /// A write failed or took nothing, or a flush failed.
    #[error("a write failed or took nothing")]
    Write,
    /// Out of memory for the answer.
    #[error("out of memory")]
    OutOfMemory,
    /// The work can take no more lines.
    #[error("more lines than can be counted")]
    Full,
}

impl From<WriteStopped> for Unanswered {
    ghost from_gives = { λ _ fault. fault ≡ Write };

    fn from(_error: WriteStopped) -> Unanswered {
        Unanswered::Write
    }
}

impl From<AllocError> for Unanswered {
    ghost from_gives = { λ _ fault. fault ≡ OutOfMemory };

    fn from(_error: AllocError) -> Unanswered {
        Unanswered::OutOfMemory
    }
}

/// Why not all lines of an input were answered.
#[derive(Clone, Copy, Debug, PartialEq, Eq, Error)]
pub enum LinesFault {
    /// A read failed, now or before, or no read was left.
    #[error("a read failed, or the input took too many reads")]
    Read,
    /// A line was not answered.
    #[error("a line was not answered")]
    Line(Unanswered),
}

impl From<Unanswered> for LinesFault {
    ghost from_gives = { λ line fault. fault ≡ Line line };

    fn from(fault: Unanswered) -> LinesFault {
        LinesFault::Line(fault)
    }
}

impl From<WriteStopped> for LinesFault {
    ghost from_gives = { λ _ fault. fault ≡ Line Write };

    fn from(_error: WriteStopped) -> LinesFault {
        LinesFault::Line(Unanswered::Write)
    }
}

impl From<AllocError> for LinesFault {
    ghost from_gives = { λ _ fault. fault ≡ Line OutOfMemory };

    fn from(_error: AllocError) -> LinesFault {
        LinesFault::Line(Unanswered::OutOfMemory)
    }
}
