//! Why a line is none of a trace, and how an explanation may end.
ghost use Rattle.std.specs.Prelude.{◌≡◌};
ghost use Rattle.gp_flow.specs.declared.fault.Unanswered.TheVariants as lines;
ghost use Rattle.gp_flow.specs.declared.fault.LinesFault.TheVariants.{Line};
ghost use Rattle.gp_explain.specs.declared.fault.ExplainFault.TheVariants.{Lines};

use gp_flow::{LinesFault, Unanswered};
use std::alloc::AllocError;
use thiserror::Error;

/// Why a line is none of a trace.
#[derive(Clone, Copy, Debug, PartialEq, Eq)]
pub enum NoLine {
    /// It isn't spelled as a line of a trace.
    NotALine,
    /// It has more than 4,096 octets, and was not looked at.
    TooLong,
}

/// Why a trace was not told in words to its end.
#[derive(Clone, Copy, Debug, PartialEq, Eq, Error)]
pub enum ExplainFault {
    /// This line, counted from 1, is the first that is none of a trace. The lines before it were told.
    #[error("line {line} is no line of a trace")]
    Refused {
        /// The line, counted from 1.
        line: u64,
        /// Why it is none.
        why: NoLine,
    },
    /// The trace was not read, or a line not told.
    #[error("{0}")]
    Lines(LinesFault),
}

impl From<LinesFault> for ExplainFault {
    ghost from_gives = { λ fault outcome. outcome ≡ Lines fault };

    fn from(fault: LinesFault) -> ExplainFault {
        ExplainFault::Lines(fault)
    }
}

impl From<AllocError> for ExplainFault {
    ghost from_gives = { λ _ outcome. outcome ≡ Lines (Line lines.OutOfMemory) };

    fn from(_error: AllocError) -> ExplainFault {
        ExplainFault::Lines(LinesFault::Line(Unanswered::OutOfMemory))
    }
}
