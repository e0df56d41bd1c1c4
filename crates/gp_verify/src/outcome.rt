//! Why a text is no trace of a run, or none was judged.
ghost use Rattle.std.specs.Prelude.{◌≡◌};
ghost use Rattle.gp_flow.specs.declared.fault.Unanswered.TheVariants as lines;
ghost use Rattle.gp_flow.specs.declared.fault.LinesFault.TheVariants.{Line};
ghost use Rattle.gp_replay.specs.Fault.{fault_of_script, fault_of_source};
ghost use Rattle.gp_replay.specs.declared.fault.RunFault.TheVariants as runs;
ghost use Rattle.gp_verify.specs.declared.outcome.CheckFault.TheVariants.{Script, Trace};
ghost use Rattle.gp_verify.specs.declared.outcome.VerifyFault.TheVariants.{Lines};

use super::verdict::Verdict;
use gp_flow::{LinesFault, Unanswered};
use gp_replay::RunFault;
use gp_script::ScriptError;
use gp_stream::SourceFault;
use std::alloc::AllocError;
use thiserror::Error;

/// Why a text was not found to be a trace.
#[derive(Clone, Copy, Debug, PartialEq, Eq, Error)]
pub enum VerifyFault {
    /// This line, counted from 1, is the first that can't be.
    #[error("line {line} is not of a run")]
    Refused {
        /// The line, counted from 1.
        line: u64,
        /// What is said of it.
        verdict: Verdict,
    },
    /// This line, counted from 1, would follow, but the text ends before its line feed.
    #[error("line {line} has no line feed")]
    Unended {
        /// The line, counted from 1.
        line: u64,
    },
    /// The text was not read, or a line not judged.
    #[error("{0}")]
    Lines(LinesFault),
}

impl From<LinesFault> for VerifyFault {
    ghost from_gives = { λ fault outcome. outcome ≡ Lines fault };

    fn from(fault: LinesFault) -> VerifyFault {
        VerifyFault::Lines(fault)
    }
}

impl From<AllocError> for VerifyFault {
    ghost from_gives = { λ _ outcome. outcome ≡ Lines (Line lines.OutOfMemory) };

    fn from(_error: AllocError) -> VerifyFault {
        VerifyFault::Lines(LinesFault::Line(Unanswered::OutOfMemory))
    }
}

/// Why a text was not found to be the trace of a run on a script's chassis.
#[derive(Clone, Copy, Debug, PartialEq, Eq, Error)]
pub enum CheckFault {
    /// The script was not read; of the trace nothing was.
    #[error("of the script: {0}")]
    Script(RunFault),
    /// The script was read, and the trace is none, or was not read.
    #[error("of the trace: {0}")]
    Trace(VerifyFault),
}

impl From<AllocError> for CheckFault {
    ghost from_gives = { λ _ outcome. outcome ≡ Script runs.OutOfMemory };

    fn from(_error: AllocError) -> CheckFault {
        CheckFault::Script(RunFault::OutOfMemory)
    }
}

impl From<SourceFault> for CheckFault {
    ghost from_gives = { λ fault outcome. outcome ≡ Script (fault_of_source fault) };

    fn from(fault: SourceFault) -> CheckFault {
        CheckFault::Script(RunFault::from(fault))
    }
}

impl From<ScriptError> for CheckFault {
    ghost from_gives = { λ fault outcome. outcome ≡ Script (fault_of_script fault) };

    fn from(fault: ScriptError) -> CheckFault {
        CheckFault::Script(RunFault::from(fault))
    }
}

impl From<VerifyFault> for CheckFault {
    ghost from_gives = { λ fault outcome. outcome ≡ Trace fault };

    fn from(fault: VerifyFault) -> CheckFault {
        CheckFault::Trace(fault)
    }
}
