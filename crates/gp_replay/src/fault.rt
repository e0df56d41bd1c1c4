//! Why a play, or a run of a script, ended early.
ghost use Rattle.std.specs.Prelude.{◌≡◌};
ghost use Rattle.gp_replay.specs.Fault.{fault_of_play, fault_of_script, fault_of_source};
ghost use Rattle.gp_replay.specs.declared.fault.PlayFault.TheVariants.{OutOfMemory, Write};
ghost use Rattle.gp_replay.specs.declared.fault.RunFault.TheVariants as runs;

use gp_script::{ScriptError, ScriptFault};
use gp_stream::{SourceFault, WriteStopped};
use std::alloc::AllocError;
use thiserror::Error;

/// Why events were not played and written to their end.
#[derive(Clone, Copy, Debug, PartialEq, Eq, Error)]
pub enum PlayFault {
    /// Out of memory for the entries of a play with simulated units; one without them keeps none.
    #[error("out of memory")]
    OutOfMemory,
    /// A write failed or took nothing, or a flush failed.
    #[error("a write failed or took nothing")]
    Write,
}

impl From<AllocError> for PlayFault {
    ghost from_gives = { λ _ fault. fault ≡ OutOfMemory };

    fn from(_error: AllocError) -> PlayFault {
        PlayFault::OutOfMemory
    }
}

impl From<WriteStopped> for PlayFault {
    ghost from_gives = { λ _ fault. fault ≡ Write };

    fn from(_error: WriteStopped) -> PlayFault {
        PlayFault::Write
    }
}

/// Why a run of a script ended early.
#[derive(Clone, Copy, Debug, PartialEq, Eq, Error)]
pub enum RunFault {
    /// A read failed, or the input took too many reads.
    #[error("a read failed, or the input took too many reads")]
    Read,
    /// The input has more than 1,048,576 bytes.
    #[error("the input is too long")]
    TooLong,
    /// The input is no script.
    #[error("the input is no script: {0}")]
    Script(ScriptFault),
    /// Out of memory for the input, the script, the ports or a line.
    #[error("out of memory")]
    OutOfMemory,
    /// A write failed or took nothing, or a flush failed.
    #[error("a write failed or took nothing")]
    Write,
    /// What several threads were told does not agree, or a thread was not started. A replay never answers it.
    #[error("a thread was not started, or what the threads were told does not agree")]
    Mismatch,
    /// The journal of a port keeps as many entries as it may. A replay, which keeps none, never answers it.
    #[error("the journal of a port is full")]
    JournalFull,
}

impl From<AllocError> for RunFault {
    ghost from_gives = { λ _ fault. fault ≡ runs.OutOfMemory };

    fn from(_error: AllocError) -> RunFault {
        RunFault::OutOfMemory
    }
}

impl From<WriteStopped> for RunFault {
    ghost from_gives = { λ _ fault. fault ≡ runs.Write };

    fn from(_error: WriteStopped) -> RunFault {
        RunFault::Write
    }
}

impl From<SourceFault> for RunFault {
    ghost from_gives = { λ source fault. fault ≡ fault_of_source source };

    fn from(fault: SourceFault) -> RunFault {
        match fault {
            SourceFault::Read => RunFault::Read,
            SourceFault::TooLong => RunFault::TooLong,
            SourceFault::OutOfMemory => RunFault::OutOfMemory,
        }
    }
}

impl From<ScriptError> for RunFault {
    ghost from_gives = { λ error fault. fault ≡ fault_of_script error };

    fn from(error: ScriptError) -> RunFault {
        match error {
            ScriptError::OutOfMemory => RunFault::OutOfMemory,
            ScriptError::Fault(fault) => RunFault::Script(fault),
        }
    }
}

impl From<PlayFault> for RunFault {
    ghost from_gives = { λ play fault. fault ≡ fault_of_play play };

    fn from(fault: PlayFault) -> RunFault {
        match fault {
            PlayFault::OutOfMemory => RunFault::OutOfMemory,
            PlayFault::Write => RunFault::Write,
        }
    }
}
