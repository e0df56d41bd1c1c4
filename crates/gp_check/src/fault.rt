//! Why a file was not told of to the end.
ghost use Rattle.std.specs.Prelude.{◌≡◌};
ghost use Rattle.gp_check.specs.declared.fault.ScriptCheckFault.TheVariants.{OutOfMemory, Write};

use gp_stream::WriteStopped;
use std::alloc::AllocError;
use thiserror::Error;

/// Why what is told of a source was not written, or not all of it.
#[derive(Clone, Copy, Debug, PartialEq, Eq, Error)]
pub enum ScriptCheckFault {
    /// Out of memory for the bytes, for the script or for the line.
    #[error("out of memory")]
    OutOfMemory,
    /// A write failed or took nothing, or a flush failed.
    #[error("a write failed or took nothing")]
    Write,
}

impl From<AllocError> for ScriptCheckFault {
    ghost from_gives = { λ _ fault. fault ≡ OutOfMemory };

    fn from(_error: AllocError) -> ScriptCheckFault {
        ScriptCheckFault::OutOfMemory
    }
}

impl From<WriteStopped> for ScriptCheckFault {
    ghost from_gives = { λ _ fault. fault ≡ Write };

    fn from(_stopped: WriteStopped) -> ScriptCheckFault {
        ScriptCheckFault::Write
    }
}
