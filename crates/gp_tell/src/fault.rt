//! Why a teller tells no more: a write below failed, or there is no memory.
ghost use Rattle.std.specs.Prelude.{◌≡◌};
ghost use Rattle.gp_tell.specs.declared.fault.TellFault.TheVariants.{Write};

use gp_stream::WriteStopped;
use thiserror::Error;

/// Why a teller tells no more.
#[derive(Clone, Copy, Debug, PartialEq, Eq, Error)]
pub enum TellFault {
    /// A write below failed or took nothing, or a flush failed.
    #[error("a write failed or took nothing")]
    Write,
    /// Out of memory for the words of a line.
    #[error("out of memory")]
    OutOfMemory,
}

impl From<WriteStopped> for TellFault {
    ghost from_gives = { λ _ fault. fault ≡ Write };

    fn from(_error: WriteStopped) -> TellFault {
        TellFault::Write
    }
}
