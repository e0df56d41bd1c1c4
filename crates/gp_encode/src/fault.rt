//! What is wrong with words that are to be encoded.
ghost use Rattle.std.specs.Prelude.{◌≡◌};
ghost use Rattle.gp_encode.specs.declared.fault.EncodeFault.TheVariants as encodes;
ghost use Rattle.gp_encode.specs.declared.fault.WordsFault.TheVariants.{Part};

use gp_lines::LineFault;
use gp_stream::WriteStopped;
use thiserror::Error;

/// Why words have no code.
#[derive(Clone, Copy, Debug, PartialEq, Eq, Error)]
pub enum WordsFault {
    /// The first part that has a fault has this one: `Word` where it is unknown, or parts are missing or too many;
    /// `Number`, `Range`, `Serial` or `Hex` where it is no such field.
    #[error("{0}")]
    Part(LineFault),
    /// An `Other` has the octets of a message that has a name.
    #[error("the octets are those of a message that has a name")]
    Named,
}

impl From<LineFault> for WordsFault {
    ghost from_gives = { λ fault words. words ≡ Part fault };

    fn from(fault: LineFault) -> WordsFault {
        WordsFault::Part(fault)
    }
}

/// Why the code of words was not written.
#[derive(Clone, Copy, Debug, PartialEq, Eq, Error)]
pub enum EncodeFault {
    /// The words have no code; nothing was written.
    #[error("{0}")]
    Words(WordsFault),
    /// A write failed or took nothing, or a flush failed.
    #[error("the code was not written")]
    Write,
}

impl From<WordsFault> for EncodeFault {
    ghost from_gives = { λ fault encode. encode ≡ encodes.Words fault };

    fn from(fault: WordsFault) -> EncodeFault {
        EncodeFault::Words(fault)
    }
}

impl From<WriteStopped> for EncodeFault {
    ghost from_gives = { λ _ encode. encode ≡ encodes.Write };

    fn from(_error: WriteStopped) -> EncodeFault {
        EncodeFault::Write
    }
}
