//! What is wrong with a line that is to be decoded, or with decoding it.
ghost use Rattle.std.specs.Prelude.{◌≡◌};
ghost use Rattle.gp_decode.specs.declared.fault.DecodeFault.TheVariants as faults;

use gp_ploam::PloamFault;
use gp_stream::WriteStopped;
use std::alloc::AllocError;
use thiserror::Error;

/// Why the message of a code was not written in words. The faults of the text come in this order, and
/// the first that applies is answered; they come before any memory is taken and before anything is written.
#[derive(Clone, Copy, Debug, PartialEq, Eq, Error)]
pub enum DecodeFault {
    /// An odd number of bytes; or an even number of digits for another number of octets than 13.
    #[error("a code has 26 hexadecimal digits")]
    Length,
    /// A byte that is no hexadecimal digit, in a text of an even number of bytes.
    #[error("a code is written in hexadecimal digits")]
    Digit,
    /// The check octet is wrong under the mask.
    #[error("the check octet is wrong")]
    Crc,
    /// Out of memory for the line.
    #[error("out of memory")]
    OutOfMemory,
    /// A write failed or took nothing, or a flush failed, which counts as a failed write.
    #[error("the line was not written")]
    Write,
    /// A line that has to say whose message its code is doesn't. No fault of one code.
    #[error("a line begins with up or down")]
    Direction,
}

impl From<PloamFault> for DecodeFault {
    ghost use Rattle.gp_decode.specs.Faults.{line_fault_of};

    ghost from_gives = { λ f e. e ≡ line_fault_of f };

    fn from(fault: PloamFault) -> DecodeFault {
        match fault {
            PloamFault::Length => DecodeFault::Length,
            PloamFault::Crc => DecodeFault::Crc,
        }
    }
}

impl From<AllocError> for DecodeFault {
    ghost from_gives = { λ _ e. e ≡ faults.OutOfMemory };

    fn from(_error: AllocError) -> DecodeFault {
        DecodeFault::OutOfMemory
    }
}

impl From<WriteStopped> for DecodeFault {
    ghost from_gives = { λ _ e. e ≡ faults.Write };

    fn from(_error: WriteStopped) -> DecodeFault {
        DecodeFault::Write
    }
}
