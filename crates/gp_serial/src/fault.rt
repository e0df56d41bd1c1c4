//! What is wrong with a serial number, or with admitting one.
ghost use Rattle.std.specs.Prelude.{◌≡◌};

use std::alloc::AllocError;
use thiserror::Error;

/// Why a text spells no serial number. The first that applies is told, in this order.
#[derive(Clone, Copy, Debug, PartialEq, Eq, Error)]
pub enum SerialFault {
    /// Neither 12 nor 16 bytes.
    #[error("a serial number has 12 or 16 characters")]
    Length,
    /// Of 12 bytes, the first four aren't all A to Z or 0 to 9.
    #[error("a vendor code has letters A to Z and digits 0 to 9")]
    Vendor,
    /// A character that is no hex digit, where one has to be.
    #[error("a serial number's octets are hex digits")]
    Digit,
    /// Out of memory for a text. Reading one takes none.
    #[error("out of memory")]
    OutOfMemory,
}

/// Why a serial number isn't admitted. The first that applies is told, in this order.
#[derive(Clone, Copy, Debug, PartialEq, Eq, Error)]
pub enum AdmitFault {
    /// It is admitted already, on this port or another.
    #[error("the serial number is admitted already")]
    Duplicate,
    /// The port has `MAX_ON_A_PORT` already.
    #[error("512 serial numbers are admitted on the port")]
    Full,
    /// Out of memory for one more.
    #[error("out of memory")]
    OutOfMemory,
}

impl From<AllocError> for SerialFault {
    ghost use Rattle.gp_serial.specs.declared.fault.SerialFault.{SerialFault};

    ghost from_gives = { λ _ fault. fault ≡ SerialFault.OutOfMemory };

    fn from(_: AllocError) -> SerialFault {
        SerialFault::OutOfMemory
    }
}

impl From<AllocError> for AdmitFault {
    ghost use Rattle.gp_serial.specs.declared.fault.AdmitFault.{AdmitFault};

    ghost from_gives = { λ _ fault. fault ≡ AdmitFault.OutOfMemory };

    fn from(_: AllocError) -> AdmitFault {
        AdmitFault::OutOfMemory
    }
}
