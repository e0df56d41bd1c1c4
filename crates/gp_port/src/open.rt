//! Why a port is not opened: a number of its configuration is outside its range, a serial number stands there twice, or
//! there is no memory.
ghost use Rattle.std.specs.Prelude.{◌≡◌};
ghost use Rattle.gp_port.specs.declared.open.OpenFault.TheVariants.{OutOfMemory};

use gp_volley::QueueFault;
use std::alloc::AllocError;
use thiserror::Error;

/// Why a port is not opened.
#[derive(Clone, Copy, Debug, PartialEq, Eq, Error)]
pub enum OpenFault {
    /// A number of the config is outside its range (`PortConfig` gives each), more than 512 serial numbers
    /// are admitted, or one is admitted twice.
    #[error("a number is outside its range, or a serial number is admitted twice")]
    Limit,
    /// The allocator refused memory for the config, the units or the messages.
    #[error("out of memory")]
    OutOfMemory,
}

impl From<AllocError> for OpenFault {
    ghost from_gives = { λ _ fault. fault ≡ OutOfMemory };

    fn from(_error: AllocError) -> OpenFault {
        OpenFault::OutOfMemory
    }
}

impl From<QueueFault> for OpenFault {
    ghost from_gives = { λ _ fault. fault ≡ OutOfMemory };

    fn from(_fault: QueueFault) -> OpenFault {
        OpenFault::OutOfMemory
    }
}
