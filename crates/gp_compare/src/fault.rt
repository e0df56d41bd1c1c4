//! Why two texts were not compared to their end.
ghost use Rattle.std.specs.Prelude.{◌≡◌};
ghost use Rattle.gp_compare.specs.Ahead.{StopsBy};
ghost use Rattle.gp_compare.specs.Fault.{HasFailed, fault_of};

use crate::ahead::Ahead;
use gp_stream::Source;
use std::alloc::AllocError;
use std::io::Read;
use thiserror::Error;

/// Why a comparer takes no more.
#[derive(Clone, Copy, Debug, PartialEq, Eq, Error)]
pub enum CompareFault {
    /// A read of what is expected failed.
    #[error("a read failed, or the input took too many reads")]
    Read,
    /// Out of memory for the block that is read ahead, for the lines that are shown, or for what is compared.
    #[error("out of memory")]
    OutOfMemory,
}

impl From<AllocError> for CompareFault {
    ghost use Rattle.gp_compare.specs.declared.fault.CompareFault.TheVariants.{OutOfMemory};

    ghost from_gives = { λ _ fault. fault ≡ OutOfMemory };

    fn from(_error: AllocError) -> CompareFault {
        CompareFault::OutOfMemory
    }
}

/// Why two texts were not compared to their end.
#[derive(Drop)]
pub enum CompareError<R: Read> {
    /// A read of what is expected failed, or it took too many reads. This is what can't be read.
    Read(Source<R>),
    /// Out of memory for the block that is read ahead, for the lines that are shown, or for what is compared.
    OutOfMemory,
}

impl<R: Read> CompareError<R> {
    /// Gives the error of a fault, with the source that is read ahead.
    pub(crate) fn of(fault: CompareFault, ahead: Ahead<R>) -> Self
    where
        R: Drop,
        requires { StopsBy ahead fault }
        ensures failed { HasFailed result }
        ensures fault { fault_of result ≡ fault }
    {
        match fault {
            CompareFault::Read => CompareError::Read(ahead.into_source()),
            CompareFault::OutOfMemory => CompareError::OutOfMemory,
        }
    }
}

impl<R: Read> From<AllocError> for CompareError<R> {
    ghost use Rattle.gp_compare.specs.declared.fault.CompareError.TheVariants.{OutOfMemory};

    ghost from_gives = { λ _ error. error ≡ OutOfMemory };

    fn from(_error: AllocError) -> CompareError<R> {
        CompareError::OutOfMemory
    }
}
