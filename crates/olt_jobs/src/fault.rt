//! Why a job stopped early: out of memory, or a call ended otherwise than its input means it to.

use std::alloc::AllocError;
use std::io;
use thiserror::Error;

/// Why a job stopped early.
#[derive(Clone, Copy, Debug, PartialEq, Eq, Error)]
pub(crate) enum JobFault {
    /// Out of memory.
    #[error("out of memory")]
    OutOfMemory,
    /// A call ended otherwise than the job's input means it to.
    #[error("a call ended otherwise than the job means it to")]
    Unexpected,
}

impl From<AllocError> for JobFault {
    fn from(_error: AllocError) -> JobFault {
        JobFault::OutOfMemory
    }
}

impl From<io::Error> for JobFault {
    fn from(_error: io::Error) -> JobFault {
        JobFault::OutOfMemory
    }
}
