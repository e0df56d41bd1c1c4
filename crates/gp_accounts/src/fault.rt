//! Why a chassis is not closed or cut.

use thiserror::Error;

/// Why a chassis is not closed or cut.
#[derive(Clone, Copy, Debug, PartialEq, Eq, Error)]
pub enum CloseFault {
    /// A worker of the chassis was not handed in.
    #[error("a worker is missing")]
    WorkerMissing,
    /// The receipts and the journals do not tell of the same steps, or the chassis is not as it was configured.
    #[error("receipts and journals differ")]
    Mismatch,
    /// The allocator refused memory for the check.
    #[error("out of memory")]
    OutOfMemory,
}
