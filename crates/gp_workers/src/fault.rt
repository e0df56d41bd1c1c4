//! Why a chassis makes no worker: it has as many as it may.

use thiserror::Error;

/// Why no worker is made.
#[derive(Clone, Copy, Debug, PartialEq, Eq, Error)]
pub enum WorkerFault {
    /// The chassis has `MAX_WORKERS` workers.
    #[error("too many workers")]
    TooMany,
}
