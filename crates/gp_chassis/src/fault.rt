//! Why an event is not served, or a call of a chassis on one thread is refused.

use thiserror::Error;

/// Why a desk serves no event. The first that applies is told: `NoPort`, `JournalFull`, `OutOfMemory`. Nothing changes.
#[derive(Clone, Copy, Debug, PartialEq, Eq, Error)]
pub enum ApplyFault {
    /// There is no such port.
    #[error("no such port")]
    NoPort,
    /// The allocator refused memory for an entry of the journal.
    #[error("out of memory")]
    OutOfMemory,
    /// The journal of the port keeps as many entries as it may.
    #[error("journal full")]
    JournalFull,
}

/// Why a chassis on one thread refuses a call. The first that applies is told: `NoActor`, `NoPort`, `JournalFull`,
/// `OutOfMemory`. Nothing changes.
#[derive(Clone, Copy, Debug, PartialEq, Eq, Error)]
pub enum CoreFault {
    /// There are no more than 64 actors, 0 to 63.
    #[error("no such actor")]
    NoActor,
    /// There is no such port.
    #[error("no such port")]
    NoPort,
    /// The allocator refused memory for an entry of the journal, or for an image of the port.
    #[error("out of memory")]
    OutOfMemory,
    /// The journal of the port keeps as many entries as it may.
    #[error("journal full")]
    JournalFull,
}
