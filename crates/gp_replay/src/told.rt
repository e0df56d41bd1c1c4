//! What is asked of an entry when its line was written.
use gp_ranging::Grant;

/// What is asked of an entry behind its line.
#[derive(Clone, Copy, PartialEq, Eq, Debug)]
pub struct EntryWritten {
    /// Which one it is among its port's entries.
    pub number: u64,
    /// The grant that was made in it, if one was.
    pub grant: Option<Grant>,
}
