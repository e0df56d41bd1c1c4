//! What is heard on the fibre, and what it is judged by.

use gp_ploam::{Down, Up};
use gp_ranging::Grant;

/// What is heard on the fibre of a port.
#[derive(Clone, Copy, Debug, PartialEq, Eq)]
pub enum Heard {
    /// A code of the line terminal; None where its check octet is wrong.
    Down(Option<Down>),
    /// A code of a unit; None where its check octet is wrong.
    Up {
        message: Option<Up>,
        /// The round-trip delay in bit times, without the unit's equalization delay, where it was measured.
        delay: Option<u32>,
    },
    /// A window that the line terminal opens.
    Grant(Grant),
}

/// What delays are judged by, in bit times.
#[derive(Clone, Copy, Debug, PartialEq, Eq)]
pub struct Settings {
    /// The equalized round-trip delay.
    pub teqd: u32,
    /// By how much a delay may differ from the one that its unit was ranged with.
    pub drift: u32,
}
