//! What a world begins with of a simulated unit: its serial number and its delays.

use gp_ploam::Serial;

/// A unit that a world begins with.
#[derive(Clone, Copy, Debug, PartialEq, Eq)]
pub struct UnitPlan {
    pub serial: Serial,
    /// The unit's whole round-trip delay in bit times, at most `MAX_DELAY`.
    pub delay: u32,
    /// Its random delay under a serial number request, in units of 32 bytes, at most `MAX_RANDOM_DELAY`.
    pub random: u16,
}
