//! What was said on the fibre: a code down or up, as it came, or a grant.

use gp_ranging::Grant;

/// What was said on the fibre. Codes are as they came, whatever their check octets are.
#[derive(Clone, Copy, Debug, PartialEq, Eq)]
pub enum Said {
    /// A message of the line terminal.
    Down([u8; 13]),
    /// A message of a unit, and where it was measured the whole round-trip delay in bit times, without the unit's
    /// equalization delay.
    Up { code: [u8; 13], delay: Option<u32> },
    /// A unit was asked to answer, or all that have no ONU-ID. An ONU-ID is any octet here.
    Grant(Grant),
}
