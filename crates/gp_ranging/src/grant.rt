//! Who is asked to answer in a window: units without an ONU-ID, a ranging unit, or an operating one.

/// Who is asked to answer in a window.
#[derive(Clone, Copy, Debug, PartialEq, Eq)]
pub enum Grant {
    /// Every unit that has no ONU-ID: a serial number request.
    Search,
    /// The ranging unit with this ONU-ID: a ranging request.
    Range(u8),
    /// The operating unit with this ONU-ID.
    Poll(u8),
}
