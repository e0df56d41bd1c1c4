//! The common states of a port: what it does for all units together (G.984.3, clause 10).

/// The common state of a port: what it does for all units together.
#[derive(Clone, Copy, Debug, PartialEq, Eq)]
pub enum Common {
    /// Serial number acquisition standby: operating units are polled.
    Standby,
    /// Serial number acquisition, with this many search windows still to open.
    Acquisition(u8),
    /// Round-trip measurement standby: ranging units are measured one after another.
    Measuring,
}
