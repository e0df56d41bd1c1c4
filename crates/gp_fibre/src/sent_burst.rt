//! A burst that a simulated unit answered with: its octets, and its whole round-trip delay.

/// A burst that a unit answered with.
#[derive(Clone, Copy, Debug, PartialEq, Eq)]
pub struct SentBurst {
    /// The unit's whole round-trip delay in bit times.
    pub at: u32,
    pub bytes: [u8; 13],
}
