//! What a simulated unit is, as it is shown: its state, its ONU-ID and delay, and whether light reaches it.
use super::state::State;

/// What a unit is.
#[derive(Clone, Copy, Debug, PartialEq, Eq)]
pub struct UnitStatus {
    /// Which of O1 to O7 it is in.
    pub state: State,
    /// The ONU-ID, in O4, O5 and O6.
    pub onu: Option<u8>,
    /// The equalization delay in bit times, in O5 and O6.
    pub eqd: Option<u32>,
    /// Whether light reaches it.
    pub is_lit: bool,
}
