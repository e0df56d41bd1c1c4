//! What may happen on a fibre in one step: what was sent may reach whom it may at any time, any number of times.

use gp_machine::Command;

/// What may happen on a fibre. Copies, grants and bursts are numbered from 0 in the order in which they were sent,
/// units by their places from 0; each may reach whom it may reach at any time, and any number of times.
#[derive(Clone, Copy, Debug, PartialEq, Eq)]
pub enum WorldStep {
    /// A frame of the port, and then of each unit.
    Frame,
    /// The operator asks the port for something.
    Command(Command),
    /// A copy reaches a unit.
    Deliver { copy: u64, unit: u16 },
    /// A grant reaches a unit, which may answer with a burst.
    Give { grant: u64, unit: u16 },
    /// A burst reaches the port.
    Arrive { burst: u64 },
    /// Any thirteen octets reach the port, after a round-trip delay of `at` bit times.
    Bytes { at: u32, bytes: [u8; 13] },
    /// Light reaches a unit.
    Light(u16),
    /// A unit loses the light.
    Dark(u16),
}
