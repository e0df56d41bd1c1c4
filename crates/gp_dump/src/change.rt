//! What may change: the variables of a port and of a unit's lane, each with the value that it gets.

use gp_alarms::AlarmKind;
use gp_ploam::Serial;

/// What a window asks for.
#[derive(Clone, Copy, Debug, PartialEq, Eq)]
pub enum WindowKind {
    /// Serial numbers of units that have no ONU-ID.
    Search,
    /// The answer of a unit that is ranged.
    Range,
    /// The answer of a unit that operates.
    Poll,
}

/// What a unit does.
#[derive(Clone, Copy, Debug, PartialEq, Eq)]
pub enum UnitState {
    /// It holds no ONU-ID any more.
    Removed,
    /// It asked for an ONU-ID.
    Asking,
    /// It holds an ONU-ID, and no equalization delay.
    Ranging,
    /// It holds an ONU-ID, and an equalization delay.
    Operating,
}

/// The value that a variable of a port gets. None stands for nothing.
#[derive(Clone, Copy, Debug, PartialEq, Eq)]
pub enum PortChange {
    /// A level that changes with each frame.
    Frame(bool),
    /// The code that the line terminal sends in a frame.
    Sent(Option<[u8; 13]>),
    /// What a frame grants.
    Grant(Option<WindowKind>),
    /// The ONU-ID that it asks.
    Asked(Option<u8>),
    /// The window that is open.
    Window(Option<WindowKind>),
    /// The code of a burst.
    Burst(Option<[u8; 13]>),
    /// Its round-trip delay in bit times.
    Delay(Option<u32>),
    /// The alarm of a frame.
    Alarm(Option<AlarmKind>),
}

/// The value that a variable of a unit's lane gets.
#[derive(Clone, Copy, Debug, PartialEq, Eq)]
pub enum UnitChange {
    /// The serial number of the unit that has the lane.
    Serial(Serial),
    /// What it does.
    State(UnitState),
    /// The ONU-ID that it holds.
    Onu(Option<u8>),
    /// Its equalization delay in bit times.
    Delay(Option<u32>),
}

/// The value that a variable gets.
#[derive(Clone, Copy, Debug, PartialEq, Eq)]
pub enum Change {
    /// One of a port.
    Port {
        number: u8,
        what: PortChange,
    },
    /// One of a lane of a port; lanes count from 0.
    Unit {
        number: u8,
        lane: u16,
        what: UnitChange,
    },
}
