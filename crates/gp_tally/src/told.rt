//! What a line of a trace tells that is counted.
use gp_alarms::Alarm;
use gp_machine::Refusal;
use gp_ploam::Up;

/// What happened at a port.
#[derive(Clone, Copy, Debug, PartialEq, Eq)]
pub enum Happened {
    /// A frame.
    Frame,
    /// A burst, with the message that it is read as; None where its check octet is wrong.
    Burst(Option<Up>),
    /// A command.
    Command,
}

/// What the port gave for it, as far as it is counted.
#[derive(Clone, Copy, Debug, PartialEq, Eq)]
pub struct Answered {
    /// Why it was refused, if it was.
    pub refused: Option<Refusal>,
    /// The ONU-ID of the unit that was found, if one was.
    pub found: Option<u16>,
    /// Whether a unit was ranged.
    pub ranged: bool,
    /// The alarm that was raised, if one was.
    pub alarm: Option<Alarm>,
}

/// What a line of a trace tells that is counted.
#[derive(Clone, Copy, Debug, PartialEq, Eq)]
pub struct Told {
    /// What happened.
    pub happened: Happened,
    /// What the port gave for it.
    pub answered: Answered,
}
