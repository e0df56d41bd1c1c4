//! What a script says, once it was read: plain data, each number in its range.
use gp_machine::{Command, PortConfig};
use gp_ploam::{Mask, Serial};

/// One event of a script. A port and a unit are named by their places in the script, from 0.
#[derive(Clone, Copy, Debug, PartialEq, Eq)]
pub enum ScriptEvent {
    /// So many downstream frames, 1 to 1,000,000, one after the other.
    Frames { port: u8, count: u32 },
    /// Thirteen octets that arrive from a unit. `at` is the whole round-trip delay in bit times.
    Burst { port: u8, at: u32, bytes: [u8; 13] },
    /// What the operator asks.
    Command { port: u8, command: Command },
    /// The light of a simulated unit comes or goes.
    Light { unit: u16, lit: bool },
}

/// A simulated unit on the fibre of a script's port.
#[derive(Clone, Copy, Debug, PartialEq, Eq)]
pub struct ScriptUnit {
    pub serial: Serial,
    /// The unit's whole round-trip delay in bit times, at most `gp_onu::MAX_DELAY`.
    pub delay: u32,
    /// Its random delay in answer to a serial number request, in units of 32 bytes, at most
    /// `gp_onu::MAX_RANDOM_DELAY`.
    pub random: u16,
}

/// What is lost on the way between a script's port and its simulated units, by its number. Copies that the
/// port sent and bursts that units answered with are each numbered from 0. A number may stand twice, or never come.
#[derive(Debug, Drop)]
pub struct ScriptLosses {
    /// The copies of messages that reach no unit.
    pub copies: Vec<u64>,
    /// The bursts of units that do not arrive.
    pub bursts: Vec<u64>,
}

/// A whole script.
#[derive(Drop)]
pub struct Script {
    /// How many licences the terminal has, 0 to 4064.
    pub licences: u32,
    /// The mask of every port, with which messages are also shown.
    pub mask: Mask,
    /// How many entries the journal of a port keeps at most, 1 to 1,000,000.
    pub journal_limit: u32,
    /// The ports' configurations.
    pub ports: Vec<PortConfig>,
    /// The simulated units on the fibre of the one port, at most `gp_onu::MAX_SIMULATED_UNITS`; with none the script's
    /// bursts are all there are.
    pub units: Vec<ScriptUnit>,
    /// What is lost on the way; nothing without units.
    pub losses: ScriptLosses,
    /// What happens, in order.
    pub events: Vec<ScriptEvent>,
}
