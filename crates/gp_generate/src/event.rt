//! What a script says that happens: its events, as they are written.

use gp_machine::Command;
use gp_ploam::Serial;

/// What a unit says, in words.
#[derive(Clone, Copy, Debug, PartialEq, Eq)]
pub enum Said {
    /// Its serial number, under this ONU-ID; 255 where it has none.
    Serial { serial: Serial, onu: u8 },
    /// That it is losing its power.
    Gasp { onu: u8 },
    /// Nothing.
    Nothing { onu: u8 },
    /// That it heard the message of this identifier.
    Ack { onu: u8, id: u8 },
}

/// An event of a script. A port and a unit are named by their places, from 0.
#[derive(Clone, Copy, Debug, PartialEq, Eq)]
pub enum Event {
    /// So many frames go by, 1 to 1,000,000.
    Frames { port: u8, count: u32 },
    /// Thirteen octets arrive; `at` is the round-trip delay in bit times.
    Burst { port: u8, at: u32, code: [u8; 13] },
    /// A burst that is written in words.
    Say { port: u8, at: u32, said: Said },
    /// The operator asks for something.
    Command { port: u8, command: Command },
    /// The light of a simulated unit comes or goes.
    Light { unit: u16, lit: bool },
}
