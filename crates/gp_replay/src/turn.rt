//! One event of one port, the port by its place in the script: what an event of a script is played as, once or more
//! often.
use gp_machine::Event;

/// One event of one port, named by its place in the script.
#[derive(Clone, Copy, Debug, PartialEq, Eq)]
pub struct Turn {
    /// The place of the port in the script, from 0.
    pub port: u8,
    /// What happens there.
    pub event: Event,
}
