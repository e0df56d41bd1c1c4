//! How many codes of a trace can't be read under the mask, and whether one can.
ghost use Rattle.std.specs.Prelude.{◌≡◌};
ghost use Rattle.gp_machine.specs.Config.{max_ports};
ghost use Rattle.gp_summed.specs.Codes.{codes_of, no_codes, with_port};

use gp_audit::Listener;
use gp_census::PortCounts;
use gp_lines::PORTS;

/// The codes that were heard of a trace.
#[derive(Clone, Copy, Debug, PartialEq, Eq)]
pub struct HeardCodes {
    /// How many have a wrong check octet under the mask, so that nothing is known by them.
    pub garbled: u64,
    /// Whether one has a right one. Of those down `No_message` doesn't count.
    pub is_read: bool,
}

impl HeardCodes {
    /// No code came.
    pub fn none() -> HeardCodes
        ensures { result ≡ no_codes }
    {
        HeardCodes {
            garbled: 0,
            is_read: false,
        }
    }

    /// Gives these and the codes of one more port.
    fn with_port(self, counts: PortCounts) -> HeardCodes
        ensures { result ≡ with_port counts self }
    {
        let garbled = self.garbled.saturating_add(counts.garbled_down);
        let is_read = self.is_read || counts.messages != 0 || counts.garbled_up < counts.up;
        HeardCodes {
            garbled: garbled.saturating_add(counts.garbled_up),
            is_read,
        }
    }
}

/// Counts the codes that were heard on all ports.
pub(crate) fn codes_of(listener: &Listener) -> HeardCodes
    ensures { result ≡ codes_of listener.now.ports max_ports }
{
    let mut codes = HeardCodes::none();
    'ports: for port in 0..PORTS as u8 {
        codes = codes.with_port(listener.census(port).port());
    }
    codes
}
