//! What is counted of a port, as plain numbers: entries, units, owed copies.
ghost use Rattle.std.specs.Prelude.{◌≡◌};
ghost use Rattle.gp_c.specs.Counts as spec;

use gp_chassis::PortDesk;
use std::sync::ledger::Ledger;

/// What is counted of a port.
#[repr(C)]
#[derive(Clone, Copy, Debug)]
pub struct PortCounts {
    /// How many entries it ever had: the number of the next one.
    pub entries: u64,
    /// The number of the first entry that its journal keeps, or of the next one where it keeps none.
    pub first_kept: u64,
    /// How many units are active, at most 254.
    pub units: u64,
    /// How many copies of messages are still to be sent, one with each frame.
    pub owed: u64,
}

/// Counts of a port.
pub(crate) fn counts_of<L: Ledger>(desk: &PortDesk<L>) -> PortCounts
    ensures { result ≡ spec.counts_of desk.now }
{
    PortCounts {
        entries: desk.journal().len(),
        first_kept: desk.journal().first(),
        units: desk.core().rows() as u64,
        owed: desk.core().owed() as u64,
    }
}
