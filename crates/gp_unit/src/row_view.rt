//! A row as a port shows it: plain data, with the Alloc-IDs in rising order.
ghost use Rattle.std.specs.Prelude.{◌≡◌};
ghost use Rattle.gp_unit.specs.Records.{view_of};

use super::row::{Phase, Row};

/// What a port shows of an active unit. Plain data.
#[derive(Clone, Copy, Debug, PartialEq, Eq)]
pub struct RowView {
    /// The unit's ONU-ID, 0 to 253; its default Alloc-ID is the same number.
    pub onu: u8,
    /// Its further Alloc-IDs in rising order, each with whether it is leaving; None after the last.
    pub allocs: [Option<(u16, bool)>; 8],
    /// The Alloc-ID that it has still to acknowledge.
    pub pending: Option<u16>,
    /// In how many poll windows it has not done so, 0 to 2.
    pub waiting: u8,
    /// How far its activation has gone.
    pub phase: Phase,
}

impl Row {
    /// Shows the row as plain data.
    pub fn view(&self) -> RowView
        ensures { result ≡ view_of self.now }
    {
        RowView {
            onu: self.onu,
            allocs: self.allocs.slots(),
            pending: self.pending,
            waiting: self.waiting,
            phase: self.phase,
        }
    }
}
