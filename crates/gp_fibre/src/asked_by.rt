//! Which grants ask a simulated unit, by its state alone: by this the index of `asked_units.rt` keeps it.
ghost use Rattle.std.specs.Prelude.{◌≡◌, None};
ghost use Rattle.gp_onu.specs.Stage.{onu_id_of};
ghost use Rattle.gp_fibre.specs.AskedUnits.{asked_by_of};

use gp_onu::{State, Unit};

/// Which grants ask a unit, by its state. Frames that don't end the state don't change that.
#[derive(Clone, Copy, PartialEq, Eq)]
pub enum AskedBy {
    /// None, in O1, O2 and O7.
    Nothing,
    /// Serial number requests, in O3.
    Search,
    /// Ranging requests to this ONU-ID and polls of it, in O4, O5 and O6.
    OnuId(u8),
}

impl AskedBy {
    /// Finds out which grants ask a unit.
    pub(super) fn of(unit: &Unit) -> AskedBy
        ensures { result ≡ asked_by_of unit.now.stage }
    {
        match unit.number() {
            Some(onu) => AskedBy::OnuId(onu),
            None => AskedBy::without_onu_id(unit),
        }
    }

    fn without_onu_id(unit: &Unit) -> AskedBy
        requires { onu_id_of unit.now.stage ≡ None }
        ensures { result ≡ asked_by_of unit.now.stage }
    {
        if unit.state() == State::SerialNumber {
            AskedBy::Search
        } else {
            AskedBy::Nothing
        }
    }
}
