//! What is told of a unit besides its counts.
ghost use Rattle.std.specs.Prelude.{◌≡◌};
ghost use Rattle.gp_watch.specs.Changes.{onu_held};
ghost use Rattle.gp_census.specs.Told.{delay_with, state_by, state_of};

use crate::sighting::Sighting;
use gp_ploam::Serial;
use gp_watch::PortWatch;

/// What a unit does, by what was heard.
#[derive(Clone, Copy)]
pub(crate) enum UnitState {
    /// It is disabled.
    Disabled,
    /// It holds an ONU-ID, and was told its equalization delay.
    Operating,
    /// It holds an ONU-ID.
    Assigned,
    /// It asks for an ONU-ID.
    Asking,
    /// It holds no ONU-ID, and didn't ask since.
    Gone,
}

/// What is told of a unit besides its counts.
#[derive(Clone, Copy)]
pub(crate) struct UnitTold {
    pub(crate) state: UnitState,
    /// The ONU-ID that it holds.
    pub(crate) onu: Option<u8>,
    /// Its equalization delay, in bit times.
    pub(crate) delay: Option<u32>,
}

/// Gives what a unit does.
fn state_by(
    disabled: bool,
    onu: Option<u8>,
    delay: Option<u32>,
    first_asked: Option<u64>,
) -> UnitState
    ensures { result ≡ state_by disabled onu delay first_asked }
{
    if disabled {
        return UnitState::Disabled;
    }
    match (onu, delay, first_asked) {
        (Some(_), Some(_), _) => UnitState::Operating,
        (Some(_), None, _) => UnitState::Assigned,
        (None, _, Some(_)) => UnitState::Asking,
        (None, _, None) => UnitState::Gone,
    }
}

/// Gives the equalization delay that was told with an ONU-ID, where there is one.
fn delay_with(watch: &PortWatch, onu: Option<u8>) -> Option<u32>
    ensures { result ≡ delay_with watch.now onu }
{
    match onu {
        Some(onu) => watch.delay(onu),
        None => None,
    }
}

impl UnitTold {
    /// Gathers what is told of a unit.
    pub(crate) fn of(watch: &PortWatch, serial: &Serial, unit: &Sighting) -> UnitTold
        ensures state { result.state ≡ state_of watch.now serial.now unit.now }
        ensures onu { result.onu ≡ onu_held watch.now serial.now }
        ensures delay { result.delay ≡ delay_with watch.now (onu_held watch.now serial.now) }
    {
        let onu = watch.onu_of(serial);
        let delay = delay_with(watch, onu);
        let disabled = watch.is_disabled(serial);
        UnitTold {
            state: state_by(disabled, onu, delay, unit.first_asked),
            onu,
            delay,
        }
    }
}
