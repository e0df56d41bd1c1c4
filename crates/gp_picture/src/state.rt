//! What a unit does, as an observer of the fibre sees it.

use gp_ploam::Serial;
use gp_watch::PortWatch;

/// What removed a unit.
#[derive(Clone, Copy, PartialEq, Eq)]
pub(crate) enum Cause {
    /// Deactivate_ONU-ID.
    Deactivated,
    /// Disable_Serial_Number.
    Disabled,
    /// Another unit got its ONU-ID.
    Replaced,
}

/// What a unit does.
#[derive(Clone, Copy, PartialEq, Eq)]
pub(crate) enum UnitState {
    /// It asked for an ONU-ID.
    Asking,
    /// It holds this ONU-ID, and no equalization delay.
    Ranging(u8),
    /// It holds this ONU-ID, and an equalization delay.
    Operating(u8),
    /// It holds no ONU-ID any more.
    Removed(Cause),
}

impl Cause {
    /// Gives the message that removed it.
    pub(crate) fn name(self) -> &'static str {
        match self {
            Cause::Deactivated => "Deactivate_ONU-ID",
            Cause::Disabled => "Disable_Serial_Number",
            Cause::Replaced => "Assign_ONU-ID",
        }
    }
}

impl UnitState {
    /// Gives that of a unit that holds an ONU-ID.
    pub(crate) fn of(watch: &PortWatch, serial: &Serial) -> Option<UnitState> {
        let onu = watch.onu_of(serial)?;
        if watch.delay(onu).is_some() {
            Some(UnitState::Operating(onu))
        } else {
            Some(UnitState::Ranging(onu))
        }
    }

    /// Gives that of a unit that holds no ONU-ID behind such a message.
    pub(crate) fn without_onu(self, cause: Cause) -> UnitState {
        match (self, cause) {
            (UnitState::Ranging(_) | UnitState::Operating(_), _) => UnitState::Removed(cause),
            (UnitState::Asking, Cause::Disabled) => UnitState::Removed(cause),
            (UnitState::Asking | UnitState::Removed(_), _) => self,
        }
    }
}
