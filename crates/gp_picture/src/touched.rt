//! Which units a message touches, by what is known before it: those whose lanes are looked at again.

use crate::state::Cause;
use gp_ploam::{BROADCAST_ONU, Down, Serial, Up};
use gp_watch::{Heard, PortWatch};

/// The units whose state something heard may change.
#[derive(Clone, Copy)]
pub(crate) enum Touched {
    /// None.
    Nobody,
    /// One that asks for an ONU-ID.
    Asks(Serial),
    /// One, which may be removed for this cause.
    One(Serial, Cause),
    /// One that gets an ONU-ID, and the one that holds it.
    Assigned(Serial, Option<Serial>),
    /// All that hold an ONU-ID, which may be removed for this cause.
    All(Cause),
}

/// Gives the unit that holds an ONU-ID, or all.
fn holder(watch: &PortWatch, onu: u8) -> Touched {
    if onu == BROADCAST_ONU {
        return Touched::All(Cause::Deactivated);
    }
    match watch.holder(onu) {
        Some(serial) => Touched::One(serial, Cause::Deactivated),
        None => Touched::Nobody,
    }
}

/// Gives the units that a message down touches.
fn touched_down(watch: &PortWatch, message: &Down) -> Touched {
    match message {
        Down::AssignOnu { onu, serial } => Touched::Assigned(*serial, watch.holder(*onu)),
        Down::RangingTime { onu, .. } | Down::Deactivate { onu } | Down::Popup { onu } => {
            holder(watch, *onu)
        }
        Down::DisableSerial { serial } => Touched::One(*serial, Cause::Disabled),
        _ => Touched::Nobody,
    }
}

/// Gives the unit that a message up touches.
fn touched_up(message: &Up) -> Touched {
    match message {
        Up::SerialNumber { onu, serial, .. } if *onu == BROADCAST_ONU => Touched::Asks(*serial),
        _ => Touched::Nobody,
    }
}

/// Gives the units that something heard touches, by what is known before it.
pub(crate) fn units_touched(watch: &PortWatch, heard: &Heard) -> Touched {
    match heard {
        Heard::Down(Some(message)) => touched_down(watch, message),
        Heard::Up {
            message: Some(message),
            ..
        } => touched_up(message),
        _ => Touched::Nobody,
    }
}
