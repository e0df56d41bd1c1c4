//! The codes that units send here, encoded beforehand, so that it is not in the time.

use super::config::serial_of;
use gp_ploam::{BROADCAST_ONU, Mask, Serial, Up, encode_up};
use std::alloc::{AllocError, Global};

/// What a unit answers to each grant, encoded beforehand. It takes the unit's place among the units for its ONU-ID: a
/// port that has freed none gives them in this order.
#[derive(Clone, Copy, Drop)]
pub(crate) struct Unit {
    pub(crate) serial: Serial,
    /// To a serial number request.
    pub(crate) searched: [u8; 13],
    /// To a ranging request.
    pub(crate) ranged: [u8; 13],
    /// To a poll.
    pub(crate) polled: [u8; 13],
}

/// Makes the unit that is to have this ONU-ID.
fn unit_with(onu: u8) -> Unit {
    let serial = serial_of(u16::from(onu));
    Unit {
        serial,
        searched: serial_number(BROADCAST_ONU, serial),
        ranged: serial_number(onu, serial),
        polled: encode_up(&Up::NoMessage { onu }, Mask::Plain),
    }
}

/// Makes the code of a serial number.
fn serial_number(onu: u8, serial: Serial) -> [u8; 13] {
    let message = Up::SerialNumber {
        onu,
        serial,
        random: 0,
        flags: 0,
    };
    encode_up(&message, Mask::Plain)
}

/// Makes so many units.
pub(crate) fn units_of(alloc: Global, count: u8) -> Result<Vec<Unit>, AllocError> {
    let mut units = Vec::new(alloc);
    for onu in 0..count {
        units.push(unit_with(onu))?;
    }
    Ok(units)
}
