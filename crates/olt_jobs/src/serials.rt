//! The units' serial numbers, by what the seed decides, the port and the place; and as scripts spell them.

use gp_ploam::Serial;
use std::alloc::{AllocError, Global};

/// Gives the serial number of the unit at this place of a port. `lot` is what the seed decides of it.
pub(crate) fn serial_of(lot: u8, port: u8, place: u16) -> Serial {
    let [high, low] = place.to_be_bytes();
    Serial([b'W', b'A', b'G', b'P', lot, port, high, low])
}

/// Spells a serial number that `serial_of` gives.
pub(crate) fn text_of(alloc: Global, serial: Serial) -> Result<String, AllocError> {
    let Serial([_, _, _, _, lot, port, high, low]) = serial;
    format!(in alloc; "WAGP{lot:02X}{port:02X}{high:02X}{low:02X}")
}

/// Adds a list of so many serial numbers of a port to a script, as `admit` has it.
pub(crate) fn add_list(
    alloc: Global,
    script: &mut String,
    lot: u8,
    port: u8,
    count: u16,
) -> Result<(), AllocError> {
    script.push_str("[")?;
    for place in 0..count {
        let serial = text_of(alloc, serial_of(lot, port, place))?;
        let between = if place == 0 { "" } else { ", " };
        write!(script, "{between}\"{serial}\"")?;
    }
    script.push_str("]")
}
