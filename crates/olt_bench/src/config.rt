//! What ports are opened with here: serial numbers and configurations; and what is told where one isn't opened.

use gp_machine::{Admitted, PortConfig};
use gp_ploam::{Mask, Serial};
use gp_port::OpenFault;
use std::io;

/// Gives the serial number of the unit at this place among the units of a port.
pub(crate) fn serial_of(place: u16) -> Serial {
    let [high, low] = place.to_be_bytes();
    Serial([0x41, 0x42, 0x43, 0x44, 0, 0, high, low])
}

/// Makes what a port is opened with that admits these serial numbers, and searches in five windows.
pub(crate) fn config_of(serials: Vec<Serial>) -> PortConfig {
    PortConfig {
        mask: Mask::Plain,
        teqd: 311_040,
        overhead: [0; 10],
        max_units: 254,
        alloc_last: 4095,
        cycles: 5,
        search_period: 0,
        quarantine: 800,
        admitted: Admitted::from(serials),
    }
}

/// Tells why a port or a chassis was not opened.
pub(crate) fn error_of(fault: OpenFault) -> io::Error {
    match fault {
        OpenFault::Limit => io::ErrorKind::InvalidInput.into(),
        OpenFault::OutOfMemory => memory(),
    }
}

/// Tells that memory was refused.
pub(crate) fn memory() -> io::Error {
    io::ErrorKind::OutOfMemory.into()
}
