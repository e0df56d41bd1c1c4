//! Worked spellings, printed faults, and what only a run shows: that memory suffices, or is told.
use crate::samples::{SERIAL, prints};
use gp_ploam::Serial;
use gp_serial::{
    AdmissionList, AdmitFault, MAX_ON_A_PORT, SerialFault, SerialText, parse_serial,
    push_serial_text, serial_text,
};
use std::alloc::{AllocError, Global};

/// The serial number of the vendor's unit with this number.
fn numbered(number: u16) -> Serial {
    let [high, low] = number.to_be_bytes();
    Serial([0x41, 0x42, 0x43, 0x44, 0, 0, high, low])
}

/// With a vendor code, of letters or digits too, and without one.
const TEXTS: [(Serial, &str); 4] = [
    (SERIAL, "ABCD00000001"),
    (Serial([0; 8]), "0000000000000000"),
    (
        Serial([0x30, 0x39, 0x5a, 0x41, 0xde, 0xad, 0xbe, 0xef]),
        "09ZADEADBEEF",
    ),
    (
        Serial([0xff, 0x39, 0x5a, 0x41, 0xde, 0xad, 0xbe, 0xef]),
        "FF395A41DEADBEEF",
    ),
];

/// What is read, and how.
const READ: [(&'static str, Result<Serial, SerialFault>); 4] = [
    ("ABCD0000001", Err(SerialFault::Length)),
    ("abCD00000001", Err(SerialFault::Vendor)),
    ("ABCD0000000G", Err(SerialFault::Digit)),
    ("4142434400000001", Ok(SERIAL)),
];

/// Tells whether a text is read so.
fn is_read(text: &str, wanted: &Result<Serial, SerialFault>) -> bool {
    parse_serial(text) == *wanted
}

#[test]
fn serial_texts(rt: HostRuntime) {
    for (text, wanted) in &READ {
        assert!(rt; is_read(text, wanted), "{text}");
    }
    for (serial, text) in &TEXTS {
        assert!(rt; is_written(rt.alloc(), serial, text), "{text}");
    }
}

/// Tells whether a serial number is written as this text, as a text of its own and where it is printed.
fn is_written(alloc: Global, serial: &Serial, text: &str) -> bool {
    match serial_text(alloc, serial) {
        Ok(written) => written.as_str() == text && prints(alloc, &SerialText::of(serial), text),
        Err(_) => false,
    }
}

/// Pushes the texts of two serial numbers.
fn push_both(out: &mut Vec<u8>) -> Result<(), AllocError> {
    push_serial_text(out, &Serial([0x5b, 0x42, 0x43, 0x44, 0, 0, 0, 0xa1]))?;
    push_serial_text(out, &SERIAL)
}

#[test]
fn pushed_texts(rt: HostRuntime) {
    let mut out = Vec::new(rt.alloc());
    assert!(rt; push_both(&mut out).is_ok());
    assert!(rt; out.as_slice() == b"5B424344000000A1ABCD00000001".as_slice());
}

/// Admits the units from 0 on up to this one on port 0.
fn fill(list: &mut AdmissionList, end: u16) {
    for number in 0..end {
        let _ = list.admit(0, numbered(number));
    }
}

/// Tells whether a unit is admitted on a port so.
fn admits(list: &mut AdmissionList, port: u8, number: u16, wanted: Result<(), AdmitFault>) -> bool {
    list.admit(port, numbered(number)) == wanted
}

/// Tells whether a unit of port 1 is not disabled, and is once that is asked for.
fn is_disabled_once_asked(list: &mut AdmissionList, serial: &Serial) -> bool {
    let before = list.is_disabled(serial);
    let is_set = list.set_disabled(serial, true);
    !before && is_set && list.is_disabled(serial) && list.port_of(serial) == Some(1)
}

/// Port 0 has as many as it can. Those that it has are admitted nowhere else, and one more is, on another port.
#[test]
fn a_full_port(rt: HostRuntime) {
    let mut list = AdmissionList::new(rt.alloc());
    fill(&mut list, 512);
    assert!(rt; admits(&mut list, 0, 512, Err(AdmitFault::Full)));
    assert!(rt; admits(&mut list, 0, 0, Err(AdmitFault::Duplicate)));
    assert!(rt; admits(&mut list, 1, 0, Err(AdmitFault::Duplicate)));
    assert!(rt; admits(&mut list, 1, 512, Ok(())));
    assert!(rt; is_disabled_once_asked(&mut list, &numbered(512)));
    assert!(rt; list.admitted_on(0) == MAX_ON_A_PORT);
}

/// Tells whether the unit with the number of a port is admitted on it.
fn is_admitted(list: &mut AdmissionList, port: u8) -> bool {
    let serial = numbered(u16::from(port));
    list.admit(port, serial) == Ok(()) && list.port_of(&serial) == Some(port)
}

/// The first port on which it is not.
fn first_without(list: &mut AdmissionList) -> Option<u8> {
    for port in 0..=255u8 {
        if !is_admitted(list, port) {
            return Some(port);
        }
    }
    None
}

#[test]
fn each_port(rt: HostRuntime) {
    let mut list = AdmissionList::new(rt.alloc());
    assert!(rt; first_without(&mut list).is_none());
}

fn admitted(alloc: Global) -> (Result<(), AdmitFault>, Option<u8>) {
    let mut list = AdmissionList::new(alloc);
    (list.admit(3, SERIAL), list.port_of(&SERIAL))
}

/// Tells whether a unit is admitted, or is not since memory was refused.
fn is_admitted_or_told(alloc: Global) -> bool {
    match admitted(alloc) {
        (Ok(()), port) => port == Some(3),
        (Err(fault), port) => fault == AdmitFault::OutOfMemory && port.is_none(),
    }
}

/// Tells whether a text is made, or is not since memory was refused.
fn is_made_or_told(alloc: Global) -> bool {
    match serial_text(alloc, &SERIAL) {
        Ok(_) => true,
        Err(fault) => fault == SerialFault::OutOfMemory,
    }
}

// Run with each allocation refused in turn (`rt try --test --fail-alloc N`).
#[test]
fn memory_short_or_ample(rt: HostRuntime) {
    assert!(rt; is_admitted_or_told(rt.alloc()));
    assert!(rt; is_made_or_told(rt.alloc()));
}

const READING: [(SerialFault, &'static str); 4] = [
    (
        SerialFault::Length,
        "a serial number has 12 or 16 characters",
    ),
    (
        SerialFault::Vendor,
        "a vendor code has letters A to Z and digits 0 to 9",
    ),
    (
        SerialFault::Digit,
        "a serial number's octets are hex digits",
    ),
    (SerialFault::OutOfMemory, "out of memory"),
];

const ADMITTING: [(AdmitFault, &'static str); 3] = [
    (
        AdmitFault::Duplicate,
        "the serial number is admitted already",
    ),
    (
        AdmitFault::Full,
        "512 serial numbers are admitted on the port",
    ),
    (AdmitFault::OutOfMemory, "out of memory"),
];

#[test]
fn printed_faults(rt: HostRuntime) {
    for (fault, text) in &READING {
        assert!(rt; prints(rt.alloc(), fault, text), "{text}");
    }
    for (fault, text) in &ADMITTING {
        assert!(rt; prints(rt.alloc(), fault, text), "{text}");
    }
}
