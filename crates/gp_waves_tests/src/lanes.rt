//! More units than lanes.
use crate::dumped::{ALL, DumpText, dumped};
use crate::parsed::{Parsed, Wanted, parse};
use gp_ploam::{Mask, Serial, Up, encode_up};
use std::alloc::{AllocError, Global};

/// How many units ask.
const UNITS: u16 = 300;

/// Gives the code with which a unit asks.
fn asking(number: u16) -> [u8; 13] {
    let [high, low] = number.to_be_bytes();
    let serial = Serial([b'A', b'B', b'C', b'D', 0, 0, high, low]);
    let message = Up::SerialNumber {
        onu: 255,
        serial,
        random: 0,
        flags: 0,
    };
    encode_up(&message, Mask::Plain)
}

/// Writes a line in which a unit asks.
fn push_asking(log: &mut String, number: u16) -> Result<(), AllocError> {
    write!(log, "{number} up ")?;
    for octet in asking(number % UNITS) {
        write!(log, "{octet:02x}")?;
    }
    log.push_str(" 9000\n")
}

/// Gives a log in which so many units ask, and then the first one again.
fn many(alloc: Global) -> Result<String, AllocError> {
    let mut log = String::new(alloc);
    for number in 0..UNITS + 1 {
        push_asking(&mut log, number)?;
    }
    Ok(log)
}

/// Tells whether there are as many lanes as there can be, and the last 44 units take those of the first 44, and the
/// first one that of the next.
fn are_lanes(parsed: &Parsed<'_>) -> bool {
    let is_last = match parsed.last("serial") {
        Some(last) => last.variable.unit == "unit44",
        None => false,
    };
    is_last
        && parsed.variables.len() == 8 + 4 * 256
        && parsed.count("unit", "serial", Wanted::Each) == 301
        && parsed.count("unit", "state", Wanted::Number("00000001")) == 301
}

/// Tells whether a text is a dump of which that is so.
fn has_lanes(alloc: Global, text: &str) -> Result<bool, AllocError> {
    match parse(alloc, text)? {
        Some(parsed) => Ok(are_lanes(&parsed)),
        None => Ok(false),
    }
}

/// The dump of that log.
fn dumped_many(alloc: Global) -> Result<DumpText, AllocError> {
    let log = many(alloc)?;
    dumped(alloc, log.as_str(), ALL)
}

/// Tells whether its units have these lanes.
fn are_many(alloc: Global) -> Result<bool, AllocError> {
    let dump = dumped_many(alloc)?;
    has_lanes(alloc, dump.text())
}

#[test]
fn lanes_of_units_that_hold_no_number(rt: HostRuntime) {
    assert!(rt; are_many(rt.alloc()) == Ok(true));
}
