//! Ports that are not in step.
use crate::dumped::{ALL, DumpText, dumped, is_sum};
use crate::parsed::{Parsed, Wanted, parse};
use std::alloc::{AllocError, Global};

/// Port 3 has all of its frames before port 1 has one.
const APART: &'static str = "\
3 1 frame = ok\n\
3 2 frame = ok grant poll 9\n\
3 3 frame = ok\n\
1 1 frame = ok\n\
1 2 frame = ok grant poll 8\n\
";

/// What is written behind the declarations: at each time port 1 first.
const CHANGES: &'static str = "$enddefinitions $end\n\
#125000\n\
1bf\n\
1df\n\
#250000\n\
0bf\n\
b00000011 bg\n\
b00001000 ba\n\
b00000011 bw\n\
0df\n\
b00000011 dg\n\
b00001001 da\n\
b00000011 dw\n\
#375000\n\
bz bg\n\
bz ba\n\
1df\n\
bz dg\n\
bz da\n\
#625000\n\
bz bw\n\
bz dw\n";

/// Tells whether a text has the scopes of ports 1 and 3, and none of port 0.
fn has_scopes(text: &str) -> bool {
    text.contains("$scope module port1 $end\n")
        && text.contains("$scope module port3 $end\n")
        && !text.contains("$scope module port0 $end\n")
}

/// Tells whether both ports are dumped so.
fn are_in_order(alloc: Global) -> Result<bool, AllocError> {
    let dump = dumped(alloc, APART, ALL)?;
    Ok(dump.text().ends_with(CHANGES) && has_scopes(dump.text()) && is_sum(&dump, 5, 0))
}

#[test]
fn ports_in_the_order_of_their_times(rt: HostRuntime) {
    assert!(rt; are_in_order(rt.alloc()) == Ok(true));
}

/// Gives a trace in which port 0 has so many frames before port 1 has ten.
fn far_apart(alloc: Global, frames: u64) -> Result<String, AllocError> {
    let mut trace = String::new(alloc);
    for number in 1..frames {
        write!(trace, "0 {number} frame = ok\n")?;
    }
    for number in 1..11u64 {
        write!(trace, "1 {number} frame = ok\n")?;
    }
    Ok(trace)
}

/// Tells whether changes of a dump were late.
fn is_late(dump: &DumpText) -> bool {
    match dump.outcome {
        Ok(sum) => sum.lines == 66_010 && sum.late > 0,
        Err(_) => false,
    }
}

/// Tells whether all variables that there can be are declared, and each frame is there.
fn has_all(parsed: &Parsed<'_>) -> bool {
    parsed.variables.len() == 16 * (8 + 4 * 256)
        && parsed.count("", "frame", Wanted::Each) == 66_010
}

/// Tells whether a text is a dump of which that is so.
fn is_dump_of_all(alloc: Global, text: &str) -> Result<bool, AllocError> {
    match parse(alloc, text)? {
        Some(parsed) => Ok(has_all(&parsed)),
        None => Ok(false),
    }
}

/// The dump of that trace with so many frames.
fn dumped_apart(alloc: Global, frames: u64) -> Result<DumpText, AllocError> {
    let trace = far_apart(alloc, frames)?;
    dumped(alloc, trace.as_str(), ALL)
}

/// Tells whether it has each frame, some of them late.
fn are_apart(alloc: Global) -> Result<bool, AllocError> {
    let dump = dumped_apart(alloc, 66_001)?;
    Ok(is_late(&dump) && is_dump_of_all(alloc, dump.text())?)
}

#[test]
fn further_apart_than_is_held_back(rt: HostRuntime) {
    assert!(rt; are_apart(rt.alloc()) == Ok(true));
}
