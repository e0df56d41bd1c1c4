//! Codes, alone and line by line, and the object of each.
mod lines;
mod rows;

use crate::fields::{Plain, are_lines, is_split_object, read_lines};
use gp_code_objects::{decode_object, decode_objects};
use gp_decode::{DecodeFault, Direction, FaultAt};
use gp_flow::{LinesFault, Unanswered};
use gp_ploam::Mask;
use gp_stream::{Sink, Source};
use rows::{DOWN, Row, UP};
use serde_json::Value;
use std::alloc::{AllocError, Global};

/// How lines of codes are answered, and what is written.
type Lines = (Result<Option<FaultAt>, LinesFault>, Vec<u8>);

/// How one code is answered, and what is written.
type Alone = (Result<Option<DecodeFault>, Unanswered>, Vec<u8>);

/// Room for the object of each code alone, so that no write takes memory.
const ROOM: usize = 1_024;

/// How lines of codes are answered.
fn decoded(
    alloc: Global,
    input: &[u8],
    direction: Direction,
    mask: Mask,
) -> Result<Lines, AllocError> {
    let mut source = Source::endless(input);
    let mut sink = Sink::new(alloc, Vec::new(alloc))?;
    let outcome = decode_objects(alloc, &mut source, &mut sink, direction, mask);
    Ok((outcome, sink.into_inner()))
}

/// How one code is answered.
fn decoded_alone(
    alloc: Global,
    code: &str,
    upstream: bool,
    mask: Mask,
) -> Result<Alone, AllocError> {
    let mut sink = Sink::new(alloc, Vec::with_capacity(alloc, ROOM)?)?;
    let outcome = decode_object(alloc, code, upstream, mask, &mut sink);
    Ok((outcome, sink.into_inner()))
}

/// Tells whether the first line has the object of the message of a row, of this direction, and there is no other.
fn is_message(values: &[Value], direction: &'static str, row: &Row) -> bool {
    let (code, name, fields) = *row;
    let front = [
        Plain::Number("line", 1),
        Plain::Text("direction", direction),
        Plain::Text("code", code),
        Plain::Text("message", name),
    ];
    match values {
        [value] => is_split_object(value, front.as_slice(), fields),
        _ => false,
    }
}

/// Tells whether a text is one line, which is that object.
fn is_row(
    alloc: Global,
    text: &[u8],
    direction: &'static str,
    row: &Row,
) -> Result<bool, AllocError> {
    match read_lines(alloc, text)? {
        Some(values) => Ok(is_message(&values, direction, row)),
        None => Ok(false),
    }
}

/// Tells whether the message of a row is told so of its code alone.
fn is_told_alone(
    alloc: Global,
    upstream: bool,
    direction: &'static str,
    row: &Row,
) -> Result<bool, AllocError> {
    let (outcome, said) = decoded_alone(alloc, row.0, upstream, Mask::Plain)?;
    Ok(outcome == Ok(None) && is_row(alloc, &said, direction, row)?)
}

/// Tells whether it is told so of a line.
fn is_told_of(
    alloc: Global,
    line: &[u8],
    way: Direction,
    direction: &'static str,
    row: &Row,
) -> Result<bool, AllocError> {
    let (first, said) = decoded(alloc, line, way, Mask::Plain)?;
    Ok(first == Ok(None) && is_row(alloc, &said, direction, row)?)
}

/// Tells whether it is told so of a line that says its direction.
fn is_told_directed(alloc: Global, direction: &'static str, row: &Row) -> Result<bool, AllocError> {
    let line = format!(in alloc; "{direction} {}", row.0)?;
    is_told_of(alloc, line.as_bytes(), Direction::Each, direction, row)
}

/// Tells whether the message of a row is told so of its code alone, of a line, and of one that says its direction.
fn is_told(
    alloc: Global,
    upstream: bool,
    direction: &'static str,
    row: &Row,
) -> Result<bool, AllocError> {
    let way = Direction::of(upstream);
    let is_alone = is_told_alone(alloc, upstream, direction, row)?;
    let is_line = is_told_of(alloc, row.0.as_bytes(), way, direction, row)?;
    let is_directed = is_told_directed(alloc, direction, row)?;
    Ok(is_alone && is_line && is_directed)
}

#[test]
fn messages(rt: HostRuntime) {
    for row in &DOWN {
        let told = is_told(rt.alloc(), false, "down", row);
        assert!(rt; told == Ok(true), "{}", row.0);
    }
    for row in &UP {
        assert!(rt;
            is_told(rt.alloc(), true, "up", row) == Ok(true),
            "{}",
            row.0
        );
    }
}

/// A text that is the code of nothing, the mask, its fault, and the fields of the object of that.
type FaultRow = (&'static str, Mask, DecodeFault, &'static [Plain]);

const FAULTS: [FaultRow; 9] = [
    ("", Mask::Plain, DecodeFault::Length, &[LINE, LENGTH]),
    ("0", Mask::Plain, DecodeFault::Length, &[LINE, LENGTH]),
    ("ff", Mask::Plain, DecodeFault::Length, &[LINE, LENGTH]),
    (
        "ff0c00000000000000000000c300",
        Mask::Plain,
        DecodeFault::Length,
        &[LINE, LENGTH],
    ),
    (
        "0g",
        Mask::Plain,
        DecodeFault::Digit,
        &[LINE, Plain::Text("error", "digit")],
    ),
    // Of one code nothing is passed over.
    (
        "ff 0c 00 00 00 00 00 00 00 00 00 00 c3",
        Mask::Plain,
        DecodeFault::Digit,
        &[LINE, Plain::Text("error", "digit")],
    ),
    (
        "00050000000000000000000062",
        Mask::Plain,
        DecodeFault::Crc,
        &[LINE, CRC, Plain::Text("wanted", "63")],
    ),
    (
        "ff03004142434400000001004e",
        Mask::Plain,
        DecodeFault::Crc,
        &[LINE, CRC, Plain::Number("right_under_mask", 85)],
    ),
    (
        "ff03004142434400000001001b",
        Mask::Coset,
        DecodeFault::Crc,
        &[LINE, CRC, Plain::Number("right_under_mask", 0)],
    ),
];

const LINE: Plain = Plain::Number("line", 1);

const LENGTH: Plain = Plain::Text("error", "length");

const CRC: Plain = Plain::Text("error", "crc");

/// Tells whether a text has its fault, and is told so.
fn is_fault(alloc: Global, row: &FaultRow) -> Result<bool, AllocError> {
    let (code, mask, fault, fields) = *row;
    let (outcome, said) = decoded_alone(alloc, code, false, mask)?;
    Ok(outcome == Ok(Some(fault)) && are_lines(alloc, &said, [fields].as_slice())?)
}

#[test]
fn faults(rt: HostRuntime) {
    for row in &FAULTS {
        assert!(rt; is_fault(rt.alloc(), row) == Ok(true), "{}", row.0);
    }
}

/// Codes, and what is written of each.
const WRITTEN: [(&'static str, &'static str); 2] = [
    ("0g", "{\"line\":1,\"error\":\"digit\"}\n"),
    (
        "ff0c00000000000000000000c3",
        "{\"line\":1,\"direction\":\"down\",\"code\":\"ff0c00000000000000000000c3\",\"message\":\"POPUP\",\"onu\":255}\n",
    ),
];

/// Tells whether a slice with so much room has the first octets of what is written of a code.
fn is_cut_at(alloc: Global, code: &str, wanted: &str, room: usize) -> Result<bool, AllocError> {
    let mut taken = vec![in alloc; 0; room]?;
    let mut sink = Sink::new(alloc, &mut taken[..])?;
    let outcome = decode_object(alloc, code, false, Mask::Plain, &mut sink);
    drop(sink);
    Ok(outcome == Err(Unanswered::Write) && wanted.as_bytes().starts_with(&taken))
}

/// A slice takes as many octets as it has room for, and then none.
#[test]
fn a_writer_that_stops(rt: HostRuntime) {
    for (code, wanted) in &WRITTEN {
        for room in 0..wanted.len() {
            let cut = is_cut_at(rt.alloc(), code, wanted, room);
            assert!(rt; cut == Ok(true), "{code} {room}");
        }
    }
}

/// Tells whether a code has one whole object. None where memory was refused, and nothing is written.
fn is_whole(outcome: Result<Option<DecodeFault>, Unanswered>, said: &[u8]) -> Option<bool> {
    if outcome == Err(Unanswered::OutOfMemory) && said.is_empty() {
        return None;
    }
    Some(outcome == Ok(None) && said.ends_with(b"}\n"))
}

/// Tells the same of a code that is decoded now; None too where the test has no memory itself.
fn is_whole_if_ample(alloc: Global, code: &str) -> Option<bool> {
    let (outcome, said) = decoded_alone(alloc, code, false, Mask::Plain).ok()?;
    is_whole(outcome, &said)
}

/// Where an allocation was made to fail it is told, and nothing is written; else there is one whole object. What the
/// test takes for itself may be refused too, and then nothing was decoded.
#[test]
fn memory_short_or_ample(rt: HostRuntime) {
    for row in &DOWN {
        let Some(right) = is_whole_if_ample(rt.alloc(), row.0) else {
            return;
        };
        assert!(rt; right, "{}", row.0);
    }
}
