//! Many lines of codes, and the objects that answer them.
use super::decoded;
use crate::fields::{Plain, are_lines};
use gp_decode::{DecodeFault, Direction, FaultAt};
use gp_ploam::Mask;
use std::alloc::{AllocError, Global};

/// A line, and its fault.
type Fault = Option<(u64, DecodeFault)>;

/// Lines, the direction and the mask of their codes, the objects of those that have an answer, and the first fault.
type Row = (
    &'static [u8],
    Direction,
    Mask,
    &'static [&'static [Plain]],
    Fault,
);

const DOWN: Plain = Plain::Text("direction", "down");

const ASSIGN: Plain = Plain::Text("message", "Assign_ONU-ID");

const POPUP_CODE: Plain = Plain::Text("code", "ff0c00000000000000000000c3");

const POPUP: Plain = Plain::Text("message", "POPUP");

const ALL_UNITS: Plain = Plain::Number("onu", 255);

const INPUTS: [Row; 7] = [
    (b"", Direction::Down, Mask::Plain, &[], None),
    // Empty lines and remarks are counted, and have no answer; the last line has no line feed.
    (
        b"ff03004142434400000001001b\n# remark\n\n0g\r\nff0c00000000000000000000c3\n\r\n00050000000000000000000062",
        Direction::Down,
        Mask::Plain,
        &[
            &[
                Plain::Number("line", 1),
                DOWN,
                Plain::Text("code", "ff03004142434400000001001b"),
                ASSIGN,
                Plain::Number("onu", 0),
                Plain::Text("serial", "ABCD00000001"),
            ],
            &[Plain::Number("line", 4), Plain::Text("error", "digit")],
            &[Plain::Number("line", 5), DOWN, POPUP_CODE, POPUP, ALL_UNITS],
            &[
                Plain::Number("line", 7),
                Plain::Text("error", "crc"),
                Plain::Text("wanted", "63"),
            ],
        ],
        Some((4, DecodeFault::Digit)),
    ),
    // Codes as people write them are told by their digits alone, in lower case.
    (
        b"FF:0C:00:00:00:00:00:00:00:00:00:00:C3\n0xff 0x0c-0x00000000000000000000 c3\n",
        Direction::Down,
        Mask::Plain,
        &[
            &[Plain::Number("line", 1), DOWN, POPUP_CODE, POPUP, ALL_UNITS],
            &[Plain::Number("line", 2), DOWN, POPUP_CODE, POPUP, ALL_UNITS],
        ],
        None,
    ),
    // Each line says its direction.
    (
        b"up 00090a0000000000000000007e\ndown ff0c00000000000000000000c3\nff0c00000000000000000000c3\n",
        Direction::Each,
        Mask::Plain,
        &[
            &[
                Plain::Number("line", 1),
                Plain::Text("direction", "up"),
                Plain::Text("code", "00090a0000000000000000007e"),
                Plain::Text("message", "Acknowledge"),
                Plain::Number("onu", 0),
                Plain::Number("id", 10),
            ],
            &[Plain::Number("line", 2), DOWN, POPUP_CODE, POPUP, ALL_UNITS],
            &[Plain::Number("line", 3), Plain::Text("error", "direction")],
        ],
        Some((3, DecodeFault::Direction)),
    ),
    (
        b"ff03004142434400000001004e\nff03004142434400000001001b\n",
        Direction::Down,
        Mask::Coset,
        &[
            &[
                Plain::Number("line", 1),
                DOWN,
                Plain::Text("code", "ff03004142434400000001004e"),
                ASSIGN,
                Plain::Number("onu", 0),
                Plain::Text("serial", "ABCD00000001"),
            ],
            &[
                Plain::Number("line", 2),
                Plain::Text("error", "crc"),
                Plain::Number("right_under_mask", 0),
            ],
        ],
        Some((2, DecodeFault::Crc)),
    ),
    // Octets that are no UTF-8 are told by a fault, and not again.
    (
        b"\xff\xfe\x00\"\\\n",
        Direction::Down,
        Mask::Plain,
        &[&[Plain::Number("line", 1), Plain::Text("error", "length")]],
        Some((1, DecodeFault::Length)),
    ),
    (
        b"\xff\xfe\"\\\n",
        Direction::Up,
        Mask::Plain,
        &[&[Plain::Number("line", 1), Plain::Text("error", "digit")]],
        Some((1, DecodeFault::Digit)),
    ),
];

/// Tells whether lines have these objects, and this first fault.
fn is_answered(
    alloc: Global,
    input: &[u8],
    direction: Direction,
    mask: Mask,
    objects: &[&'static [Plain]],
    first: Fault,
) -> Result<bool, AllocError> {
    let (outcome, said) = decoded(alloc, input, direction, mask)?;
    let first = first.map(|(line, fault)| FaultAt { line, fault });
    Ok(outcome == Ok(first) && are_lines(alloc, &said, objects)?)
}

/// Tells whether that is so of a row.
fn is_row(alloc: Global, row: &Row) -> Result<bool, AllocError> {
    let (input, direction, mask, objects, first) = *row;
    is_answered(alloc, input, direction, mask, objects, first)
}

#[test]
fn lines(rt: HostRuntime) {
    for place in 0..INPUTS.len() {
        let right = is_row(rt.alloc(), &INPUTS[place]);
        assert!(rt; right == Ok(true), "{place}");
    }
}

/// Tells whether a remark has these objects, and this first fault.
fn is_remark(
    alloc: Global,
    remark: &[u8],
    objects: &[&'static [Plain]],
    first: Fault,
) -> Result<bool, AllocError> {
    is_answered(alloc, remark, Direction::Each, Mask::Plain, objects, first)
}

/// What is said to a line that is too long.
const LONG: [&'static [Plain]; 1] = [&[Plain::Number("line", 1), Plain::Text("error", "length")]];

/// A line of 4,096 octets is looked at, and a longer one isn't, though it be a remark.
#[test]
fn long_lines(rt: HostRuntime) {
    let mut line = [b' '; 4_097];
    line[0] = b'#';
    let first = Some((1, DecodeFault::Length));
    assert!(rt; is_remark(rt.alloc(), &line[..4_096], &[], None) == Ok(true));
    assert!(rt; is_remark(rt.alloc(), &line, &LONG, first) == Ok(true));
}
