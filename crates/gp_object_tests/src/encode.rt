//! Words, alone and line by line, and the object of each.
use crate::fields::{Plain, are_lines};
use gp_code_objects::{encode_object, encode_objects};
use gp_encode::{WordsFault, WordsFaultAt};
use gp_flow::{LinesFault, Unanswered};
use gp_lines::LineFault;
use gp_ploam::Mask;
use gp_stream::{Sink, Source};
use std::alloc::{AllocError, Global};

/// A line, and its fault.
type Fault = Option<(u64, WordsFault)>;

/// Lines of words, whether they are a unit's, the mask, the objects of those that have an answer, and the first fault.
type Row = (
    &'static [u8],
    bool,
    Mask,
    &'static [&'static [Plain]],
    Fault,
);

const POPUP: Plain = Plain::Text("code", "ff0c00000000000000000000c3");

const INPUTS: [Row; 6] = [
    (b"", false, Mask::Plain, &[], None),
    (
        b"Assign_ONU-ID 0 ABCD00000001\n# remark\n\nPOPUP 256\r\nPOPUP 255",
        false,
        Mask::Plain,
        &[
            &[
                Plain::Number("line", 1),
                Plain::Text("code", "ff03004142434400000001001b"),
            ],
            &[Plain::Number("line", 4), Plain::Text("error", "range")],
            &[Plain::Number("line", 5), POPUP],
        ],
        Some((4, WordsFault::Part(LineFault::Range))),
    ),
    (
        b"Assign_ONU-ID 0 ABCD00000001\r\n",
        false,
        Mask::Coset,
        &[&[
            Plain::Number("line", 1),
            Plain::Text("code", "ff03004142434400000001004e"),
        ]],
        None,
    ),
    (
        b"Dying_Gasp 0\nPOPUP 255\nAcknowledge 0 10\n",
        true,
        Mask::Plain,
        &[
            &[
                Plain::Number("line", 1),
                Plain::Text("code", "00030000000000000000000021"),
            ],
            &[Plain::Number("line", 2), Plain::Text("error", "word")],
            &[
                Plain::Number("line", 3),
                Plain::Text("code", "00090a0000000000000000007e"),
            ],
        ],
        Some((2, WordsFault::Part(LineFault::Word))),
    ),
    // One fault of each kind, and the first is answered.
    (
        b"Other 12 0 00000000000000000000\nPopup 255\nPOPUP x\nPOPUP 256\nAssign_ONU-ID 0 ABCD\nUpstream_Overhead 00\n",
        false,
        Mask::Plain,
        &[
            &[Plain::Number("line", 1), Plain::Text("error", "named")],
            &[Plain::Number("line", 2), Plain::Text("error", "word")],
            &[Plain::Number("line", 3), Plain::Text("error", "number")],
            &[Plain::Number("line", 4), Plain::Text("error", "range")],
            &[Plain::Number("line", 5), Plain::Text("error", "serial")],
            &[Plain::Number("line", 6), Plain::Text("error", "hex")],
        ],
        Some((1, WordsFault::Named)),
    ),
    (
        b"\xff\"\\\n",
        false,
        Mask::Plain,
        &[&[Plain::Number("line", 1), Plain::Text("error", "word")]],
        Some((1, WordsFault::Part(LineFault::Word))),
    ),
];

/// How lines of words are answered, and what is written.
type Lines = (Result<Option<WordsFaultAt>, LinesFault>, Vec<u8>);

/// How lines of words are answered.
fn encoded(alloc: Global, input: &[u8], upstream: bool, mask: Mask) -> Result<Lines, AllocError> {
    let mut source = Source::endless(input);
    let mut sink = Sink::new(alloc, Vec::new(alloc))?;
    let outcome = encode_objects(alloc, &mut source, &mut sink, upstream, mask);
    Ok((outcome, sink.into_inner()))
}

/// Tells whether lines have these objects, and this first fault.
fn is_answered(
    alloc: Global,
    input: &[u8],
    upstream: bool,
    mask: Mask,
    objects: &[&'static [Plain]],
    first: Fault,
) -> Result<bool, AllocError> {
    let (outcome, said) = encoded(alloc, input, upstream, mask)?;
    let first = first.map(|(line, fault)| WordsFaultAt { line, fault });
    Ok(outcome == Ok(first) && are_lines(alloc, &said, objects)?)
}

/// Tells whether that is so of a row.
fn is_row(alloc: Global, row: &Row) -> Result<bool, AllocError> {
    let (input, upstream, mask, objects, first) = *row;
    is_answered(alloc, input, upstream, mask, objects, first)
}

#[test]
fn lines(rt: HostRuntime) {
    for place in 0..INPUTS.len() {
        let right = is_row(rt.alloc(), &INPUTS[place]);
        assert!(rt; right == Ok(true), "{place}");
    }
}

/// Tells whether a remark has these objects, and this first fault.
fn is_remark(
    alloc: Global,
    remark: &[u8],
    objects: &[&'static [Plain]],
    first: Fault,
) -> Result<bool, AllocError> {
    is_answered(alloc, remark, false, Mask::Plain, objects, first)
}

/// What is said to a line that is too long.
const LONG: [&'static [Plain]; 1] = [&[Plain::Number("line", 1), Plain::Text("error", "long")]];

/// A line of 4,096 octets is looked at, and a longer one isn't, though it be a remark.
#[test]
fn long_lines(rt: HostRuntime) {
    let mut line = [b' '; 4_097];
    line[0] = b'#';
    let first = Some((1, WordsFault::Part(LineFault::Long)));
    assert!(rt; is_remark(rt.alloc(), &line[..4_096], &[], None) == Ok(true));
    assert!(rt; is_remark(rt.alloc(), &line, &LONG, first) == Ok(true));
}

/// Words of one message, their fault, and the object of that.
type Words = (&'static [u8], Option<WordsFault>, &'static [Plain]);

const ALONE: [Words; 3] = [
    (b"POPUP 255", None, &[LINE, POPUP]),
    (
        b"POPUP 256",
        Some(WordsFault::Part(LineFault::Range)),
        &[LINE, Plain::Text("error", "range")],
    ),
    (
        b"",
        Some(WordsFault::Part(LineFault::Word)),
        &[LINE, Plain::Text("error", "word")],
    ),
];

const LINE: Plain = Plain::Number("line", 1);

/// How words are answered alone, and what is written.
fn encoded_alone(
    alloc: Global,
    words: &[u8],
) -> Result<(Result<Option<WordsFault>, Unanswered>, Vec<u8>), AllocError> {
    let mut sink = Sink::new(alloc, Vec::new(alloc))?;
    let outcome = encode_object(alloc, words, false, Mask::Plain, &mut sink);
    Ok((outcome, sink.into_inner()))
}

/// Tells whether words alone have this fault and this object.
fn is_alone(alloc: Global, row: &Words) -> Result<bool, AllocError> {
    let (words, fault, fields) = *row;
    let (outcome, said) = encoded_alone(alloc, words)?;
    Ok(outcome == Ok(fault) && are_lines(alloc, &said, [fields].as_slice())?)
}

#[test]
fn alone(rt: HostRuntime) {
    for place in 0..ALONE.len() {
        let right = is_alone(rt.alloc(), &ALONE[place]);
        assert!(rt; right == Ok(true), "{place}");
    }
}

/// Tells whether a slice with so much room has the first octets of an object.
fn is_cut_at(alloc: Global, room: usize) -> Result<bool, AllocError> {
    let mut taken = vec![in alloc; 0; room]?;
    let mut sink = Sink::new(alloc, &mut taken[..])?;
    let outcome = encode_object(alloc, b"POPUP 256", false, Mask::Plain, &mut sink);
    drop(sink);
    Ok(outcome == Err(Unanswered::Write) && WRITTEN.starts_with(&taken))
}

/// What is written of a number that is out of its range.
const WRITTEN: &[u8] = b"{\"line\":1,\"error\":\"range\"}\n";

/// A slice takes as many octets as it has room for, and then none.
#[test]
fn a_writer_that_stops(rt: HostRuntime) {
    for room in 0..WRITTEN.len() {
        assert!(rt; is_cut_at(rt.alloc(), room) == Ok(true), "{room}");
    }
}
