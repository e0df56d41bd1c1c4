//! Codes that are decoded, one and line by line: what is written, faults, memory that runs out, writers that end.
use gp_decode::{
    DecodeFault, Direction, FaultAt, decode_each_in, decode_line, decode_line_in, decode_lines,
    other_name, push_words_of, words_of,
};
use gp_flow::LinesFault;
use gp_ploam::Mask;
use gp_stream::{Sink, Source};
use std::alloc::{AllocError, Global};

const DOWN: bool = false;

const UP: bool = true;

/// A text, its direction and its mask, and what is written of it.
type Line = (&'static str, bool, Mask, &'static str);

const LINES: [Line; 14] = [
    (
        "ff010000000000000000000058",
        DOWN,
        Mask::Plain,
        "Upstream_Overhead 00000000000000000000\n",
    ),
    (
        "ff03004142434400000001001b",
        DOWN,
        Mask::Plain,
        "Assign_ONU-ID 0 ABCD00000001\n",
    ),
    (
        "FF03004142434400000001001B",
        DOWN,
        Mask::Plain,
        "Assign_ONU-ID 0 ABCD00000001\n",
    ),
    (
        "ff03004142434400000001004e",
        DOWN,
        Mask::Coset,
        "Assign_ONU-ID 0 ABCD00000001\n",
    ),
    (
        "0004000003386000000000009c",
        DOWN,
        Mask::Plain,
        "Ranging_Time 0 211040\n",
    ),
    (
        "00050000000000000000000063",
        DOWN,
        Mask::Plain,
        "Deactivate_ONU-ID 0\n",
    ),
    (
        "ff060f00000000000000000053",
        DOWN,
        Mask::Plain,
        "Enable_All\n",
    ),
    (
        "000a1000010000000000000047",
        DOWN,
        Mask::Plain,
        "Assign_Alloc-ID 0 256 keep\n",
    ),
    (
        "ff0c00000000000000000000c3",
        DOWN,
        Mask::Plain,
        "POPUP 255\n",
    ),
    (
        "ff01414243440000000100002c",
        UP,
        Mask::Plain,
        "Serial_Number_ONU 255 ABCD00000001 0 0\n",
    ),
    (
        "00030000000000000000000021",
        UP,
        Mask::Plain,
        "Dying_Gasp 0\n",
    ),
    (
        "0004000000000000000000007c",
        UP,
        Mask::Plain,
        "No_message 0\n",
    ),
    (
        "00090a0000000000000000007e",
        UP,
        Mask::Plain,
        "Acknowledge 0 10\n",
    ),
    (
        "00000000000000000000000000",
        UP,
        Mask::Plain,
        "Other 0 0 00000000000000000000\n",
    ),
];

/// Texts with a fault, or with two, and which is told.
const FAULTS: [(&'static str, DecodeFault); 5] = [
    ("zz0", DecodeFault::Length),
    ("0g", DecodeFault::Digit),
    ("00", DecodeFault::Length),
    ("", DecodeFault::Length),
    ("00050000000000000000000062", DecodeFault::Crc),
];

/// How a text is decoded, and what the vector holds then.
fn decoded_onto(
    alloc: Global,
    taken: Vec<u8>,
    text: &str,
    upstream: bool,
    mask: Mask,
) -> Result<(Result<(), DecodeFault>, Vec<u8>), AllocError> {
    let mut sink = Sink::new(alloc, taken)?;
    let outcome = decode_line(alloc, text, upstream, mask, &mut sink);
    Ok((outcome, sink.into_inner()))
}

/// Tells whether a text is decoded so, with this written.
fn is_decoded(
    alloc: Global,
    row: &Line,
    wanted: Result<(), DecodeFault>,
) -> Result<bool, AllocError> {
    let (text, upstream, mask, line) = *row;
    let (outcome, written) = decoded_onto(alloc, Vec::new(alloc), text, upstream, mask)?;
    Ok(outcome == wanted && written.as_slice() == line.as_bytes())
}

#[test]
fn lines(rt: HostRuntime) -> Result<(), AllocError> {
    for row in &LINES {
        assert!(rt; is_decoded(rt.alloc(), row, Ok(()))?, "{}", row.0);
    }
    Ok(())
}

#[test]
fn faults_in_their_order(rt: HostRuntime) -> Result<(), AllocError> {
    for (text, fault) in &FAULTS {
        let row = (*text, DOWN, Mask::Plain, "");
        assert!(rt; is_decoded(rt.alloc(), &row, Err(*fault))?, "{text}");
    }
    Ok(())
}

/// What is told of a directed message to all.
const POPUP: &[u8] = b"POPUP 255\n";

/// Tells whether a slice with so much room has the first bytes of a line, and where it has too little that is told: it
/// takes as many bytes as it has room for, and then none.
fn is_cut_at(alloc: Global, room: usize) -> Result<bool, AllocError> {
    let mut taken = vec![in alloc; 0; room]?;
    let mut sink = Sink::new(alloc, &mut taken[..])?;
    let text = "ff0c00000000000000000000c3";
    let outcome = decode_line(alloc, text, DOWN, Mask::Plain, &mut sink);
    drop(sink);
    let wanted = if room < POPUP.len() {
        Err(DecodeFault::Write)
    } else {
        Ok(())
    };
    Ok(outcome == wanted && POPUP.starts_with(&taken))
}

#[test]
fn a_writer_that_stops(rt: HostRuntime) {
    for room in 0..=POPUP.len() {
        assert!(rt; is_cut_at(rt.alloc(), room) == Ok(true), "{room}");
    }
}

/// Room for each of these lines, so that no write takes memory.
const ROOM: usize = 64;

/// Tells whether a decoding has this line; None where an allocation was refused and nothing is written.
fn is_line(outcome: Result<(), DecodeFault>, written: &[u8], line: &str) -> Option<bool> {
    if outcome == Err(DecodeFault::OutOfMemory) && written.is_empty() {
        return None;
    }
    Some(outcome.is_ok() && written == line.as_bytes())
}

/// Tells the same of a text that is decoded where memory may be refused; None too where the test itself has none.
fn is_decoded_if_ample(alloc: Global, row: &Line) -> Option<bool> {
    let (text, upstream, mask, line) = *row;
    let taken = Vec::with_capacity(alloc, ROOM).ok()?;
    let (outcome, written) = decoded_onto(alloc, taken, text, upstream, mask).ok()?;
    is_line(outcome, &written, line)
}

/// Where an allocation was made to fail it is told, and nothing is written; else each line is as it should be. What
/// the test takes for itself may be refused too, and then nothing was decoded.
#[test]
fn memory_short_or_ample(rt: HostRuntime) {
    for row in &LINES {
        let Some(right) = is_decoded_if_ample(rt.alloc(), row) else {
            return;
        };
        assert!(rt; right, "{}", row.0);
    }
}

/// A line, and its fault.
type Fault = Option<(u64, DecodeFault)>;

/// Lines of codes, what is said to them, and the first that has a fault.
const INPUTS: [(&'static str, &'static str, Fault); 15] = [
    ("", "", None),
    (
        "ff03004142434400000001001b\nff0c00000000000000000000c3",
        "Assign_ONU-ID 0 ABCD00000001\nPOPUP 255\n",
        None,
    ),
    (
        "ff03004142434400000001001b\n0g\n00050000000000000000000062\nff0c00000000000000000000c3\n",
        "Assign_ONU-ID 0 ABCD00000001\nerror 2 digit\nerror 3 crc, 63 should stand\nPOPUP 255\n",
        Some((2, DecodeFault::Digit)),
    ),
    // Empty lines and remarks are passed over, and counted.
    ("\n\r\n#\n# 0g\r\n#0g", "", None),
    (
        "\n#\n0\n",
        "error 3 length\n",
        Some((3, DecodeFault::Length)),
    ),
    // A carriage return at the end is no part of a line, and anywhere else it is no digit.
    ("ff0c00000000000000000000c3\r\n", "POPUP 255\n", None),
    ("ff0c00000000000000000000c3\r", "POPUP 255\n", None),
    (
        "ff0c00000000000000000000c\r3\r\r\n",
        "error 1 digit\n",
        Some((1, DecodeFault::Digit)),
    ),
    // What may stand between digits, and in front of them.
    (
        "ff:0c:00:00:00:00:00:00:00:00:00:00:c3\nFF-0C-00-00-00-00-00-00-00-00-00-00-C3\n",
        "POPUP 255\nPOPUP 255\n",
        None,
    ),
    (
        "ff 0c 00 00 00 00 00 00 00 00 00 00 c3\n  ff0c0000 00000000  00000000 c3 \n f f:-0c00000000000000000000c3",
        "POPUP 255\nPOPUP 255\nPOPUP 255\n",
        None,
    ),
    (
        "0xff0c00000000000000000000c3\n0XFF0C00000000000000000000C3\n0xff 0x0c 0x00000000000000000000 0xc3\n",
        "POPUP 255\nPOPUP 255\nPOPUP 255\n",
        None,
    ),
    (
        "ff0x0c00000000000000000000c3\n0x0xff0c00000000000000000000c3\nxff0c00000000000000000000c3a\n",
        "error 1 digit\nerror 2 digit\nerror 3 digit\n",
        Some((1, DecodeFault::Digit)),
    ),
    (
        "0x\n \nff:0\n:-#\n",
        "error 1 length\nerror 2 length\nerror 3 length\nerror 4 length\n",
        Some((1, DecodeFault::Length)),
    ),
    // What would be right: the other mask where it is, and else an octet.
    (
        "ff03004142434400000001004e\nff03004142434400000001001a\n00050000000000000000000036",
        "error 1 crc, right under mask 85\nerror 2 crc, 1b should stand\nerror 3 crc, right under mask 85\n",
        Some((1, DecodeFault::Crc)),
    ),
    // A tabulator isn't passed over.
    (
        "ff\t0c00000000000000000000c3\n",
        "error 1 length\n",
        Some((1, DecodeFault::Length)),
    ),
];

/// The fault of a line.
fn fault_at(fault: Fault) -> Option<FaultAt> {
    let (line, fault) = fault?;
    Some(FaultAt { line, fault })
}

/// How an input ended, and what is said to it.
type Said = (Result<Option<FaultAt>, LinesFault>, Vec<u8>);

/// Decodes an input in a direction, under a mask, with names or without.
fn said_in(
    alloc: Global,
    input: &str,
    direction: Direction,
    mask: Mask,
    names: bool,
) -> Result<Said, AllocError> {
    let mut source = Source::endless(input.as_bytes());
    let mut sink = Sink::new(alloc, Vec::new(alloc))?;
    let outcome = decode_each_in(alloc, &mut source, &mut sink, direction, mask, names);
    Ok((outcome, sink.into_inner()))
}

/// Tells whether this is said, and this the first fault.
fn is_said(said: &Said, wanted: &str, first: Fault) -> bool {
    said.0 == Ok(fault_at(first)) && said.1.as_slice() == wanted.as_bytes()
}

/// Decodes an input in a direction, under a mask, and tells whether this is said and answered.
fn says(
    alloc: Global,
    input: &str,
    direction: Direction,
    mask: Mask,
    wanted: (&str, Fault),
) -> Result<bool, AllocError> {
    let said = said_in(alloc, input, direction, mask, false)?;
    Ok(is_said(&said, wanted.0, wanted.1))
}

/// Decodes an input of codes downstream.
fn said_down(alloc: Global, input: &str) -> Result<Said, AllocError> {
    let mut source = Source::endless(input.as_bytes());
    let mut sink = Sink::new(alloc, Vec::new(alloc))?;
    let outcome = decode_lines(alloc, &mut source, &mut sink, DOWN, Mask::Plain);
    Ok((outcome, sink.into_inner()))
}

#[test]
fn lines_of_an_input(rt: HostRuntime) -> Result<(), AllocError> {
    for (input, wanted, first) in &INPUTS {
        let said = said_down(rt.alloc(), input)?;
        assert!(rt; is_said(&said, wanted, *first), "{input}");
    }
    Ok(())
}

/// Lines of codes, their direction and mask, what is said to them, and the first that has a fault.
const DIRECTED: [(&'static str, Direction, Mask, &'static str, Fault); 6] = [
    (
        "00090a0000000000000000007e\n",
        Direction::Up,
        Mask::Plain,
        "Acknowledge 0 10\n",
        None,
    ),
    (
        "ff03004142434400000001001b\n00 04 00 00 00 00 00 00 00 00 00 00 00\n",
        Direction::Down,
        Mask::Coset,
        "error 1 crc, right under mask 0\nerror 2 crc, 29 should stand\n",
        Some((1, DecodeFault::Crc)),
    ),
    (
        "up 00090a0000000000000000007e\ndown ff0c00000000000000000000c3\r\n\n# up\ndown  0xff:0c00000000000000000000c3",
        Direction::Each,
        Mask::Plain,
        "Acknowledge 0 10\nPOPUP 255\nPOPUP 255\n",
        None,
    ),
    (
        "ff0c00000000000000000000c3\nup\nUp ff0c00000000000000000000c3\n up ff0c00000000000000000000c3\n",
        Direction::Each,
        Mask::Plain,
        "error 1 direction\nerror 2 direction\nerror 3 direction\nerror 4 direction\n",
        Some((1, DecodeFault::Direction)),
    ),
    (
        "up \ndown:ff\nupff\nup 0g\ndown ff0c000000000000000000000\nup 00090a0000000000000000002b\n",
        Direction::Each,
        Mask::Plain,
        "error 1 length\nerror 2 direction\nerror 3 direction\nerror 4 digit\nerror 5 length\n\
        error 6 crc, right under mask 85\n",
        Some((1, DecodeFault::Length)),
    ),
    (
        "up 00090a0000000000000000007e\n",
        Direction::Up,
        Mask::Plain,
        "error 1 digit\n",
        Some((1, DecodeFault::Digit)),
    ),
];

#[test]
fn lines_that_say_their_direction(rt: HostRuntime) -> Result<(), AllocError> {
    for (input, direction, mask, said, first) in &DIRECTED {
        let right = says(rt.alloc(), input, *direction, *mask, (said, *first))?;
        assert!(rt; right, "{input}");
    }
    Ok(())
}

/// A remark of so many octets.
fn remark_of(alloc: Global, count: usize) -> Result<String, AllocError> {
    let mut remark = String::from_str(alloc, "#")?;
    for _ in 1..count {
        remark.push(' ')?;
    }
    Ok(remark)
}

/// A line of 4,096 octets is looked at, and a longer one isn't, though it be a remark.
#[test]
fn long_lines(rt: HostRuntime) -> Result<(), AllocError> {
    let longest = remark_of(rt.alloc(), 4_096)?;
    let each = Direction::Each;
    assert!(rt; says(rt.alloc(), &longest, each, Mask::Plain, ("", None))?);
    let longer = remark_of(rt.alloc(), 4_097)?;
    let long = ("error 1 length\n", Some((1, DecodeFault::Length)));
    assert!(rt; says(rt.alloc(), &longer, each, Mask::Plain, long)?);
    Ok(())
}

/// What stands in a buffer before words are appended.
const FRONT: &str = "0 7 frame = ok sent ";

/// The octets of a code, from its digits.
fn octets_of(text: &str) -> [u8; 13] {
    let mut octets = [0u8; 13];
    for (place, digit) in text.as_bytes().iter().enumerate() {
        let value = char::from(*digit).to_digit(16).unwrap_or(0) as u8;
        if let Some(octet) = octets.get_mut(place / 2) {
            *octet = octet.wrapping_mul(16).wrapping_add(value);
        }
    }
    octets
}

/// How words are appended to a buffer with so much room behind what stands in it, and what it holds then.
fn appended(
    alloc: Global,
    room: usize,
    text: &str,
    upstream: bool,
    mask: Mask,
) -> Result<(Result<(), DecodeFault>, Vec<u8>), AllocError> {
    let mut out = Vec::with_capacity(alloc, FRONT.len().saturating_add(room))?;
    out.extend_from_slice(FRONT.as_bytes())?;
    let outcome = push_words_of(&mut out, &octets_of(text), upstream, mask);
    Ok((outcome, out))
}

/// Tells whether a buffer holds what stood in it, and behind that the words of a line.
fn holds(out: &[u8], line: &str) -> bool {
    let words = line.trim_end_matches('\n').as_bytes();
    out.strip_prefix(FRONT.as_bytes()) == Some(words)
}

/// Tells whether a buffer with so much room has the words of a line behind what stood in it; None where an allocation
/// was refused for want of room, and it has at most the first part of them.
fn has_words(
    outcome: Result<(), DecodeFault>,
    out: &[u8],
    room: usize,
    line: &str,
) -> Option<bool> {
    let begun = out.strip_prefix(FRONT.as_bytes()).unwrap_or(b"\n");
    let is_begun = room < 64 && line.as_bytes().starts_with(begun);
    if outcome == Err(DecodeFault::OutOfMemory) && is_begun {
        return None;
    }
    Some(outcome.is_ok() && holds(out, line))
}

/// Tells the same of a text that is decoded; None too where the test itself has no memory.
fn is_appended(alloc: Global, room: usize, row: &Line) -> Option<bool> {
    let (text, upstream, mask, line) = *row;
    let (outcome, out) = appended(alloc, room, text, upstream, mask).ok()?;
    has_words(outcome, &out, room, line)
}

/// Where an allocation was made to fail it is told, and what stood in the buffer stands there with at most the first
/// part of the words behind it; else the words stand there, however much room there was.
#[test]
fn words_behind_what_stands(rt: HostRuntime) {
    for row in &LINES {
        for room in [0, 1, 18, 64] {
            let Some(right) = is_appended(rt.alloc(), room, row) else {
                return;
            };
            assert!(rt; right, "{}", row.0);
        }
    }
}

/// Tells whether the words of a text are those of its line; None where an allocation was refused.
fn is_text(alloc: Global, row: &Line) -> Option<bool> {
    let (text, upstream, mask, line) = *row;
    match words_of(alloc, &octets_of(text), upstream, mask) {
        Ok(words) => Some(words.as_str() == line.trim_end_matches('\n')),
        Err(DecodeFault::OutOfMemory) => None,
        Err(_) => Some(false),
    }
}

/// Where an allocation was made to fail it is told; else the words are a text of their own.
#[test]
fn words_as_a_text(rt: HostRuntime) {
    for row in &LINES {
        let Some(right) = is_text(rt.alloc(), row) else {
            return;
        };
        assert!(rt; right, "{}", row.0);
    }
}

/// Tells whether a code whose check octet is wrong is refused, and leaves a buffer as it was.
fn is_left(alloc: Global, upstream: bool) -> Result<bool, AllocError> {
    let text = "00050000000000000000000062";
    let (outcome, out) = appended(alloc, 0, text, upstream, Mask::Plain)?;
    Ok(outcome == Err(DecodeFault::Crc) && holds(&out, ""))
}

/// A code whose check octet is wrong leaves a buffer as it was.
#[test]
fn no_words_of_a_wrong_code(rt: HostRuntime) {
    assert!(rt; is_left(rt.alloc(), DOWN) == Ok(true));
    assert!(rt; is_left(rt.alloc(), UP) == Ok(true));
}

/// Messages that have a name and no row: upstream or downstream, the identifier (G.984.3, clause 9.2), the name.
const NAMES: [(bool, u8, &'static str); 18] = [
    (DOWN, 0x08, "Encrypted_Port-ID"),
    (DOWN, 0x09, "Request_Password"),
    (DOWN, 0x0d, "Request_Key"),
    (DOWN, 0x0e, "Configure_Port-ID"),
    (DOWN, 0x0f, "PEE"),
    (DOWN, 0x10, "Change_Power_Level"),
    (DOWN, 0x11, "PST"),
    (DOWN, 0x12, "BER_interval"),
    (DOWN, 0x13, "Key_Switching_Time"),
    (DOWN, 0x14, "Extended_Burst_Length"),
    (DOWN, 0x15, "PON-ID"),
    (DOWN, 0x16, "Swift_POPUP"),
    (DOWN, 0x17, "Ranging_Adjustment"),
    (UP, 0x02, "Password"),
    (UP, 0x05, "Encryption_key"),
    (UP, 0x06, "PEE"),
    (UP, 0x07, "PST"),
    (UP, 0x08, "REI"),
];

/// The name in these rows.
fn name_among(rows: &[(bool, u8, &'static str)], upstream: bool, id: u8) -> Option<&'static str> {
    for (way, own, name) in rows {
        if *way == upstream && *own == id {
            return Some(*name);
        }
    }
    None
}

#[test]
fn names_of_messages_without_a_row(rt: HostRuntime) {
    for upstream in [DOWN, UP] {
        for id in 0..=255 {
            let wanted = name_among(&NAMES, upstream, id);
            assert!(rt; other_name(upstream, id) == wanted, "{id}");
        }
    }
}

/// Codes, whose they are, and what is written of each where names are asked for, and where not.
const NAMED: [(&'static str, bool, &'static str, &'static str); 9] = [
    (
        "ff0900000000000000000000a0",
        DOWN,
        "Request_Password 255 00000000000000000000\n",
        "Other 9 255 00000000000000000000\n",
    ),
    (
        "000e000102030405060708093f",
        DOWN,
        "Configure_Port-ID 0 00010203040506070809\n",
        "Other 14 0 00010203040506070809\n",
    ),
    (
        "000500010203040506070809e6",
        UP,
        "Encryption_key 0 00010203040506070809\n",
        "Other 5 0 00010203040506070809\n",
    ),
    (
        "0008000102030405060708097d",
        UP,
        "REI 0 00010203040506070809\n",
        "Other 8 0 00010203040506070809\n",
    ),
    (
        "0008000102030405060708097d",
        DOWN,
        "Encrypted_Port-ID 0 00010203040506070809\n",
        "Other 8 0 00010203040506070809\n",
    ),
    // no name, and an identifier whose row doesn't agree
    (
        "00ff0001020304050607080946",
        DOWN,
        "Other 255 0 00010203040506070809\n",
        "Other 255 0 00010203040506070809\n",
    ),
    (
        "ff06010000000000000000006d",
        DOWN,
        "Other 6 255 01000000000000000000\n",
        "Other 6 255 01000000000000000000\n",
    ),
    // what has a row
    (
        "ff03004142434400000001001b",
        DOWN,
        "Assign_ONU-ID 0 ABCD00000001\n",
        "Assign_ONU-ID 0 ABCD00000001\n",
    ),
    (
        "00090a0000000000000000007e",
        UP,
        "Acknowledge 0 10\n",
        "Acknowledge 0 10\n",
    ),
];

/// Tells whether this is written of a code, with names or without.
fn is_named(
    alloc: Global,
    text: &str,
    upstream: bool,
    names: bool,
    wanted: &str,
) -> Result<bool, AllocError> {
    let mut sink = Sink::new(alloc, Vec::new(alloc))?;
    let outcome = decode_line_in(alloc, text, upstream, Mask::Plain, names, &mut sink);
    let written = sink.into_inner();
    Ok(outcome.is_ok() && written.as_slice() == wanted.as_bytes())
}

/// Tells whether the same is said to a line of an input.
fn is_named_in(
    alloc: Global,
    text: &str,
    upstream: bool,
    names: bool,
    wanted: &str,
) -> Result<bool, AllocError> {
    let said = said_in(alloc, text, Direction::of(upstream), Mask::Plain, names)?;
    Ok(is_said(&said, wanted, None))
}

/// One code, and a line of an input.
#[test]
fn names_of_the_standard(rt: HostRuntime) -> Result<(), AllocError> {
    for (text, upstream, named, plain) in &NAMED {
        for (names, wanted) in [(true, *named), (false, *plain)] {
            assert!(rt;
                is_named(rt.alloc(), text, *upstream, names, wanted)?,
                "{text}"
            );
            assert!(rt;
                is_named_in(rt.alloc(), text, *upstream, names, wanted)?,
                "{text}"
            );
        }
    }
    Ok(())
}
