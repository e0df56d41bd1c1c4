//! Codes of messages in words.
use gp_decode::decode_lines;
use gp_encode::{EncodeFault, WordsFault, WordsFaultAt, encode_line, encode_lines};
use gp_flow::{LinesFault, Unanswered};
use gp_lines::LineFault;
use gp_ploam::Mask;
use gp_stream::{Sink, Source};
use std::alloc::{AllocError, Global};

const DOWN: bool = false;

const UP: bool = true;

/// Words, the direction and the mask, and the code.
const CODES: [(&'static str, bool, Mask, &'static str); 12] = [
    (
        "Upstream_Overhead 00000000000000000000",
        DOWN,
        Mask::Plain,
        "ff010000000000000000000058\n",
    ),
    (
        "Assign_ONU-ID 0 ABCD00000001",
        DOWN,
        Mask::Plain,
        "ff03004142434400000001001b\n",
    ),
    (
        "Assign_ONU-ID 00 4142434400000001",
        DOWN,
        Mask::Plain,
        "ff03004142434400000001001b\n",
    ),
    (
        "Assign_ONU-ID 0 ABCD00000001",
        DOWN,
        Mask::Coset,
        "ff03004142434400000001004e\n",
    ),
    (
        "Ranging_Time 0 211040",
        DOWN,
        Mask::Plain,
        "0004000003386000000000009c\n",
    ),
    (
        "Deactivate_ONU-ID 0",
        DOWN,
        Mask::Plain,
        "00050000000000000000000063\n",
    ),
    (
        "Enable_All",
        DOWN,
        Mask::Plain,
        "ff060f00000000000000000053\n",
    ),
    (
        "Assign_Alloc-ID 0 256 keep",
        DOWN,
        Mask::Plain,
        "000a1000010000000000000047\n",
    ),
    (
        "POPUP 255",
        DOWN,
        Mask::Plain,
        "ff0c00000000000000000000c3\n",
    ),
    (
        "Serial_Number_ONU 255 ABCD00000001 0 0",
        UP,
        Mask::Plain,
        "ff01414243440000000100002c\n",
    ),
    (
        "Dying_Gasp 0",
        UP,
        Mask::Plain,
        "00030000000000000000000021\n",
    ),
    (
        "Other 0 0 00000000000000000000",
        UP,
        Mask::Plain,
        "00000000000000000000000000\n",
    ),
];

/// Words that have no code, and their first fault.
const FAULTS: [(&'static str, WordsFault); 12] = [
    ("", WordsFault::Part(LineFault::Word)),
    ("Popup 255", WordsFault::Part(LineFault::Word)),
    ("POPUP", WordsFault::Part(LineFault::Word)),
    ("POPUP 255 0", WordsFault::Part(LineFault::Word)),
    ("POPUP  255", WordsFault::Part(LineFault::Number)),
    ("POPUP 256", WordsFault::Part(LineFault::Range)),
    (
        "Assign_Alloc-ID 0 4096 keep",
        WordsFault::Part(LineFault::Range),
    ),
    (
        "Assign_Alloc-ID 0 4095 kept",
        WordsFault::Part(LineFault::Word),
    ),
    (
        "Assign_ONU-ID 0 ABCD0000001",
        WordsFault::Part(LineFault::Serial),
    ),
    ("Upstream_Overhead 00", WordsFault::Part(LineFault::Hex)),
    ("Dying_Gasp 0", WordsFault::Part(LineFault::Word)),
    ("Other 12 0 00000000000000000000", WordsFault::Named),
];

/// Tells whether words are encoded so, with this written.
fn is_encoded(
    alloc: Global,
    words: &str,
    upstream: bool,
    mask: Mask,
    wanted: (Result<(), EncodeFault>, &str),
) -> Result<bool, AllocError> {
    let mut sink = Sink::new(alloc, Vec::new(alloc))?;
    let outcome = encode_line(words.as_bytes(), upstream, mask, &mut sink);
    let written = sink.into_inner();
    Ok(outcome == wanted.0 && written.as_slice() == wanted.1.as_bytes())
}

#[test]
fn codes(rt: HostRuntime) -> Result<(), AllocError> {
    for (words, upstream, mask, code) in &CODES {
        let wanted = (Ok(()), *code);
        assert!(rt;
            is_encoded(rt.alloc(), words, *upstream, *mask, wanted)?,
            "{words}"
        );
    }
    Ok(())
}

#[test]
fn first_faults(rt: HostRuntime) -> Result<(), AllocError> {
    for (words, fault) in &FAULTS {
        let wanted = (Err(EncodeFault::Words(*fault)), "");
        assert!(rt;
            is_encoded(rt.alloc(), words, DOWN, Mask::Plain, wanted)?,
            "{words}"
        );
    }
    Ok(())
}

/// How words are encoded to a slice with so much room: it takes as many bytes as it has room for, and then none.
fn encoded_to(alloc: Global, room: usize) -> Result<Result<(), EncodeFault>, AllocError> {
    let mut taken = vec![in alloc; 0; room]?;
    let mut sink = Sink::new(alloc, &mut taken[..])?;
    Ok(encode_line(b"POPUP 255", DOWN, Mask::Plain, &mut sink))
}

#[test]
fn a_writer_that_stops(rt: HostRuntime) {
    for room in 0..27 {
        assert!(rt;
            encoded_to(rt.alloc(), room) == Ok(Err(EncodeFault::Write)),
            "{room}"
        );
    }
}

/// A line, and its fault.
type Fault = Option<(u64, WordsFault)>;

/// Lines of words, the direction and the mask, what is said to them, and the first that has a fault.
const INPUTS: [(&'static str, bool, Mask, &'static str, Fault); 7] = [
    ("", DOWN, Mask::Plain, "", None),
    (
        "Assign_ONU-ID 0 ABCD00000001\nPOPUP 255",
        DOWN,
        Mask::Plain,
        "ff03004142434400000001001b\nff0c00000000000000000000c3\n",
        None,
    ),
    (
        "Assign_ONU-ID 0 ABCD00000001\r\n",
        DOWN,
        Mask::Coset,
        "ff03004142434400000001004e\n",
        None,
    ),
    (
        "Dying_Gasp 0\nPOPUP 255\nAcknowledge 0 10\n",
        UP,
        Mask::Plain,
        "00030000000000000000000021\nerror 2 word\n00090a0000000000000000007e\n",
        Some((2, WordsFault::Part(LineFault::Word))),
    ),
    // Empty lines and remarks are passed over, and counted.
    (
        "\n\r\n# POPUP 256\n#\r\nPOPUP 256\n\nPOPUP 255\n",
        DOWN,
        Mask::Plain,
        "error 5 range\nff0c00000000000000000000c3\n",
        Some((5, WordsFault::Part(LineFault::Range))),
    ),
    // One fault of each kind, and the first is answered.
    (
        "Other 12 0 00000000000000000000\nPopup 255\nPOPUP x\nPOPUP 256\nAssign_ONU-ID 0 ABCD\nUpstream_Overhead 00\n",
        DOWN,
        Mask::Plain,
        "error 1 named\nerror 2 word\nerror 3 number\nerror 4 range\nerror 5 serial\nerror 6 hex\n",
        Some((1, WordsFault::Named)),
    ),
    // A space in front or behind is part of the words.
    (
        " POPUP 255\nPOPUP 255 \n#POPUP 255\n \n",
        DOWN,
        Mask::Plain,
        "error 1 word\nerror 2 word\nerror 4 word\n",
        Some((1, WordsFault::Part(LineFault::Word))),
    ),
];

/// How an input ended, and what is written.
type Encoded = (Result<Option<WordsFaultAt>, LinesFault>, Vec<u8>);

/// Encodes an input.
fn encoded(alloc: Global, input: &[u8], upstream: bool, mask: Mask) -> Result<Encoded, AllocError> {
    let mut source = Source::endless(input);
    let mut sink = Sink::new(alloc, Vec::new(alloc))?;
    let outcome = encode_lines(alloc, &mut source, &mut sink, upstream, mask);
    Ok((outcome, sink.into_inner()))
}

/// The fault of a line.
fn fault_at(fault: Fault) -> Option<WordsFaultAt> {
    let (line, fault) = fault?;
    Some(WordsFaultAt { line, fault })
}

/// Tells whether this is said, and this the first fault.
fn is_said(encoded: &Encoded, said: &str, first: Fault) -> bool {
    encoded.0 == Ok(fault_at(first)) && encoded.1.as_slice() == said.as_bytes()
}

#[test]
fn lines_of_an_input(rt: HostRuntime) -> Result<(), AllocError> {
    for (input, upstream, mask, said, first) in &INPUTS {
        let told = encoded(rt.alloc(), input.as_bytes(), *upstream, *mask)?;
        assert!(rt; is_said(&told, said, *first), "{input}");
    }
    Ok(())
}

/// A line of words, a remark of so many octets behind its sign, and the line again.
fn with_remark(alloc: Global, count: usize) -> Result<String, AllocError> {
    let mut input = String::from_str(alloc, "POPUP 255\n#")?;
    for _ in 0..count {
        input.push(' ')?;
    }
    input.push_str("\nPOPUP 255")?;
    Ok(input)
}

/// A line of 4,096 octets is looked at, and a longer one isn't, though it be a remark.
#[test]
fn long_lines(rt: HostRuntime) -> Result<(), AllocError> {
    let input = with_remark(rt.alloc(), 4_095)?;
    let told = encoded(rt.alloc(), input.as_bytes(), DOWN, Mask::Plain)?;
    let said = "ff0c00000000000000000000c3\nff0c00000000000000000000c3\n";
    assert!(rt; is_said(&told, said, None));
    let input = with_remark(rt.alloc(), 4_096)?;
    let told = encoded(rt.alloc(), input.as_bytes(), DOWN, Mask::Plain)?;
    let said = "ff0c00000000000000000000c3\nerror 2 long\nff0c00000000000000000000c3\n";
    let long = WordsFault::Part(LineFault::Long);
    assert!(rt; is_said(&told, said, Some((2, long))));
    Ok(())
}

/// What is decoded of codes, and None where one of them isn't right.
fn decoded(
    alloc: Global,
    codes: &[u8],
    upstream: bool,
    mask: Mask,
) -> Result<Option<Vec<u8>>, AllocError> {
    let mut source = Source::endless(codes);
    let mut sink = Sink::new(alloc, Vec::new(alloc))?;
    let outcome = decode_lines(alloc, &mut source, &mut sink, upstream, mask);
    let words = sink.into_inner();
    Ok(if outcome == Ok(None) {
        Some(words)
    } else {
        None
    })
}

/// Tells whether the codes of words are decoded to words that have these codes.
fn come_back(alloc: Global, words: &str, upstream: bool, mask: Mask) -> Result<bool, AllocError> {
    let (_, codes) = encoded(alloc, words.as_bytes(), upstream, mask)?;
    let Some(told) = decoded(alloc, &codes, upstream, mask)? else {
        return Ok(false);
    };
    let (_, again) = encoded(alloc, &told, upstream, mask)?;
    Ok(again.as_slice() == codes.as_slice())
}

/// What is decoded of the codes of words are these words.
#[test]
fn words_come_back(rt: HostRuntime) -> Result<(), AllocError> {
    for (words, upstream, mask, _) in &CODES {
        assert!(rt; come_back(rt.alloc(), words, *upstream, *mask)?, "{words}");
    }
    Ok(())
}

/// Tells whether this is said, with ample memory. None where memory was refused, and each line before was answered.
fn is_said_if_ample(encoded: &Encoded, said: &str) -> Option<bool> {
    let (outcome, written) = encoded;
    let is_begun = said.as_bytes().starts_with(written);
    match outcome {
        Err(LinesFault::Line(Unanswered::OutOfMemory)) if is_begun => None,
        Err(LinesFault::Line(Unanswered::Write)) => None,
        _ => Some(outcome.is_ok() && written.as_slice() == said.as_bytes()),
    }
}

/// Where an allocation was made to fail it is told; else each line is answered. What the test takes for itself may be
/// refused too, and then nothing was encoded.
#[test]
fn memory_short_or_ample(rt: HostRuntime) {
    for (input, upstream, mask, said, _) in &INPUTS {
        let Ok(told) = encoded(rt.alloc(), input.as_bytes(), *upstream, *mask) else {
            return;
        };
        let Some(right) = is_said_if_ample(&told, said) else {
            return;
        };
        assert!(rt; right, "{input}");
    }
}
