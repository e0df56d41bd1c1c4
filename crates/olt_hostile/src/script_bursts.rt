//! The bursts of `bursts.rt` once more, through scripts and their traces: how many lines have which end.

use crate::port::code_of;
use crate::tally::Tally;
use gp_ploam::Mask;
use gp_replay::run_replay;
use gp_stream::{Sink, Source};
use std::alloc::{AllocError, Global};
use std::io;

/// A port with a search window that is open.
const SEARCH: &str = "licences = 2
port = [{cycles = 1, admit = [\"ABCD00000001\", \"ABCD00000002\"]}]
[[event]]
port = 0
command = \"search\"
[[event]]
port = 0
frames = 5
";

/// The unit's answer there. Then its ranging window opens.
const FOUND: &str = "[[event]]
port = 0
at = 100000
say = \"serial\"
serial = \"ABCD00000001\"
[[event]]
port = 0
frames = 4
";

/// Its answer there. Then nothing is owed and no window is open.
const RANGED: &str = "[[event]]
port = 0
at = 100000
say = \"serial\"
serial = \"ABCD00000001\"
onu = 0
[[event]]
port = 0
frames = 4
";

/// A frame, with which a poll window opens where none is open.
const FRAME: &str = "[[event]]
port = 0
frames = 1
";

/// The ends of lines that are counted.
const ENDS: [&'static str; 8] = [
    "= refused 3 wrong-window",
    "= refused 1 stray",
    "= refused 4 not-admitted",
    "= still-ranging 0",
    "= alive 0",
    "= gasp 0 alarm DG ABCD00000001",
    "= found 0",
    "= ranged 0 211040",
];

/// Says how many lines are to have each end, of the 256 identifiers with this octet 1 in each window (docs/MACHINE.md).
///
/// - Nobody's serial number in a search window: 256 in the wrong window; with octet 1 = 255 the one with identifier 1
///   is not admitted.
/// - The other admitted unit's serial number in the ranging window of ONU-ID 0: 256 in the wrong window; with octet 1
///   = 0 only identifier 1 is, 3 is a gasp, and for the 254 others the unit is still ranging.
/// - With no window open: 256 stray.
/// - In the poll window of ONU-ID 0: 256 in the wrong window; with octet 1 = 0 none is, 3 is a gasp, and the 255
///   others show that the unit lives.
/// - And the unit's own two answers.
fn counts_of(octet1: u8) -> [usize; 8] {
    match octet1 {
        0 => [256 + 1, 256, 0, 254, 255, 2, 1, 1],
        255 => [255 + 256 + 256, 256, 1, 0, 0, 0, 1, 1],
        _ => [256 + 256 + 256, 256, 0, 0, 0, 0, 1, 1],
    }
}

/// Adds bursts of each identifier with this octet 1 and body, and other events behind each.
fn add_bursts(
    alloc: Global,
    script: &mut String,
    octet1: u8,
    body: [u8; 10],
    behind: &str,
) -> Result<(), AllocError> {
    for id in 0..=u8::MAX {
        let code = code_of(octet1, id, body, Mask::Plain);
        let digits = hex::encode(alloc, code)?;
        let event = format!(in alloc;
            "[[event]]\nport = 0\nat = 100000\nburst = \"{digits}\"\n{behind}"
        )?;
        script.push_str(event.as_str())?;
    }
    Ok(())
}

/// Writes the script of an octet 1. A burst with octet 1 = 0 closes the poll window, and the next one opens with the
/// frame behind it.
fn script_of(alloc: Global, octet1: u8) -> Result<String, AllocError> {
    let nobody = *b"ZZZZ\0\0\0\x01\0\0";
    let other = *b"ABCD\0\0\0\x02\0\0";
    let behind = if octet1 == 0 { FRAME } else { "" };
    let mut script = String::new(alloc);
    script.push_str(SEARCH)?;
    add_bursts(alloc, &mut script, octet1, nobody, "")?;
    script.push_str(FOUND)?;
    add_bursts(alloc, &mut script, octet1, other, "")?;
    script.push_str(RANGED)?;
    add_bursts(alloc, &mut script, octet1, other, "")?;
    script.push_str(FRAME)?;
    add_bursts(alloc, &mut script, octet1, other, behind)?;
    Ok(script)
}

/// Counts the lines with each end.
fn counts_in(trace: &str) -> [usize; 8] {
    let mut counts = [0usize; 8];
    for line in trace.lines() {
        let place = ENDS.iter().position(|end| line.ends_with(*end));
        if let Some(count) = counts.get_mut(place.unwrap_or(ENDS.len())) {
            *count = count.saturating_add(1);
        }
    }
    counts
}

/// Tells whether a replay of every identifier with this octet 1, in each window, has as many lines with each end as
/// it should.
fn is_replayed(alloc: Global, octet1: u8) -> Result<bool, AllocError> {
    let script = script_of(alloc, octet1)?;
    let mut source = Source::new(script.as_bytes());
    let mut sink = Sink::new(alloc, Vec::new(alloc))?;
    let outcome = run_replay(alloc, &mut source, &mut sink);
    let written = sink.into_inner();
    let trace = std::str::from_utf8(&written).unwrap_or("");
    Ok(outcome.is_ok() && counts_in(trace) == counts_of(octet1))
}

/// Replays a script for each octet 1.
pub(crate) fn check<R: AllocGlobal + Print>(rt: &R) -> io::Result<bool> {
    let mut tally = Tally::default();
    for octet1 in 0..=u8::MAX {
        let right = is_replayed(rt.alloc(), octet1)?;
        tally.count("octet 1", usize::from(octet1), right);
    }
    tally.tell(rt, "every octet 1 and identifier in scripts")
}
