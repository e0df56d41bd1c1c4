//! Traces that are verified, scripts that are driven and light that is told, and the units of each.
ghost use Rattle.std.specs.Prelude.{◌≡◌, length};
ghost use Rattle.gp_script.specs.Playable.{IsPlayable};
ghost use Rattle.gp_script.specs.View.{script_view};

use crate::compared::is_text;
use gp_drive::{DriveFault, DriveManner, Driven};
use gp_explain::Form;
use gp_flow::{LinesFault, Unanswered};
use gp_replay::RunFault;
use gp_script::{Script, ScriptFault, read_script};
use gp_stream::{Sink, Source};
use gp_summary::{Ended, SummaryForm, Summed, play_summed, sum_with_lights};
use gp_summed::{DriveSummed, Verified, drive_summed, verify_summed};
use gp_tally::Began;
use gp_verify::{CheckFault, Verdict, VerifyFault};
use std::alloc::{AllocError, Global};
use std::io;
use std::io::{ErrorKind, Read, Write};
use std::marker::Brand;

/// A port that admits one unit and searches once.
const PORT: &str = "licences = 1\n[[port]]\ncycles = 1\nadmit = [\"ABCD00000001\"]\n";

/// The same with the unit on its fibre.
const FIBRE: &str = "licences = 1\n[[port]]\ncycles = 1\nadmit = [\"ABCD00000001\"]\n\
    [[unit]]\nserial = \"ABCD00000001\"\ndelay = 200000\n";

/// A search, up to its window.
const SEARCH: &str = "\
0 0 search = searching
0 1 frame = ok
0 2 frame = ok sent ff010000000000000000000058
0 3 frame = ok sent ff010000000000000000000058
0 4 frame = ok sent ff010000000000000000000058
0 5 frame = ok grant search
";

/// The unit's answer, without its line feed.
const FOUND: &str = "0 6 burst 100000 ff01414243440000000100002c = found 0";

/// The same, and the unit is ranged.
const RANGED: &str = "\
0 6 burst 100000 ff01414243440000000100002c = found 0
0 7 frame = ok sent ff03004142434400000001001b
0 8 frame = ok sent ff03004142434400000001001b
0 9 frame = ok sent ff03004142434400000001001b
0 10 frame = ok grant range 0
0 11 burst 100000 0001414243440000000100006b = ranged 0 211040
0 12 frame = ok sent 0004000003386000000000009c
0 13 frame = ok sent 0004000003386000000000009c
0 14 frame = ok sent 0004000003386000000000009c
0 15 frame = ok
";

/// What is told behind the search.
const SEARCH_UNITS: &str = "port 0: units 0, acquisition 0, frames 5, bursts 0, commands 1\n\
    licences: free 1, in use 0\n";

/// What is told behind the unit's answer.
const FOUND_UNITS: &str = "port 0: units 1, acquisition 0, frames 5, bursts 1, commands 1\n\
    unit ABCD00000001: ranging, onu 0, found 1, ranged 0, lost 0, last frame 5\n\
    licences: free 0, in use 1\n";

/// What is told at the end.
const RANGED_UNITS: &str = "port 0: units 1, standby, frames 13, bursts 2, commands 1\n\
    unit ABCD00000001: operating, onu 0, eqd 211040, found 1, ranged 1, lost 0, last frame 9, took frames 4\n\
    licences: free 0, in use 1\n";

/// Room for all that is written here, so that no write takes memory.
const ROOM: usize = 4_096;

/// Fails each read.
#[derive(Drop)]
struct BrokenReader;

impl Read for BrokenReader {
    fn read(&mut self, _buffer: &mut [u8]) -> io::Result<usize> {
        Err(io::Error::from(ErrorKind::Other))
    }
}

/// Tells whether the lines of ports and units are there, and are these, behind that line.
fn are_units(units: &Option<Result<Vec<u8>, AllocError>>, first: &str, wanted: &str) -> bool {
    match units {
        Some(Ok(text)) => text
            .strip_prefix(first.as_bytes())
            .is_some_and(|rest| rest == wanted.as_bytes()),
        Some(Err(_)) | None => false,
    }
}

/// What is found of a trace, and what is written.
type Found = (Verified, Vec<u8>);

/// Verifies a trace.
fn verified<T: Read + Drop>(
    alloc: Global,
    form: Form,
    script: &str,
    trace: T,
) -> Result<Found, AllocError> {
    let mut script = Source::new(script.as_bytes());
    let mut trace = Source::endless(trace);
    let mut sink = Sink::new(alloc, Vec::with_capacity(alloc, ROOM)?)?;
    let verified = verify_summed(alloc, form, None, &mut script, &mut trace, &mut sink);
    Ok((verified, sink.into_inner()))
}

/// A trace behind the search, what is found of it, what is told of it, and of its units: up to which line, and how they
/// stand.
#[derive(Clone, Copy)]
struct Row {
    behind: &'static str,
    found: Result<u64, VerifyFault>,
    told: &'static str,
    reach: &'static str,
    units: &'static str,
}

/// Why the seventh line can't be.
const NOT_A_STEP: VerifyFault = VerifyFault::Refused {
    line: 7,
    verdict: Verdict::NotAStep,
};

const WRONG_NUMBER: VerifyFault = VerifyFault::Refused {
    line: 7,
    verdict: Verdict::WrongNumber,
};

const NOT_A_LINE: VerifyFault = VerifyFault::Refused {
    line: 7,
    verdict: Verdict::NotALine,
};

const NO_PORT: VerifyFault = VerifyFault::Refused {
    line: 7,
    verdict: Verdict::NoPort,
};

const TOO_LONG: VerifyFault = VerifyFault::Refused {
    line: 7,
    verdict: Verdict::TooLong,
};

/// A run, a last line without its line feed, and each way in which a line can't be, but that it is too long.
const ROWS: [Row; 7] = [
    Row {
        behind: RANGED,
        found: Ok(16),
        told: "16 lines, a run\n",
        reach: "",
        units: RANGED_UNITS,
    },
    Row {
        behind: "",
        found: Ok(6),
        told: "6 lines, a run\n",
        reach: "",
        units: SEARCH_UNITS,
    },
    Row {
        behind: FOUND,
        found: Err(VerifyFault::Unended { line: 7 }),
        told: "",
        reach: "up to line 7\n",
        units: FOUND_UNITS,
    },
    Row {
        behind: "0 6 burst 100000 ff01414243440000000100002c = refused 5 no-id\n0 7 frame = ok\n",
        found: Err(NOT_A_STEP),
        told: "line 7: 0 6 burst 100000 ff01414243440000000100002c = refused 5 no-id\n\
            machine: 0 6 burst 100000 ff01414243440000000100002c = found 0\n\
            any free ONU-ID would do\n\
            why: the reply: `found 0`, not `refused 5 no-id`\n",
        reach: "up to line 6, then the machine's own\n",
        units: FOUND_UNITS,
    },
    Row {
        behind: "0 5 burst 100000 ff01414243440000000100002c = found 0\n",
        found: Err(WRONG_NUMBER),
        told: "line 7: 0 5 burst 100000 ff01414243440000000100002c = found 0\n\
            machine: 0 6 burst 100000 ff01414243440000000100002c = found 0\n\
            any free ONU-ID would do\n\
            why: the number: `6` is next, not `5`\n",
        reach: "up to line 6, then the machine's own\n",
        units: FOUND_UNITS,
    },
    Row {
        behind: "found 7\n0 6 frame = ok\n",
        found: Err(NOT_A_LINE),
        told: "line 7: found 7\nwhy: the port: a line begins with one, 0 to 15\n",
        reach: "up to line 6\n",
        units: SEARCH_UNITS,
    },
    Row {
        behind: "1 0 frame = ok\n",
        found: Err(NO_PORT),
        told: "line 7: 1 0 frame = ok\nwhy: the port: the last of the script is 0\n",
        reach: "up to line 6\n",
        units: SEARCH_UNITS,
    },
];

/// Verifies the search and this behind it.
fn verified_behind(alloc: Global, form: Form, behind: &[u8]) -> Result<Found, AllocError> {
    verified(alloc, form, PORT, SEARCH.as_bytes().chain(behind))
}

/// Tells whether what is found of a trace, and told of it and of its units, is that of a row.
fn is_row(found: &Found, row: &Row) -> bool {
    found.0.found == row.found.map_err(CheckFault::Trace)
        && found.1.as_slice() == row.told.as_bytes()
        && are_units(&found.0.units, row.reach, row.units)
}

/// Tells whether that is so of the search and this behind it.
fn is_verified(alloc: Global, behind: &[u8], row: &Row) -> Result<bool, AllocError> {
    let found = verified_behind(alloc, Form::Plain, behind)?;
    Ok(is_row(&found, row))
}

#[test]
fn traces_are_verified(rt: HostRuntime) {
    for row in &ROWS {
        let found = is_verified(rt.alloc(), row.behind.as_bytes(), row);
        assert!(rt; found == Ok(true), "{}", row.behind);
    }
}

/// What is found of a line that is too long.
const LONG: Row = Row {
    behind: "",
    found: Err(TOO_LONG),
    told: "",
    reach: "up to line 6\n",
    units: SEARCH_UNITS,
};

/// A line that is too long is not kept, and nothing is counted of it.
#[test]
fn a_line_is_too_long(rt: HostRuntime) {
    assert!(rt; is_verified(rt.alloc(), &[b'0'; 4_097], &LONG) == Ok(true));
}

/// What comes behind the search, and how the objects of its units begin.
const OBJECTS: [(&'static str, &'static str); 4] = [
    ("", "{\"port\":0,\"units\":0,"),
    (
        "0 6 frame = ok\r\n",
        "{\"up_to\":6,\"machine\":true}\n{\"port\":0,\"units\":0,",
    ),
    (
        "found 7\n",
        "{\"up_to\":6,\"machine\":false}\n{\"port\":0,\"units\":0,",
    ),
    (
        FOUND,
        "{\"up_to\":7,\"machine\":false}\n{\"port\":0,\"units\":1,",
    ),
];

/// Tells whether the lines of ports and units are there, and begin so.
fn are_begun(units: &Option<Result<Vec<u8>, AllocError>>, first: &str) -> bool {
    match units {
        Some(Ok(text)) => text.starts_with(first.as_bytes()),
        Some(Err(_)) | None => false,
    }
}

/// Tells whether the objects of the search and this behind it begin so.
fn are_objects(alloc: Global, behind: &str, first: &str) -> Result<bool, AllocError> {
    let found = verified_behind(alloc, Form::Json, behind.as_bytes())?;
    Ok(are_begun(&found.0.units, first))
}

/// As JSON an object comes first that tells how far the trace is a run, where it is none.
#[test]
fn objects_tell_how_far(rt: HostRuntime) {
    for (behind, first) in &OBJECTS {
        assert!(rt;
            are_objects(rt.alloc(), behind, first) == Ok(true),
            "{behind}"
        );
    }
}

/// Tells whether this fault is found, and nothing is told.
fn is_untold(found: &Found, fault: CheckFault) -> bool {
    found.0.found == Err(fault) && found.0.units.is_none() && found.1.is_empty()
}

/// Tells whether a script and a trace have this fault, and nothing is told of them.
fn is_unread<T: Read + Drop>(
    alloc: Global,
    script: &str,
    trace: T,
    fault: CheckFault,
) -> Result<bool, AllocError> {
    let found = verified(alloc, Form::Plain, script, trace)?;
    Ok(is_untold(&found, fault))
}

/// Of a script that is none, and of a trace that can't be read, nothing is told.
#[test]
fn nothing_was_read(rt: HostRuntime) {
    let fault = CheckFault::Script(RunFault::Script(ScriptFault::Shape));
    let trace = SEARCH.as_bytes();
    assert!(rt; is_unread(rt.alloc(), "ports = 1", trace, fault) == Ok(true));
    let fault = CheckFault::Trace(VerifyFault::Lines(LinesFault::Read));
    assert!(rt; is_unread(rt.alloc(), PORT, BrokenReader, fault) == Ok(true));
}

/// How a drive ended, the lines of its ports and units, and its writer.
type Drive<W> = (
    Result<Driven, DriveFault>,
    Option<Result<Vec<u8>, AllocError>>,
    W,
);

/// Drives a script with a writer.
fn driven_by<B: Began, T: Read + Drop, W: Write + Drop>(
    alloc: Global,
    script: Script,
    lines: T,
    writer: W,
) -> Result<Drive<W>, AllocError>
    requires playable { IsPlayable (script_view script) }
    requires held { W.contents writer ≡ B.held }
    requires mask { B.mask ≡ script.mask }
    requires ports { B.ports ≡ length script.ports.items }
{
    let manner = DriveManner {
        done: false,
        lights: false,
    };
    let mut turns = Source::endless(lines);
    let form = SummaryForm::Text;
    let DriveSummed { ended, counting } = drive_summed::<B, T, W>(
        alloc, manner, script, form, &mut turns, writer,
    )?;
    let (writer, _) = counting.into_parts();
    Ok((ended.driven, ended.summary, writer))
}

/// Drives the script of a text with a writer.
fn driven<T: Read + Drop, W: Write + Drop>(
    alloc: Global,
    text: &str,
    lines: T,
    writer: W,
) -> Result<Drive<W>, AllocError> {
    match read_script(alloc, text.as_bytes()) {
        Ok(script) => driven_by::<Brand, T, W>(alloc, script, lines, writer),
        Err(_) => Err(AllocError),
    }
}

/// So many lines are answered, none of them by an error.
const fn answered(lines: u64) -> Result<Driven, DriveFault> {
    Ok(Driven { lines, errors: 0 })
}

/// Lines in which the unit is found.
const LINES: &[u8] = b"0 search\n0 until search\n0 burst 100000 ff01414243440000000100002c\n";

/// Tells whether a unit's answer and a line feed are written behind the search.
fn is_found(answers: &[u8]) -> bool {
    let found = answers.strip_prefix(SEARCH.as_bytes());
    found.and_then(|rest| rest.strip_suffix(b"\n")) == Some(FOUND.as_bytes())
}

/// Tells whether the chassis is driven so that the unit is found.
fn is_chassis_driven(alloc: Global) -> Result<bool, AllocError> {
    let drive = driven(alloc, PORT, LINES, Vec::new(alloc))?;
    Ok(drive.0 == answered(3) && is_found(&drive.2) && are_units(&drive.1, "", FOUND_UNITS))
}

#[test]
fn a_chassis_is_driven(rt: HostRuntime) {
    assert!(rt; is_chassis_driven(rt.alloc()) == Ok(true));
}

/// What is told of a unit that is ranged on its fibre.
const FIBRE_UNITS: &str = "port 0: units 1, standby, frames 15, bursts 2, commands 1\n\
    unit ABCD00000001: operating, onu 0, eqd 111040, found 1, ranged 1, lost 0, last frame 11, took frames 5\n\
    licences: free 0, in use 1\n";

/// Tells whether the fibre is driven so that the unit is ranged.
fn is_fibre_driven(alloc: Global) -> Result<bool, AllocError> {
    let lines: &[u8] = b"0 search\n0 until range 0\n0 frame 5\n";
    let drive = driven(alloc, FIBRE, lines, Vec::new(alloc))?;
    let is_search = drive.2.starts_with(SEARCH.as_bytes());
    Ok(drive.0 == answered(3) && is_search && are_units(&drive.1, "", FIBRE_UNITS))
}

/// The unit answers one whole frame after each grant; the frames behind its range tell it its delay.
#[test]
fn a_fibre_is_driven(rt: HostRuntime) {
    assert!(rt; is_fibre_driven(rt.alloc()) == Ok(true));
}

/// Tells whether a drive whose lines can't be read ends so, and nothing is told of units.
fn is_ended_early(alloc: Global) -> Result<bool, AllocError> {
    let drive = driven(alloc, PORT, BrokenReader, Vec::new(alloc))?;
    Ok(drive.0 == Err(DriveFault::Turns(LinesFault::Read)) && drive.1.is_none())
}

/// Where not all lines are answered nothing is told of units.
#[test]
fn a_drive_ends_early(rt: HostRuntime) {
    assert!(rt; is_ended_early(rt.alloc()) == Ok(true));
}

/// A unit is found and ranged; then its light goes, a frame passes, its light comes again, and a frame passes.
const LIGHTS: &str = r#"
licences = 1
[[port]]
cycles = 1
admit = ["ABCD00000001"]
[[unit]]
serial = "ABCD00000001"
delay = 0
[[event]]
port = 0
command = "search"
[[event]]
port = 0
frames = 10
[[event]]
unit = 0
light = false
[[event]]
port = 0
frames = 1
[[event]]
unit = 0
light = true
[[event]]
port = 0
frames = 1
"#;

/// Its trace up to where the light goes, between that and where it comes, and behind.
const LIGHTS_TRACE: [&str; 3] = [
    "0 0 search = searching
0 1 frame = ok
0 2 frame = ok sent ff010000000000000000000058
0 3 frame = ok sent ff010000000000000000000058
0 4 frame = ok sent ff010000000000000000000058
0 5 frame = ok grant search
0 6 burst 0 ff01414243440000000100002c = found 0
0 7 frame = ok sent ff03004142434400000001001b
0 8 frame = ok sent ff03004142434400000001001b
0 9 frame = ok sent ff03004142434400000001001b
0 10 frame = ok grant range 0
0 11 burst 0 0001414243440000000100006b = ranged 0 311040
0 12 frame = ok sent 0004000004bf00000000000031
",
    "0 13 frame = ok sent 0004000004bf00000000000031\n",
    "0 14 frame = ok sent 0004000004bf00000000000031\n",
];

/// What is told of it, with lines of light and without.
const LIGHTS_UNITS: &str = "port 0: units 1, measuring, frames 12, bursts 2, commands 1\n\
    unit ABCD00000001: operating, onu 0, eqd 311040, found 1, ranged 1, lost 0, last frame 9, took frames 4\n\
    licences: free 0, in use 1\n";

/// Plays a script with a writer, with lines of light or without.
fn played_by<B: Began, W: Write + Drop>(
    alloc: Global,
    script: Script,
    lights: bool,
    writer: W,
) -> Result<(Ended, W), AllocError>
    requires playable { IsPlayable (script_view script) }
    requires held { W.contents writer ≡ B.held }
    requires mask { B.mask ≡ script.mask }
    requires ports { B.ports ≡ length script.ports.items }
{
    let form = SummaryForm::Text;
    let Summed { ended, counting } = if lights {
        sum_with_lights::<B, W>(alloc, script, form, writer)?
    } else {
        play_summed::<B, W>(alloc, script, form, writer)?
    };
    let (writer, _) = counting.into_parts();
    Ok((ended, writer))
}

/// Plays the script of a text with a writer, with lines of light or without.
fn played<W: Write + Drop>(
    alloc: Global,
    text: &str,
    lights: bool,
    writer: W,
) -> Result<(Ended, W), AllocError> {
    match read_script(alloc, text.as_bytes()) {
        Ok(script) => played_by::<Brand, W>(alloc, script, lights, writer),
        Err(_) => Err(AllocError),
    }
}

/// Tells whether a text is the parts of the trace, with these lines where the light goes and where it comes.
fn are_lights(alloc: Global, trace: &[u8], dark: &str, light: &str) -> Result<bool, AllocError> {
    let [before, between, behind] = LIGHTS_TRACE;
    let wanted = format!(in alloc; "{before}{dark}{between}{light}{behind}")?;
    Ok(trace == wanted.as_bytes())
}

/// Tells whether all was played, and summed without lines of light.
fn is_summed(ended: &Ended) -> bool {
    ended.played == Ok(()) && is_text(&ended.summary, LIGHTS_UNITS)
}

/// Tells whether the script is played with these lines of light, or without any, and summed.
fn is_light_told(alloc: Global, lights: bool, dark: &str, light: &str) -> Result<bool, AllocError> {
    let (ended, trace) = played(alloc, LIGHTS, lights, Vec::new(alloc))?;
    Ok(is_summed(&ended) && are_lights(alloc, &trace, dark, light)?)
}

/// Lines of light stand between those of the trace, and count for nothing.
#[test]
fn light_is_not_counted(rt: HostRuntime) {
    let found = is_light_told(rt.alloc(), false, "", "");
    assert!(rt; found == Ok(true));
    let found = is_light_told(rt.alloc(), true, "unit 0 dark\n", "unit 0 light\n");
    assert!(rt; found == Ok(true));
}

/// Tells whether the lines of ports and units are these, or memory for them was refused.
fn are_units_or_refused(units: &Option<Result<Vec<u8>, AllocError>>, wanted: &str) -> bool {
    matches!(units, Some(Err(_))) || are_units(units, "", wanted)
}

/// Tells whether memory for the script or the trace was refused, and nothing is told of units; or all was found, and
/// nothing or all is told of them.
fn is_run_or_refused(verified: &Verified) -> bool {
    let of_script = CheckFault::Script(RunFault::OutOfMemory);
    let fault = LinesFault::Line(Unanswered::OutOfMemory);
    let of_trace = CheckFault::Trace(VerifyFault::Lines(fault));
    if verified.found == Err(of_script) || verified.found == Err(of_trace) {
        return verified.units.is_none();
    }
    verified.found == Ok(16) && are_units_or_refused(&verified.units, RANGED_UNITS)
}

/// Tells the same of a run that is verified now; None where the test has no memory itself.
fn is_verified_if_ample(alloc: Global) -> Option<bool> {
    let found = verified_behind(alloc, Form::Plain, RANGED.as_bytes()).ok()?;
    Some(is_run_or_refused(&found.0))
}

/// Where a request for memory is refused a trace is not judged; or it is, and nothing or all is told of units.
#[test]
fn a_trace_with_memory_short_or_ample(rt: HostRuntime) {
    assert!(rt; is_verified_if_ample(rt.alloc()) != Some(false));
}

/// Tells whether all lines were answered, and nothing or all is told of units; or memory for the script or a line was
/// refused, and nothing is told of them.
fn is_driven_or_refused(drive: &Drive<Vec<u8>>) -> bool {
    if drive.0 == answered(3) {
        return are_units_or_refused(&drive.1, FOUND_UNITS);
    }
    let of_line = DriveFault::Turns(LinesFault::Line(Unanswered::OutOfMemory));
    let of_script = DriveFault::Script(RunFault::OutOfMemory);
    (drive.0 == Err(of_line) || drive.0 == Err(of_script)) && drive.1.is_none()
}

/// Tells the same of a drive now; None where the test has no memory itself, or nothing is driven.
fn is_driven_if_ample(alloc: Global) -> Option<bool> {
    let writer = Vec::with_capacity(alloc, ROOM).ok()?;
    let drive = driven(alloc, PORT, LINES, writer).ok()?;
    Some(is_driven_or_refused(&drive))
}

/// Where a request for memory is refused nothing is driven, or not all; or all is, and nothing or all is told of units.
#[test]
fn a_drive_with_memory_short_or_ample(rt: HostRuntime) {
    assert!(rt; is_driven_if_ample(rt.alloc()) != Some(false));
}
