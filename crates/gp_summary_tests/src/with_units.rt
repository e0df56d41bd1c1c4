//! Plays, traces, drives and verifications as they are told, with what became of ports and units behind them, or that
//! alone.
ghost use Rattle.std.specs.Prelude.{IfOk};
ghost use Rattle.gp_script.specs.Playable.{IsPlayable};
ghost use Rattle.gp_script.specs.View.{script_view};

mod told;

use crate::streams::ShortWriter;
use gp_drive::{DriveFault, DriveManner, Driven};
use gp_explain::{ExplainFault, Form};
use gp_flow::{LinesFault, Unanswered};
use gp_ploam::Mask;
use gp_replay::{PlayFault, RunFault};
use gp_script::{Script, read_script};
use gp_stream::{Sink, Source};
use gp_summed::{DriveEnded, HeardCodes};
use gp_tally::Nowhere;
use gp_verify::{CheckFault, VerifyFault};
use gp_with_units::{
    DriveWritten, PlayWritten, ToldTrace, TraceWritten, drive_with_units, explain_for_summary,
    explain_with_units, play_for_summary, play_with_units, tell_drive, tell_play,
    verify_with_units,
};
use std::alloc::{AllocError, Global};
use std::io::Write;

/// A port that admits one unit and searches once.
const PORT: &str = "licences = 1\n[[port]]\ncycles = 1\nadmit = [\"ABCD00000001\"]\n";

/// The same, and the unit is found.
const SCRIPT: &str = r#"
licences = 1
[[port]]
cycles = 1
admit = ["ABCD00000001"]
[[event]]
port = 0
command = "search"
[[event]]
port = 0
frames = 5
[[event]]
port = 0
at = 100000
say = "serial"
serial = "ABCD00000001"
"#;

/// The trace of that.
const TRACE: &str = "\
0 0 search = searching
0 1 frame = ok
0 2 frame = ok sent ff010000000000000000000058
0 3 frame = ok sent ff010000000000000000000058
0 4 frame = ok sent ff010000000000000000000058
0 5 frame = ok grant search
0 6 burst 100000 ff01414243440000000100002c = found 0
";

/// The same in words.
const WORDS: &str = "\
0 0 search = searching
0 1 frame = ok
0 2 frame = ok sent [Upstream_Overhead 00000000000000000000]
0 3 frame = ok sent [Upstream_Overhead 00000000000000000000]
0 4 frame = ok sent [Upstream_Overhead 00000000000000000000]
0 5 frame = ok grant search
0 6 burst 100000 [Serial_Number_ONU 255 ABCD00000001 0 0] = found 0
";

/// What became of the port and its unit.
const UNITS: &str = "port 0: units 1, acquisition 0, frames 5, bursts 1, commands 1\n\
    unit ABCD00000001: ranging, onu 0, found 1, ranged 0, lost 0, last frame 5\n\
    licences: free 0, in use 1\n";

/// The same as it was heard on the fibre.
const HEARD: &str = "port 0: units 0, frames 5, bursts 1, commands 1\n\
    unit ABCD00000001: asking, found 1, ranged 0, lost 0, last frame 5\n";

/// Room for all that is written here, so that no write takes memory.
const ROOM: usize = 4_096;

/// How a call ends.
#[derive(Clone, Copy, PartialEq, Eq)]
enum End {
    /// All was done, and found as it is.
    Done,
    OutOfMemory,
    Other,
}

/// How a call ends, and what is written; None where memory was refused before anything was done.
type Came = Option<(End, Vec<u8>)>;

/// Reads a script.
fn script_of(alloc: Global, text: &str) -> Result<Script, AllocError>
    ensures { IfOk result (λ script. IsPlayable (script_view script)) }
{
    match read_script(alloc, text.as_bytes()) {
        Ok(script) => Ok(script),
        Err(_) => Err(AllocError),
    }
}

/// How a play ends.
fn end_of_play(played: Result<(), PlayFault>) -> End {
    match played {
        Ok(()) => End::Done,
        Err(PlayFault::OutOfMemory) => End::OutOfMemory,
        Err(PlayFault::Write) => End::Other,
    }
}

/// Plays the script to a writer.
fn played_to<W: Write + Drop>(
    alloc: Global,
    form: Form,
    writer: W,
) -> Result<PlayWritten<W>, AllocError> {
    let script = script_of(alloc, SCRIPT)?;
    play_with_units(alloc, script, form, false, writer)
}

/// What comes of that.
fn played(alloc: Global, form: Form) -> Came {
    let taken = Vec::with_capacity(alloc, ROOM).ok()?;
    let PlayWritten { played, writer } = played_to(alloc, form, taken).ok()?;
    Some((end_of_play(played), writer))
}

/// What comes of one that is told, and nothing behind it.
fn played_and_told(alloc: Global, form: Form) -> Came {
    let script = script_of(alloc, SCRIPT).ok()?;
    let taken = Vec::with_capacity(alloc, ROOM).ok()?;
    let PlayWritten { played, writer } = tell_play(alloc, script, form, false, taken).ok()?;
    Some((end_of_play(played), writer))
}

/// What comes of a play whose summary is written alone.
fn played_alone(alloc: Global) -> Came {
    let script = script_of(alloc, SCRIPT).ok()?;
    let mut out = Vec::with_capacity(alloc, ROOM).ok()?;
    let played = play_for_summary(alloc, script, Form::Plain, Nowhere, &mut out);
    Some((end_of_play(played), out))
}

/// How telling the trace ends.
fn end_of_trace(told: &ToldTrace) -> End {
    let codes = HeardCodes {
        garbled: 0,
        is_read: true,
    };
    let refused = ExplainFault::Lines(LinesFault::Line(Unanswered::OutOfMemory));
    if told.lines == Ok(7) && told.codes == Some(codes) {
        End::Done
    } else if told.lines == Err(refused) && told.codes.is_none() {
        End::OutOfMemory
    } else {
        End::Other
    }
}

/// What comes of the trace where it is told again.
fn explained(alloc: Global) -> Came {
    let mut source = Source::endless(TRACE.as_bytes());
    let out = Vec::with_capacity(alloc, ROOM).ok()?;
    let plain = Form::Plain;
    let TraceWritten { told, writer } = explain_with_units(
        alloc,
        Mask::Plain,
        plain,
        false,
        &mut source,
        out,
    ).ok()?;
    Some((end_of_trace(&told), writer))
}

/// What comes of it where its summary is written alone.
fn explained_alone(alloc: Global) -> Came {
    let mut source = Source::endless(TRACE.as_bytes());
    let mut out = Vec::with_capacity(alloc, ROOM).ok()?;
    let told = explain_for_summary(alloc, Mask::Plain, Form::Plain, &mut source, &mut out);
    Some((end_of_trace(&told), out))
}

/// How a drive ends of which all lines were answered, by what is told of units.
fn end_of_summary(summary: &Option<Result<Vec<u8>, AllocError>>) -> End {
    match summary {
        Some(Ok(text)) if text.as_slice() == UNITS.as_bytes() => End::Done,
        Some(Err(_)) => End::OutOfMemory,
        Some(Ok(_)) | None => End::Other,
    }
}

/// All lines of a drive are answered.
const ANSWERED: Driven = Driven {
    lines: 3,
    errors: 0,
};

/// How a drive ends.
fn end_of_drive(ended: &DriveEnded) -> End {
    if ended.driven == Ok(ANSWERED) {
        return end_of_summary(&ended.summary);
    }
    let of_line = DriveFault::Turns(LinesFault::Line(Unanswered::OutOfMemory));
    let of_script = DriveFault::Script(RunFault::OutOfMemory);
    let is_refused = ended.driven == Err(of_line) || ended.driven == Err(of_script);
    if is_refused && ended.summary.is_none() {
        End::OutOfMemory
    } else {
        End::Other
    }
}

/// How one ends that is told, and nothing behind it.
fn end_of_told_drive(ended: &DriveEnded) -> End {
    match (ended.driven == Ok(ANSWERED), ended.summary.is_none()) {
        (true, true) => End::Done,
        (true, false) => End::Other,
        (false, _) => end_of_drive(ended),
    }
}

const MANNER: DriveManner = DriveManner {
    done: false,
    lights: false,
};

/// The unit is found.
const LINES: &str = "0 search\n0 until search\n0 burst 100000 ff01414243440000000100002c\n";

/// Drives the port so.
fn driven_to(
    alloc: Global,
    script: Script,
    out: Vec<u8>,
) -> Result<DriveWritten<Vec<u8>>, AllocError>
    requires { IsPlayable (script_view script) }
{
    let mut turns = Source::endless(LINES.as_bytes());
    drive_with_units(alloc, MANNER, script, Form::Plain, false, &mut turns, out)
}

/// The same, and nothing is told behind it.
fn driven_and_told_to(
    alloc: Global,
    script: Script,
    out: Vec<u8>,
) -> Result<DriveWritten<Vec<u8>>, AllocError>
    requires { IsPlayable (script_view script) }
{
    let mut turns = Source::endless(LINES.as_bytes());
    tell_drive(alloc, MANNER, script, Form::Plain, false, &mut turns, out)
}

/// What comes of that.
fn driven(alloc: Global) -> Came {
    let script = script_of(alloc, PORT).ok()?;
    let out = Vec::with_capacity(alloc, ROOM).ok()?;
    let DriveWritten { ended, writer } = driven_to(alloc, script, out).ok()?;
    Some((end_of_drive(&ended), writer))
}

/// What comes of that where nothing is told behind it.
fn driven_and_told(alloc: Global) -> Came {
    let script = script_of(alloc, PORT).ok()?;
    let out = Vec::with_capacity(alloc, ROOM).ok()?;
    let DriveWritten { ended, writer } = driven_and_told_to(alloc, script, out).ok()?;
    Some((end_of_told_drive(&ended), writer))
}

/// How a verification of the trace ends.
fn end_of_verification(found: Result<u64, CheckFault>) -> End {
    let of_line = LinesFault::Line(Unanswered::OutOfMemory);
    let of_trace = CheckFault::Trace(VerifyFault::Lines(of_line));
    let of_script = CheckFault::Script(RunFault::OutOfMemory);
    if found == Ok(7) {
        End::Done
    } else if found == Err(of_trace) || found == Err(of_script) {
        End::OutOfMemory
    } else {
        End::Other
    }
}

/// What comes of the trace where it is verified.
fn verified(alloc: Global) -> Came {
    let mut script = Source::new(PORT.as_bytes());
    let mut trace = Source::endless(TRACE.as_bytes());
    let out = Vec::with_capacity(alloc, ROOM).ok()?;
    let mut sink = Sink::new(alloc, out).ok()?;
    let plain = Form::Plain;
    let found = verify_with_units(alloc, plain, None, &mut script, &mut trace, &mut sink);
    Some((end_of_verification(found), sink.into_inner()))
}

/// The calls.
#[derive(Clone, Copy)]
enum Call {
    Play,
    PlayInWords,
    TellPlay,
    PlayForSummary,
    Explain,
    ExplainForSummary,
    Drive,
    TellDrive,
    Verify,
}

/// What comes of a call.
fn came_of(alloc: Global, call: Call) -> Came {
    match call {
        Call::Play => played(alloc, Form::Plain),
        Call::PlayInWords => played(alloc, Form::Words),
        Call::TellPlay => played_and_told(alloc, Form::Words),
        Call::PlayForSummary => played_alone(alloc),
        Call::Explain => explained(alloc),
        Call::ExplainForSummary => explained_alone(alloc),
        Call::Drive => driven(alloc),
        Call::TellDrive => driven_and_told(alloc),
        Call::Verify => verified(alloc),
    }
}

/// Tells whether octets are the one text and then the other.
fn are_both(octets: &[u8], first: &str, second: &str) -> bool {
    octets.strip_prefix(first.as_bytes()) == Some(second.as_bytes())
}

/// Tells whether octets are the first ones of that.
fn are_begun(octets: &[u8], first: &str, second: &str) -> bool {
    match octets.strip_prefix(first.as_bytes()) {
        Some(rest) => second.as_bytes().starts_with(rest),
        None => first.as_bytes().starts_with(octets),
    }
}

/// Tells whether octets are whole lines.
fn are_lines(octets: &[u8]) -> bool {
    octets.is_empty() || octets.last() == Some(&b'\n')
}

/// Tells whether all was done, and the one text and then the other is written. None where memory was refused, and
/// whole lines of that are written, or none.
fn is_written(came: &Came, first: &str, second: &str) -> Option<bool> {
    let (end, written) = came.as_ref()?;
    if *end == End::OutOfMemory && are_begun(written, first, second) && are_lines(written) {
        return None;
    }
    Some(*end == End::Done && are_both(written, first, second))
}

/// A call, and the two texts that are written.
type Row = (Call, &'static str, &'static str);

/// Tells whether that is so of a call that is made now.
fn is_so_if_ample(alloc: Global, row: &Row) -> Option<bool> {
    let (call, first, second) = *row;
    let came = came_of(alloc, call);
    is_written(&came, first, second)
}

const PLAYS: [Row; 3] = [
    (Call::Play, TRACE, UNITS),
    (Call::PlayInWords, WORDS, UNITS),
    (Call::TellPlay, WORDS, ""),
];

const PLAY_ALONE: Row = (Call::PlayForSummary, "", UNITS);

const TRACES: [Row; 2] = [
    (Call::Explain, TRACE, HEARD),
    (Call::ExplainForSummary, "", HEARD),
];

/// The summary of a drive is not written.
const DRIVES: [Row; 2] = [(Call::Drive, TRACE, ""), (Call::TellDrive, TRACE, "")];

const VERIFICATION: Row = (Call::Verify, "7 lines, a run\n", UNITS);

#[test]
fn a_play_is_written(rt: HostRuntime) {
    for row in &PLAYS {
        assert!(rt; is_so_if_ample(rt.alloc(), row) == Some(true), "{}", row.1);
    }
}

/// Tells whether a play ends with a failed write where the writer has so much room, and the writer has that.
fn is_cut_at(alloc: Global, room: usize) -> Result<bool, AllocError> {
    let taken = Vec::new(alloc);
    let writer = ShortWriter { taken, room };
    let PlayWritten { played, writer } = played_to(alloc, Form::Plain, writer)?;
    let is_cut = writer.taken.len() == room && are_begun(&writer.taken, TRACE, UNITS);
    Ok(played == Err(PlayFault::Write) && is_cut)
}

/// Up to there the writer has all, in the trace and behind it.
#[test]
fn a_write_fails(rt: HostRuntime) {
    for room in [
        0,
        1,
        100,
        TRACE.len(),
        TRACE.len() + 1,
        TRACE.len() + UNITS.len() - 1,
    ] {
        assert!(rt; is_cut_at(rt.alloc(), room) == Ok(true), "{room}");
    }
}

#[test]
fn a_summary_is_written_alone(rt: HostRuntime) {
    assert!(rt; is_so_if_ample(rt.alloc(), &PLAY_ALONE) == Some(true));
}

#[test]
fn a_trace_is_told(rt: HostRuntime) {
    for row in &TRACES {
        assert!(rt; is_so_if_ample(rt.alloc(), row) == Some(true), "{}", row.1);
    }
}

#[test]
fn a_drive_is_written(rt: HostRuntime) {
    for row in &DRIVES {
        assert!(rt; is_so_if_ample(rt.alloc(), row) == Some(true), "{}", row.1);
    }
}

#[test]
fn a_verification_is_summed(rt: HostRuntime) {
    assert!(rt; is_so_if_ample(rt.alloc(), &VERIFICATION) == Some(true));
}

/// Where a request for memory is refused it is told, and what is written is whole lines of what is written else, or
/// nothing was done; else it is as with ample memory.
#[test]
fn memory_short_or_ample(rt: HostRuntime) {
    for row in &PLAYS {
        assert!(rt; is_so_if_ample(rt.alloc(), row) != Some(false), "{}", row.1);
    }
    assert!(rt; is_so_if_ample(rt.alloc(), &PLAY_ALONE) != Some(false));
    for row in &TRACES {
        assert!(rt; is_so_if_ample(rt.alloc(), row) != Some(false), "{}", row.1);
    }
    for row in &DRIVES {
        assert!(rt; is_so_if_ample(rt.alloc(), row) != Some(false), "{}", row.1);
    }
    assert!(rt; is_so_if_ample(rt.alloc(), &VERIFICATION) != Some(false));
}
