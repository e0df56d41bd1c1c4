//! Plays, traces and drives that are told: in each form, with times and without, to a writer that takes all and to one
//! that fails.
ghost use Rattle.std.specs.Prelude.{IfOk};
ghost use Rattle.gp_script.specs.Playable.{IsPlayable};
ghost use Rattle.gp_script.specs.View.{script_view};

use crate::streams::ShortWriter;
use gp_drive::{DriveFault, DriveManner, Driven};
use gp_explain::{ExplainFault, Form};
use gp_flow::{LinesFault, Unanswered};
use gp_ploam::Mask;
use gp_replay::PlayFault;
use gp_script::{Script, read_script};
use gp_stream::Source;
use gp_summed::DriveEnded;
use gp_with_units::{explain_with_units, play_with_units, tell_drive, tell_play};
use std::alloc::{AllocError, Global};

/// A port that searches once.
const PORT: &str = "licences = 1\n[[port]]\ncycles = 1\n";

/// The same, and what is done there.
const SCRIPT: &str = r#"
licences = 1
[[port]]
cycles = 1
[[event]]
port = 0
command = "search"
[[event]]
port = 0
frames = 2
"#;

/// The same as lines.
const LINES: &str = "0 search\n0 frame\n0 frame\n";

const TRACE: &str = "\
0 0 search = searching
0 1 frame = ok
0 2 frame = ok sent ff010000000000000000000058
";

const WORDS: &str = "\
0 0 search = searching
0 1 frame = ok
0 2 frame = ok sent [Upstream_Overhead 00000000000000000000]
";

const TIMED: &str = "\
[frame 0, 0.000 ms] 0 0 search = searching
[frame 1, 0.125 ms] 0 1 frame = ok
[frame 2, 0.250 ms] 0 2 frame = ok sent ff010000000000000000000058
";

const TIMED_WORDS: &str = "\
[frame 0, 0.000 ms] 0 0 search = searching
[frame 1, 0.125 ms] 0 1 frame = ok
[frame 2, 0.250 ms] 0 2 frame = ok sent [Upstream_Overhead 00000000000000000000]
";

const OBJECTS: &str = "\
{\"port\":0,\"number\":0,\"event\":\"search\",\"reply\":\"searching\"}
{\"port\":0,\"number\":1,\"event\":\"frame\",\"reply\":\"ok\"}
{\"port\":0,\"number\":2,\"event\":\"frame\",\"reply\":\"ok\",\"sent\":\"ff010000000000000000000058\",\
\"sent_message\":\"Upstream_Overhead 00000000000000000000\",\
\"sent_fields\":{\"name\":\"Upstream_Overhead\",\"octets\":\"00000000000000000000\"}}
";

const TIMED_OBJECTS: &str = "\
{\"frames\":0,\"port\":0,\"number\":0,\"event\":\"search\",\"reply\":\"searching\"}
{\"frames\":1,\"port\":0,\"number\":1,\"event\":\"frame\",\"reply\":\"ok\"}
{\"frames\":2,\"port\":0,\"number\":2,\"event\":\"frame\",\"reply\":\"ok\",\"sent\":\"ff010000000000000000000058\",\
\"sent_message\":\"Upstream_Overhead 00000000000000000000\",\
\"sent_fields\":{\"name\":\"Upstream_Overhead\",\"octets\":\"00000000000000000000\"}}
";

/// What became of the port, whose one window is still to come.
const UNITS: &str = "port 0: units 0, acquisition 1, frames 2, bursts 0, commands 1\n\
    licences: free 1, in use 0\n";

/// The same as it was heard on the fibre.
const HEARD: &str = "port 0: units 0, frames 2, bursts 0, commands 1\n";

/// A form, whether times are told, and what is written of the trace.
type Row = (Form, bool, &'static str);

const ROWS: [Row; 6] = [
    (Form::Plain, false, TRACE),
    (Form::Plain, true, TIMED),
    (Form::Words, false, WORDS),
    (Form::Words, true, TIMED_WORDS),
    (Form::Json, false, OBJECTS),
    (Form::Json, true, TIMED_OBJECTS),
];

/// Those of which the lines of units are text.
const TEXTS: [Row; 3] = [
    (Form::Plain, true, TIMED),
    (Form::Words, false, WORDS),
    (Form::Words, true, TIMED_WORDS),
];

/// Reads a script.
fn script_of(alloc: Global, text: &str) -> Result<Script, AllocError>
    ensures { IfOk result (λ script. IsPlayable (script_view script)) }
{
    match read_script(alloc, text.as_bytes()) {
        Ok(script) => Ok(script),
        Err(_) => Err(AllocError),
    }
}

/// A writer that takes so many octets.
fn writer_of(alloc: Global, room: usize) -> ShortWriter {
    ShortWriter {
        taken: Vec::new(alloc),
        room,
    }
}

/// How a play ended that is told so, and what is written of it.
fn told_play(
    alloc: Global,
    row: &Row,
    room: usize,
) -> Result<(Result<(), PlayFault>, Vec<u8>), AllocError> {
    let script = script_of(alloc, SCRIPT)?;
    let out = tell_play(alloc, script, row.0, row.1, writer_of(alloc, room))?;
    Ok((out.played, out.writer.taken))
}

/// The same with its units behind it.
fn summed_play(
    alloc: Global,
    row: &Row,
    room: usize,
) -> Result<(Result<(), PlayFault>, Vec<u8>), AllocError> {
    let script = script_of(alloc, SCRIPT)?;
    let out = play_with_units(alloc, script, row.0, row.1, writer_of(alloc, room))?;
    Ok((out.played, out.writer.taken))
}

/// How a trace ended that is told so with its units behind it, and what is written of it.
fn summed_trace(
    alloc: Global,
    row: &Row,
    room: usize,
) -> Result<(Result<u64, ExplainFault>, Vec<u8>), AllocError> {
    let mut source = Source::endless(TRACE.as_bytes());
    let writer = writer_of(alloc, room);
    let out = explain_with_units(alloc, Mask::Plain, row.0, row.1, &mut source, writer)?;
    Ok((out.told.lines, out.writer.taken))
}

/// How a drive ended that is told so, and what is written of it.
fn told_drive(alloc: Global, row: &Row, room: usize) -> Result<(DriveEnded, Vec<u8>), AllocError> {
    let manner = DriveManner {
        done: false,
        lights: false,
    };
    let script = script_of(alloc, PORT)?;
    let mut turns = Source::endless(LINES.as_bytes());
    let writer = writer_of(alloc, room);
    let out = tell_drive(alloc, manner, script, row.0, row.1, &mut turns, writer)?;
    Ok((out.ended, out.writer.taken))
}

/// Tells whether octets are the one text and then the other.
fn are_both(octets: &[u8], first: &str, second: &str) -> bool {
    octets.strip_prefix(first.as_bytes()) == Some(second.as_bytes())
}

/// Tells whether octets are the first ones of the one text and then the other, so many.
fn are_cut(octets: &[u8], first: &str, second: &str, room: usize) -> bool {
    let begins = match octets.strip_prefix(first.as_bytes()) {
        Some(rest) => second.as_bytes().starts_with(rest),
        None => first.as_bytes().starts_with(octets),
    };
    begins && octets.len() == room
}

const ROOM: usize = 4_096;

/// Tells whether a play that is told so has this text, and nothing behind it.
fn is_told_play(alloc: Global, row: &Row) -> Result<bool, AllocError> {
    let (played, taken) = told_play(alloc, row, ROOM)?;
    Ok(played == Ok(()) && are_both(&taken, row.2, ""))
}

#[test]
fn plays_are_told(rt: HostRuntime) {
    for row in &ROWS {
        assert!(rt; is_told_play(rt.alloc(), row) == Ok(true), "{}", row.2);
    }
}

/// Tells whether all lines of a drive were answered, and none by an error, and there is no summary.
fn is_answered(ended: &DriveEnded) -> bool {
    let all = Driven {
        lines: 3,
        errors: 0,
    };
    ended.driven == Ok(all) && ended.summary.is_none()
}

/// Tells whether a drive that is told so has this text, and nothing behind it.
fn is_told_drive(alloc: Global, row: &Row) -> Result<bool, AllocError> {
    let (ended, taken) = told_drive(alloc, row, ROOM)?;
    Ok(is_answered(&ended) && are_both(&taken, row.2, ""))
}

#[test]
fn drives_are_told(rt: HostRuntime) {
    for row in &ROWS {
        assert!(rt; is_told_drive(rt.alloc(), row) == Ok(true), "{}", row.2);
    }
}

/// Tells whether a play that is told so has this text, and that of its units behind it.
fn is_summed_play(alloc: Global, row: &Row) -> Result<bool, AllocError> {
    let (played, taken) = summed_play(alloc, row, ROOM)?;
    Ok(played == Ok(()) && are_both(&taken, row.2, UNITS))
}

/// Tells whether a trace that is told so has this text, and that of its units behind it.
fn is_summed_trace(alloc: Global, row: &Row) -> Result<bool, AllocError> {
    let (lines, taken) = summed_trace(alloc, row, ROOM)?;
    Ok(lines == Ok(3) && are_both(&taken, row.2, HEARD))
}

#[test]
fn units_are_told_behind(rt: HostRuntime) {
    for row in &TEXTS {
        assert!(rt; is_summed_play(rt.alloc(), row) == Ok(true), "{}", row.2);
        assert!(rt; is_summed_trace(rt.alloc(), row) == Ok(true), "{}", row.2);
    }
}

/// Tells whether a play that is told so is told as not written, and the writer has so many octets of it.
fn is_cut_play(alloc: Global, row: &Row, room: usize) -> Result<bool, AllocError> {
    let (played, taken) = told_play(alloc, row, room)?;
    Ok(played == Err(PlayFault::Write) && are_cut(&taken, row.2, "", room))
}

/// Tells whether a drive that is told so is told as not written, and the writer has so many octets of it.
fn is_cut_drive(alloc: Global, row: &Row, room: usize) -> Result<bool, AllocError> {
    let (ended, taken) = told_drive(alloc, row, room)?;
    let fault = DriveFault::Turns(LinesFault::Line(Unanswered::Write));
    let is_fault = ended.driven == Err(fault) && ended.summary.is_none();
    Ok(is_fault && are_cut(&taken, row.2, "", room))
}

/// Where the writer takes no more than a part, that is told, and it has that part.
#[test]
fn a_write_of_what_is_told_fails(rt: HostRuntime) {
    for row in &ROWS {
        for room in [0, 1, 40, row.2.len() - 1] {
            assert!(rt;
                is_cut_play(rt.alloc(), row, room) == Ok(true),
                "{room} {}",
                row.2
            );
            assert!(rt;
                is_cut_drive(rt.alloc(), row, room) == Ok(true),
                "{room} {}",
                row.2
            );
        }
    }
}

/// Tells whether a play with its units is told as not written, and the writer has so many octets of it.
fn is_cut_sum(alloc: Global, row: &Row, room: usize) -> Result<bool, AllocError> {
    let (played, taken) = summed_play(alloc, row, room)?;
    Ok(played == Err(PlayFault::Write) && are_cut(&taken, row.2, UNITS, room))
}

/// Tells whether a trace with its units is told as not written, and the writer has so many octets of it.
fn is_cut_trace(alloc: Global, row: &Row, room: usize) -> Result<bool, AllocError> {
    let (lines, taken) = summed_trace(alloc, row, room)?;
    let fault = ExplainFault::Lines(LinesFault::Line(Unanswered::Write));
    Ok(lines == Err(fault) && are_cut(&taken, row.2, HEARD, room))
}

/// The same in the trace and in the lines of units behind it.
#[test]
fn a_write_of_units_fails(rt: HostRuntime) {
    for row in &TEXTS {
        let length = row.2.len();
        for room in [
            0,
            1,
            length - 1,
            length,
            length + 1,
            length + HEARD.len() - 1,
        ] {
            assert!(rt;
                is_cut_sum(rt.alloc(), row, room) == Ok(true),
                "{room} {}",
                row.2
            );
            assert!(rt;
                is_cut_trace(rt.alloc(), row, room) == Ok(true),
                "{room} {}",
                row.2
            );
        }
    }
}
