//! Replays of scripts: what is written, and how each ends where the script, memory, a read or a write fails.
use crate::printed::is_printed;
use crate::streams::FailingReader;
use gp_replay::{PlayFault, RunFault, play_script, play_with_lights, run_replay};
use gp_script::{ScriptFault, read_script};
use gp_stream::{Sink, Source};
use std::alloc::{AllocError, Global};
use std::io;
use std::io::{ErrorKind, Read, Write};
use std::test::Fail;

pub(crate) const ONE_UNIT: &str = r#"
licences = 1
[[port]]
cycles = 1
admit = ["ABCD00000001"]
[[event]]
port = 0
command = "search"
[[event]]
port = 0
frames = 5
[[event]]
port = 0
at = 100000
say = "serial"
serial = "ABCD00000001"
[[event]]
port = 0
frames = 4
[[event]]
port = 0
at = 100000
say = "serial"
serial = "ABCD00000001"
onu = 0
[[event]]
port = 0
frames = 4
"#;

pub(crate) const ONE_UNIT_TRACE: &str = "\
0 0 search = searching
0 1 frame = ok
0 2 frame = ok sent ff010000000000000000000058
0 3 frame = ok sent ff010000000000000000000058
0 4 frame = ok sent ff010000000000000000000058
0 5 frame = ok grant search
0 6 burst 100000 ff01414243440000000100002c = found 0
0 7 frame = ok sent ff03004142434400000001001b
0 8 frame = ok sent ff03004142434400000001001b
0 9 frame = ok sent ff03004142434400000001001b
0 10 frame = ok grant range 0
0 11 burst 100000 0001414243440000000100006b = ranged 0 211040
0 12 frame = ok sent 0004000003386000000000009c
0 13 frame = ok sent 0004000003386000000000009c
0 14 frame = ok sent 0004000003386000000000009c
0 15 frame = ok
";

const TWO_PORTS: &str = r#"
licences = 0
[[port]]
[[port]]
[[event]]
port = 1
frames = 2
[[event]]
port = 0
command = "search"
[[event]]
port = 1
frames = 1
"#;

const TWO_PORTS_TRACE: &str = "\
1 0 frame = ok
1 1 frame = ok
0 0 search = searching
1 2 frame = ok
";

const ONE_SIMULATED_UNIT: &str = r#"
licences = 1
[[port]]
cycles = 1
admit = ["ABCD00000001"]
[[unit]]
serial = "ABCD00000001"
delay = 200000
[[event]]
port = 0
command = "search"
[[event]]
port = 0
frames = 11
"#;

const ONE_SIMULATED_UNIT_TRACE: &str = "\
0 0 search = searching
0 1 frame = ok
0 2 frame = ok sent ff010000000000000000000058
0 3 frame = ok sent ff010000000000000000000058
0 4 frame = ok sent ff010000000000000000000058
0 5 frame = ok grant search
0 6 frame = ok
0 7 burst 200000 ff01414243440000000100002c = found 0
0 8 frame = ok sent ff03004142434400000001001b
0 9 frame = ok sent ff03004142434400000001001b
0 10 frame = ok sent ff03004142434400000001001b
0 11 frame = ok grant range 0
0 12 frame = ok
0 13 burst 200000 0001414243440000000100006b = ranged 0 111040
";

/// Light goes, and comes twice, with frames between and behind.
const LIGHTS: &str = r#"
licences = 1
[[port]]
[[unit]]
serial = "ABCD00000001"
delay = 0
[[unit]]
serial = "ABCD00000002"
delay = 0
[[event]]
unit = 1
light = false
[[event]]
port = 0
frames = 2
[[event]]
unit = 1
light = true
[[event]]
unit = 0
light = true
[[event]]
port = 0
frames = 1
[[event]]
unit = 0
light = false
"#;

const LIGHTS_TRACE: &str = "0 0 frame = ok\n0 1 frame = ok\n0 2 frame = ok\n";

const LIGHTS_TOLD: &str = "\
unit 1 dark
0 0 frame = ok
0 1 frame = ok
unit 1 light
unit 0 light
0 2 frame = ok
unit 0 dark
";

/// A script in two pieces, how its replay ends, and what is written.
#[derive(Clone, Copy)]
struct Row {
    before: &'static str,
    script: &'static str,
    outcome: Result<(), RunFault>,
    trace: &'static str,
}

/// A script with a fault, of which nothing is written.
const FAULTY: Row = Row {
    before: "licences = 1\n",
    script: "",
    outcome: Err(RunFault::Script(ScriptFault::Shape)),
    trace: "",
};

const SCRIPTS: &[Row] = &[
    Row {
        before: "",
        script: ONE_UNIT,
        outcome: Ok(()),
        trace: ONE_UNIT_TRACE,
    },
    // How many entries a journal keeps has no effect: a play has none.
    Row {
        before: "journal_limit = 1",
        script: ONE_UNIT,
        outcome: Ok(()),
        trace: ONE_UNIT_TRACE,
    },
    Row {
        before: "",
        script: TWO_PORTS,
        outcome: Ok(()),
        trace: TWO_PORTS_TRACE,
    },
    Row {
        before: "",
        script: ONE_SIMULATED_UNIT,
        outcome: Ok(()),
        trace: ONE_SIMULATED_UNIT_TRACE,
    },
    Row {
        script: "port = 3",
        ..FAULTY
    },
    Row {
        before: "licences = \"1\"\n",
        script: "port = [{},{},{},{},{},{},{},{},{},{},{},{},{},{},{},{},{}]",
        ..FAULTY
    },
    Row {
        script: "[[port]]\n[[event]]\nport = 0\nat = 0\nsay = \"ack\"\nonu = 0",
        ..FAULTY
    },
    Row {
        script: "[[port",
        outcome: Err(RunFault::Script(ScriptFault::Syntax)),
        ..FAULTY
    },
    Row {
        before: "licences = 4065\n",
        script: "[[port]]",
        outcome: Err(RunFault::Script(ScriptFault::Range)),
        ..FAULTY
    },
    Row {
        script: "port = []",
        outcome: Err(RunFault::Script(ScriptFault::Range)),
        ..FAULTY
    },
    Row {
        script: "[[port]]\nadmit = [\"ABCD00000001\", \"ABCD00000001\"]",
        outcome: Err(RunFault::Script(ScriptFault::Duplicate)),
        ..FAULTY
    },
    Row {
        script: "[[port]]\nadmit = [\"abCD00000001\"]",
        outcome: Err(RunFault::Script(ScriptFault::Serial)),
        ..FAULTY
    },
    Row {
        script: "[[port]]\n[[event]]\nport = 0\nat = 0\nburst = \"0004000000000000000000007\"",
        outcome: Err(RunFault::Script(ScriptFault::Hex)),
        ..FAULTY
    },
];

/// Room for each trace of these tests, so that no write takes memory.
const ROOM: usize = 131_072;

/// How a replay of what is read ends, and what it writes.
fn replay<R: Read + Drop>(
    alloc: Global,
    reader: R,
) -> Result<(Result<(), RunFault>, Vec<u8>), AllocError> {
    let mut source = Source::new(reader);
    let mut sink = Sink::new(alloc, Vec::with_capacity(alloc, ROOM)?)?;
    let outcome = run_replay(alloc, &mut source, &mut sink);
    Ok((outcome, sink.into_inner()))
}

/// Tells whether a replay of what is read ends so, with this trace.
fn ends_with<R: Read + Drop>(
    alloc: Global,
    reader: R,
    wanted: Result<(), RunFault>,
    trace: &str,
) -> Result<bool, AllocError> {
    let (outcome, written) = replay(alloc, reader)?;
    Ok(outcome == wanted && written.as_slice() == trace.as_bytes())
}

/// Tells whether a row's script, in its two pieces, is replayed so.
fn is_replayed(alloc: Global, row: &Row) -> Result<bool, AllocError> {
    let reader = row.before.as_bytes().chain(row.script.as_bytes());
    ends_with(alloc, reader, row.outcome, row.trace)
}

#[test]
fn scripts(rt: HostRuntime) {
    for row in SCRIPTS {
        assert!(rt;
            is_replayed(rt.alloc(), row) == Ok(true),
            "{}{}",
            row.before,
            row.script
        );
    }
}

/// Tells whether a trace is begun, with whole lines.
fn is_begun(written: &[u8], trace: &str) -> bool {
    let is_whole = written.is_empty() || written.last() == Some(&b'\n');
    is_whole && trace.as_bytes().starts_with(written)
}

/// Tells whether a trace is written, with ample memory. None where memory was refused, and the lines that were done by
/// then are written.
fn is_trace(outcome: Result<(), RunFault>, written: &[u8], trace: &str) -> Option<bool> {
    if outcome == Err(RunFault::OutOfMemory) && is_begun(written, trace) {
        return None;
    }
    Some(outcome.is_ok() && written == trace.as_bytes())
}

/// Tells the same of a row; None too where the test has no memory itself.
fn is_replayed_if_ample(alloc: Global, row: &Row) -> Option<bool> {
    let reader = row.before.as_bytes().chain(row.script.as_bytes());
    let (outcome, written) = replay(alloc, reader).ok()?;
    is_trace(outcome, &written, row.trace)
}

/// Where an allocation was made to fail it is told, and the lines that were done by then are written; else each trace
/// is as it should be. What the test takes for itself may be refused too, and then nothing was replayed.
#[test]
fn memory_short_or_ample(rt: HostRuntime) {
    for row in &SCRIPTS[..4] {
        let Some(right) = is_replayed_if_ample(rt.alloc(), row) else {
            return;
        };
        assert!(rt; right, "{}{}", row.before, row.script);
    }
}

/// Tells whether a row's script is read, and then played so.
fn is_played(alloc: Global, row: &Row) -> Result<bool, Fail> {
    let mut text = String::from_str(alloc, row.before)?;
    text.push_str(row.script)?;
    let script = read_script(alloc, text.as_bytes())?;
    let mut sink = Sink::new(alloc, Vec::new(alloc))?;
    let outcome = play_script(alloc, script, &mut sink);
    let written = sink.into_inner();
    Ok(outcome.is_ok() && written.as_slice() == row.trace.as_bytes())
}

/// A script that was read before is played as it is where it is read first.
#[test]
fn scripts_that_were_read(rt: HostRuntime) -> Result<(), Fail> {
    for row in &SCRIPTS[..4] {
        assert!(rt; is_played(rt.alloc(), row)?, "{}{}", row.before, row.script);
    }
    Ok(())
}

/// How the telling of a script ends, and what is told; nothing where there is no memory for the script or the sink.
fn told(alloc: Global, text: &str) -> Option<(Result<(), PlayFault>, Vec<u8>)> {
    let script = read_script(alloc, text.as_bytes()).ok()?;
    let mut sink = Sink::new(alloc, Vec::new(alloc)).ok()?;
    let outcome = play_with_lights(alloc, script, &mut sink);
    Some((outcome, sink.into_inner()))
}

/// Tells whether this is told, with ample memory. None where memory was refused, and the lines that were told by then
/// are written.
fn is_telling(outcome: Result<(), PlayFault>, written: &[u8], wanted: &str) -> Option<bool> {
    if outcome == Err(PlayFault::OutOfMemory) && is_begun(written, wanted) {
        return None;
    }
    Some(outcome.is_ok() && written == wanted.as_bytes())
}

/// Tells the same of a script; None too where there is no memory for it or the sink.
fn is_told_if_ample(alloc: Global, text: &str, wanted: &str) -> Option<bool> {
    let (outcome, written) = told(alloc, text)?;
    is_telling(outcome, &written, wanted)
}

/// What is told of a script is its trace with a line for each light, and without simulated units its trace.
#[test]
fn scripts_that_are_told(rt: HostRuntime) {
    for (text, wanted) in &[
        (LIGHTS, LIGHTS_TOLD),
        (ONE_UNIT, ONE_UNIT_TRACE),
        (ONE_SIMULATED_UNIT, ONE_SIMULATED_UNIT_TRACE),
    ] {
        assert!(rt;
            is_told_if_ample(rt.alloc(), text, wanted) == Some(true),
            "{text}"
        );
    }
}

/// The trace of a script with lights has no line for them.
#[test]
fn lights_have_no_line(rt: HostRuntime) {
    let is_so = ends_with(rt.alloc(), LIGHTS.as_bytes(), Ok(()), LIGHTS_TRACE);
    assert!(rt; is_so == Ok(true));
}

/// Where memory is refused the lines that were told by then are written, each of them whole.
#[test]
fn lights_with_memory_short_or_ample(rt: HostRuntime) {
    let told = is_told_if_ample(rt.alloc(), LIGHTS, LIGHTS_TOLD);
    assert!(rt; told.is_none() || told == Some(true));
}

/// The trace of so many frames.
fn frames(alloc: Global, count: u32) -> Result<String, AllocError> {
    let mut trace = String::new(alloc);
    for number in 0..count {
        let line = format!(in alloc; "0 {number} frame = ok\n")?;
        trace.push_str(line.as_str())?;
    }
    Ok(trace)
}

/// With memory enough each of many frames has its line, to the last.
#[test]
fn five_thousand_frames(rt: HostRuntime) -> Result<(), Fail> {
    let script: &[u8] = b"licences = 0\n[[port]]\n[[event]]\nport = 0\nframes = 5000";
    let trace = frames(rt.alloc(), 5000)?;
    assert!(rt; ends_with(rt.alloc(), script, Ok(()), trace.as_str())?);
    Ok(())
}

/// What a writer does that has no room left.
#[derive(Clone, Copy)]
enum Full {
    /// It takes nothing.
    Stops,
    /// It fails.
    Fails,
}

/// Takes as many octets as a slice has room for.
#[derive(Drop)]
struct SliceWriter<'a> {
    rest: &'a mut [u8],
    full: Full,
}

impl Write for SliceWriter<'_> {
    fn write(&mut self, buffer: &[u8]) -> io::Result<usize> {
        match self.full {
            Full::Fails if self.rest.is_empty() => Err(io::Error::from(ErrorKind::Other)),
            _ => self.rest.write(buffer),
        }
    }

    fn flush(&mut self) -> io::Result<()> {
        Ok(())
    }
}

/// Tells whether a writer with so much room gets the first octets of the trace, and how the replay ends.
fn is_cut_at(alloc: Global, room: usize, full: Full) -> Result<bool, AllocError> {
    let trace = ONE_UNIT_TRACE.as_bytes();
    let mut taken = vec![in alloc; 0; room]?;
    let rest = &mut taken[..];
    let mut sink = Sink::new(alloc, SliceWriter { rest, full })?;
    let outcome = run_replay(alloc, &mut Source::new(ONE_UNIT.as_bytes()), &mut sink);
    drop(sink);
    let wanted = if room < trace.len() {
        Err(RunFault::Write)
    } else {
        Ok(())
    };
    Ok(outcome == wanted && trace.starts_with(&taken))
}

#[test]
fn a_writer_that_stops_or_fails(rt: HostRuntime) {
    for room in 0..=ONE_UNIT_TRACE.len() {
        for full in [Full::Stops, Full::Fails] {
            assert!(rt; is_cut_at(rt.alloc(), room, full) == Ok(true), "{room}");
        }
    }
}

#[test]
fn a_second_read_that_fails(rt: HostRuntime) {
    let reader = ONE_UNIT.as_bytes().chain(FailingReader);
    assert!(rt; ends_with(rt.alloc(), reader, Err(RunFault::Read), "") == Ok(true));
}

/// Faults, and the text of each.
const TEXTS: [(RunFault, &'static str); 7] = [
    (
        RunFault::Read,
        "a read failed, or the input took too many reads",
    ),
    (RunFault::TooLong, "the input is too long"),
    (
        RunFault::Script(ScriptFault::Hex),
        "the input is no script: 5 hex",
    ),
    (RunFault::OutOfMemory, "out of memory"),
    (RunFault::Write, "a write failed or took nothing"),
    (
        RunFault::Mismatch,
        "a thread was not started, or what the threads were told does not agree",
    ),
    (RunFault::JournalFull, "the journal of a port is full"),
];

#[test]
fn texts_of_faults(rt: HostRuntime) {
    for (fault, text) in &TEXTS {
        assert!(rt; is_printed(rt.alloc(), fault, text), "{text}");
    }
}

#[test]
fn empty_script(rt: HostRuntime) {
    let reader: &[u8] = b"";
    let wanted = Err(RunFault::Script(ScriptFault::Shape));
    assert!(rt; ends_with(rt.alloc(), reader, wanted, "") == Ok(true));
}

/// Octets that are no text.
#[test]
fn no_text(rt: HostRuntime) {
    let reader: &[u8] = b"\xff";
    let wanted = Err(RunFault::Script(ScriptFault::Syntax));
    assert!(rt; ends_with(rt.alloc(), reader, wanted, "") == Ok(true));
}

/// Tells whether a replay of so many spaces ends so.
fn spaces_end_with(
    alloc: Global,
    count: usize,
    wanted: Result<(), RunFault>,
) -> Result<bool, AllocError> {
    let spaces = vec![in alloc; b' '; count]?;
    ends_with(alloc, spaces.as_slice(), wanted, "")
}

#[test]
fn as_long_as_may_be_and_longer(rt: HostRuntime) {
    let shape = Err(RunFault::Script(ScriptFault::Shape));
    assert!(rt; spaces_end_with(rt.alloc(), 1_048_576, shape) == Ok(true));
    let too_long = Err(RunFault::TooLong);
    assert!(rt; spaces_end_with(rt.alloc(), 1_048_577, too_long) == Ok(true));
}
