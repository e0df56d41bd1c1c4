//! What no clause says: the totals of worked scripts, in real threads, and what is written where a storm has none.
mod plans;

use crate::replay::ONE_UNIT;
use crate::streams::FailingReader;
use gp_replay::RunFault;
use gp_script::ScriptFault;
use gp_storm::run_storm;
use gp_stream::{Sink, Source};
use std::alloc::{AllocError, Global};
use std::io::Read;
use std::sync::Wait;
use std::thread::Threads;

/// The totals of a run in which one unit is found and ranged.
const ONE_UNIT_TOTALS: &str = "frames 13\nbursts 2\ncommands 1\nentries 16\nlicences 1\n";

/// A port that has its frames, bursts and commands beside another's.
const TWO_PORTS: &str = r#"
licences = 3
port = [{}, {admit = ["ABCD00000001"]}]
event = [
    {port = 0, command = "search"},
    {port = 1, frames = 300},
    {port = 0, at = 0, say = "none", onu = 0},
    {port = 1, command = "search"},
    {port = 0, frames = 40},
    {port = 1, at = 7, say = "serial", serial = "ABCD00000001"},
    {port = 0, at = 0, say = "none", onu = 1},
    {port = 1, frames = 2},
]
"#;

const TWO_PORTS_TOTALS: &str = "frames 342\nbursts 3\ncommands 2\nentries 347\nlicences 3\n";

/// A script in two pieces, how its storm ends, and what is written.
#[derive(Clone, Copy)]
struct Row {
    before: &'static str,
    script: &'static str,
    outcome: Result<(), RunFault>,
    totals: &'static str,
}

/// A script with a fault, of which nothing is written.
const FAULTY: Row = Row {
    before: "licences = 1\nport = [{}]\n",
    script: "",
    outcome: Err(RunFault::Script(ScriptFault::Shape)),
    totals: "",
};

const SCRIPTS: &[Row] = &[
    Row {
        before: "",
        script: ONE_UNIT,
        outcome: Ok(()),
        totals: ONE_UNIT_TOTALS,
    },
    Row {
        before: "",
        script: TWO_PORTS,
        outcome: Ok(()),
        totals: TWO_PORTS_TOTALS,
    },
    Row {
        before: "licences = 4064\n",
        script: "port = [{}, {}, {}, {}, {}, {}, {}, {}, {}, {}, {}, {}, {}, {}, {}, {}]\nevent = [{port = 15, frames = 9}]",
        outcome: Ok(()),
        totals: "frames 9\nbursts 0\ncommands 0\nentries 9\nlicences 4064\n",
    },
    // A journal that keeps an entry less than the script has is full, and one that keeps as many isn't.
    Row {
        before: "journal_limit = 15",
        script: ONE_UNIT,
        outcome: Err(RunFault::JournalFull),
        totals: "",
    },
    Row {
        before: "journal_limit = 16",
        script: ONE_UNIT,
        outcome: Ok(()),
        totals: ONE_UNIT_TOTALS,
    },
    // A storm has no units on its fibres, and loses nothing.
    Row {
        before: "",
        ..FAULTY
    },
    Row {
        script: "unit = [{serial = \"ABCD00000001\", delay = 0}]",
        ..FAULTY
    },
    Row {
        script: "lose = [{copy = 0}]",
        ..FAULTY
    },
    Row {
        script: "event = [{port = 1, frames = 1}]",
        outcome: Err(RunFault::Script(ScriptFault::Range)),
        ..FAULTY
    },
];

/// Room for all that a storm writes, so that no write takes memory.
const ROOM: usize = 1024;

/// How a storm of what is read ends, and what it writes.
fn storm_of<R: Threads + Wait + Sync, S: Read + Drop>(
    rt: &R,
    alloc: Global,
    reader: S,
) -> Result<(Result<(), RunFault>, Vec<u8>), AllocError> {
    let mut source = Source::new(reader);
    let mut sink = Sink::new(alloc, Vec::with_capacity(alloc, ROOM)?)?;
    let outcome = run_storm(rt, alloc, &mut source, &mut sink);
    Ok((outcome, sink.into_inner()))
}

/// Tells whether a storm of what is read ends so, with these totals.
fn ends_with<R: Threads + Wait + Sync, S: Read + Drop>(
    rt: &R,
    alloc: Global,
    reader: S,
    wanted: Result<(), RunFault>,
    totals: &str,
) -> Result<bool, AllocError> {
    let (outcome, written) = storm_of(rt, alloc, reader)?;
    Ok(outcome == wanted && written.as_slice() == totals.as_bytes())
}

/// Tells whether the storm of a row's script, in its two pieces, ends so.
fn is_stormed<R: Threads + Wait + Sync>(
    rt: &R,
    alloc: Global,
    row: &Row,
) -> Result<bool, AllocError> {
    let reader = row.before.as_bytes().chain(row.script.as_bytes());
    ends_with(rt, alloc, reader, row.outcome, row.totals)
}

/// With memory enough the totals are those of the script, whatever the schedule.
#[test]
fn storm_totals(rt: HostRuntime) {
    for row in SCRIPTS {
        let is_so = is_stormed(&rt, rt.alloc(), row);
        assert!(rt; is_so == Ok(true), "{}{}", row.before, row.script);
    }
}

/// Tells whether these totals are written, with ample memory. None where memory was refused, or a thread was not
/// started, and nothing is written.
fn are_totals(outcome: Result<(), RunFault>, written: &[u8], totals: &str) -> Option<bool> {
    match outcome {
        Err(RunFault::OutOfMemory | RunFault::Mismatch) if written.is_empty() => None,
        _ => Some(outcome.is_ok() && written == totals.as_bytes()),
    }
}

/// Tells the same of the storm of two ports; None too where the test has no memory itself.
fn is_stormed_if_ample<R: Threads + Wait + Sync>(rt: &R, alloc: Global) -> Option<bool> {
    let (outcome, written) = storm_of(rt, alloc, TWO_PORTS.as_bytes()).ok()?;
    are_totals(outcome, &written, TWO_PORTS_TOTALS)
}

/// Where an allocation was made to fail it is told, or that a thread was not started, and nothing is written. What
/// the test takes for itself may be refused too, and then there was no storm.
#[test]
fn memory_short_or_ample(rt: HostRuntime) {
    let told = is_stormed_if_ample(&rt, rt.alloc());
    assert!(rt; told.is_none() || told == Some(true));
}

#[test]
fn a_second_read_that_fails(rt: HostRuntime) {
    let reader = ONE_UNIT.as_bytes().chain(FailingReader);
    assert!(rt; ends_with(&rt, rt.alloc(), reader, Err(RunFault::Read), "") == Ok(true));
}

/// Tells whether a slice with less room than the totals need has their first octets.
fn is_cut_at<R: Threads + Wait + Sync>(
    rt: &R,
    alloc: Global,
    room: usize,
) -> Result<bool, AllocError> {
    let totals = ONE_UNIT_TOTALS.as_bytes();
    let mut taken = vec![in alloc; 0; room]?;
    let mut sink = Sink::new(alloc, &mut taken[..])?;
    let mut source = Source::new(ONE_UNIT.as_bytes());
    let outcome = run_storm(rt, alloc, &mut source, &mut sink);
    drop(sink);
    Ok(outcome == Err(RunFault::Write) && totals.starts_with(&taken))
}

#[test]
fn a_writer_that_stops(rt: HostRuntime) {
    for room in 0..ONE_UNIT_TOTALS.len() {
        assert!(rt; is_cut_at(&rt, rt.alloc(), room) == Ok(true), "{room}");
    }
}

/// Tells whether a storm of more spaces than may be ends so, and writes nothing.
fn is_too_long<R: Threads + Wait + Sync>(rt: &R, alloc: Global) -> Result<bool, AllocError> {
    let spaces = vec![in alloc; b' '; 1_048_577]?;
    ends_with(rt, alloc, spaces.as_slice(), Err(RunFault::TooLong), "")
}

#[test]
fn longer_than_may_be(rt: HostRuntime) {
    assert!(rt; is_too_long(&rt, rt.alloc()) == Ok(true));
}
