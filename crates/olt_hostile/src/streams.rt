//! Readers and writers that fail at each place in turn: nothing is read after a failed read, and what was written is
//! the beginning of what should have been.

use crate::tally::Tally;
use gp_decode::{DecodeFault, decode_line};
use gp_ploam::Mask;
use gp_replay::{RunFault, run_replay};
use gp_stream::{Sink, Source};
use std::alloc::{AllocError, Global};
use std::io;
use std::io::{ErrorKind, Read, Write};

/// A search, and two frames.
const SCRIPT: &str = "licences = 0
[[port]]
[[event]]
port = 0
command = \"search\"
[[event]]
port = 0
frames = 2
";

/// Its trace.
const TRACE: &str = "\
0 0 search = searching
0 1 frame = ok
0 2 frame = ok sent ff010000000000000000000058
";

/// A script whose trace is longer than what a sink gathers before it writes.
const FRAMES: &str = "licences = 0\n[[port]]\n[[event]]\nport = 0\nframes = 4000\n";

/// A code, and its line.
const CODE: &str = "ff03004142434400000001001b";

const LINE: &str = "Assign_ONU-ID 0 ABCD00000001\n";

/// What a failed read or write may be told as. Each is a fault, also those after which another try might do.
const KINDS: [ErrorKind; 4] = [
    ErrorKind::Other,
    ErrorKind::Interrupted,
    ErrorKind::WouldBlock,
    ErrorKind::UnexpectedEof,
];

/// Gives one octet a read, and fails at one read, counted from 1.
#[derive(Drop)]
struct SlowReader<'a> {
    rest: &'a [u8],
    reads: usize,
    fails_at: usize,
    kind: ErrorKind,
}

impl Read for SlowReader<'_> {
    fn read(&mut self, buffer: &mut [u8]) -> io::Result<usize> {
        self.reads = self.reads.saturating_add(1);
        if self.reads == self.fails_at {
            return Err(io::Error::from(self.kind));
        }
        match (self.rest.split_first(), buffer.first_mut()) {
            (Some((first, rest)), Some(place)) => {
                *place = *first;
                self.rest = rest;
                Ok(1)
            }
            _ => Ok(0),
        }
    }
}

/// Takes one octet a write until it has no room, and then fails. It fails at one flush too, counted from 1.
#[derive(Drop)]
struct ShortWriter {
    taken: Vec<u8>,
    room: usize,
    flushes: usize,
    fails_at: usize,
    kind: ErrorKind,
}

impl Write for ShortWriter {
    fn write(&mut self, buffer: &[u8]) -> io::Result<usize> {
        if self.taken.len() >= self.room {
            return Err(io::Error::from(self.kind));
        }
        match buffer.first() {
            Some(first) => {
                self.taken.push(*first)?;
                Ok(1)
            }
            None => Ok(0),
        }
    }

    fn flush(&mut self) -> io::Result<()> {
        self.flushes = self.flushes.saturating_add(1);
        if self.flushes == self.fails_at {
            return Err(io::Error::from(self.kind));
        }
        Ok(())
    }
}

/// Makes a reader that fails at one read.
fn reader(script: &'static str, fails_at: usize, kind: ErrorKind) -> Source<SlowReader<'static>> {
    Source::new(SlowReader {
        rest: script.as_bytes(),
        reads: 0,
        fails_at,
        kind,
    })
}

/// Makes a writer that takes so many octets, and fails at one flush.
fn writer(
    alloc: Global,
    room: usize,
    fails_at: usize,
    kind: ErrorKind,
) -> Result<Sink<ShortWriter>, AllocError> {
    let taken = Vec::new(alloc);
    Sink::new(
        alloc,
        ShortWriter {
            taken,
            room,
            flushes: 0,
            fails_at,
            kind,
        },
    )
}

/// Tells whether these are the first octets of a text, so many.
fn is_start(taken: &[u8], text: &[u8], count: usize) -> bool {
    taken.len() == count && text.starts_with(taken)
}

/// Tells whether a replay ends with a fault of reading where it comes to the read that fails, and then reads no more
/// of the source.
fn is_read_to(alloc: Global, fails_at: usize, kind: ErrorKind) -> Result<bool, AllocError> {
    let mut source = reader(SCRIPT, fails_at, kind);
    let mut sink = Sink::new(alloc, Vec::new(alloc))?;
    let outcome = run_replay(alloc, &mut source, &mut sink);
    // One read for each octet, and one more at the end.
    if fails_at == 0 || fails_at > SCRIPT.len() + 1 {
        return Ok(outcome == Ok(()) && sink.into_inner().as_slice() == TRACE.as_bytes());
    }
    let again = run_replay(alloc, &mut source, &mut sink);
    let fault = Err(RunFault::Read);
    Ok(outcome == fault && again == fault && sink.into_inner().is_empty())
}

/// Has each read fail in turn.
fn check_reads<R: AllocGlobal + Print>(rt: &R) -> io::Result<bool> {
    let mut tally = Tally::default();
    for fails_at in 0..SCRIPT.len() + 4 {
        let right = is_read_to(rt.alloc(), fails_at, ErrorKind::Other)?;
        tally.count("read", fails_at, right);
    }
    for kind in KINDS {
        tally.count("kind of fault", 1, is_read_to(rt.alloc(), 1, kind)?);
    }
    tally.tell(rt, "replays of one octet a read")
}

/// Tells whether a replay to a writer with so much room writes the first octets of the trace, and then no more.
fn is_written_to(alloc: Global, room: usize, kind: ErrorKind) -> Result<bool, AllocError> {
    let mut sink = writer(alloc, room, 0, kind)?;
    let outcome = run_replay(alloc, &mut Source::new(SCRIPT.as_bytes()), &mut sink);
    let taken = room.min(TRACE.len());
    if room >= TRACE.len() {
        let writer = sink.into_inner();
        return Ok(outcome == Ok(()) && is_start(&writer.taken, TRACE.as_bytes(), taken));
    }
    let again = run_replay(alloc, &mut Source::new(SCRIPT.as_bytes()), &mut sink);
    let writer = sink.into_inner();
    let fault = Err(RunFault::Write);
    Ok(outcome == fault && again == fault && is_start(&writer.taken, TRACE.as_bytes(), taken))
}

/// Has each write fail in turn.
fn check_writes<R: AllocGlobal + Print>(rt: &R) -> io::Result<bool> {
    let mut tally = Tally::default();
    for room in 0..TRACE.len() + 2 {
        let right = is_written_to(rt.alloc(), room, ErrorKind::Other)?;
        tally.count("octets of room", room, right);
    }
    for kind in KINDS {
        tally.count("kind of fault", 7, is_written_to(rt.alloc(), 7, kind)?);
    }
    tally.tell(rt, "replays to one octet a write")
}

/// Writes the trace of so many frames.
fn trace_of_frames(alloc: Global, frames: u32) -> Result<String, AllocError> {
    let mut trace = String::new(alloc);
    for number in 0..frames {
        let line = format!(in alloc; "0 {number} frame = ok\n")?;
        trace.push_str(line.as_str())?;
    }
    Ok(trace)
}

/// A trace that goes out in two pieces: rooms on either side of each, and each flush.
fn check_pieces<R: AllocGlobal + Print>(rt: &R) -> io::Result<bool> {
    let alloc = rt.alloc();
    let mut tally = Tally::default();
    let trace = trace_of_frames(alloc, 4000)?;
    let trace = trace.as_bytes();
    for room in [1, 65_500, 65_535, 65_536, 65_537, 70_889, 70_890] {
        let mut sink = writer(alloc, room, 0, ErrorKind::Other)?;
        let outcome = run_replay(alloc, &mut Source::new(FRAMES.as_bytes()), &mut sink);
        let wanted = if room < trace.len() {
            Err(RunFault::Write)
        } else {
            Ok(())
        };
        let writer = sink.into_inner();
        tally.count(
            "octets of room",
            room,
            outcome == wanted && is_start(&writer.taken, trace, room),
        );
    }
    for (fails_at, wanted) in [
        (1, Err(RunFault::Write)),
        (2, Err(RunFault::Write)),
        (3, Ok(())),
    ] {
        let mut sink = writer(alloc, trace.len(), fails_at, ErrorKind::Other)?;
        let outcome = run_replay(alloc, &mut Source::new(FRAMES.as_bytes()), &mut sink);
        let writer = sink.into_inner();
        let whole = writer.taken.len() == trace.len();
        let right = trace.starts_with(&writer.taken) && writer.taken.last() == Some(&b'\n');
        tally.count(
            "flush",
            fails_at,
            outcome == wanted && right && whole == (fails_at > 1),
        );
    }
    tally.tell(rt, "a trace of two pieces")
}

/// Tells whether a decoded line goes as far as the writer takes it.
fn is_told_to(alloc: Global, room: usize, fails_at: usize) -> Result<bool, AllocError> {
    let mut sink = writer(alloc, room, fails_at, ErrorKind::Other)?;
    let outcome = decode_line(alloc, CODE, false, Mask::Plain, &mut sink);
    let again = decode_line(alloc, CODE, false, Mask::Plain, &mut sink);
    let wanted = if room < LINE.len() || fails_at == 1 {
        Err(DecodeFault::Write)
    } else {
        Ok(())
    };
    let writer = sink.into_inner();
    let taken = writer.taken.as_slice();
    if wanted.is_err() {
        return Ok(outcome == wanted && again == wanted && is_start(taken, LINE.as_bytes(), room));
    }
    Ok(outcome == wanted && taken.starts_with(LINE.as_bytes()))
}

/// Has each write of a decoded line fail in turn, and its flush.
fn check_lines<R: AllocGlobal + Print>(rt: &R) -> io::Result<bool> {
    let mut tally = Tally::default();
    for room in 0..LINE.len() + 2 {
        tally.count("octets of room", room, is_told_to(rt.alloc(), room, 0)?);
    }
    tally.count("flush", 1, is_told_to(rt.alloc(), LINE.len(), 1)?);
    tally.tell(rt, "lines to one octet a write")
}

/// Reads from and writes to whatever fails. A writer that takes nothing, as a slice that is full, is in the tests of
/// `gp_replay` and `gp_decode`.
pub(crate) fn check<R: AllocGlobal + Print>(rt: &R) -> io::Result<bool> {
    let mut right = check_reads(rt)?;
    right &= check_writes(rt)?;
    right &= check_pieces(rt)?;
    right &= check_lines(rt)?;
    Ok(right)
}
