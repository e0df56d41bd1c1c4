//! Traces that are told again, and what was counted and heard of them.
ghost use Rattle.std.specs.Prelude.{◌≡◌};
ghost use Rattle.gp_ploam.specs.declared.check.Mask.TheVariants.{Plain};
ghost use Rattle.gp_machine.specs.Config.{max_ports};

use crate::compared::{Field, Wanted, has_field, is_text, is_text_or_refused};
use gp_explain::{ExplainFault, NoLine};
use gp_flow::{LinesFault, Unanswered};
use gp_ploam::Mask;
use gp_stream::Source;
use gp_summary::SummaryForm;
use gp_summed::{Explained, HeardCodes, explain_summed};
use gp_tally::{Began, Nowhere};
use std::alloc::{AllocError, Global};
use std::io;
use std::io::{ErrorKind, Write};
use std::marker::Brand;

/// One unit is found, and gets an ONU-ID.
const FOUND: &str = "0 0 search = searching\n\
    0 1 frame = ok\n\
    0 2 frame = ok sent ff010000000000000000000058\n\
    0 3 frame = ok sent ff010000000000000000000058\n\
    0 4 frame = ok sent ff010000000000000000000058\n\
    0 5 frame = ok grant search\n\
    0 6 burst 100000 ff01414243440000000100002c = found 0\n";

const ASSIGNED: &str = "0 7 frame = ok sent ff03004142434400000001001b\n\
    0 8 frame = ok sent ff03004142434400000001001b\n\
    0 9 frame = ok sent ff03004142434400000001001b\n\
    0 10 frame = ok grant range 0\n";

/// It is ranged.
const RANGED: &str = "0 11 burst 100000 0001414243440000000100006b = ranged 0 211040\n\
    0 12 frame = ok sent 0004000003386000000000009c\n\
    0 13 frame = ok sent 0004000003386000000000009c\n\
    0 14 frame = ok sent 0004000003386000000000009c\n\
    0 15 frame = ok\n";

/// It gets two Alloc-IDs.
const ALLOCATED: &str = "0 16 alloc ABCD00000001 = allocated 300\n\
    0 17 frame = ok sent 000a12c00100000000000000b9\n\
    0 18 frame = ok sent 000a12c00100000000000000b9\n\
    0 19 frame = ok sent 000a12c00100000000000000b9\n\
    0 20 alloc ABCD00000001 = allocated 301\n\
    0 21 frame = ok sent 000a12d001000000000000003c\n\
    0 22 frame = ok sent 000a12d001000000000000003c\n\
    0 23 frame = ok sent 000a12d001000000000000003c\n";

/// It is lost.
const LOST: &str = "0 24 frame = ok alarm LOS ABCD00000001\n\
    0 25 frame = ok sent 00050000000000000000000063\n\
    0 26 frame = ok sent 00050000000000000000000063\n\
    0 27 frame = ok sent 00050000000000000000000063\n";

/// What is told behind each of these.
const TOLD: [&str; 5] = [
    "port 0: units 0, frames 5, bursts 1, commands 1\n\
    unit ABCD00000001: asking, found 1, ranged 0, lost 0, last frame 5\n",
    "port 0: units 1, frames 9, bursts 1, commands 1\n\
    unit ABCD00000001: assigned, onu 0, found 1, ranged 0, lost 0, last frame 5\n",
    "port 0: units 1, frames 13, bursts 2, commands 1\n\
    unit ABCD00000001: operating, onu 0, eqd 211040, found 1, ranged 1, lost 0, last frame 9, took frames 4\n",
    "port 0: units 1, frames 19, bursts 2, commands 3\n\
    unit ABCD00000001: operating, onu 0, eqd 211040, allocs 300 301, found 1, ranged 1, lost 0, last frame 9, \
    took frames 4\n",
    "port 0: units 0, frames 23, bursts 2, commands 3, alarm LOS 1\n\
    unit ABCD00000001: gone, found 1, ranged 1, lost 1, alarm LOS 1, last frame 9, took frames 4\n",
];

/// How many lines the trace has up to there.
const LINES: [u64; 5] = [7, 11, 16, 24, 28];

/// Takes one octet at a time.
#[derive(Drop)]
struct SlowWriter {
    taken: Vec<u8>,
}

impl Write for SlowWriter {
    fn write(&mut self, bytes: &[u8]) -> io::Result<usize> {
        let count = bytes.len().min(1);
        match self.taken.extend_from_slice(&bytes[..count]) {
            Ok(()) => Ok(count),
            Err(_) => Err(io::Error::from(ErrorKind::OutOfMemory)),
        }
    }

    fn flush(&mut self) -> io::Result<()> {
        Ok(())
    }
}

/// What came of a trace: how many lines there are, what was written, the summary, and the codes that were heard.
type Told<W> = (
    Result<u64, ExplainFault>,
    W,
    Result<Vec<u8>, AllocError>,
    Result<HeardCodes, AllocError>,
);

/// Tells a trace to a writer, which held something.
fn told_by<B: Began, W: Write + Drop>(
    alloc: Global,
    form: SummaryForm,
    trace: &[u8],
    writer: W,
) -> Result<Told<W>, AllocError>
    requires held { W.contents writer ≡ B.held }
    requires mask { B.mask ≡ Plain }
    requires ports { B.ports ≡ max_ports }
{
    let mut source = Source::new(trace);
    let Explained {
        told,
        summary,
        codes,
        counting,
    } = explain_summed::<B, &[u8], W>(alloc, Mask::Plain, form, &mut source, writer)?;
    let (writer, _) = counting.into_parts();
    Ok((told, writer, summary, codes))
}

/// Tells a trace to a writer.
fn told<W: Write + Drop>(
    alloc: Global,
    form: SummaryForm,
    trace: &str,
    writer: W,
) -> Result<Told<W>, AllocError> {
    told_by::<Brand, W>(alloc, form, trace.as_bytes(), writer)
}

/// The first so many parts of the trace.
fn trace_of(alloc: Global, parts: usize) -> Result<String, AllocError> {
    let mut trace = String::new(alloc);
    for part in [FOUND, ASSIGNED, RANGED, ALLOCATED, LOST]
        .iter()
        .take(parts)
    {
        trace.push_str(part)?;
    }
    Ok(trace)
}

/// Tells the first so many parts of the trace, and this behind them, to a slow writer.
fn told_slowly(alloc: Global, parts: usize, behind: &str) -> Result<Told<SlowWriter>, AllocError> {
    let mut trace = trace_of(alloc, parts)?;
    trace.push_str(behind)?;
    let taken = Vec::new(alloc);
    told(alloc, SummaryForm::Text, &trace, SlowWriter { taken })
}

/// Tells whether a trace was written, and then summed so.
fn are_told(told: &Told<SlowWriter>, trace: &str, wanted: &str) -> bool {
    told.1.taken.as_slice() == trace.as_bytes() && is_text(&told.2, wanted)
}

/// Tells whether the first so many parts of the trace were told, with this outcome, and summed so.
fn is_told(
    alloc: Global,
    told: &Told<SlowWriter>,
    parts: usize,
    found: Result<u64, ExplainFault>,
    wanted: &str,
) -> Result<bool, AllocError> {
    let trace = trace_of(alloc, parts)?;
    Ok(told.0 == found && are_told(told, &trace, wanted))
}

/// Tells whether so many parts of the trace are told and summed so, with this behind them.
fn is_summed(
    alloc: Global,
    parts: usize,
    behind: &str,
    found: Result<u64, ExplainFault>,
    wanted: &str,
) -> Result<bool, AllocError> {
    let told = told_slowly(alloc, parts, behind)?;
    is_told(alloc, &told, parts, found, wanted)
}

/// A unit stands as it was heard behind each part of the trace, in whatever pieces its lines are taken.
#[test]
fn a_unit_stands_as_it_was_heard(rt: HostRuntime) {
    for place in 0..TOLD.len() {
        let found = is_summed(rt.alloc(), place + 1, "", Ok(LINES[place]), TOLD[place]);
        assert!(rt; found == Ok(true), "{place}");
    }
}

/// What stands from the first line on that is none of a trace is neither told nor heard.
#[test]
fn a_line_that_is_none_ends_it(rt: HostRuntime) {
    let behind = "0 down 00050000000000000000000063\n";
    let why = NoLine::NotALine;
    let refused = Err(ExplainFault::Refused { line: 12, why });
    assert!(rt; is_summed(rt.alloc(), 2, behind, refused, TOLD[1]) == Ok(true));
}

/// Tells whether all three parts of a trace were told, and summed or memory for that refused. None where memory for
/// what is told was refused.
fn is_ample(told: &Told<Nowhere>) -> Option<bool> {
    if told.0 == Err(ExplainFault::Lines(LinesFault::Line(Unanswered::OutOfMemory))) {
        return None;
    }
    Some(told.0 == Ok(LINES[2]) && is_text_or_refused(&told.2, TOLD[2]))
}

/// Tells the same of a trace that is told now; None too where nothing is read.
fn is_told_if_ample(alloc: Global) -> Option<bool> {
    let trace = trace_of(alloc, 3).ok()?;
    let told = told(alloc, SummaryForm::Text, &trace, Nowhere).ok()?;
    is_ample(&told)
}

/// Where a request for memory is refused, nothing is read; or all of it is, and there is no summary.
#[test]
fn memory_short_or_ample(rt: HostRuntime) {
    assert!(rt; is_told_if_ample(rt.alloc()) != Some(false));
}

/// What is told of the first four parts of the trace, as JSON.
fn objects(alloc: Global) -> Result<Vec<u8>, AllocError> {
    let trace = trace_of(alloc, 4)?;
    let (_, _, text, _) = told(alloc, SummaryForm::Json, &trace, Nowhere)?;
    text
}

/// Tells whether that has this field.
fn is_told_with(alloc: Global, field: &Field) -> Result<bool, AllocError> {
    let text = objects(alloc)?;
    has_field(alloc, &text, 2, field)
}

const FIELDS: [Field; 19] = [
    (0, "port", Wanted::Number(0)),
    (0, "units", Wanted::Number(1)),
    (0, "frames", Wanted::Number(19)),
    (0, "bursts", Wanted::Number(2)),
    (0, "commands", Wanted::Number(3)),
    (0, "refused_stray", Wanted::Number(0)),
    (0, "alarm_DG", Wanted::Number(0)),
    (1, "port", Wanted::Number(0)),
    (1, "onu", Wanted::Number(0)),
    (1, "eqd", Wanted::Number(211_040)),
    (1, "found", Wanted::Number(1)),
    (1, "ranged", Wanted::Number(1)),
    (1, "lost", Wanted::Number(0)),
    (1, "alarm_SUF", Wanted::Number(0)),
    (1, "last_frame", Wanted::Number(9)),
    (1, "took_frames", Wanted::Number(4)),
    (1, "serial", Wanted::Text("ABCD00000001")),
    (1, "state", Wanted::Text("operating")),
    (1, "allocs", Wanted::Numbers(&[300, 301])),
];

#[test]
fn a_unit_is_read_as_json(rt: HostRuntime) {
    for field in &FIELDS {
        assert!(rt; is_told_with(rt.alloc(), field) == Ok(true), "{}", field.1);
    }
}

/// A burst, and a message on the last port, whose check octets are wrong.
const GARBLED_UP: &str = "0 0 burst 5 ff01414243440000000100002d = refused 2 garbled\n";

const GARBLED_DOWN: &str = "15 0 frame = ok sent ff03004142434400000001001c\n";

/// A trace, how many of its codes can't be read, and whether one can.
const CODES: [(&'static str, u64, bool); 6] = [
    ("", 0, false),
    ("0 0 frame = ok\n", 0, false),
    (GARBLED_UP, 1, false),
    (GARBLED_DOWN, 1, false),
    (FOUND, 0, true),
    (ASSIGNED, 0, true),
];

/// The codes that are heard of a trace.
fn codes_of(alloc: Global, trace: &str) -> Result<HeardCodes, AllocError> {
    let (_, _, _, codes) = told(alloc, SummaryForm::Text, trace, Nowhere)?;
    codes
}

/// Tells whether these are heard.
fn are_codes(alloc: Global, trace: &str, garbled: u64, is_read: bool) -> bool {
    codes_of(alloc, trace) == Ok(HeardCodes { garbled, is_read })
}

/// All of these traces as one.
fn all_codes(alloc: Global) -> Result<String, AllocError> {
    let mut all = String::new(alloc);
    for (trace, _, _) in &CODES {
        all.push_str(trace)?;
    }
    Ok(all)
}

/// Tells whether these are heard of all.
fn are_all_codes(alloc: Global, garbled: u64, is_read: bool) -> Result<bool, AllocError> {
    let all = all_codes(alloc)?;
    Ok(are_codes(alloc, &all, garbled, is_read))
}

/// Codes with a wrong check octet are counted, up and down, each by itself and all together.
#[test]
fn garbled_codes_are_counted(rt: HostRuntime) {
    for (trace, garbled, is_read) in &CODES {
        assert!(rt; are_codes(rt.alloc(), trace, *garbled, *is_read), "{trace}");
    }
    assert!(rt; are_all_codes(rt.alloc(), 2, true) == Ok(true));
}
