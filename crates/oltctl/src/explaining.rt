//! The command `explain`: a trace is written again, with its codes in words, as JSON, or as a log, and what was counted
//! of its ports and units.
ghost use Rattle.std.specs.Prelude.{◌≡◌, IsSome, None, OnOk};
ghost use Rattle.oltctl.specs.Statuses.{IsExplained, IsToldAs, is_counted, lines_told_status, told_status};

use crate::observed::{Observed, Seen};
use crate::reporting::{mask_number, report, report_at, report_silence};
use gp_command_line::{Explanation, TraceForm};
use gp_explain::{ExplainFault, Telling, explain_trace};
use gp_flow::LinesFault;
use gp_ploam::Mask;
use gp_report::{BAD_INPUT, SUCCESS, explain_report};
use gp_stream::{Sink, Source};
use gp_summed::HeardCodes;
use gp_transcribe::transcribe_trace;
use gp_with_units::{ToldTrace, TraceWritten, explain_for_summary, explain_with_units};
use std::alloc::{AllocError, Global};
use std::io;
use std::io::{Read, Write};
use std::rt::Files;

/// Tells whether it is wanted what became of each port and unit.
fn is_counted(wanted: &Explanation<'_>) -> bool
    ensures { result ≡ is_counted wanted.now }
{
    !wanted.as_log && (wanted.units || wanted.summary)
}

/// A trace of which only how many lines there are is known, or why not all were told.
fn told_alone(lines: Result<u64, ExplainFault>) -> ToldTrace
    ensures lines { result.lines ≡ lines }
    ensures codes { result.codes ≡ None }
{
    ToldTrace { lines, codes: None }
}

/// Writes the trace that a source gives again, and behind it what was counted of its ports and units, or that alone.
fn tell_counted<T: Read, W: Write + Drop>(
    alloc: Global,
    source: &mut Source<T>,
    wanted: &Explanation<'_>,
    writer: W,
) -> ToldTrace
    ensures { OnOk result.lines (IsSome result.codes) }
{
    let TraceForm { form, timed } = wanted.told;
    if wanted.summary {
        let mut writer = writer;
        return explain_for_summary(alloc, wanted.mask, form, source, &mut writer);
    }
    match explain_with_units(alloc, wanted.mask, form, timed, source, writer) {
        Ok(TraceWritten { told, writer: _ }) => told,
        Err(AllocError) => told_alone(Err(ExplainFault::from(AllocError))),
    }
}

/// Writes the trace that a source gives again, in words, as JSON or as a log.
fn tell_lines<T: Read, W: Write + Drop>(
    alloc: Global,
    source: &mut Source<T>,
    wanted: &Explanation<'_>,
    writer: W,
) -> Result<u64, ExplainFault> {
    let mut sink = Sink::new(alloc, writer)?;
    if wanted.as_log {
        return transcribe_trace(alloc, source, &mut sink);
    }
    let told = wanted.told;
    let telling = Telling::new(alloc, wanted.mask, told.form, told.timed);
    explain_trace(alloc, telling, source, &mut sink)
}

/// Writes the trace that a reader gives again, to standard output.
fn explain_from<R: AllocGlobal + Print, T: Read + Drop>(
    rt: &R,
    trace: T,
    wanted: &Explanation<'_>,
) -> ToldTrace
    ensures { IsToldAs wanted.now result }
{
    let mut source = Source::endless(trace);
    let out = io::writer(rt);
    if !is_counted(wanted) {
        return told_alone(tell_lines(rt.alloc(), &mut source, wanted, out));
    }
    tell_counted(rt.alloc(), &mut source, wanted, out)
}

/// Does so of the trace of a file, or of standard input.
fn explain_file<R: AllocGlobal + Files + Print + Input>(
    rt: &R,
    wanted: &Explanation<'_>,
    seen: &mut Seen<'_>,
) -> ToldTrace
    ensures { IsToldAs wanted.now result }
{
    match wanted.trace {
        None => explain_from(rt, Observed::new(rt.reader(), seen), wanted),
        Some(path) => match std::fs::open(rt, path) {
            Ok(trace) => explain_from(rt, Observed::new(trace, seen), wanted),
            Err(error) => {
                seen.failed(&error);
                told_alone(Err(ExplainFault::Lines(LinesFault::Read)))
            }
        },
    }
}

/// Says how many codes can't be read under the mask, if there are any.
fn tell_garbled<R: Eprint>(rt: &R, mask: Mask, codes: HeardCodes) {
    let garbled = codes.garbled;
    if garbled > 0 {
        let mask = mask_number(mask);
        let _ = eprintln!(rt;
            "oltctl: codes whose check octet is wrong under mask {mask} (--mask), not heard: {garbled}"
        );
    }
}

/// Says that nothing was heard, where it is told what became of each port and unit and nothing was, and answers the
/// exit status.
fn end_told<R: Eprint>(rt: &R, codes: Option<HeardCodes>, lines: u64) -> u8
    ensures { result ≡ lines_told_status codes lines }
{
    match codes {
        Some(_) if lines == 0 => report_silence(rt),
        Some(codes) if codes.garbled != 0 && !codes.is_read => BAD_INPUT,
        _ => SUCCESS,
    }
}

/// Says how writing a trace again ended, with the number of the line that is none of a trace, and answers the exit
/// status.
fn end_explain<R: AllocGlobal + Eprint>(rt: &R, mask: Mask, told: &ToldTrace, seen: &Seen<'_>) -> u8
    ensures { result ≡ told_status told.now }
{
    if let Some(codes) = told.codes {
        tell_garbled(rt, mask, codes);
    }
    match &told.lines {
        Ok(lines) => end_told(rt, told.codes, *lines),
        Err(fault) => match fault {
            ExplainFault::Refused { line, why: _ } => report_at(rt, explain_report(fault), *line),
            ExplainFault::Lines(LinesFault::Read) => seen.tell_unread(rt),
            ExplainFault::Lines(_) => report(rt, explain_report(fault)),
        },
    }
}

/// Writes a trace again, says how that ended, and answers the exit status.
pub(crate) fn explain<R: AllocGlobal + Files + Print + Eprint + Input>(
    rt: &R,
    wanted: &Explanation<'_>,
) -> u8
    ensures { IsExplained wanted.now result }
{
    let mut seen = Seen::new(wanted.trace);
    let told = explain_file(rt, wanted, &mut seen);
    end_explain(rt, wanted.mask, &told, &seen)
}
