//! The command `waves`: a log or a trace is written as a value change dump, to standard output.
ghost use Rattle.std.specs.Prelude.{◌≡◌};
ghost use Rattle.oltctl.specs.Statuses.{IsDumped, heard_status, waves_status};

use crate::observed::{Observed, Seen};
use crate::reporting::{
    refuse_option, report_before, report_behind, report_silence, tell_fallen, tell_garbled,
};
use gp_command_line::Dumping;
use gp_explain::ExplainFault;
use gp_flow::LinesFault;
use gp_options::waves_options;
use gp_report::{BAD_INPUT, SUCCESS};
use gp_stream::{Sink, Source};
use gp_waves::{Outside, WavesOptions, WavesSum, dump_waves};
use std::io;
use std::io::Read;
use std::rt::Files;

/// Dumps the log that a reader gives, to standard output.
fn dump_from<R: AllocGlobal + Print, T: Read + Drop>(
    rt: &R,
    log: T,
    options: &WavesOptions,
) -> Result<WavesSum, ExplainFault> {
    let mut source = Source::endless(log);
    let mut sink = Sink::new(rt.alloc(), io::writer(rt))?;
    dump_waves(rt.alloc(), options, &mut source, &mut sink)
}

/// Does so of the log of a file, or of standard input.
fn dump_file<R: AllocGlobal + Files + Print + Input>(
    rt: &R,
    log: Option<&str>,
    options: &WavesOptions,
    seen: &mut Seen<'_>,
) -> Result<WavesSum, ExplainFault> {
    match log {
        None => dump_from(rt, Observed::new(rt.reader(), seen), options),
        Some(path) => match std::fs::open(rt, path) {
            Ok(log) => dump_from(rt, Observed::new(log, seen), options),
            Err(error) => {
                seen.failed(&error);
                Err(ExplainFault::Lines(LinesFault::Read))
            }
        },
    }
}

/// Says how many lines were not heard, how many codes are garbled, and how many changes stand at a later time than
/// theirs, if any do.
fn tell_sum<R: Eprint>(rt: &R, options: &WavesOptions, sum: &WavesSum) {
    let WavesSum { fallen, late, .. } = *sum;
    tell_fallen(rt, fallen);
    tell_garbled(rt, options.mask, &sum.codes);
    if late > 0 {
        let _ = eprintln!(rt;
            "oltctl: changes of ports that are far behind, at a later time than theirs: {late}"
        );
    }
}

/// Says that nothing was heard, or nothing in the frames that are dumped, and answers the exit status: of codes that are
/// all garbled, which is told already, it is that of nothing that was heard.
fn end_dumped<R: Eprint>(rt: &R, options: &WavesOptions, sum: &WavesSum) -> u8
    ensures { result ≡ heard_status sum.now.heard sum.now.outside sum.now.codes }
{
    match sum.outside {
        Some(Outside::Before { last }) => report_before(rt, options.frames.from, last),
        Some(Outside::Behind { first }) => report_behind(rt, options.frames.to, first),
        None if sum.codes.are_all_garbled() => BAD_INPUT,
        None if sum.heard => SUCCESS,
        None => report_silence(rt),
    }
}

/// Says how dumping a log ended, with the number of the line that is none, and answers the exit status.
fn end_waves<R: AllocGlobal + Eprint>(
    rt: &R,
    options: &WavesOptions,
    outcome: &Result<WavesSum, ExplainFault>,
    seen: &Seen<'_>,
) -> u8
    ensures { result ≡ waves_status outcome.now }
{
    match outcome {
        Ok(sum) => {
            tell_sum(rt, options, sum);
            end_dumped(rt, options, sum)
        }
        Err(fault) => seen.end_log(rt, fault),
    }
}

/// Dumps a log, says how that ended, and answers the exit status.
pub(crate) fn waves<R: AllocGlobal + Files + Print + Eprint + Input>(
    rt: &R,
    wanted: &Dumping<'_>,
) -> u8
    ensures { IsDumped wanted.now result }
{
    match waves_options(wanted) {
        Err(option) => refuse_option(rt, option),
        Ok(options) => {
            let mut seen = Seen::new(wanted.log);
            let outcome = dump_file(rt, wanted.log, &options, &mut seen);
            end_waves(rt, &options, &outcome, &seen)
        }
    }
}
