//! The command `picture`: a log or a trace is drawn, to standard output.
ghost use Rattle.std.specs.Prelude.{◌≡◌};
ghost use Rattle.oltctl.specs.Statuses.{IsPictured, drawn_status, heard_status};

use crate::observed::{Observed, Seen};
use crate::reporting::{
    refuse_option, report_before, report_behind, report_silence, tell_fallen, tell_garbled,
};
use gp_command_line::Drawing;
use gp_explain::ExplainFault;
use gp_flow::LinesFault;
use gp_options::picture_options;
use gp_picture::{Outside, PictureOptions, PictureSum, draw_trace};
use gp_report::{BAD_INPUT, SUCCESS};
use gp_stream::{Sink, Source};
use std::io;
use std::io::Read;
use std::rt::Files;

/// Draws the log that a reader gives, to standard output.
fn draw_from<R: AllocGlobal + Print, T: Read + Drop>(
    rt: &R,
    log: T,
    options: &PictureOptions,
) -> Result<PictureSum, ExplainFault> {
    let mut source = Source::endless(log);
    let mut sink = Sink::new(rt.alloc(), io::writer(rt))?;
    draw_trace(rt.alloc(), options, &mut source, &mut sink)
}

/// Does so of the log of a file, or of standard input.
fn draw_file<R: AllocGlobal + Files + Print + Input>(
    rt: &R,
    log: Option<&str>,
    options: &PictureOptions,
    seen: &mut Seen<'_>,
) -> Result<PictureSum, ExplainFault> {
    match log {
        None => draw_from(rt, Observed::new(rt.reader(), seen), options),
        Some(path) => match std::fs::open(rt, path) {
            Ok(log) => draw_from(rt, Observed::new(log, seen), options),
            Err(error) => {
                seen.failed(&error);
                Err(ExplainFault::Lines(LinesFault::Read))
            }
        },
    }
}

/// Says that nothing was heard, or nothing in the frames that are drawn, and answers the exit status: of codes that are
/// all garbled, which is told already, it is that of nothing that was heard.
fn end_drawn<R: Eprint>(rt: &R, options: &PictureOptions, sum: &PictureSum) -> u8
    ensures { result ≡ heard_status sum.now.heard sum.now.outside sum.now.codes }
{
    match sum.outside {
        Some(Outside::Before { last }) => report_before(rt, options.frames.from, last),
        Some(Outside::Behind { first }) => report_behind(rt, options.frames.to, first),
        None if sum.codes.are_all_garbled() => BAD_INPUT,
        None if sum.heard => SUCCESS,
        None => report_silence(rt),
    }
}

/// Says how drawing a log ended, with the number of the line that is none, and answers the exit status.
fn end_picture<R: AllocGlobal + Eprint>(
    rt: &R,
    options: &PictureOptions,
    outcome: &Result<PictureSum, ExplainFault>,
    seen: &Seen<'_>,
) -> u8
    ensures { result ≡ drawn_status outcome.now }
{
    match outcome {
        Ok(sum) => {
            tell_fallen(rt, sum.fallen);
            tell_garbled(rt, options.mask, &sum.codes);
            end_drawn(rt, options, sum)
        }
        Err(fault) => seen.end_log(rt, fault),
    }
}

/// Draws a log, says how that ended, and answers the exit status.
pub(crate) fn picture<R: AllocGlobal + Files + Print + Eprint + Input>(
    rt: &R,
    wanted: &Drawing<'_, '_>,
) -> u8
    ensures { IsPictured wanted.now result }
{
    match picture_options(wanted) {
        Err(option) => refuse_option(rt, option),
        Ok(options) => {
            let mut seen = Seen::new(wanted.log);
            let outcome = draw_file(rt, wanted.log, &options, &mut seen);
            end_picture(rt, &options, &outcome, &seen)
        }
    }
}
