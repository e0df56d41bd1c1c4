//! The command `decode`: which message a code is, and each code of a list or of the lines of standard input. One code
//! as an object stands in `objects.rt`.
ghost use Rattle.std.specs.Prelude.{◌≡◌, ◌≢◌, ◌↔◌, ℕ, List, Err, OnOk};
ghost use Rattle.gp_decode.specs.declared.fault.DecodeFault.{DecodeFault as AnyFault};
ghost use Rattle.gp_decode.specs.Line.{HasDecodeFault, IsOfText, SaysIn};
ghost use Rattle.oltctl.specs.Joined.{word_of};
ghost use Rattle.oltctl.specs.Statuses.{AreDecoded, IsDecoded, lines_status};

use crate::joined::lines_of_codes;
use crate::observed::{Observed, Seen};
use crate::reporting::{report, report_at};
use gp_code_objects::decode_objects;
use gp_decode::{DecodeFault, Direction, FaultAt, decode_each_in, decode_line_in};
use gp_flow::LinesFault;
use gp_ploam::Mask;
use gp_report::{SUCCESS, input_report, line_report};
use gp_stream::{Sink, Source};
use std::io;
use std::io::Read;

/// Says which message a code is, on standard output.
fn decode<R: AllocGlobal + Print>(
    rt: &R,
    code: &str,
    upstream: bool,
    mask: Mask,
    names: bool,
) -> Result<(), DecodeFault>
    ensures ok { OnOk result ((line : List ℕ) × SaysIn names upstream mask code.now line) }
    ensures fault { result ≢ Err DecodeFault.OutOfMemory → (fault : AnyFault) → IsOfText fault
        → (result ≡ Err fault) ↔ HasDecodeFault mask code.now fault }
{
    let mut sink = Sink::new(rt.alloc(), io::writer(rt))?;
    decode_line_in(rt.alloc(), code, upstream, mask, names, &mut sink)
}

/// Does so, and answers the exit status.
pub(crate) fn decode_alone<R: AllocGlobal + Print + Eprint>(
    rt: &R,
    code: &str,
    upstream: bool,
    mask: Mask,
    names: bool,
) -> u8
    ensures { IsDecoded code.now upstream mask names result }
{
    match decode(rt, code, upstream, mask, names) {
        Ok(()) => SUCCESS,
        Err(fault) => report(rt, line_report(&fault)),
    }
}

/// How codes of lines are told.
#[derive(Clone, Copy)]
pub(crate) struct CodesTold {
    pub(crate) mask: Mask,
    /// With names of the standard.
    pub(crate) names: bool,
    /// By objects, which have these names in any case.
    pub(crate) json: bool,
}

/// Says of each line that a reader gives which message's code it is, on standard output.
fn decode_from<R: AllocGlobal + Print, S: Read + Drop>(
    rt: &R,
    reader: S,
    direction: Direction,
    told: CodesTold,
) -> Result<Option<FaultAt>, LinesFault> {
    let CodesTold { mask, names, json } = told;
    let mut source = Source::endless(reader);
    let mut sink = Sink::new(rt.alloc(), io::writer(rt))?;
    if json {
        decode_objects(rt.alloc(), &mut source, &mut sink, direction, mask)
    } else {
        decode_each_in(rt.alloc(), &mut source, &mut sink, direction, mask, names)
    }
}

/// Gives the word before a code that says whose it is; none where it says that itself.
fn word_of(direction: Direction) -> &'static str
    ensures { result.now ≡ word_of direction }
{
    match direction {
        Direction::Up => "up ",
        Direction::Down => "down ",
        Direction::Each => "",
    }
}

/// Says so of these codes, each as a line that says whose it is, so that an empty one is not passed over; or of each
/// line of standard input.
fn decode_all<R: AllocGlobal + Print + Input>(
    rt: &R,
    codes: Option<&[&str]>,
    direction: Direction,
    told: CodesTold,
    seen: &mut Seen<'_>,
) -> Result<Option<FaultAt>, LinesFault> {
    match codes {
        None | Some(["-"]) => decode_from(rt, Observed::new(rt.reader(), seen), direction, told),
        Some(codes) => {
            let text = lines_of_codes(rt.alloc(), word_of(direction), codes)?;
            decode_from(rt, text.as_slice(), Direction::Each, told)
        }
    }
}

/// Says which line had the first fault, or why not all were answered, and answers the exit status.
fn end_lines<R: AllocGlobal + Eprint>(
    rt: &R,
    outcome: &Result<Option<FaultAt>, LinesFault>,
    seen: &Seen<'_>,
) -> u8
    ensures { result ≡ lines_status outcome.now }
{
    match outcome {
        Ok(None) => SUCCESS,
        Ok(Some(first)) => report_at(rt, line_report(&first.fault), first.line),
        Err(LinesFault::Read) => seen.tell_unread(rt),
        Err(fault) => report(rt, input_report(fault)),
    }
}

/// Says of codes which messages they are, says how that ended, and answers the exit status.
pub(crate) fn decode_lines_of<R: AllocGlobal + Print + Eprint + Input>(
    rt: &R,
    codes: Option<&[&str]>,
    direction: Direction,
    told: CodesTold,
) -> u8
    ensures { AreDecoded result }
{
    let mut seen = Seen::new(None);
    let outcome = decode_all(rt, codes, direction, told, &mut seen);
    end_lines(rt, &outcome, &seen)
}
