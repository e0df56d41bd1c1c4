//! One code, or the words of one message, as a JSON object on standard output; and how that ended.
ghost use Rattle.std.specs.Prelude.{◌≡◌, ◌↔◌, IfOk, Some};
ghost use Rattle.gp_decode.specs.declared.fault.DecodeFault.{DecodeFault as AnyFault};
ghost use Rattle.gp_decode.specs.Line.{HasDecodeFault, IsOfText};
ghost use Rattle.oltctl.specs.Statuses.{IsEncoded, IsShown, shown_status};

use crate::reporting::report;
use gp_code_objects::{decode_object, encode_object};
use gp_decode::DecodeFault;
use gp_encode::WordsFault;
use gp_flow::{LinesFault, Unanswered};
use gp_ploam::Mask;
use gp_report::{SUCCESS, encode_report, input_report, line_report};
use gp_stream::Sink;
use std::io;

/// Says by an object which message a code is, or its fault.
fn show_code<R: AllocGlobal + Print>(
    rt: &R,
    code: &str,
    upstream: bool,
    mask: Mask,
) -> Result<Option<DecodeFault>, Unanswered>
    ensures { IfOk result (λ told. (fault : AnyFault) → IsOfText fault
        → (told ≡ Some fault) ↔ HasDecodeFault mask code.now fault) }
{
    let mut sink = Sink::new(rt.alloc(), io::writer(rt))?;
    decode_object(rt.alloc(), code, upstream, mask, &mut sink)
}

/// Says on standard error which fault a code has, or why it was not said, and answers the exit status.
fn end_shown<R: Eprint>(rt: &R, outcome: &Result<Option<DecodeFault>, Unanswered>) -> u8
    ensures { result ≡ shown_status outcome.now }
{
    match outcome {
        Ok(None) => SUCCESS,
        Ok(Some(fault)) => report(rt, line_report(fault)),
        Err(fault) => report(rt, input_report(&LinesFault::Line(*fault))),
    }
}

/// Says by an object which message a code is, or its fault, says how that ended, and answers the exit status.
pub(crate) fn decode_shown<R: AllocGlobal + Print + Eprint>(
    rt: &R,
    code: &str,
    upstream: bool,
    mask: Mask,
) -> u8
    ensures { IsShown code.now mask result }
{
    end_shown(rt, &show_code(rt, code, upstream, mask))
}

/// Gives the code of words by an object, or their fault.
fn show_words<R: AllocGlobal + Print>(
    rt: &R,
    words: &[u8],
    upstream: bool,
    mask: Mask,
) -> Result<Option<WordsFault>, Unanswered> {
    let mut sink = Sink::new(rt.alloc(), io::writer(rt))?;
    encode_object(rt.alloc(), words, upstream, mask, &mut sink)
}

/// Gives the code of words by an object, or their fault, says how that ended, and answers the exit status.
pub(crate) fn encode_shown<R: AllocGlobal + Print + Eprint>(
    rt: &R,
    words: &[u8],
    upstream: bool,
    mask: Mask,
) -> u8
    ensures { IsEncoded result }
{
    match show_words(rt, words, upstream, mask) {
        Ok(None) => SUCCESS,
        Ok(Some(fault)) => report(rt, encode_report(&fault)),
        Err(fault) => report(rt, input_report(&LinesFault::Line(fault))),
    }
}
