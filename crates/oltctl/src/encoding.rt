//! The command `encode`: the code of a message in words, and of those of each line of standard input. One message as an
//! object stands in `objects.rt`.
ghost use Rattle.std.specs.Prelude.{◌≡◌};
ghost use Rattle.oltctl.specs.Statuses.{AreEncoded, IsEncoded, encoded_status};

use crate::joined::joined;
use crate::objects::encode_shown;
use crate::observed::{Observed, Seen};
use crate::reporting::{report, report_at};
use gp_code_objects::encode_objects;
use gp_encode::{EncodeFault, WordsFaultAt, encode_line, encode_lines};
use gp_flow::LinesFault;
use gp_ploam::Mask;
use gp_report::{SUCCESS, encode_report, input_report, memory_report, write_report};
use gp_stream::{Sink, Source};
use std::io;

/// Gives the code of the words of each line of standard input.
fn encode_input<R: AllocGlobal + Print + Input>(
    rt: &R,
    upstream: bool,
    mask: Mask,
    json: bool,
    seen: &mut Seen<'_>,
) -> Result<Option<WordsFaultAt>, LinesFault> {
    let mut source = Source::endless(Observed::new(rt.reader(), seen));
    let mut sink = Sink::new(rt.alloc(), io::writer(rt))?;
    if json {
        encode_objects(rt.alloc(), &mut source, &mut sink, upstream, mask)
    } else {
        encode_lines(rt.alloc(), &mut source, &mut sink, upstream, mask)
    }
}

/// Says which line of words had the first fault, or why not all were answered, and answers the exit status.
fn end_words<R: AllocGlobal + Eprint>(
    rt: &R,
    outcome: &Result<Option<WordsFaultAt>, LinesFault>,
    seen: &Seen<'_>,
) -> u8
    ensures { result ≡ encoded_status outcome.now }
{
    match outcome {
        Ok(None) => SUCCESS,
        Ok(Some(first)) => report_at(rt, encode_report(&first.fault), first.line),
        Err(LinesFault::Read) => seen.tell_unread(rt),
        Err(fault) => report(rt, input_report(fault)),
    }
}

/// Gives the codes of the lines of standard input, says how that ended, and answers the exit status.
pub(crate) fn encode_lines_of<R: AllocGlobal + Print + Eprint + Input>(
    rt: &R,
    upstream: bool,
    mask: Mask,
    json: bool,
) -> u8
    ensures { AreEncoded result }
{
    let mut seen = Seen::new(None);
    let outcome = encode_input(rt, upstream, mask, json, &mut seen);
    end_words(rt, &outcome, &seen)
}

/// Gives the code of words, on standard output, and answers the exit status.
pub(crate) fn encode<R: AllocGlobal + Print + Eprint>(
    rt: &R,
    words: &[&str],
    upstream: bool,
    mask: Mask,
    json: bool,
) -> u8
    ensures { IsEncoded result }
{
    let Ok(text) = joined(rt.alloc(), words, b' ') else {
        return report(rt, memory_report());
    };
    if json {
        return encode_shown(rt, text.as_slice(), upstream, mask);
    }
    let Ok(mut sink) = Sink::new(rt.alloc(), io::writer(rt)) else {
        return report(rt, memory_report());
    };
    match encode_line(text.as_slice(), upstream, mask, &mut sink) {
        Ok(()) => SUCCESS,
        Err(EncodeFault::Words(fault)) => report(rt, encode_report(&fault)),
        Err(EncodeFault::Write) => report(rt, write_report()),
    }
}
