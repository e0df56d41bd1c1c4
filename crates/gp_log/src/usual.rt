//! Lines in their usual forms, read from the left in one pass; any other line is read by its parts.
ghost use Rattle.std.specs.Prelude.{◌≡◌, ◌≤◌, ◌++◌, IfSome, codes, length};
ghost use Rattle.gp_log.specs.Usual.{Begins, Fronts, ReadsTold, TraceLeads, written};

use crate::entry::{entry_in, said_line};
use crate::fault::LogFault;
use crate::fields::is_separator;
use crate::leading::{event_before, first_equals, leading_burst, leading_kind, leading_number};
use crate::line::{LogLine, any_line};
use crate::time::{FRAME_NANOSECONDS, LAST_FRAME};
use crate::traced::{event_line, frame_line};
use gp_lines::LAST_PORT;

/// What stands in front of the word of a line: a port and a number, or a number alone.
#[derive(Clone, Copy)]
struct Front<'a> {
    port: u8,
    number: u64,
    /// Whether a line of a trace may begin so.
    is_traced: bool,
    rest: &'a [u8],
}

/// Reads the number behind a port and this separator.
fn behind_port<'a>(whole: &[u8], port: u64, parting: u8, text: &'a [u8]) -> Option<Front<'a>>
    requires { Begins whole.now port parting text.now }
    ensures { IfSome result (λ front. Fronts whole.now front.port front.number front.is_traced front.rest.now) }
{
    let (number, rest) = leading_number(text)?;
    let [next, rest @ ..] = rest else {
        return None;
    };
    if !is_separator(*next) || port > u64::from(LAST_PORT) {
        return None;
    }
    Some(Front {
        port: port as u8,
        number,
        is_traced: parting == b' ' && *next == b' ',
        rest,
    })
}

/// Reads a port and a number, or a number alone.
fn front_of(text: &[u8]) -> Option<Front<'_>>
    ensures { IfSome result (λ front. Fronts text.now front.port front.number front.is_traced front.rest.now) }
{
    let (first, rest) = leading_number(text)?;
    let [parting, rest @ ..] = rest else {
        return None;
    };
    if !is_separator(*parting) {
        return None;
    }
    match rest {
        [b'0'..=b'9', ..] => behind_port(text, first, *parting, rest),
        _ => Some(Front {
            port: 0,
            number: first,
            is_traced: false,
            rest,
        }),
    }
}

/// Reads a line of a trace with a burst.
fn read_burst(text: &[u8], port: u8, fields: &[u8], line: &mut LogLine) -> Result<(), LogFault>
    requires { TraceLeads text.now port (codes "burst " ++ fields.now) }
    ensures { ReadsTold text.now (written result line.new) }
{
    match leading_burst(fields) {
        Some((event, answer)) => event_line(port, event, answer, line),
        None => any_line(text, line),
    }
}

/// Reads a line of a trace with any event, of which the first `=` stands at this place.
fn read_event(
    text: &[u8],
    port: u8,
    told: &[u8],
    at: usize,
    line: &mut LogLine,
) -> Result<(), LogFault>
    requires leads { TraceLeads text.now port told.now }
    requires within { at ≤ length told.now }
    ensures { ReadsTold text.now (written result line.new) }
{
    match event_before(told, at) {
        Some((event, answer)) => event_line(port, event, answer, line),
        None => any_line(text, line),
    }
}

/// Reads a line that begins as one of a trace.
fn read_traced(text: &[u8], port: u8, told: &[u8], line: &mut LogLine) -> Result<(), LogFault>
    requires { TraceLeads text.now port told.now }
    ensures { ReadsTold text.now (written result line.new) }
{
    if let Some(answer) = told.strip_prefix(b"frame = ") {
        return frame_line(port, answer, line);
    }
    if let Some(fields) = told.strip_prefix(b"burst ") {
        return read_burst(text, port, fields, line);
    }
    match first_equals(told) {
        Some(at) => read_event(text, port, told, at, line),
        None => entry_in(text, line),
    }
}

/// Reads what stands behind a front.
fn read_behind(text: &[u8], front: Front<'_>, line: &mut LogLine) -> Result<(), LogFault>
    requires { Fronts text.now front.port front.number front.is_traced front.rest.now }
    ensures { ReadsTold text.now (written result line.new) }
{
    match leading_kind(front.rest) {
        Some((kind, said)) if front.number <= LAST_FRAME => said_line(
            front.port,
            front.number * FRAME_NANOSECONDS,
            kind,
            said,
            line,
        ),
        _ if front.is_traced => read_traced(text, front.port, front.rest, line),
        _ => any_line(text, line),
    }
}

/// Reads the text of a line that is no remark.
pub(crate) fn read_usual(text: &[u8], line: &mut LogLine) -> Result<(), LogFault>
    ensures { ReadsTold text.now (written result line.new) }
{
    match front_of(text) {
        Some(front) => read_behind(text, front, line),
        None => any_line(text, line),
    }
}
