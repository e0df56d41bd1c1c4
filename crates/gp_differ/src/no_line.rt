//! Why a text is no line of a trace: its first part that isn't one.
ghost use Rattle.std.specs.Prelude.{◌≡◌};
ghost use Rattle.gp_lines.specs.Reading.{event_of};
ghost use Rattle.gp_lines.specs.Reading as read;
ghost use Rattle.gp_differ.specs.NoLine as spec;
ghost use Rattle.gp_differ.specs.Parts.{view_of};

use crate::parts::{LineParts, spelled};
use gp_lines::{LAST_PORT, LineFault, number_in, parse_event};

/// Tells what an event has to be, by the first fault of one.
fn no_event(fault: LineFault) -> &'static str
    ensures { result.now ≡ spec.no_event fault }
{
    match fault {
        LineFault::Number => "the event: a number has decimal digits alone",
        LineFault::Serial => {
            "the event: a serial number has 12 characters, as `ABCD00000001`, or 16 hexadecimal digits"
        }
        LineFault::Hex => "the event: a code has 26 hexadecimal digits",
        LineFault::Range => "the event: a delay is 4294967295 at most, and an Alloc-ID 4095",
        LineFault::Word | LineFault::Long | LineFault::Space => {
            "the event: `frame`, `burst AT CODE` or a command stands behind the number"
        }
    }
}

/// Tells what an event has to be, or what is missing behind it.
fn why_event(event: &[u8]) -> &'static str
    ensures { result.now ≡ spec.why_event (event_of event.now) }
{
    match parse_event(event) {
        Ok(_) => "the answer: ` = ` and the reply stand behind the event",
        Err(fault) => no_event(fault),
    }
}

/// Tells the same of what stands behind a port.
fn why_number(number: &[u8], event: &[u8]) -> &'static str
    ensures { result.now ≡ spec.why_number (read.number_in 0 18446744073709551615 number.now) event.now }
{
    match number_in(0, u64::MAX, number) {
        Ok(_) => why_event(event),
        Err(_) => "the number: how many entries the port had before stands behind the port",
    }
}

/// Tells the same of the parts of a line.
fn why_parts(parts: &LineParts<'_>) -> &'static str
    ensures { result.now ≡ spec.why_parts (view_of parts.now) }
{
    match number_in(0, u64::from(LAST_PORT), parts.port) {
        Ok(_) => why_number(parts.number, parts.event),
        Err(_) => "the port: a line begins with one, 0 to 15",
    }
}

/// Tells why a text is no line of a trace: its first part, from the left, that isn't one, and what has to stand there.
/// Of a line of a trace it says what stands behind the event. The text comes without its line feed. Takes no memory.
pub fn why_no_line(text: &[u8]) -> &'static str
    ensures { result.now ≡ spec.why_no_line text.now }
{
    why_parts(&spelled(text))
}
