//! `read_line`, and what a line says: nothing, an entry of a log, or what a line of a trace tells. In its usual form it
//! is read in one pass, and else by its parts.
ghost use Rattle.std.specs.Prelude.{◌≡◌};
ghost use Rattle.gp_lines.specs.Turn.{is_remark, without_return};
ghost use Rattle.gp_log.specs.Line.{Reads, ReadsText};
ghost use Rattle.gp_log.specs.Line as spec;
ghost use Rattle.gp_log.specs.Usual.{ReadsTold, written};

use crate::entry::entry_in;
use crate::fault::LogFault;
use crate::said::Said;
use crate::traced::event_line;
use crate::usual::read_usual;
use gp_lines::{LONGEST_LINE, split_line};

/// What a line says.
#[derive(Clone, Copy, Debug, PartialEq, Eq)]
pub enum LogLine {
    /// Nothing: the line is empty, or a remark.
    Remark,
    /// A line of a log. The port is 0 to `gp_lines::LAST_PORT`, the time in nanoseconds.
    Log {
        port: u8,
        time: u64,
        said: Said,
    },
    /// A line of a trace: what was said first, and what behind that. Its time is that of its port, which has one frame
    /// more where this line is one's.
    Trace {
        port: u8,
        is_frame: bool,
        first: Option<Said>,
        second: Option<Said>,
    },
}

impl LogLine {
    /// Tells whether it says nothing: the line is empty, or a remark.
    pub fn says_nothing(&self) -> bool
        ensures { result ≡ spec.says_nothing self.now }
    {
        matches!(self, LogLine::Remark)
    }
}

/// Gives a text without a byte order mark in front.
fn without_order_mark(line: &[u8]) -> &[u8]
    ensures { result.now ≡ spec.without_order_mark line.now }
{
    match line {
        [0xEF, 0xBB, 0xBF, text @ ..] => text,
        _ => line,
    }
}

/// Gives a text without a carriage return at its end.
fn without_return(line: &[u8]) -> &[u8]
    ensures { result.now ≡ without_return line.now }
{
    match line.strip_suffix(b"\r") {
        Some(text) => text,
        None => line,
    }
}

/// Gives the text of a line: neither a byte order mark in front nor a carriage return at its end is a part of it.
pub fn text_of(line: &[u8]) -> &[u8]
    ensures { result.now ≡ spec.text_of line.now }
{
    without_return(without_order_mark(line))
}

/// Tells whether a text is passed over.
fn is_remark(text: &[u8]) -> bool
    ensures { result ≡ is_remark text.now }
{
    matches!(text, [] | [b'#', ..])
}

/// Reads any line that is no remark, by its parts.
#[inline(never)]
pub(crate) fn any_line(text: &[u8], line: &mut LogLine) -> Result<(), LogFault>
    ensures { ReadsTold text.now (written result line.new) }
{
    match split_line(text) {
        Some(traced) => event_line(traced.port, traced.event, traced.answer, line),
        None => entry_in(text, line),
    }
}

/// Reads the text of a line.
fn read_text(text: &[u8], line: &mut LogLine) -> Result<(), LogFault>
    ensures { ReadsText text.now (written result line.new) }
{
    if is_remark(text) {
        *line = LogLine::Remark;
        return Ok(());
    }
    read_usual(text, line)
}

/// Reads a line, which comes without its line feed.
///
/// A line of a log is `[PORT] TIME down CODE`, `[PORT] TIME up CODE [DELAY]` or `[PORT] TIME grant GRANT`, a grant
/// `search`, `range N` or `poll N`, with N any octet. Fields are parted by spaces, tabs, commas and semicolons, one or
/// more. The port is 0 where one field stands in front of the word; where two do, they are port and time. Numbers are
/// decimal, and zeros may stand in front. A delay is below 2 ^ 32.
///
/// A time is a whole number of frames, or a number with the unit `s`, `ms`, `us`, `µs` or `ns` right behind it, perhaps
/// with a decimal point between digits. It is kept as nanoseconds, of which a frame has 125,000: so frames and the
/// times of a clock can be compared. What is finer is cut off. For `down` and `up` other words may stand (`word.rt`).
///
/// A code is 26 hexadecimal digits in either case, perhaps quoted, with `0x` in front, and with a colon, a hyphen, a
/// dot or a space between two octets. It ends with its thirteenth octet: a number behind that is the delay.
///
/// Any line that `gp_lines::split_line` cuts is one of a trace. Of its answer only that to a frame is looked at: `ok`,
/// what was sent, what was granted, and perhaps an alarm, its fields as those of a log.
///
/// A byte order mark in front and a carriage return at the end are no part of the line. Whether a time falls, or a
/// check octet is right, is not known here. Takes no memory.
pub fn read_line(line: &[u8]) -> Result<LogLine, LogFault>
    ensures { Reads line.now result }
{
    if line.len() > LONGEST_LINE {
        return Err(LogFault::Long);
    }
    let mut read = LogLine::Remark;
    match read_text(text_of(line), &mut read) {
        Ok(()) => Ok(read),
        Err(fault) => Err(fault),
    }
}
