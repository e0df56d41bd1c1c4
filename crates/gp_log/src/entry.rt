//! A line of a log that is not in its usual form, read by its fields: the port where it stands there, the time, the
//! word, and what stands behind that.
ghost use Rattle.std.specs.Prelude.{◌≡◌};
ghost use Rattle.gp_log.specs.Log as spec;
ghost use Rattle.gp_log.specs.Says.{said_of};
ghost use Rattle.gp_log.specs.Usual.{said_entry, written};

use crate::fault::LogFault;
use crate::fields::{next, number_in};
use crate::line::LogLine;
use crate::says::{down_line, grant_line, up_line};
use crate::time::time_of;
use crate::word::Kind;
use gp_lines::LAST_PORT;

/// Reads what stands behind a word.
#[inline(always)]
pub(crate) fn said_line(
    port: u8,
    time: u64,
    kind: Kind,
    text: &[u8],
    line: &mut LogLine,
) -> Result<(), LogFault>
    ensures { written result line.new ≡ said_entry port time (said_of kind text.now) }
{
    match kind {
        Kind::Down => down_line(port, time, text, line),
        Kind::Up => up_line(port, time, text, line),
        Kind::Grant => grant_line(port, time, text, line),
    }
}

/// Reads a time, and what stands behind a word.
#[tactic(auto, unfolding(crate::specs::Log::entry_of))]
fn entry_of(
    port: u8,
    time: &[u8],
    kind: Kind,
    text: &[u8],
    line: &mut LogLine,
) -> Result<(), LogFault>
    ensures { written result line.new ≡ spec.entry_of port time.now kind text.now }
{
    let time = time_of(time)?;
    said_line(port, time, kind, text, line)
}

/// Reads the same behind a port.
#[tactic(auto, unfolding(crate::specs::Log::ported_entry))]
fn ported_entry(
    digits: &[u8],
    time: &[u8],
    kind: Kind,
    text: &[u8],
    line: &mut LogLine,
) -> Result<(), LogFault>
    ensures { written result line.new ≡ spec.ported_entry digits.now time.now kind text.now }
{
    let port = number_in(LogFault::Number, u64::from(LAST_PORT), digits)? as u8;
    entry_of(port, time, kind, text, line)
}

/// Reads a line of a log.
pub(crate) fn entry_in(text: &[u8], line: &mut LogLine) -> Result<(), LogFault>
    ensures { written result line.new ≡ spec.entry_in text.now }
{
    let (first, behind) = next(text);
    let (second, behind) = next(behind);
    if let Some(kind) = Kind::from_word(second) {
        return entry_of(0, first, kind, behind, line);
    }
    let (third, behind) = next(behind);
    match Kind::from_word(third) {
        Some(kind) => ported_entry(first, second, kind, behind, line),
        None => Err(LogFault::Word),
    }
}
