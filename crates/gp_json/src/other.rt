//! A line that is none of a trace as a JSON object.
ghost use Rattle.std.specs.Prelude.{◌≡◌, None, OnOk, MatchOption, Some};
ghost use Rattle.gp_lines.specs.Parts.{parts_of};
ghost use Rattle.gp_json.specs.Object.{done_object, done_of, error_of, line_object, one_of, other_object, two_of};

use crate::text::{is_number, push_quoted};
use crate::unit::write_unit;
use gp_lines::cut;
use std::alloc::AllocError;

/// Writes a line that tells nothing of a trace, in the place of what the buffer holds.
pub(crate) fn write_line(text: &[u8], out: &mut Vec<u8>) -> Result<(), AllocError>
    ensures { OnOk result (out.new.items ≡ line_object text.now) }
{
    out.clear();
    out.extend_from_slice(b"{\"line\":")?;
    push_quoted(out, text)?;
    out.extend_from_slice(b"}\n")
}

/// Gives the only part of a text.
pub(crate) fn one_in(text: &[u8]) -> Option<&[u8]>
    ensures { MatchOption result (one_of (parts_of text.now) ≡ None)
        (λ part. one_of (parts_of text.now) ≡ Some part.now) }
{
    match cut(text) {
        (part, None) => Some(part),
        (_, Some(_)) => None,
    }
}

/// Gives both parts of a text that has two.
fn two_in(text: &[u8]) -> Option<(&[u8], &[u8])>
    ensures { MatchOption result (two_of (parts_of text.now) ≡ None)
        (λ parts. two_of (parts_of text.now) ≡ Some (parts.0.now, parts.1.now)) }
{
    let (first, Some(rest)) = cut(text) else {
        return None;
    };
    let second = one_in(rest)?;
    Some((first, second))
}

/// Gives the number and the fault of a line that is no turn, if this is how one is answered.
fn error_in(text: &[u8]) -> Option<(&[u8], &[u8])>
    ensures { MatchOption result (error_of (parts_of text.now) ≡ None)
        (λ parts. error_of (parts_of text.now) ≡ Some (parts.0.now, parts.1.now)) }
{
    let (word, Some(rest)) = cut(text) else {
        return None;
    };
    let (line, kind) = two_in(rest)?;
    if word == b"error".as_slice() && is_number(line) {
        Some((line, kind))
    } else {
        None
    }
}

/// Gives the number of a line that is done, if this is how it is told.
fn done_in(text: &[u8]) -> Option<&[u8]>
    ensures { MatchOption result (done_of (parts_of text.now) ≡ None)
        (λ line. done_of (parts_of text.now) ≡ Some line.now) }
{
    let (word, Some(rest)) = cut(text) else {
        return None;
    };
    let line = one_in(rest)?;
    if word == b"done".as_slice() && is_number(line) {
        Some(line)
    } else {
        None
    }
}

/// Writes that a line is done, what is told of a unit, or any other line.
fn write_done(text: &[u8], out: &mut Vec<u8>) -> Result<(), AllocError>
    ensures { OnOk result (out.new.items ≡ done_object (done_of (parts_of text.now)) text.now) }
{
    let Some(line) = done_in(text) else {
        return write_unit(text, out);
    };
    out.clear();
    out.extend_from_slice(b"{\"done\":")?;
    out.extend_from_slice(line)?;
    out.extend_from_slice(b"}\n")
}

/// Writes a line that is none of a trace as a JSON object, with a line feed behind it, in the place of what the buffer
/// holds: `error LINE KIND`, by which a line that is no turn is answered, as two fields, `done LINE`, which ends an
/// answer, as a number, `unit I STATE [onu N] [eqd EQD] [dark]`, which tells what a simulated unit is, as the fields of
/// its parts, and any other line as a text.
pub fn write_other(text: &[u8], out: &mut Vec<u8>) -> Result<(), AllocError>
    ensures { OnOk result (out.new.items ≡ other_object text.now) }
{
    let Some((line, kind)) = error_in(text) else {
        return write_done(text, out);
    };
    out.clear();
    out.extend_from_slice(b"{\"error\":")?;
    push_quoted(out, kind)?;
    out.extend_from_slice(b",\"line\":")?;
    out.extend_from_slice(line)?;
    out.extend_from_slice(b"}\n")
}
