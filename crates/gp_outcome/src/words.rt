//! Why something did not pass, in words.
ghost use Rattle.std.specs.Prelude.{◌≡◌, ◌++◌, IfOk, OnOk, decimal};
ghost use Rattle.gp_outcome.specs.Words as spec;

use crate::outcome::Failure;
use gp_compare::{Difference, LineEnd, ShownLine};
use gp_folder::Part;
use gp_json::push_quoted;
use itoa::Buffer;
use std::alloc::{AllocError, Global};

/// Appends a text.
pub(crate) fn push_text(out: &mut Vec<u8>, text: &str) -> Result<(), AllocError>
    ensures { OnOk result (out.new.items ≡ out.old.items ++ text.now) }
{
    out.extend_from_slice(text.as_bytes())
}

/// Appends a number.
pub(crate) fn push_number(out: &mut Vec<u8>, number: u64) -> Result<(), AllocError>
    ensures { OnOk result (out.new.items ≡ out.old.items ++ decimal number) }
{
    let mut digits = Buffer::new();
    out.extend_from_slice(digits.format(number).as_bytes())
}

/// Tells what stands behind the octets of a line that are shown, where it isn't a line feed.
fn end_text(end: LineEnd) -> &'static str
    ensures { result.now ≡ spec.end_text end }
{
    match end {
        LineEnd::Feed => "",
        LineEnd::Text => " with no line feed behind it",
        LineEnd::More => " and more",
    }
}

/// Tells whether there is no such line.
pub(crate) fn is_no_line(line: &ShownLine) -> bool
    ensures { result ≡ spec.is_no_line line.now }
{
    match (line.octets.as_slice(), line.end) {
        ([], LineEnd::Text) => true,
        _ => false,
    }
}

/// Appends a line between quotation marks, as JSON spells it; the end, where there is no such line.
fn push_shown(out: &mut Vec<u8>, line: &ShownLine) -> Result<(), AllocError>
    ensures { OnOk result (out.new.items ≡ out.old.items ++ spec.shown_text line.now) }
{
    if is_no_line(line) {
        return push_text(out, "the end");
    }
    push_quoted(out, line.octets.as_slice())?;
    push_text(out, end_text(line.end))
}

/// Appends where two texts differ, and the line on both sides.
fn push_difference(out: &mut Vec<u8>, what: &str, difference: &Difference) -> Result<(), AllocError>
    ensures { OnOk result (out.new.items ≡ out.old.items ++ spec.difference_text what.now difference.now) }
{
    push_text(out, "line ")?;
    push_number(out, difference.line)?;
    push_text(out, " of ")?;
    push_text(out, what)?;
    push_text(out, ", octet ")?;
    push_number(out, difference.octet)?;
    push_text(out, ": expected ")?;
    push_shown(out, &difference.expected)?;
    push_text(out, ", got ")?;
    push_shown(out, &difference.got)
}

/// Tells which file beside the script it is, before what is told of it.
fn part_text(part: Part) -> &'static str
    ensures { result.now ≡ spec.part_text part }
{
    match part {
        Part::Script => "",
        Part::Trace => "its .trace: ",
        Part::Faults => "its .faults: ",
    }
}

/// Tells why something did not pass, where that takes no number and no name; empty where it does.
fn plain_text(failure: &Failure) -> &'static str
    ensures { result.now ≡ spec.plain_text failure.now }
{
    match failure {
        Failure::NoScripts => "no script in it, whose name ends in .toml",
        Failure::NoScript => "no script beside it, whose name ends in .toml",
        Failure::NothingBeside => {
            "nothing beside it to compare with, neither .trace nor .faults; --bless writes its .trace"
        }
        Failure::BothBeside => ".trace and .faults stand beside it, of which one can't be right",
        Failure::Right => "it is a script, but its .faults says that it is wrong",
        Failure::NothingPlayed => {
            "a play of it writes no line, so nothing was compared; give it an [[event]] that does, as frames = 1"
        }
        Failure::Stopped => "it was not played to its end",
        Failure::OutOfMemory => "out of memory",
        Failure::Unwritten { .. } => "its .trace was not written: ",
        Failure::Unread { part, .. } => part_text(*part),
        Failure::Unlisted { .. }
        | Failure::Wrong { .. }
        | Failure::OtherTrace(_)
        | Failure::OtherFault(_) => "",
    }
}

/// Appends the cause that is known of it, or the line that differs, if there is one.
fn push_cause(out: &mut Vec<u8>, failure: &Failure) -> Result<(), AllocError>
    ensures { OnOk result (out.new.items ≡ out.old.items ++ spec.cause_text failure.now) }
{
    match failure {
        Failure::Unread { part: _, cause }
        | Failure::Unlisted { cause }
        | Failure::Wrong { told: cause }
        | Failure::Unwritten { cause } => push_text(out, cause.as_str()),
        Failure::OtherTrace(difference) => push_difference(out, "its .trace", difference),
        Failure::OtherFault(difference) => push_difference(out, "its .faults", difference),
        Failure::NoScripts
        | Failure::NoScript
        | Failure::NothingBeside
        | Failure::BothBeside
        | Failure::Right
        | Failure::NothingPlayed
        | Failure::Stopped
        | Failure::OutOfMemory => Ok(()),
    }
}

/// Appends why something did not pass.
fn push_why(out: &mut Vec<u8>, failure: &Failure) -> Result<(), AllocError>
    ensures { OnOk result (out.new.items ≡ out.old.items ++ spec.why_text failure.now) }
{
    push_text(out, plain_text(failure))?;
    push_cause(out, failure)
}

/// Tells why something did not pass, in words, without a line feed: the first line that differs, where one does. Fails
/// where memory was refused.
pub(crate) fn why(alloc: Global, failure: &Failure) -> Result<Vec<u8>, AllocError>
    ensures { IfOk result (λ text. text.items ≡ spec.why_text failure.now) }
{
    let mut out = Vec::new(alloc);
    push_why(&mut out, failure)?;
    Ok(out)
}
