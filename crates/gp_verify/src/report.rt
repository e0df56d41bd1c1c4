//! What is told of the line that can't be, as lines.
ghost use Rattle.std.specs.Prelude.{◌≡◌, ◌++◌, IfOk, OnOk, position};
ghost use Rattle.std.specs.Option.{option_copied};
ghost use Rattle.gp_lines.specs.Parts.{parts_of};
ghost use Rattle.gp_lines.specs.Trace.{is_equals};
ghost use Rattle.gp_verify.specs.Report as spec;

use gp_explain::{Form, Telling};
use gp_lines::{LAST_PORT, cut, number_in};
use gp_ploam::Mask;
use std::alloc::{AllocError, Global};

/// Gives the place of the first `=`.
fn first_equals(line: &[u8]) -> Option<usize>
    ensures { result ≡ position is_equals line.now }
{
    line.iter().position(|octet| *octet == b'=')
}

/// Gives the answer that a line tells, with the `=` before it.
fn told_answer(line: &[u8]) -> &[u8]
    ensures { result.now ≡ spec.told_answer line.now }
{
    match first_equals(line) {
        Some(at) => &line[at..],
        None => &[],
    }
}

/// Tells that any other free number would do, where the machine picked one.
fn free_choice(answer: &[u8]) -> Option<&'static str>
    ensures { option_copied result ≡ spec.free_choice answer.now }
{
    if answer.starts_with(b"= found ") {
        Some("any free ONU-ID would do")
    } else if answer.starts_with(b"= allocated ") {
        Some("any free Alloc-ID would do")
    } else {
        None
    }
}

/// Tells that any other free number would do in the place of the one that the machine said, where it picked one.
pub(crate) fn choice_in(said: &[u8]) -> Option<&'static str>
    ensures { option_copied result ≡ spec.free_choice (spec.told_answer said.now) }
{
    free_choice(told_answer(said))
}

/// Gives a line as it is, with its line feed.
pub(crate) fn as_it_is(alloc: Global, text: &[u8]) -> Result<Vec<u8>, AllocError>
    ensures { IfOk result (λ shown. shown.items ≡ spec.as_it_is text.now) }
{
    let mut shown = Vec::from_slice(alloc, text)?;
    shown.extend_from_slice(b"\n")?;
    Ok(shown)
}

/// Gives a line in words, as `oltctl explain` tells it, with its line feed.
pub(crate) fn in_words(alloc: Global, mask: Mask, text: &[u8]) -> Result<Vec<u8>, AllocError>
    ensures { IfOk result (λ shown. spec.IsInWords mask text.now shown.items) }
{
    let mut telling = Telling::new(alloc, mask, Form::Words, false);
    let mut shown = Vec::new(alloc);
    telling.tell(text, &mut shown)?;
    Ok(shown)
}

/// Begins a report with a line behind its number. The line comes as it is shown, with its line feed.
fn numbered_line(alloc: Global, line: u64, shown: &[u8]) -> Result<Vec<u8>, AllocError>
    ensures { IfOk result (λ report. report.items ≡ spec.numbered_line line shown.now) }
{
    let head = format!(in alloc; "line {line}: ")?;
    let mut report = Vec::new(alloc);
    report.extend_from_slice(head.as_bytes())?;
    report.extend_from_slice(shown)?;
    Ok(report)
}

/// Adds a line of its own, if there is one.
fn push_line_if(report: &mut Vec<u8>, text: Option<&str>) -> Result<(), AllocError>
    ensures { OnOk result (report.new.items ≡ report.old.items ++ spec.line_if (option_copied text.entry)) }
{
    match text {
        None => Ok(()),
        Some(text) => {
            report.extend_from_slice(text.as_bytes())?;
            report.extend_from_slice(b"\n")
        }
    }
}

/// Adds what the machine says in the line's place, which comes as it is shown, with its line feed.
fn push_instead(report: &mut Vec<u8>, machine: &[u8], said: &[u8]) -> Result<(), AllocError>
    ensures { OnOk result (report.new.items ≡ report.old.items ++ spec.told_instead machine.now said.now) }
{
    report.extend_from_slice(b"machine: ")?;
    report.extend_from_slice(machine)?;
    push_line_if(report, choice_in(said))
}

/// Adds why the line is not the one that the machine says.
fn push_why(report: &mut Vec<u8>, reason: &[u8]) -> Result<(), AllocError>
    ensures { OnOk result (report.new.items ≡ report.old.items ++ spec.why_line reason.now) }
{
    report.extend_from_slice(b"why: ")?;
    report.extend_from_slice(reason)?;
    report.extend_from_slice(b"\n")
}

/// Makes what is told of a line in whose place the machine says nothing, by its number, as it is shown, and by why that
/// is so.
pub(crate) fn line_alone(
    alloc: Global,
    line: u64,
    shown: &[u8],
    reason: &[u8],
) -> Result<Vec<u8>, AllocError>
    ensures { IfOk result (λ report. report.items ≡ spec.line_alone line shown.now reason.now) }
{
    let mut report = numbered_line(alloc, line, shown)?;
    push_why(&mut report, reason)?;
    Ok(report)
}

/// Makes what is told of a line by its number and the machine's line, as they are shown, by what the machine said, and
/// by why that is another.
pub(crate) fn both_lines(
    alloc: Global,
    line: u64,
    shown: &[u8],
    machine: &[u8],
    said: &[u8],
    reason: &[u8],
) -> Result<Vec<u8>, AllocError>
    ensures { IfOk result
        (λ report. report.items ≡ spec.both_lines line shown.now machine.now said.now reason.now) }
{
    let mut report = numbered_line(alloc, line, shown)?;
    push_instead(&mut report, machine, said)?;
    push_why(&mut report, reason)?;
    Ok(report)
}

/// Gives the port that a line begins with.
pub(crate) fn port_of(line: &[u8]) -> Option<u8>
    ensures { result ≡ spec.port_of line.now }
{
    let (digits, _) = cut(line);
    match number_in(0, u64::from(LAST_PORT), digits) {
        Ok(port) => Some(port as u8),
        Err(_) => None,
    }
}

/// Gives what the machine said without its line feed.
pub(crate) fn without_feed(said: &[u8]) -> &[u8]
    ensures { result.now ≡ spec.without_feed said.now }
{
    &said[..said.len().saturating_sub(1)]
}
