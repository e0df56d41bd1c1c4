//! What is told of the line that can't be, as a JSON object.
ghost use Rattle.std.specs.Prelude.{◌≡◌, ◌++◌, IfOk, OnOk};
ghost use Rattle.std.specs.Option.{option_copied};
ghost use Rattle.gp_verify.specs.Object as spec;

use super::verdict::Verdict;
use gp_json::push_quoted;
use itoa::Buffer;
use std::alloc::{AllocError, Global};

/// Gives what is wrong with a line.
fn kind_of(verdict: Verdict) -> &'static str
    ensures { result.now ≡ spec.kind_of verdict }
{
    match verdict {
        Verdict::NotALine => "no line of a trace",
        Verdict::NoPort => "no such port",
        Verdict::WrongNumber => "not the next number",
        Verdict::TooLong => "line too long",
        Verdict::NotAStep | Verdict::Follows => "not a run",
    }
}

/// Begins the object of a line.
fn begun(alloc: Global, verdict: Verdict, line: u64) -> Result<Vec<u8>, AllocError>
    ensures { IfOk result (λ object. object.items ≡ spec.object_begun (spec.kind_of verdict) line) }
{
    let mut digits = Buffer::new();
    let mut object = Vec::from_slice(alloc, b"{\"run\":false,\"kind\":\"")?;
    object.extend_from_slice(kind_of(verdict).as_bytes())?;
    object.extend_from_slice(b"\",\"line\":")?;
    object.extend_from_slice(digits.format(line).as_bytes())?;
    Ok(object)
}

/// Appends a field that is a text.
fn push_field(object: &mut Vec<u8>, name: &str, text: &[u8]) -> Result<(), AllocError>
    ensures { OnOk result (object.new.items ≡ object.old.items ++ spec.text_field name.now text.now) }
{
    object.extend_from_slice(b",\"")?;
    object.extend_from_slice(name.as_bytes())?;
    object.extend_from_slice(b"\":")?;
    push_quoted(object, text)
}

/// Appends one that may be left out.
fn push_field_if(object: &mut Vec<u8>, name: &str, text: Option<&str>) -> Result<(), AllocError>
    ensures { OnOk result
        (object.new.items ≡ object.old.items ++ spec.text_field_if name.now (option_copied text.entry)) }
{
    match text {
        None => Ok(()),
        Some(text) => push_field(object, name, text.as_bytes()),
    }
}

/// Makes the object of a line in whose place the machine says nothing, for this reason.
pub(crate) fn line_object(
    alloc: Global,
    verdict: Verdict,
    line: u64,
    text: &[u8],
    reason: &[u8],
) -> Result<Vec<u8>, AllocError>
    ensures { IfOk result (λ object. object.items ≡ spec.line_object verdict line text.now reason.now) }
{
    let mut object = begun(alloc, verdict, line)?;
    push_field(&mut object, "text", text)?;
    push_field(&mut object, "why", reason)?;
    object.extend_from_slice(b"}\n")?;
    Ok(object)
}

/// Makes the object of a line in whose place the machine says this one, without its line feed, for this reason.
pub(crate) fn both_object(
    alloc: Global,
    verdict: Verdict,
    line: u64,
    text: &[u8],
    machine: &[u8],
    choice: Option<&str>,
    reason: &[u8],
) -> Result<Vec<u8>, AllocError>
    ensures { IfOk result (λ object. object.items
        ≡ spec.both_object verdict line text.now machine.now (option_copied choice.entry) reason.now) }
{
    let mut object = begun(alloc, verdict, line)?;
    push_field(&mut object, "text", text)?;
    push_field(&mut object, "machine", machine)?;
    push_field_if(&mut object, "choice", choice)?;
    push_field(&mut object, "why", reason)?;
    object.extend_from_slice(b"}\n")?;
    Ok(object)
}
