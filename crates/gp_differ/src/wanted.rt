//! What the machine has in the place of a part, and what the line has.
ghost use Rattle.std.specs.Prelude.{◌≡◌, ◌++◌, OnOk, codes};
ghost use Rattle.std.specs.Option.{option_copied};
ghost use Rattle.std.specs.Str.{bytes_eq};
ghost use Rattle.gp_differ.specs.Parts.{view_of};
ghost use Rattle.gp_differ.specs.Reasons as spec;

use crate::parts::{LineParts, is_same, or_empty};
use std::alloc::AllocError;

/// Appends a text between marks.
pub(crate) fn push_marked(out: &mut Vec<u8>, text: &[u8]) -> Result<(), AllocError>
    ensures { OnOk result (out.new.items ≡ out.old.items ++ spec.marked text.now) }
{
    out.extend_from_slice(b"`")?;
    out.extend_from_slice(text)?;
    out.extend_from_slice(b"`")
}

/// Appends what the line has.
pub(crate) fn push_not(out: &mut Vec<u8>, text: &[u8]) -> Result<(), AllocError>
    ensures { OnOk result (out.new.items ≡ out.old.items ++ spec.not_text text.now) }
{
    out.extend_from_slice(b", not ")?;
    push_marked(out, text)
}

/// Appends what the line has of a part that may be absent, in these words.
pub(crate) fn push_not_words(
    out: &mut Vec<u8>,
    part: Option<&[u8]>,
    words: &[u8],
) -> Result<(), AllocError>
    ensures { OnOk result (out.new.items ≡ out.old.items ++ spec.not_words (option_copied part.entry) words.now) }
{
    match part {
        None => out.extend_from_slice(b", and the line has none"),
        Some(_) => push_not(out, words),
    }
}

/// Appends what the line has of a part that may be absent.
pub(crate) fn push_not_part(out: &mut Vec<u8>, part: Option<&[u8]>) -> Result<(), AllocError>
    ensures { OnOk result (out.new.items ≡ out.old.items ++ spec.not_part (option_copied part.entry)) }
{
    push_not_words(out, part, or_empty(part))
}

/// Tells which copy of a message was sent, where so many copies are owed behind it.
fn copy_name(left: usize) -> &'static str
    ensures { result.now ≡ spec.copy_name left }
{
    match left % 3 {
        2 => "first",
        1 => "second",
        _ => "third",
    }
}

/// Tells whether the event is a frame.
fn is_frame(said: &LineParts<'_>) -> bool
    ensures { result ≡ spec.is_frame (view_of said.now) }
{
    is_same(said.event, b"frame")
}

/// Appends the message that is owed, in these words, where so many copies are owed behind it.
pub(crate) fn push_sent(
    out: &mut Vec<u8>,
    said: &LineParts<'_>,
    left: usize,
    words: &[u8],
) -> Result<(), AllocError>
    ensures { OnOk result (out.new.items ≡ out.old.items
        ++ spec.sent_wanted (view_of said.now).sent (spec.is_frame (view_of said.now)) left words.now) }
{
    if said.sent.is_none() {
        return out.extend_from_slice(no_message(is_frame(said)).as_bytes());
    }
    out.extend_from_slice(b"the ")?;
    out.extend_from_slice(copy_name(left).as_bytes())?;
    out.extend_from_slice(b" copy of ")?;
    push_marked(out, words)?;
    out.extend_from_slice(b" is owed")
}

/// Tells why no message is sent.
fn no_message(frame: bool) -> &'static str
    ensures { result.now ≡ spec.no_message_cause frame }
{
    if frame {
        "none is owed"
    } else {
        "none, since only a frame sends one"
    }
}

/// Tells why this is granted.
fn grant_cause(grant: &[u8]) -> &'static str
    ensures { result.now ≡ spec.grant_cause grant.now }
{
    if grant.starts_with(b"search") {
        ", since the search has windows left"
    } else if grant.starts_with(b"range") {
        ", the least ONU-ID of a ranging unit"
    } else {
        ", the operating unit whose turn it is"
    }
}

/// Tells why nothing is granted.
fn no_grant_cause(frame: bool, sent: Option<&[u8]>) -> &'static str
    ensures { result.now ≡ spec.no_grant_cause frame (option_copied sent.entry) }
{
    match (frame, sent) {
        (false, _) => "none, since only a frame grants",
        (true, Some(_)) => "none, since a message was owed",
        (true, None) => "none, since a window was open, a search begins, or no unit is to be asked",
    }
}

/// Appends what is granted.
pub(crate) fn push_grant(out: &mut Vec<u8>, said: &LineParts<'_>) -> Result<(), AllocError>
    ensures { OnOk result (out.new.items ≡ out.old.items
        ++ spec.grant_wanted (view_of said.now) (view_of said.now).grant) }
{
    match said.grant {
        None => out.extend_from_slice(no_grant_cause(is_frame(said), said.sent).as_bytes()),
        Some(grant) => {
            push_marked(out, grant)?;
            out.extend_from_slice(grant_cause(grant).as_bytes())
        }
    }
}

/// Appends the alarm that is raised.
pub(crate) fn push_alarm(out: &mut Vec<u8>, alarm: Option<&[u8]>) -> Result<(), AllocError>
    ensures { OnOk result (out.new.items ≡ out.old.items ++ spec.alarm_wanted (option_copied alarm.entry)) }
{
    match alarm {
        None => out.extend_from_slice(b"none"),
        Some(alarm) => push_marked(out, alarm),
    }
}
