//! The parts of a line, as they are spelled.
ghost use Rattle.std.specs.Prelude.{◌≡◌};
ghost use Rattle.std.specs.Option.{option_copied};
ghost use Rattle.std.specs.Str.{bytes_eq};
ghost use Rattle.gp_differ.specs.Parts as spec;

use crate::difference::Difference;
use crate::word::cut_at;

/// What a line spells of an entry.
#[derive(Clone, Copy)]
pub(crate) struct LineParts<'a> {
    /// The port.
    pub port: &'a [u8],
    /// The number of the entry on its port.
    pub number: &'a [u8],
    /// What happened.
    pub event: &'a [u8],
    /// What the port replied.
    pub reply: &'a [u8],
    /// The code that was sent.
    pub sent: Option<&'a [u8]>,
    /// The grant.
    pub grant: Option<&'a [u8]>,
    /// The alarm.
    pub alarm: Option<&'a [u8]>,
}

/// Gives a text, and an empty one where there is none.
pub(crate) fn or_empty(text: Option<&[u8]>) -> &[u8]
    ensures { result.now ≡ spec.or_empty (option_copied text.entry) }
{
    text.unwrap_or(&[])
}

/// Cuts a line into its parts.
pub(crate) fn spelled(text: &[u8]) -> LineParts<'_>
    ensures { spec.view_of result ≡ spec.spelled text.now }
{
    let (head, answer) = cut_at(b" = ", text);
    let (port, behind_port) = cut_at(b" ", head);
    let (number, event) = cut_at(b" ", or_empty(behind_port));
    let (rest, alarm) = cut_at(b" alarm ", or_empty(answer));
    let (rest, grant) = cut_at(b" grant ", rest);
    let (reply, sent) = cut_at(b" sent ", rest);
    LineParts {
        port,
        number,
        event: or_empty(event),
        reply,
        sent,
        grant,
        alarm,
    }
}

/// Tells whether two texts are the same.
pub(crate) fn is_same(first: &[u8], second: &[u8]) -> bool
    ensures { result ≡ bytes_eq first.now second.now }
{
    first == second
}

/// Tells whether two texts are the same, or neither is there.
fn are_same(first: Option<&[u8]>, second: Option<&[u8]>) -> bool
    ensures { result ≡ spec.are_same (option_copied first.entry) (option_copied second.entry) }
{
    match (first, second) {
        (None, None) => true,
        (Some(first), Some(second)) => is_same(first, second),
        _ => false,
    }
}

/// Gives the first part of the answer that differs: the alarm, where no other does.
fn first_of_answer(given: &LineParts<'_>, said: &LineParts<'_>) -> Difference
    ensures { result ≡ spec.first_of_answer (spec.view_of given.now) (spec.view_of said.now) }
{
    if !is_same(given.reply, said.reply) {
        Difference::Reply
    } else if !are_same(given.sent, said.sent) {
        Difference::Sent
    } else if !are_same(given.grant, said.grant) {
        Difference::Grant
    } else {
        Difference::Alarm
    }
}

/// Gives the first part that differs.
pub(crate) fn first_other(given: &LineParts<'_>, said: &LineParts<'_>) -> Difference
    ensures { result ≡ spec.first_other (spec.view_of given.now) (spec.view_of said.now) }
{
    if !is_same(given.port, said.port) {
        Difference::Port
    } else if !is_same(given.number, said.number) {
        Difference::Number
    } else if !is_same(given.event, said.event) {
        Difference::Event
    } else {
        first_of_answer(given, said)
    }
}
