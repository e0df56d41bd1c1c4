//! What a line of an input has of a code: whose it is, and its digits, without what may stand between them.
ghost use Rattle.std.specs.Prelude.{◌≡◌, ◌++◌, MatchOption, OnOk, Some, None, position};
ghost use Rattle.std.specs.Option.{option_copied};
ghost use Rattle.gp_decode.specs.LineText as spec;

use crate::direction::Direction;
use std::alloc::AllocError;

/// Gives a line without a carriage return at its end.
pub fn without_return(line: &[u8]) -> &[u8]
    ensures { result.now ≡ spec.without_return line.now }
{
    match line.strip_suffix(b"\r") {
        Some(text) => text,
        None => line,
    }
}

/// Tells whether a text is passed over: it is empty, or begins with `#`.
pub fn is_remark(text: &[u8]) -> bool
    ensures { result ≡ spec.is_remark text.now }
{
    matches!(text, [] | [b'#', ..])
}

/// Gives what stands behind a word at the head of a text.
fn behind<'a>(word: &[u8], text: &'a [u8]) -> Option<&'a [u8]>
    ensures { option_copied result ≡ spec.behind word.now text.now }
{
    text.strip_prefix(word)
}

/// Tells whether the code in a text is a unit's, and gives what the text has of the code. None is answered where the
/// text would have to say whose it is and doesn't.
pub(crate) fn directed(direction: Direction, text: &[u8]) -> Option<(bool, &[u8])>
    ensures { MatchOption result (spec.directed direction text.now ≡ None)
        (λ way. spec.directed direction text.now ≡ Some (way.0, way.1.now)) }
{
    match direction {
        Direction::Up => Some((true, text)),
        Direction::Down => Some((false, text)),
        Direction::Each => match (behind(b"up ", text), behind(b"down ", text)) {
            (Some(code), _) => Some((true, code)),
            (None, Some(code)) => Some((false, code)),
            (None, None) => None,
        },
    }
}

/// Gives the place of the first octet that stands between digits.
fn first_between(text: &[u8]) -> Option<usize>
    ensures { result ≡ position spec.is_between text.now }
{
    text.iter()
        .position(|octet| *octet == b' ' || *octet == b'-' || *octet == b':')
}

/// Gives digits without `0x` in front.
fn without_prefix(digits: &[u8]) -> &[u8]
    ensures { result.now ≡ spec.without_prefix digits.now }
{
    match digits {
        [b'0', b'x' | b'X', rest @ ..] => rest,
        _ => digits,
    }
}

/// Appends the digits of a code that stands in a text: without spaces, hyphens, colons, and `0x` in front of digits.
pub(crate) fn push_digits(out: &mut Vec<u8>, text: &[u8]) -> Result<(), AllocError>
    ensures { OnOk result (out.new.items ≡ out.old.items ++ spec.code_digits text.now) }
{
    let mut rest = text;
    'groups: while let Some(at) = first_between(rest) {
        out.extend_from_slice(without_prefix(&rest[..at]))?;
        rest = &rest[at + 1..];
    }
    out.extend_from_slice(without_prefix(rest))
}
