//! Whose code a line has, and its octets or its first fault, which are those that `gp_decode` tells in words.
ghost use Rattle.std.specs.Prelude.{◌≡◌, ◌++◌, MatchOption, OnOk, IfErr, IfOk, Some, None, Ok, Err, position};
ghost use Rattle.std.specs.List.{list_all};
ghost use Rattle.std.specs.Option.{option_copied};
ghost use Rattle.hex.specs.Hex.{decode_of, decode_sized, is_hex_digit};
ghost use Rattle.hex.specs.declared.error.FromHexError.{FromHexError};
ghost use Rattle.gp_ploam.specs.declared.check.Mask.{Mask as AnyMask};
ghost use Rattle.gp_decode.specs.LineText as spec;
ghost use Rattle.gp_decode.specs.Line.{HasDecodeFault, IsOfSpelling};

use gp_code::octets_in;
use gp_decode::{DecodeFault, Direction};
use std::alloc::AllocError;

/// Gives what stands behind a word at the head of a text.
fn behind<'a>(word: &[u8], text: &'a [u8]) -> Option<&'a [u8]>
    ensures { option_copied result ≡ spec.behind word.now text.now }
{
    text.strip_prefix(word)
}

/// Tells whether the code in a text is a unit's, and gives what the text has of the code. None is answered where the
/// text would have to say whose it is and doesn't.
pub(crate) fn directed(direction: Direction, text: &[u8]) -> Option<(bool, &[u8])>
    ensures { MatchOption result (spec.directed direction text.now ≡ None)
        (λ way. spec.directed direction text.now ≡ Some (way.0, way.1.now)) }
{
    match direction {
        Direction::Up => Some((true, text)),
        Direction::Down => Some((false, text)),
        Direction::Each => match (behind(b"up ", text), behind(b"down ", text)) {
            (Some(code), _) => Some((true, code)),
            (None, Some(code)) => Some((false, code)),
            (None, None) => None,
        },
    }
}

/// Gives the place of the first octet that stands between digits.
fn first_between(text: &[u8]) -> Option<usize>
    ensures { result ≡ position spec.is_between text.now }
{
    text.iter()
        .position(|octet| *octet == b' ' || *octet == b'-' || *octet == b':')
}

/// Gives digits without `0x` in front.
fn without_prefix(digits: &[u8]) -> &[u8]
    ensures { result.now ≡ spec.without_prefix digits.now }
{
    match digits {
        [b'0', b'x' | b'X', rest @ ..] => rest,
        _ => digits,
    }
}

/// Appends the digits of a code that stands in a text: without spaces, hyphens, colons, and `0x` in front of digits.
pub(crate) fn push_digits(out: &mut Vec<u8>, text: &[u8]) -> Result<(), AllocError>
    ensures { OnOk result (out.new.items ≡ out.old.items ++ spec.code_digits text.now) }
{
    let mut rest = text;
    'groups: while let Some(at) = first_between(rest) {
        out.extend_from_slice(without_prefix(&rest[..at]))?;
        rest = &rest[at + 1..];
    }
    out.extend_from_slice(without_prefix(rest))
}

/// Reads the thirteen octets that a text of 26 digits stands for, or answers the text's first fault.
pub(crate) fn code_in(text: &[u8]) -> Result<[u8; 13], DecodeFault>
    ensures code { IfOk result (λ code. decode_of text.now ≡ Ok code) }
    ensures fault { IfErr result (λ fault. (mask : AnyMask) → HasDecodeFault mask text.now fault) }
    ensures spelling { IfErr result IsOfSpelling }
{
    match octets_in(text) {
        Some(code) => Ok(code),
        None => Err(fault_of(text)),
    }
}

/// Gives the first fault of a text that isn't 26 hexadecimal digits.
fn fault_of(text: &[u8]) -> DecodeFault
    requires { (fault : FromHexError) × (decode_sized text.now 13 ≡ Err fault) }
    ensures fault { (mask : AnyMask) → HasDecodeFault mask text.now result }
    ensures spelling { IsOfSpelling result }
{
    if text.len() % 2 == 1 {
        return DecodeFault::Length;
    }
    if !are_digits(text) {
        return DecodeFault::Digit;
    }
    DecodeFault::Length
}

/// Tells whether each byte is a hexadecimal digit.
fn are_digits(text: &[u8]) -> bool
    ensures { result ≡ list_all is_hex_digit text.now }
{
    text.iter().all(u8::is_ascii_hexdigit)
}
