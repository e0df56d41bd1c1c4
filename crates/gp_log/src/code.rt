//! A code in a line: thirteen octets of two hexadecimal digits, with marks between them or not, quoted or not.
ghost use Rattle.std.specs.Prelude.{◌≡◌, MatchOption, MatchResult, Some, None, Ok, Err};
ghost use Rattle.hex.specs.Hex.{hex_digit_value};
ghost use Rattle.gp_log.specs.Code as spec;

use crate::fault::LogFault;
use crate::fields::{is_parted, trimmed};
use crate::leading::leading_code;

/// Gives the value of a hexadecimal digit, in either case.
fn digit_value(digit: u8) -> Option<u8>
    ensures { result ≡ hex_digit_value digit }
{
    match digit {
        b'A'..=b'F' => Some(digit - 55),
        b'a'..=b'f' => Some(digit - 87),
        b'0'..=b'9' => Some(digit - 48),
        _ => None,
    }
}

/// Gives a text without `0x` in front.
fn without_prefix(text: &[u8]) -> &[u8]
    ensures { result.now ≡ spec.without_prefix text.now }
{
    match text {
        [b'0', b'x' | b'X', rest @ ..] => rest,
        _ => text,
    }
}

/// Gives a text without a colon, a hyphen, a space or a dot in front.
fn without_mark(text: &[u8]) -> &[u8]
    ensures { result.now ≡ spec.without_mark text.now }
{
    match text {
        [b':' | b'-' | b' ' | b'.', rest @ ..] => rest,
        _ => text,
    }
}

/// Reads the octet that a text begins with, and gives what stands behind it.
#[tactic(auto, unfolding(crate::specs::Code::octet_at))]
fn octet_at(text: &[u8]) -> Option<(u8, &[u8])>
    ensures { MatchOption result (spec.octet_at text.now ≡ None)
        (λ read. spec.octet_at text.now ≡ Some (read.0, read.1.now)) }
{
    let [high, low, rest @ ..] = text else {
        return None;
    };
    let high = digit_value(*high)?;
    let low = digit_value(*low)?;
    Some((high * 16 + low, rest))
}

/// Reads the code that a text begins with, and gives what stands behind it.
#[tactic(auto, unfolding(crate::specs::Code::code_at))]
fn code_at(text: &[u8]) -> Option<([u8; 13], &[u8])>
    ensures { MatchOption result (spec.code_at text.now ≡ None)
        (λ read. spec.code_at text.now ≡ Some (read.0, read.1.now)) }
{
    let (first, mut rest) = octet_at(without_prefix(text))?;
    let mut octets = [0u8; 13];
    octets[0] = first;
    'octets: for i in 1..13 {
        let (octet, behind) = octet_at(without_mark(rest))?;
        octets[i] = octet;
        rest = behind;
    }
    Some((octets, rest))
}

/// Reads the code that a text begins with, as it may be spelled.
#[inline(always)]
fn spelled_code(text: &[u8]) -> Option<([u8; 13], &[u8])>
    ensures { MatchOption result (spec.code_at text.now ≡ None)
        (λ read. spec.code_at text.now ≡ Some (read.0, read.1.now)) }
{
    match leading_code(text) {
        Some(read) => Some(read),
        None => code_at(text),
    }
}

/// Reads the code behind a quotation mark, up to the next one.
fn quoted_code(text: &[u8]) -> Option<([u8; 13], &[u8])>
    ensures { MatchOption result (spec.quoted_at text.now ≡ None)
        (λ read. spec.quoted_at text.now ≡ Some (read.0, read.1.now)) }
{
    let (octets, rest) = code_at(text)?;
    match rest {
        [b'"', rest @ ..] => Some((octets, rest)),
        _ => None,
    }
}

/// Reads the code that a text begins with, in quotation marks or not.
#[inline(always)]
#[tactic(auto, unfolding(crate::specs::Code::any_code_at))]
fn any_code(text: &[u8]) -> Option<([u8; 13], &[u8])>
    ensures { MatchOption result (spec.any_code_at text.now ≡ None)
        (λ read. spec.any_code_at text.now ≡ Some (read.0, read.1.now)) }
{
    match text {
        [] => None,
        [b'"', rest @ ..] => quoted_code(rest),
        _ => spelled_code(text),
    }
}

/// Reads the code that is next in a text, and gives what stands behind it.
#[inline(always)]
pub(crate) fn next_code(text: &[u8]) -> Result<([u8; 13], &[u8]), LogFault>
    ensures { MatchResult result (λ read. spec.next_code text.now ≡ Ok (read.0, read.1.now))
        (λ fault. spec.next_code text.now ≡ Err fault) }
{
    let Some(read) = any_code(trimmed(text)) else {
        return Err(LogFault::Code);
    };
    if is_parted(read.1) {
        Ok(read)
    } else {
        Err(LogFault::Code)
    }
}
