//! The fields of a message in words. What stands behind a field is None where nothing does.
ghost use Rattle.std.specs.Prelude.{◌≡◌, ◌≤◌, MatchResult, IfOk, Ok, Err};
ghost use Rattle.std.specs.Option.{option_copied};
ghost use Rattle.gp_lines.specs.Parts.{parts_behind};
ghost use Rattle.std.specs.Str.{bytes_eq};
ghost use Rattle.hex.specs.Hex.{decode_sized};
ghost use Rattle.gp_lines.specs.Reading.{octets_or_fault};
ghost use Rattle.gp_encode.specs.Fields as spec;

use gp_code::octets_in;
use gp_lines::{LineFault, cut, number_in, serial_in};
use gp_ploam::Serial;

/// Tells whether a word is this name.
pub(crate) fn is_name(word: &[u8], name: &str) -> bool
    ensures { result ≡ bytes_eq word.now name.now }
{
    word == name.as_bytes()
}

/// Reads a part.
fn next_part(rest: Option<&[u8]>) -> Result<(&[u8], Option<&[u8]>), LineFault>
    ensures { MatchResult result
        (λ taken. spec.next_part (parts_behind (option_copied rest.entry))
        ≡ Ok (taken.0.now, parts_behind (option_copied taken.1)))
        (λ fault. spec.next_part (parts_behind (option_copied rest.entry)) ≡ Err fault) }
{
    match rest {
        Some(text) => Ok(cut(text)),
        None => Err(LineFault::Word),
    }
}

/// Reads a number, from 0 to the greatest.
#[tactic(auto, unfolding(crate::specs::Fields::next_number))]
pub(crate) fn next_number(
    greatest: u64,
    rest: Option<&[u8]>,
) -> Result<(u64, Option<&[u8]>), LineFault>
    ensures value { MatchResult result
        (λ taken. spec.next_number greatest (parts_behind (option_copied rest.entry))
        ≡ Ok (taken.0, parts_behind (option_copied taken.1)))
        (λ fault. spec.next_number greatest (parts_behind (option_copied rest.entry)) ≡ Err fault) }
    ensures within { IfOk result (λ taken. taken.0 ≤ greatest) }
{
    let (part, rest) = next_part(rest)?;
    let number = number_in(0, greatest, part)?;
    Ok((number, rest))
}

/// Reads a serial number.
#[tactic(auto, unfolding(crate::specs::Fields::next_serial))]
pub(crate) fn next_serial(rest: Option<&[u8]>) -> Result<(Serial, Option<&[u8]>), LineFault>
    ensures { MatchResult result
        (λ taken. spec.next_serial (parts_behind (option_copied rest.entry))
        ≡ Ok (taken.0, parts_behind (option_copied taken.1)))
        (λ fault. spec.next_serial (parts_behind (option_copied rest.entry)) ≡ Err fault) }
{
    let (part, rest) = next_part(rest)?;
    let serial = serial_in(part)?;
    Ok((serial, rest))
}

/// Reads the ten octets of a body.
fn body_in(part: &[u8]) -> Result<[u8; 10], LineFault>
    ensures { result ≡ octets_or_fault (decode_sized part.now 10) }
{
    octets_in(part).ok_or(LineFault::Hex)
}

/// Reads the ten octets of a body, with what stands behind.
#[tactic(auto, unfolding(crate::specs::Fields::next_body))]
pub(crate) fn next_body(rest: Option<&[u8]>) -> Result<([u8; 10], Option<&[u8]>), LineFault>
    ensures { MatchResult result
        (λ taken. spec.next_body (parts_behind (option_copied rest.entry))
        ≡ Ok (taken.0, parts_behind (option_copied taken.1)))
        (λ fault. spec.next_body (parts_behind (option_copied rest.entry)) ≡ Err fault) }
{
    let (part, rest) = next_part(rest)?;
    let body = body_in(part)?;
    Ok((body, rest))
}

/// Tells whether a word says that an Alloc-ID is kept.
fn keep_of(word: &[u8]) -> Result<bool, LineFault>
    ensures { result ≡ spec.keep_of word.now }
{
    match word {
        b"keep" => Ok(true),
        b"back" => Ok(false),
        _ => Err(LineFault::Word),
    }
}

/// Reads whether an Alloc-ID is kept.
#[tactic(auto, unfolding(crate::specs::Fields::next_keep))]
pub(crate) fn next_keep(rest: Option<&[u8]>) -> Result<(bool, Option<&[u8]>), LineFault>
    ensures { MatchResult result
        (λ taken. spec.next_keep (parts_behind (option_copied rest.entry))
        ≡ Ok (taken.0, parts_behind (option_copied taken.1)))
        (λ fault. spec.next_keep (parts_behind (option_copied rest.entry)) ≡ Err fault) }
{
    let (part, rest) = next_part(rest)?;
    let keep = keep_of(part)?;
    Ok((keep, rest))
}

/// Tells that nothing more stands there.
pub(crate) fn ended(rest: Option<&[u8]>) -> Result<(), LineFault>
    ensures { result ≡ spec.ended (parts_behind (option_copied rest.entry)) }
{
    match rest {
        None => Ok(()),
        Some(_) => Err(LineFault::Word),
    }
}
