//! The fields of a line, with spaces, tabs, commas or semicolons between, and numbers in them.
ghost use Rattle.std.specs.Prelude.{◌≡◌, ◌≤◌, ℕ, Bool, true, false, Ok, Err, IfOk, IfSome, MatchOption, MatchResult, length, position};
ghost use Rattle.std.specs.List.{list_all};
ghost use Rattle.gp_log.specs.declared.fault.LogFault.TheVariants as faults;
ghost use Rattle.std.specs.Str.{bytes_eq};
ghost use Rattle.gp_log.specs.Fields as spec;

use crate::fault::LogFault;
use crate::leading::leading_number;

/// Tells whether an octet parts fields.
pub(crate) fn is_separator(octet: u8) -> bool
    ensures { result ≡ spec.is_separator octet }
{
    matches!(octet, b' ' | b'\t' | b',' | b';')
}

/// Tells whether an octet is one of a field.
fn is_of_field(octet: u8) -> bool
    ensures { result ≡ spec.is_of_field octet }
{
    !is_separator(octet)
}

/// Gives the place of the first octet of a field.
fn first_of_field(text: &[u8]) -> Option<usize>
    ensures { result ≡ position spec.is_of_field text.now }
{
    text.iter().position(|octet| is_of_field(*octet))
}

/// Gives the place of the first separator.
fn first_separator(text: &[u8]) -> Option<usize>
    ensures { result ≡ position spec.is_separator text.now }
{
    text.iter().position(|octet| is_separator(*octet))
}

/// Cuts a text at this place, or at its end.
pub(crate) fn cut(text: &[u8], at: Option<usize>) -> (&[u8], &[u8])
    requires { IfSome at (λ at. at ≤ length text.now) }
    ensures { (is : ℕ → Bool) → at ≡ position is text.now
        → (result.0.now ≡ spec.before is text.now) × (result.1.now ≡ spec.from is text.now) }
{
    text.split_at(at.unwrap_or(text.len()))
}

/// Gives a text without the separators that it begins with.
#[tactic(auto, unfolding(crate::specs::Fields::trimmed))]
pub(crate) fn trimmed(text: &[u8]) -> &[u8]
    ensures { result.now ≡ spec.trimmed text.now }
{
    let (_, rest) = cut(text, first_of_field(text));
    rest
}

/// Gives the first field of a text, empty where there is none, and what stands behind it.
#[tactic(auto, unfolding(crate::specs::Fields::next))]
pub(crate) fn next(text: &[u8]) -> (&[u8], &[u8])
    ensures { spec.next text.now ≡ (result.0.now, result.1.now) }
{
    let rest = trimmed(text);
    cut(rest, first_separator(rest))
}

/// Tells whether a field may end in front of a text.
pub(crate) fn is_parted(text: &[u8]) -> bool
    ensures { result ≡ spec.is_parted text.now }
{
    match text {
        [] => true,
        [octet, ..] => is_separator(*octet),
    }
}

/// Tells that no field stands in a text.
pub(crate) fn alone(text: &[u8]) -> Result<(), LogFault>
    ensures { result ≡ spec.alone tt text.now }
{
    if trimmed(text).is_empty() {
        Ok(())
    } else {
        Err(LogFault::Word)
    }
}

/// Tells whether a field is this word.
pub(crate) fn is_word(field: &[u8], word: &str) -> bool
    ensures { result ≡ bytes_eq field.now word.now }
{
    field == word.as_bytes()
}

/// Reads a number of decimal digits, from 0 to the greatest. Zeros may stand in front.
pub(crate) fn number_in(fault: LogFault, greatest: u64, text: &[u8]) -> Result<u64, LogFault>
    ensures value { result ≡ spec.number_in fault greatest text.now }
    ensures within { IfOk result (λ number. number ≤ greatest) }
{
    gp_lines::number_in(0, greatest, text).map_err(|_| fault)
}

/// Reads the number that is next in a text, from 0 to the greatest, and gives what stands behind it.
#[inline(always)]
pub(crate) fn next_number(greatest: u64, text: &[u8]) -> Result<(u64, &[u8]), LogFault>
    ensures value { MatchResult result
        (λ read. (spec.number_in faults.Number greatest (spec.next text.now).0 ≡ Ok read.0)
        × ((spec.next text.now).1 ≡ read.1.now))
        (λ fault. spec.number_in faults.Number greatest (spec.next text.now).0 ≡ Err fault) }
    ensures within { IfOk result (λ read. read.0 ≤ greatest) }
{
    match leading_number(trimmed(text)) {
        Some((number, rest)) if number <= greatest && is_parted(rest) => Ok((number, rest)),
        _ => {
            let (digits, rest) = next(text);
            let number = number_in(LogFault::Number, greatest, digits)?;
            Ok((number, rest))
        }
    }
}

/// Tells whether no field stands in a text.
pub(crate) fn is_over(text: &[u8]) -> bool
    ensures { result ≡ spec.is_nothing (spec.next text.now).0 }
{
    trimmed(text).is_empty()
}

/// Gives what stands behind this word, if it is the next field of a text.
pub(crate) fn behind_word<'a>(text: &'a [u8], word: &[u8]) -> Option<&'a [u8]>
    requires { list_all spec.is_of_field word.now ≡ true }
    ensures { MatchOption result (bytes_eq (spec.next text.now).0 word.now ≡ false)
        (λ rest. spec.next text.now ≡ (word.now, rest.now)) }
{
    let Some(rest) = trimmed(text).strip_prefix(word) else {
        return None;
    };
    if is_parted(rest) { Some(rest) } else { None }
}
