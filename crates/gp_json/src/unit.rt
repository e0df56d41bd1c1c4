//! The line of a simulated unit as a JSON object.
ghost use Rattle.std.specs.Prelude.{◌≡◌, ◌++◌, MatchOption, None, OnOk, Some};
ghost use Rattle.std.specs.Option.{option_copied};
ghost use Rattle.gp_lines.specs.Parts.{parts_behind, parts_of};
ghost use Rattle.gp_json.specs.Object.{unit_object};
ghost use Rattle.gp_json.specs.Units as spec;

use crate::other::write_line;
use crate::text::{is_number, push_quoted};
use gp_lines::cut;
use std::alloc::AllocError;

/// The parts of the line of a unit.
#[derive(Drop)]
pub(crate) struct UnitParts<'a> {
    /// Its place, in digits.
    place: &'a [u8],
    /// The name of its state.
    state: &'a [u8],
    /// Its ONU-ID, in digits.
    onu: Option<&'a [u8]>,
    /// Its equalization delay in bit times, in digits.
    eqd: Option<&'a [u8]>,
    /// Whether light reaches it.
    is_lit: bool,
}

/// Tells whether this is the name of a state.
fn is_state(part: &[u8]) -> bool
    ensures { result ≡ spec.is_state part.now }
{
    match part {
        [letter, digit] => *letter == b'O' && b'1' <= *digit && *digit <= b'7',
        _ => false,
    }
}

/// Gives the number behind this word, where they stand at the front, and what stands behind it; else nothing, and what
/// was given.
fn number_behind<'a>(word: &str, rest: Option<&'a [u8]>) -> (Option<&'a [u8]>, Option<&'a [u8]>)
    ensures { spec.number_behind word.now (parts_behind (option_copied rest.entry))
        ≡ (option_copied result.0, parts_behind (option_copied result.1)) }
{
    let Some(text) = rest else {
        return (None, None);
    };
    let (first, Some(behind)) = cut(text) else {
        return (None, rest);
    };
    let (digits, others) = cut(behind);
    if first == word.as_bytes() && is_number(digits) {
        (Some(digits), others)
    } else {
        (None, rest)
    }
}

/// Tells that no light reaches a unit, if this is the word for it.
fn dark_in(word: &[u8]) -> Option<bool>
    ensures { result ≡ spec.dark_of word.now }
{
    if word == b"dark".as_slice() {
        Some(false)
    } else {
        None
    }
}

/// Tells whether light reaches a unit, by what ends its line.
fn light_in(rest: Option<&[u8]>) -> Option<bool>
    ensures { result ≡ spec.light_of (parts_behind (option_copied rest.entry)) }
{
    let Some(text) = rest else {
        return Some(true);
    };
    match cut(text) {
        (word, None) => dark_in(word),
        (_, Some(_)) => None,
    }
}

/// Gives the parts of a line, if it is that of a unit.
fn unit_in(text: &[u8]) -> Option<UnitParts<'_>>
    ensures { MatchOption result (spec.unit_of (parts_of text.now) ≡ None)
        (λ unit. spec.unit_of (parts_of text.now) ≡ Some (record {
          place = unit.place.now;
          state = unit.state.now;
          onu = option_copied unit.onu;
          eqd = option_copied unit.eqd;
          is_lit = unit.is_lit;
        })) }
{
    let (word, Some(behind)) = cut(text) else {
        return None;
    };
    let (place, Some(behind)) = cut(behind) else {
        return None;
    };
    let (state, rest) = cut(behind);
    if word != b"unit".as_slice() || !is_number(place) || !is_state(state) {
        return None;
    }
    let (onu, rest) = number_behind("onu", rest);
    let (eqd, rest) = number_behind("eqd", rest);
    let is_lit = light_in(rest)?;
    Some(UnitParts {
        place,
        state,
        onu,
        eqd,
        is_lit,
    })
}

/// Appends a number with its name, where there is one.
fn push_number_if(out: &mut Vec<u8>, name: &str, digits: Option<&[u8]>) -> Result<(), AllocError>
    ensures { OnOk result (out.new.items ≡ out.old.items ++ spec.number_field name.now (option_copied digits.entry)) }
{
    let Some(digits) = digits else {
        return Ok(());
    };
    out.extend_from_slice(name.as_bytes())?;
    out.extend_from_slice(digits)
}

/// Gives whether light reaches a unit, as its object ends.
pub(crate) fn light_end(is_lit: bool) -> &'static str
    ensures { result.now ≡ spec.light_end is_lit }
{
    if is_lit {
        ",\"light\":true}\n"
    } else {
        ",\"light\":false}\n"
    }
}

/// Writes the line of a unit, or any other line, in the place of what the buffer holds.
pub(crate) fn write_unit(text: &[u8], out: &mut Vec<u8>) -> Result<(), AllocError>
    ensures { OnOk result (out.new.items ≡ unit_object (spec.unit_of (parts_of text.now)) text.now) }
{
    let Some(unit) = unit_in(text) else {
        return write_line(text, out);
    };
    out.clear();
    out.extend_from_slice(b"{\"unit\":")?;
    out.extend_from_slice(unit.place)?;
    out.extend_from_slice(b",\"state\":")?;
    push_quoted(out, unit.state)?;
    push_number_if(out, ",\"onu\":", unit.onu)?;
    push_number_if(out, ",\"eqd\":", unit.eqd)?;
    out.extend_from_slice(light_end(unit.is_lit).as_bytes())
}
