//! The line that tells that light came or went at a simulated unit, as a JSON object.
ghost use Rattle.std.specs.Prelude.{◌≡◌, ◌++◌, MatchOption, None, OnOk, Some};
ghost use Rattle.gp_lines.specs.Parts.{parts_of};
ghost use Rattle.gp_json.specs.Light as spec;
ghost use Rattle.gp_json.specs.Object.{frames_field};

use crate::other::one_in;
use crate::text::is_number;
use crate::unit::light_end;
use gp_lines::cut;
use itoa::Buffer;
use std::alloc::AllocError;

/// The parts of the line that tells that light came or went at a simulated unit.
#[derive(Drop)]
pub struct LightLine<'a> {
    /// The unit's place in the script, in decimal digits as JSON spells a number.
    pub place: &'a [u8],
    /// Whether light came; else it went.
    pub is_lit: bool,
}

/// Tells whether light came or went, by the word for it.
fn lit_in(word: &[u8]) -> Option<bool>
    ensures { result ≡ spec.lit_of word.now }
{
    match word {
        b"light" => Some(true),
        b"dark" => Some(false),
        _ => None,
    }
}

/// Gives the parts of a line, without its line feed, if it is `unit I light` or `unit I dark`.
pub fn light_in(text: &[u8]) -> Option<LightLine<'_>>
    ensures { MatchOption result (spec.light_fields (parts_of text.now) ≡ None)
        (λ light. spec.light_fields (parts_of text.now)
        ≡ Some (record { place = light.place.now; is_lit = light.is_lit })) }
{
    let (word, Some(behind)) = cut(text) else {
        return None;
    };
    let (place, Some(behind)) = cut(behind) else {
        return None;
    };
    let light = one_in(behind)?;
    if word != b"unit".as_slice() || !is_number(place) {
        return None;
    }
    let is_lit = lit_in(light)?;
    Some(LightLine { place, is_lit })
}

/// Appends how many frames the port has had, if that is told.
fn push_frames(out: &mut Vec<u8>, frames: Option<u64>) -> Result<(), AllocError>
    ensures { OnOk result (out.new.items ≡ out.old.items ++ frames_field frames) }
{
    let Some(frames) = frames else {
        return Ok(());
    };
    let mut digits = Buffer::new();
    out.extend_from_slice(b"\"frames\":")?;
    out.extend_from_slice(digits.format(frames).as_bytes())?;
    out.extend_from_slice(b",")
}

/// Writes that light came or went as a JSON object, with a line feed behind it, in the place of what the buffer holds:
/// the unit's place, and whether it has light now, behind how many frames its port has had, if that is told.
///
/// Memory is taken only where the buffer has no room. Where it is refused, the buffer may hold a part of the object.
pub fn write_light(
    frames: Option<u64>,
    light: &LightLine<'_>,
    out: &mut Vec<u8>,
) -> Result<(), AllocError>
    ensures { OnOk result
        (out.new.items ≡ spec.light_object frames (record { place = light.now.place.now; is_lit = light.now.is_lit })) }
{
    out.clear();
    out.extend_from_slice(b"{")?;
    push_frames(out, frames)?;
    out.extend_from_slice(b"\"unit\":")?;
    out.extend_from_slice(light.place)?;
    out.extend_from_slice(light_end(light.is_lit).as_bytes())
}
