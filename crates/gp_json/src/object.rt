//! `write_object`: a line of a trace as an object of its parts; any other line as one field.
ghost use Rattle.std.specs.Prelude.{◌≡◌, ◌++◌, ℕ, List, OnOk, IfOk, MatchBool, [], codes};
ghost use Rattle.gp_lines.specs.Parts.{parts_of};
ghost use Rattle.gp_json.specs.Fields.{TellsParts};
ghost use Rattle.gp_json.specs.Object.{TellsObject, frames_field};

use crate::field::push_part;
use crate::other::write_line;
use crate::slot::Slot;
use crate::writer::ObjectWriter;
use gp_lines::cut;
use gp_ploam::Mask;
use std::alloc::{AllocError, Global};
use std::mem;

/// Appends how many frames the port has had, if that is told.
fn push_frames(out: &mut ObjectWriter, frames: Option<u64>) -> Result<(), AllocError>
    ensures { OnOk result (out.new ≡ out.old ++ frames_field frames) }
{
    let Some(frames) = frames else {
        return Ok(());
    };
    out.put(b"\"frames\":")?;
    out.put_number(frames)?;
    out.put(b",")
}

/// Appends the fields of a line, if it is one of a trace.
fn push_fields(mask: Mask, text: &[u8], out: &mut ObjectWriter) -> Result<bool, AllocError>
    ensures { IfOk result (λ told. MatchBool told
        ((fields : List ℕ) × TellsParts mask Slot.Port (parts_of text.now) fields
        × (out.new ≡ out.old ++ fields))
        ((fields : List ℕ) → TellsParts mask Slot.Port (parts_of text.now) fields → ⊥)) }
{
    let mut slot = Slot::Port;
    let mut rest = Some(text);
    'parts: while let Some(behind) = rest {
        let (part, others) = cut(behind);
        if !push_part(out, slot, part, mask)? {
            return Ok(false);
        }
        slot = slot.after(part);
        rest = others;
    }
    Ok(slot.is_end())
}

/// Appends the object of a line, if it is one of a trace; else maybe a part of it.
fn push_object(
    mask: Mask,
    frames: Option<u64>,
    text: &[u8],
    out: &mut ObjectWriter,
) -> Result<bool, AllocError>
    ensures { IfOk result (λ told. MatchBool told
        ((fields : List ℕ) × TellsParts mask Slot.Port (parts_of text.now) fields
        × (out.new ≡ out.old ++ (codes "{" ++ frames_field frames ++ fields ++ codes "}\n")))
        ((fields : List ℕ) → TellsParts mask Slot.Port (parts_of text.now) fields → ⊥)) }
{
    out.put(b"{")?;
    push_frames(out, frames)?;
    if !push_fields(mask, text, out)? {
        return Ok(false);
    }
    out.put(b"}\n")?;
    Ok(true)
}

/// Writes the object of a line in an empty buffer, if it is one of a trace; else maybe a part of it. Gives the buffer
/// back.
fn object_in(
    mask: Mask,
    frames: Option<u64>,
    text: &[u8],
    empty: Vec<u8>,
) -> (Vec<u8>, Result<bool, AllocError>)
    requires { empty.items ≡ [] }
    ensures { IfOk result.1 (λ told. MatchBool told
        ((fields : List ℕ) × TellsParts mask Slot.Port (parts_of text.now) fields
        × (result.0.items ≡ codes "{" ++ frames_field frames ++ fields ++ codes "}\n"))
        ((fields : List ℕ) → TellsParts mask Slot.Port (parts_of text.now) fields → ⊥)) }
{
    let mut object = ObjectWriter::behind(empty);
    let told = push_object(mask, frames, text, &mut object);
    let (out, appended) = object.finish();
    match appended {
        Ok(()) => (out, told),
        Err(error) => (out, Err(error)),
    }
}

/// Writes a line as a JSON object, with a line feed behind it, in the place of what the buffer holds: the fields of a
/// line of a trace, as `gp_trace` spells it, behind how many frames its port has had, if that is told; any other line
/// as one field. The line comes without its line feed. Codes are those under the mask.
///
/// Memory is taken only where the buffer has no room. Where it is refused, the buffer may hold a part of the object.
pub fn write_object(
    alloc: Global,
    mask: Mask,
    frames: Option<u64>,
    text: &[u8],
    out: &mut Vec<u8>,
) -> Result<(), AllocError>
    ensures { OnOk result (TellsObject mask frames text.now out.new.items) }
{
    out.clear();
    let (object, told) = object_in(mask, frames, text, mem::replace(out, Vec::new(alloc)));
    *out = object;
    if told? { Ok(()) } else { write_line(text, out) }
}
