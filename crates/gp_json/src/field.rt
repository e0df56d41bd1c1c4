//! The field that a part of a line makes.
ghost use Rattle.std.specs.Prelude.{◌≡◌, ◌++◌, ℕ, List, OnOk, IfOk, MatchBool, false, true};
ghost use Rattle.gp_json.specs.Spelling.{is_number, quoted};
ghost use Rattle.gp_json.specs.Fields.{TellsCode, TellsPart, allocs_field, opening};
ghost use Rattle.gp_json.specs.Messages.{TellsBoth};

use crate::allocs::push_list;
use crate::message::{push_down_object, push_up_object};
use crate::slot::{Kind, Slot};
use crate::text::is_number;
use crate::words::{put_down_words, put_up_words};
use crate::writer::ObjectWriter;
use gp_code::octets_in;
use gp_ploam::{Mask, decode_down, decode_up};
use std::alloc::AllocError;

/// Appends what stands before the part in the field that it makes: the field's name, and a comma before that unless the
/// field is the first.
fn push_opening(out: &mut ObjectWriter, slot: Slot) -> Result<(), AllocError>
    ensures { OnOk result (out.new ≡ out.old ++ opening slot) }
{
    match slot {
        Slot::Port => out.put(b"\"port\":"),
        Slot::Number => out.put(b",\"number\":"),
        Slot::Event => out.put(b",\"event\":"),
        Slot::At => out.put(b",\"at\":"),
        Slot::Code => out.put(b",\"code\":"),
        Slot::Serial | Slot::DeallocSerial => out.put(b",\"serial\":"),
        Slot::Dealloc => out.put(b",\"alloc\":"),
        Slot::Equals
        | Slot::AllocsWord
        | Slot::Behind
        | Slot::BehindSent
        | Slot::BehindGrant
        | Slot::End
        | Slot::Unknown => out.put(b",\"\":"),
        Slot::Reply => out.put(b",\"reply\":"),
        Slot::Onu | Slot::RangedOnu | Slot::UnitOnu => out.put(b",\"onu\":"),
        Slot::Alloc => out.put(b",\"reply_alloc\":"),
        Slot::Refusal => out.put(b",\"refusal\":"),
        Slot::Reason => out.put(b",\"reason\":"),
        Slot::Eqd | Slot::UnitEqd => out.put(b",\"eqd\":"),
        Slot::Count => out.put(b",\"count\":"),
        Slot::Phase => out.put(b",\"phase\":"),
        Slot::Attempts => out.put(b",\"attempts\":"),
        Slot::Allocs => out.put(b",\"allocs\":"),
        Slot::Sent => out.put(b",\"sent\":"),
        Slot::Grant => out.put(b",\"grant\":"),
        Slot::GrantOnu => out.put(b",\"grant_onu\":"),
        Slot::Alarm => out.put(b",\"alarm\":"),
        Slot::AlarmSerial => out.put(b",\"alarm_serial\":"),
    }
}

/// Appends the words of a unit's message and its object, or `null` for both where the check octet is wrong.
fn push_up_message(out: &mut ObjectWriter, octets: &[u8; 13], mask: Mask) -> Result<(), AllocError>
    ensures { OnOk result (TellsBoth true mask octets.now out.old out.new) }
{
    match decode_up(octets, mask) {
        Ok(message) => {
            out.put(b",\"message\":\"")?;
            put_up_words(out, &message)?;
            out.put(b"\",\"message_fields\":")?;
            push_up_object(out, &message)
        }
        Err(_) => out.put(b",\"message\":null,\"message_fields\":null"),
    }
}

/// The same of a message of the line terminal.
fn push_down_message(
    out: &mut ObjectWriter,
    octets: &[u8; 13],
    mask: Mask,
) -> Result<(), AllocError>
    ensures { OnOk result (TellsBoth false mask octets.now out.old out.new) }
{
    match decode_down(octets, mask) {
        Ok(message) => {
            out.put(b",\"sent_message\":\"")?;
            put_down_words(out, &message)?;
            out.put(b"\",\"sent_fields\":")?;
            push_down_object(out, &message)
        }
        Err(_) => out.put(b",\"sent_message\":null,\"sent_fields\":null"),
    }
}

/// Appends the words of a code's message and its object.
fn push_message(
    out: &mut ObjectWriter,
    octets: &[u8; 13],
    upstream: bool,
    mask: Mask,
) -> Result<(), AllocError>
    ensures { OnOk result (TellsBoth upstream mask octets.now out.old out.new) }
{
    if upstream {
        push_up_message(out, octets, mask)
    } else {
        push_down_message(out, octets, mask)
    }
}

/// Appends a code and its message, if it is one.
fn push_code(
    out: &mut ObjectWriter,
    slot: Slot,
    part: &[u8],
    upstream: bool,
    mask: Mask,
) -> Result<bool, AllocError>
    ensures { IfOk result (λ told. MatchBool told
        ((said : List ℕ) × TellsCode upstream mask slot part.now said × (out.new ≡ out.old ++ said))
        ((said : List ℕ) → TellsCode upstream mask slot part.now said → ⊥)) }
{
    let Some(octets) = octets_in(part) else {
        return Ok(false);
    };
    push_opening(out, slot)?;
    out.put_quoted_plain(part)?;
    push_message(out, &octets, upstream, mask)?;
    Ok(true)
}

/// Appends a number, if it is one.
fn push_number(out: &mut ObjectWriter, slot: Slot, part: &[u8]) -> Result<bool, AllocError>
    ensures { IfOk result (λ told. MatchBool told
        ((is_number part.now ≡ true) × (out.new ≡ out.old ++ (opening slot ++ part.now)))
        (is_number part.now ≡ false)) }
{
    if !is_number(part) {
        return Ok(false);
    }
    push_opening(out, slot)?;
    out.put(part)?;
    Ok(true)
}

/// Appends a text.
fn push_text(out: &mut ObjectWriter, slot: Slot, part: &[u8]) -> Result<bool, AllocError>
    ensures { IfOk result (λ told. (told ≡ true)
        × (out.new ≡ out.old ++ (opening slot ++ quoted part.now))) }
{
    push_opening(out, slot)?;
    out.put_quoted(part)?;
    Ok(true)
}

/// Appends Alloc-IDs, and their list.
fn push_allocs(out: &mut ObjectWriter, slot: Slot, part: &[u8]) -> Result<bool, AllocError>
    ensures { IfOk result (λ told. (told ≡ true) × (out.new ≡ out.old ++ allocs_field slot part.now)) }
{
    push_opening(out, slot)?;
    out.put_quoted(part)?;
    out.put(b",\"alloc_list\":")?;
    push_list(out, part)?;
    Ok(true)
}

/// Appends the field that a part makes, if it can stand there.
pub(crate) fn push_part(
    out: &mut ObjectWriter,
    slot: Slot,
    part: &[u8],
    mask: Mask,
) -> Result<bool, AllocError>
    ensures { IfOk result (λ told. MatchBool told
        ((said : List ℕ) × TellsPart mask slot part.now said × (out.new ≡ out.old ++ said))
        ((said : List ℕ) → TellsPart mask slot part.now said → ⊥)) }
{
    match slot.kind() {
        Kind::Number => push_number(out, slot, part),
        Kind::Text => push_text(out, slot, part),
        Kind::Allocs => push_allocs(out, slot, part),
        Kind::UnitCode => push_code(out, slot, part, true, mask),
        Kind::TerminalCode => push_code(out, slot, part, false, mask),
        Kind::Silent => Ok(true),
        Kind::Unknown => Ok(false),
    }
}
