//! Messages of the line terminal, from their words.
ghost use Rattle.std.specs.Prelude.{◌≡◌};
ghost use Rattle.std.specs.Option.{option_copied};
ghost use Rattle.gp_lines.specs.Parts.{parts_behind, parts_of};
ghost use Rattle.gp_encode.specs.Words as spec;

use crate::fields::{ended, is_name, next_body, next_keep, next_number, next_serial};
use gp_lines::{LineFault, cut};
use gp_ploam::Down;

/// The greatest Alloc-ID (G.984.3, clause 9: it has 12 bits).
const GREATEST_ALLOC: u64 = 4095;

#[tactic(auto, unfolding(crate::specs::Words::down_overhead))]
fn overhead(rest: Option<&[u8]>) -> Result<Down, LineFault>
    ensures { result ≡ spec.down_overhead (parts_behind (option_copied rest.entry)) }
{
    let (burst, rest) = next_body(rest)?;
    ended(rest)?;
    Ok(Down::UpstreamOverhead { burst })
}

#[tactic(auto, unfolding(crate::specs::Words::down_assign_onu))]
fn assign_onu(rest: Option<&[u8]>) -> Result<Down, LineFault>
    ensures { result ≡ spec.down_assign_onu (parts_behind (option_copied rest.entry)) }
{
    let (onu, rest) = next_number(u64::from(u8::MAX), rest)?;
    let (serial, rest) = next_serial(rest)?;
    ended(rest)?;
    Ok(Down::AssignOnu {
        onu: onu as u8,
        serial,
    })
}

#[tactic(auto, unfolding(crate::specs::Words::down_ranging_time))]
fn ranging_time(rest: Option<&[u8]>) -> Result<Down, LineFault>
    ensures { result ≡ spec.down_ranging_time (parts_behind (option_copied rest.entry)) }
{
    let (onu, rest) = next_number(u64::from(u8::MAX), rest)?;
    let (eqd, rest) = next_number(u64::from(u32::MAX), rest)?;
    ended(rest)?;
    Ok(Down::RangingTime {
        onu: onu as u8,
        eqd: eqd as u32,
    })
}

#[tactic(auto, unfolding(crate::specs::Words::down_deactivate))]
fn deactivate(rest: Option<&[u8]>) -> Result<Down, LineFault>
    ensures { result ≡ spec.down_deactivate (parts_behind (option_copied rest.entry)) }
{
    let (onu, rest) = next_number(u64::from(u8::MAX), rest)?;
    ended(rest)?;
    Ok(Down::Deactivate { onu: onu as u8 })
}

#[tactic(auto, unfolding(crate::specs::Words::down_disable_serial))]
fn disable_serial(rest: Option<&[u8]>) -> Result<Down, LineFault>
    ensures { result ≡ spec.down_disable_serial (parts_behind (option_copied rest.entry)) }
{
    let (serial, rest) = next_serial(rest)?;
    ended(rest)?;
    Ok(Down::DisableSerial { serial })
}

#[tactic(auto, unfolding(crate::specs::Words::down_enable_serial))]
fn enable_serial(rest: Option<&[u8]>) -> Result<Down, LineFault>
    ensures { result ≡ spec.down_enable_serial (parts_behind (option_copied rest.entry)) }
{
    let (serial, rest) = next_serial(rest)?;
    ended(rest)?;
    Ok(Down::EnableSerial { serial })
}

#[tactic(auto, unfolding(crate::specs::Words::down_enable_all))]
fn enable_all(rest: Option<&[u8]>) -> Result<Down, LineFault>
    ensures { result ≡ spec.down_enable_all (parts_behind (option_copied rest.entry)) }
{
    ended(rest)?;
    Ok(Down::EnableAll)
}

#[tactic(auto, unfolding(crate::specs::Words::down_assign_alloc))]
fn assign_alloc(rest: Option<&[u8]>) -> Result<Down, LineFault>
    ensures { result ≡ spec.down_assign_alloc (parts_behind (option_copied rest.entry)) }
{
    let (onu, rest) = next_number(u64::from(u8::MAX), rest)?;
    let (alloc, rest) = next_number(GREATEST_ALLOC, rest)?;
    let (keep, rest) = next_keep(rest)?;
    ended(rest)?;
    Ok(Down::AssignAlloc {
        onu: onu as u8,
        alloc: alloc as u16,
        keep,
    })
}

#[tactic(auto, unfolding(crate::specs::Words::down_nothing))]
fn nothing(rest: Option<&[u8]>) -> Result<Down, LineFault>
    ensures { result ≡ spec.down_nothing (parts_behind (option_copied rest.entry)) }
{
    ended(rest)?;
    Ok(Down::NoMessage)
}

#[tactic(auto, unfolding(crate::specs::Words::down_popup))]
fn popup(rest: Option<&[u8]>) -> Result<Down, LineFault>
    ensures { result ≡ spec.down_popup (parts_behind (option_copied rest.entry)) }
{
    let (onu, rest) = next_number(u64::from(u8::MAX), rest)?;
    ended(rest)?;
    Ok(Down::Popup { onu: onu as u8 })
}

#[tactic(auto, unfolding(crate::specs::Words::down_other))]
fn other(rest: Option<&[u8]>) -> Result<Down, LineFault>
    ensures { result ≡ spec.down_other (parts_behind (option_copied rest.entry)) }
{
    let (id, rest) = next_number(u64::from(u8::MAX), rest)?;
    let (octet1, rest) = next_number(u64::from(u8::MAX), rest)?;
    let (body, rest) = next_body(rest)?;
    ended(rest)?;
    Ok(Down::Other {
        id: id as u8,
        octet1: octet1 as u8,
        body,
    })
}

/// Reads the fields of the message with this name.
#[tactic(auto, unfolding(crate::specs::Words::down_named))]
fn down_named(word: &[u8], rest: Option<&[u8]>) -> Result<Down, LineFault>
    ensures { result ≡ spec.down_named word.now (parts_behind (option_copied rest.entry)) }
{
    if is_name(word, "Upstream_Overhead") {
        overhead(rest)
    } else if is_name(word, "Assign_ONU-ID") {
        assign_onu(rest)
    } else if is_name(word, "Ranging_Time") {
        ranging_time(rest)
    } else if is_name(word, "Deactivate_ONU-ID") {
        deactivate(rest)
    } else if is_name(word, "Disable_Serial_Number") {
        disable_serial(rest)
    } else if is_name(word, "Enable_Serial_Number") {
        enable_serial(rest)
    } else if is_name(word, "Enable_All") {
        enable_all(rest)
    } else if is_name(word, "Assign_Alloc-ID") {
        assign_alloc(rest)
    } else if is_name(word, "No_message") {
        nothing(rest)
    } else if is_name(word, "POPUP") {
        popup(rest)
    } else if is_name(word, "Other") {
        other(rest)
    } else {
        Err(LineFault::Word)
    }
}

/// Reads the message of the line terminal that a text says.
pub(crate) fn down_in(text: &[u8]) -> Result<Down, LineFault>
    ensures { result ≡ spec.down_of text.now }
{
    let (word, rest) = cut(text);
    down_named(word, rest)
}
