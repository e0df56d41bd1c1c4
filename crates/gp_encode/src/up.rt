//! Messages of a unit, from their words.
ghost use Rattle.std.specs.Prelude.{◌≡◌};
ghost use Rattle.std.specs.Option.{option_copied};
ghost use Rattle.gp_lines.specs.Parts.{parts_behind, parts_of};
ghost use Rattle.gp_encode.specs.Words as spec;

use crate::fields::{ended, is_name, next_body, next_number, next_serial};
use gp_lines::{LineFault, cut};
use gp_ploam::Up;

/// The greatest random delay, in units of 32 bytes (G.984.3, clause 9: it has 12 bits).
const GREATEST_DELAY: u64 = 4095;

/// The greatest flags (G.984.3, clause 9: they have 4 bits).
const GREATEST_FLAGS: u64 = 15;

#[tactic(auto, unfolding(crate::specs::Words::up_serial_number))]
fn serial_number(rest: Option<&[u8]>) -> Result<Up, LineFault>
    ensures { result ≡ spec.up_serial_number (parts_behind (option_copied rest.entry)) }
{
    let (onu, rest) = next_number(u64::from(u8::MAX), rest)?;
    let (serial, rest) = next_serial(rest)?;
    let (random, rest) = next_number(GREATEST_DELAY, rest)?;
    let (flags, rest) = next_number(GREATEST_FLAGS, rest)?;
    ended(rest)?;
    Ok(Up::SerialNumber {
        onu: onu as u8,
        serial,
        random: random as u16,
        flags: flags as u8,
    })
}

#[tactic(auto, unfolding(crate::specs::Words::up_gasp))]
fn gasp(rest: Option<&[u8]>) -> Result<Up, LineFault>
    ensures { result ≡ spec.up_gasp (parts_behind (option_copied rest.entry)) }
{
    let (onu, rest) = next_number(u64::from(u8::MAX), rest)?;
    ended(rest)?;
    Ok(Up::DyingGasp { onu: onu as u8 })
}

#[tactic(auto, unfolding(crate::specs::Words::up_nothing))]
fn nothing(rest: Option<&[u8]>) -> Result<Up, LineFault>
    ensures { result ≡ spec.up_nothing (parts_behind (option_copied rest.entry)) }
{
    let (onu, rest) = next_number(u64::from(u8::MAX), rest)?;
    ended(rest)?;
    Ok(Up::NoMessage { onu: onu as u8 })
}

#[tactic(auto, unfolding(crate::specs::Words::up_acknowledge))]
fn acknowledge(rest: Option<&[u8]>) -> Result<Up, LineFault>
    ensures { result ≡ spec.up_acknowledge (parts_behind (option_copied rest.entry)) }
{
    let (onu, rest) = next_number(u64::from(u8::MAX), rest)?;
    let (id, rest) = next_number(u64::from(u8::MAX), rest)?;
    ended(rest)?;
    Ok(Up::Acknowledge {
        onu: onu as u8,
        id: id as u8,
        copy: [0; 9],
    })
}

#[tactic(auto, unfolding(crate::specs::Words::up_other))]
fn other(rest: Option<&[u8]>) -> Result<Up, LineFault>
    ensures { result ≡ spec.up_other (parts_behind (option_copied rest.entry)) }
{
    let (id, rest) = next_number(u64::from(u8::MAX), rest)?;
    let (octet1, rest) = next_number(u64::from(u8::MAX), rest)?;
    let (body, rest) = next_body(rest)?;
    ended(rest)?;
    Ok(Up::Other {
        id: id as u8,
        octet1: octet1 as u8,
        body,
    })
}

/// Reads the fields of the message with this name.
#[tactic(auto, unfolding(crate::specs::Words::up_named))]
fn up_named(word: &[u8], rest: Option<&[u8]>) -> Result<Up, LineFault>
    ensures { result ≡ spec.up_named word.now (parts_behind (option_copied rest.entry)) }
{
    if is_name(word, "Serial_Number_ONU") {
        serial_number(rest)
    } else if is_name(word, "Dying_Gasp") {
        gasp(rest)
    } else if is_name(word, "No_message") {
        nothing(rest)
    } else if is_name(word, "Acknowledge") {
        acknowledge(rest)
    } else if is_name(word, "Other") {
        other(rest)
    } else {
        Err(LineFault::Word)
    }
}

/// Reads the message of a unit that a text says.
pub(crate) fn up_in(text: &[u8]) -> Result<Up, LineFault>
    ensures { result ≡ spec.up_of text.now }
{
    let (word, rest) = cut(text);
    up_named(word, rest)
}
