//! The name of a message, and its fields, each by its own name.
ghost use Rattle.std.specs.Prelude.{◌≡◌, ◌++◌, OnOk, codes, decimal};
ghost use Rattle.gp_decode.specs.Names as standard;
ghost use Rattle.gp_json.specs.Message as spec;

use crate::object::{push_number, push_text};
use gp_decode::other_name;
use gp_ploam::{Down, Serial, Up};
use gp_serial::SerialText;
use std::alloc::AllocError;

/// Appends an ONU-ID.
fn push_onu(out: &mut Vec<u8>, onu: u8) -> Result<(), AllocError>
    ensures { OnOk result (out.new.items ≡ out.old.items ++ spec.onu_field onu) }
{
    push_number(out, "onu", u32::from(onu))
}

/// Appends a serial number.
fn push_serial(out: &mut Vec<u8>, serial: &Serial) -> Result<(), AllocError>
    ensures { OnOk result (out.new.items ≡ out.old.items ++ spec.serial_field serial.now) }
{
    push_text(out, "serial", SerialText::of(serial).as_bytes())
}

/// Appends ten octets.
fn push_octets(out: &mut Vec<u8>, octets: &[u8; 10]) -> Result<(), AllocError>
    ensures { OnOk result (out.new.items ≡ out.old.items ++ spec.octets_field octets.now) }
{
    let mut digits = [0u8; 20];
    hex::encode_to_slice(octets.as_slice(), &mut digits).unwrap();
    push_text(out, "octets", digits.as_slice())
}

/// Appends an ONU-ID and a serial number.
fn push_unit(out: &mut Vec<u8>, onu: u8, serial: &Serial) -> Result<(), AllocError>
    ensures { OnOk result (out.new.items ≡ out.old.items ++ (spec.onu_field onu ++ spec.serial_field serial.now)) }
{
    push_onu(out, onu)?;
    push_serial(out, serial)
}

/// Appends an ONU-ID and a number.
fn push_onu_number(out: &mut Vec<u8>, onu: u8, key: &str, number: u32) -> Result<(), AllocError>
    ensures { OnOk result (out.new.items ≡ out.old.items ++ (spec.onu_field onu ++ spec.number_field key.now number)) }
{
    push_onu(out, onu)?;
    push_number(out, key, number)
}

/// Gives the field that tells whether a unit keeps an Alloc-ID.
fn keep_field(keep: bool) -> &'static str
    ensures { result.now ≡ spec.key_text (codes "keep") ++ spec.truth keep }
{
    if keep {
        ",\"keep\":true"
    } else {
        ",\"keep\":false"
    }
}

/// Appends an ONU-ID, an Alloc-ID, and whether the unit keeps it.
fn push_alloc(out: &mut Vec<u8>, onu: u8, alloc: u16, keep: bool) -> Result<(), AllocError>
    ensures { OnOk result (out.new.items ≡ out.old.items ++ (spec.onu_field onu
        ++ spec.number_field (codes "alloc") alloc ++ (spec.key_text (codes "keep") ++ spec.truth keep))) }
{
    push_onu_number(out, onu, "alloc", u32::from(alloc))?;
    out.extend_from_slice(keep_field(keep).as_bytes())
}

/// Appends the identifier and octet 1 of a message that this profile has no row for.
fn push_other_numbers(out: &mut Vec<u8>, id: u8, octet1: u8) -> Result<(), AllocError>
    ensures { OnOk result (out.new.items ≡ out.old.items
        ++ (spec.number_field (codes "id") id ++ spec.number_field (codes "octet1") octet1)) }
{
    push_number(out, "id", u32::from(id))?;
    push_number(out, "octet1", u32::from(octet1))
}

/// Appends the fields of a message that this profile has no row for.
fn push_other(out: &mut Vec<u8>, id: u8, octet1: u8, body: &[u8; 10]) -> Result<(), AllocError>
    ensures { OnOk result (out.new.items ≡ out.old.items ++ spec.other_fields id octet1 body.now) }
{
    push_other_numbers(out, id, octet1)?;
    push_octets(out, body)
}

/// Gives the name of a message that this profile has no row for.
fn name_or_other(upstream: bool, id: u8) -> &'static str
    ensures { result.now ≡ spec.name_or_other (standard.other_name upstream id) }
{
    match other_name(upstream, id) {
        Some(name) => name,
        None => "Other",
    }
}

/// Gives the name of a message of the line terminal.
pub(crate) fn down_name(message: &Down) -> &'static str
    ensures { result.now ≡ spec.down_name message.now }
{
    match message {
        Down::UpstreamOverhead { .. } => "Upstream_Overhead",
        Down::AssignOnu { .. } => "Assign_ONU-ID",
        Down::RangingTime { .. } => "Ranging_Time",
        Down::Deactivate { .. } => "Deactivate_ONU-ID",
        Down::DisableSerial { .. } => "Disable_Serial_Number",
        Down::EnableSerial { .. } => "Enable_Serial_Number",
        Down::EnableAll => "Enable_All",
        Down::AssignAlloc { .. } => "Assign_Alloc-ID",
        Down::NoMessage => "No_message",
        Down::Popup { .. } => "POPUP",
        Down::Other { id, .. } => name_or_other(false, *id),
    }
}

/// Appends its fields.
pub(crate) fn push_down_fields(out: &mut Vec<u8>, message: &Down) -> Result<(), AllocError>
    ensures { OnOk result (out.new.items ≡ out.old.items ++ spec.down_fields message.now) }
{
    match message {
        Down::UpstreamOverhead { burst } => push_octets(out, burst),
        Down::AssignOnu { onu, serial } => push_unit(out, *onu, serial),
        Down::RangingTime { onu, eqd } => push_onu_number(out, *onu, "eqd", *eqd),
        Down::Deactivate { onu } | Down::Popup { onu } => push_onu(out, *onu),
        Down::DisableSerial { serial } | Down::EnableSerial { serial } => push_serial(out, serial),
        Down::EnableAll | Down::NoMessage => Ok(()),
        Down::AssignAlloc { onu, alloc, keep } => push_alloc(out, *onu, *alloc, *keep),
        Down::Other { id, octet1, body } => push_other(out, *id, *octet1, body),
    }
}

/// Gives the name of a message of a unit.
pub(crate) fn up_name(message: &Up) -> &'static str
    ensures { result.now ≡ spec.up_name message.now }
{
    match message {
        Up::SerialNumber { .. } => "Serial_Number_ONU",
        Up::DyingGasp { .. } => "Dying_Gasp",
        Up::NoMessage { .. } => "No_message",
        Up::Acknowledge { .. } => "Acknowledge",
        Up::Other { id, .. } => name_or_other(true, *id),
    }
}

/// Appends an ONU-ID, a serial number, a random delay and flags.
fn push_serial_number(
    out: &mut Vec<u8>,
    onu: u8,
    serial: &Serial,
    random: u16,
    flags: u8,
) -> Result<(), AllocError>
    ensures { OnOk result (out.new.items ≡ out.old.items ++ (spec.onu_field onu ++ spec.serial_field serial.now
        ++ spec.number_field (codes "random") random ++ spec.number_field (codes "flags") flags)) }
{
    push_unit(out, onu, serial)?;
    push_number(out, "random", u32::from(random))?;
    push_number(out, "flags", u32::from(flags))
}

/// Appends its fields.
pub(crate) fn push_up_fields(out: &mut Vec<u8>, message: &Up) -> Result<(), AllocError>
    ensures { OnOk result (out.new.items ≡ out.old.items ++ spec.up_fields message.now) }
{
    match message {
        Up::SerialNumber {
            onu,
            serial,
            random,
            flags,
        } => push_serial_number(out, *onu, serial, *random, *flags),
        Up::DyingGasp { onu } | Up::NoMessage { onu } => push_onu(out, *onu),
        Up::Acknowledge { onu, id, .. } => push_onu_number(out, *onu, "id", u32::from(*id)),
        Up::Other { id, octet1, body } => push_other(out, *id, *octet1, body),
    }
}
