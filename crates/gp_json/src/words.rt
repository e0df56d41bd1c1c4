//! The words of a message within a text, as `gp_decode` tells them.
ghost use Rattle.std.specs.Prelude.{◌≡◌, ◌++◌, OnOk, codes, decimal, true};
ghost use Rattle.std.specs.List.{flat_map, list_all};
ghost use Rattle.hex.specs.Hex.{encode_lower};
ghost use Rattle.gp_serial.specs.Spelling.{text_of_serial};
ghost use Rattle.gp_decode.specs.Message.{down_text, keep_text, other_text, up_text};
ghost use Rattle.gp_json.specs.Runs.{is_plain};
ghost use Rattle.gp_json.specs.Spelling.{escaped};

use crate::writer::ObjectWriter;
use gp_ploam::{Down, Serial, Up};
use gp_serial::SerialText;
use std::alloc::AllocError;

/// Writes a word and a number.
fn put_numbered(out: &mut ObjectWriter, word: &str, number: u32) -> Result<(), AllocError>
    requires { list_all is_plain word.now ≡ true }
    ensures { OnOk result (out.new ≡ out.old ++ flat_map escaped (word.now ++ decimal number)) }
{
    out.put_plain(word.as_bytes())?;
    out.put_number(u64::from(number))
}

/// Writes a word and two numbers.
fn put_numbers(
    out: &mut ObjectWriter,
    word: &str,
    first: u32,
    second: u32,
) -> Result<(), AllocError>
    requires { list_all is_plain word.now ≡ true }
    ensures { OnOk result (out.new
        ≡ out.old ++ flat_map escaped (word.now ++ decimal first ++ codes " " ++ decimal second)) }
{
    put_numbered(out, word, first)?;
    put_numbered(out, " ", second)
}

/// Writes a word and ten octets, in lower-case hexadecimal digits.
fn put_octets(out: &mut ObjectWriter, word: &str, octets: &[u8; 10]) -> Result<(), AllocError>
    requires { list_all is_plain word.now ≡ true }
    ensures { OnOk result (out.new ≡ out.old ++ flat_map escaped (word.now ++ encode_lower octets.now)) }
{
    let mut digits = [0u8; 20];
    hex::encode_to_slice(octets.as_slice(), &mut digits).unwrap();
    out.put_plain(word.as_bytes())?;
    out.put_part(&digits)
}

/// Writes a word and a serial number.
fn put_serial(out: &mut ObjectWriter, word: &str, serial: &Serial) -> Result<(), AllocError>
    requires { list_all is_plain word.now ≡ true }
    ensures { OnOk result (out.new ≡ out.old ++ flat_map escaped (word.now ++ text_of_serial serial.now)) }
{
    out.put_plain(word.as_bytes())?;
    out.put_part(SerialText::of(serial).as_bytes())
}

/// Writes a word, an ONU-ID and a serial number.
fn put_unit(out: &mut ObjectWriter, word: &str, onu: u8, serial: &Serial) -> Result<(), AllocError>
    requires { list_all is_plain word.now ≡ true }
    ensures { OnOk result (out.new
        ≡ out.old ++ flat_map escaped (word.now ++ decimal onu ++ codes " " ++ text_of_serial serial.now)) }
{
    put_numbered(out, word, u32::from(onu))?;
    put_serial(out, " ", serial)
}

/// Writes a message that this profile has no row for.
fn put_other(out: &mut ObjectWriter, id: u8, octet1: u8, body: &[u8; 10]) -> Result<(), AllocError>
    ensures { OnOk result (out.new ≡ out.old ++ flat_map escaped (other_text id octet1 body.now)) }
{
    put_numbers(out, "Other ", u32::from(id), u32::from(octet1))?;
    put_octets(out, " ", body)
}

/// Gives the word for what becomes of an Alloc-ID, behind a space.
fn keep_word(keep: bool) -> &'static str
    ensures text { result.now ≡ codes " " ++ keep_text keep }
    ensures plain { list_all is_plain result.now ≡ true }
{
    if keep { " keep" } else { " back" }
}

/// Writes a word, an ONU-ID, an Alloc-ID, and what becomes of that.
fn put_alloc(
    out: &mut ObjectWriter,
    word: &str,
    onu: u8,
    alloc: u16,
    keep: bool,
) -> Result<(), AllocError>
    requires { list_all is_plain word.now ≡ true }
    ensures { OnOk result (out.new ≡ out.old ++ flat_map escaped (word.now ++ decimal onu ++ codes " "
        ++ decimal alloc ++ codes " " ++ keep_text keep)) }
{
    put_numbers(out, word, u32::from(onu), u32::from(alloc))?;
    out.put_plain(keep_word(keep).as_bytes())
}

/// Writes the words of a message of the line terminal.
pub(crate) fn put_down_words(out: &mut ObjectWriter, message: &Down) -> Result<(), AllocError>
    ensures { OnOk result (out.new ≡ out.old ++ flat_map escaped (down_text message.now)) }
{
    match message {
        Down::UpstreamOverhead { burst } => put_octets(out, "Upstream_Overhead ", burst),
        Down::AssignOnu { onu, serial } => put_unit(out, "Assign_ONU-ID ", *onu, serial),
        Down::RangingTime { onu, eqd } => put_numbers(out, "Ranging_Time ", u32::from(*onu), *eqd),
        Down::Deactivate { onu } => put_numbered(out, "Deactivate_ONU-ID ", u32::from(*onu)),
        Down::DisableSerial { serial } => put_serial(out, "Disable_Serial_Number ", serial),
        Down::EnableSerial { serial } => put_serial(out, "Enable_Serial_Number ", serial),
        Down::EnableAll => out.put_plain(b"Enable_All"),
        Down::AssignAlloc { onu, alloc, keep } => {
            put_alloc(out, "Assign_Alloc-ID ", *onu, *alloc, *keep)
        }
        Down::NoMessage => out.put_plain(b"No_message"),
        Down::Popup { onu } => put_numbered(out, "POPUP ", u32::from(*onu)),
        Down::Other { id, octet1, body } => put_other(out, *id, *octet1, body),
    }
}

/// Writes a word, an ONU-ID, a serial number, a random delay and flags.
fn put_unit_numbers(
    out: &mut ObjectWriter,
    word: &str,
    onu: u8,
    serial: &Serial,
    random: u16,
    flags: u8,
) -> Result<(), AllocError>
    requires { list_all is_plain word.now ≡ true }
    ensures { OnOk result (out.new ≡ out.old ++ flat_map escaped (word.now ++ decimal onu ++ codes " "
        ++ text_of_serial serial.now ++ codes " " ++ decimal random ++ codes " " ++ decimal flags)) }
{
    put_unit(out, word, onu, serial)?;
    put_numbers(out, " ", u32::from(random), u32::from(flags))
}

/// Writes the words of a message of a unit.
pub(crate) fn put_up_words(out: &mut ObjectWriter, message: &Up) -> Result<(), AllocError>
    ensures { OnOk result (out.new ≡ out.old ++ flat_map escaped (up_text message.now)) }
{
    match message {
        Up::SerialNumber {
            onu,
            serial,
            random,
            flags,
        } => put_unit_numbers(out, "Serial_Number_ONU ", *onu, serial, *random, *flags),
        Up::DyingGasp { onu } => put_numbered(out, "Dying_Gasp ", u32::from(*onu)),
        Up::NoMessage { onu } => put_numbered(out, "No_message ", u32::from(*onu)),
        Up::Acknowledge { onu, id, .. } => {
            put_numbers(out, "Acknowledge ", u32::from(*onu), u32::from(*id))
        }
        Up::Other { id, octet1, body } => put_other(out, *id, *octet1, body),
    }
}
