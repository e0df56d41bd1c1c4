//! Serial numbers as text, with the vendor code where it can stand for itself, and else in digits; what is written is
//! read back.
ghost use Rattle.std.specs.Prelude.{◌≡◌, ◌+◌, ◌*◌, ◌<◌, ◌≤◌, ◌++◌, true, length, vec_len, vec_capacity, OnOk, OnErr, IfOk, IfErr, Some, Ok};
ghost use Rattle.std.specs.List.{list_all};
ghost use Rattle.std.specs.Str.{IsAscii};
ghost use Rattle.std.specs.String.{string_bytes};
ghost use Rattle.hex.specs.Hex.{encode_upper};
ghost use Rattle.gp_serial.specs.Spelling.{Spells, is_vendor_character, serial_of_text, serial_with, text_of_serial};

use crate::fault::SerialFault;
use crate::reading::{is_vendor_code, spellings_are_read};
use gp_ploam::Serial;
use std::alloc::{AllocError, Global};
use std::fmt;
use std::fmt::{Display, Formatter, Write};
use std::marker::Model;

/// The text of a serial number, in place: it takes no memory. Contracts see its characters.
///
/// It shows the vendor code where there is one, as `ABCD00000001`, and else sixteen hex digits, as
/// `0000000000000000`. Digits are in upper case.
#[derive(Drop)]
pub struct SerialText {
    characters: [u8; 16],
    len: usize,
}

impl Model for SerialText {
    ghost use Rattle.std.specs.Prelude.{ℕ, List, take, ◌≤◌};
    ghost use Rattle.std.specs.Str.{IsAscii};

    ghost Value = { List ℕ };

    ghost view = { λ t. take t.len t.characters };

    ghost invariant = { λ t. (t.len ≤ 16) × IsAscii (take t.len t.characters) };
}

impl SerialText {
    /// Makes the text of this serial number.
    #[tactic(auto, unfolding(crate::specs::Spelling::text_of_serial))]
    pub fn of(serial: &Serial) -> SerialText
        ensures { result ≡ text_of_serial serial.now }
    {
        let (vendor, number) = serial.0.split_at(4);
        if is_vendor_code(vendor) {
            SerialText::of_vendor(vendor, number)
        } else {
            SerialText::of_digits(&serial.0)
        }
    }

    /// Writes a vendor code as it is, then four octets in digits.
    fn of_vendor(vendor: &[u8], number: &[u8]) -> SerialText
        requires code { list_all is_vendor_character vendor.now ≡ true }
        requires vendor { length vendor.now ≡ 4 }
        requires number { length number.now ≡ 4 }
        ensures { result ≡ vendor.now ++ encode_upper number.now }
    {
        let mut characters = [0; 16];
        characters[..4].copy_from_slice(vendor);
        write_digits(number, &mut characters[4..12]);
        SerialText {
            characters,
            len: 12,
        }
    }

    /// Writes eight octets in digits.
    fn of_digits(octets: &[u8; 8]) -> SerialText
        ensures { result ≡ encode_upper octets.now }
    {
        let mut characters = [0; 16];
        write_digits(octets, &mut characters);
        SerialText {
            characters,
            len: 16,
        }
    }

    /// Gives its characters, one octet each.
    pub fn as_bytes(&self) -> &[u8]
        ensures characters { result.now ≡ self.now }
        ensures ascii { IsAscii result.now }
    {
        &self.characters[..self.len]
    }

    /// Gives the same as text.
    pub fn as_str(&self) -> &str
        ensures { result.now ≡ self.now }
    {
        match str::from_utf8(self.as_bytes()) {
            Ok(text) => text,
            Err(_) => unreachable!(),
        }
    }
}

impl Display for SerialText {
    ghost output = { λ t. Some t };

    fn fmt<W: Write>(&self, f: &mut Formatter<W>) -> fmt::Result {
        f.write_str(self.as_str())
    }
}

/// Writes two hex digits for each octet, in upper case.
fn write_digits(octets: &[u8], digits: &mut [u8])
    requires { length digits.old ≡ 2 * length octets.now }
    ensures { digits.new ≡ encode_upper octets.now }
{
    hex::encode_to_slice(octets, &mut *digits).unwrap();
    digits.make_ascii_uppercase();
}

/// Writes the text of a serial number, as `SerialText` shows it. `OutOfMemory` is the only fault.
pub fn serial_text(alloc: Global, serial: &Serial) -> Result<String, SerialFault>
    ensures text { IfOk result (λ text. string_bytes text ≡ text_of_serial serial.now) }
    ensures read_back { IfOk result (λ text. serial_of_text (string_bytes text) ≡ Ok serial.now) }
    ensures memory { IfErr result (λ fault. fault ≡ SerialFault.OutOfMemory) }
{
    text_spells_serial(serial);
    Ok(String::from_str(alloc, SerialText::of(serial).as_str())?)
}

/// Appends the text of a serial number to these octets, and changes nothing where it is out of memory,
/// which doesn't happen where there is room for the text. The room never gets less.
pub fn push_serial_text(out: &mut Vec<u8>, serial: &Serial) -> Result<(), AllocError>
    ensures ok { OnOk result (out.new.items ≡ out.old.items ++ text_of_serial serial.now) }
    ensures err { OnErr result (out.new.items ≡ out.old.items) }
    ensures full { OnErr result (vec_capacity out.old < vec_len out.old + length (text_of_serial serial.now)) }
    ensures capacity { vec_capacity out.old ≤ vec_capacity out.new }
{
    out.extend_from_slice(SerialText::of(serial).as_bytes())
}

/// States that the text of a serial number is a spelling of it, and is read back as it.
pub fn text_spells_serial(serial: &Serial)
    ensures spelling { Spells (text_of_serial serial.now) serial.now }
    ensures read_back { serial_of_text (text_of_serial serial.now) ≡ Ok serial.now }
{
    octets_are_spelled(&serial.0);
    spellings_are_read();
}

/// States the same of the octets.
fn octets_are_spelled(octets: &[u8])
    requires { length octets.now ≡ 8 }
    ensures { Spells (text_of_serial (serial_with octets.now)) (serial_with octets.now) }
{}
