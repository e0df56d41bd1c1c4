//! `parse_serial`: the serial number that a text spells, or its first fault.
ghost use Rattle.std.specs.Prelude.{◌≡◌, ℕ, ◌↔◌, List, ◌++◌, length, Ok, Err};
ghost use Rattle.std.specs.List.{list_all};
ghost use Rattle.gp_ploam.specs.declared.message.Serial.{Serial as AnySerial};
ghost use Rattle.gp_serial.specs.declared.fault.SerialFault.{SerialFault as AnyFault};
ghost use Rattle.gp_serial.specs.Spelling.{Spells, HasFault, is_vendor_character, serial_of_text};

use crate::fault::SerialFault;
use gp_ploam::Serial;
use hex::FromHex;

/// Reads the serial number that a text spells: four characters A to Z or 0 to 9, and eight hex digits, or
/// sixteen hex digits. Hex digits stand in either case.
pub fn parse_serial(text: &str) -> Result<Serial, SerialFault>
    ensures value { result ≡ serial_of_text text.now }
    ensures spelling { (serial : AnySerial) → (result ≡ Ok serial) ↔ Spells text.now serial }
    ensures fault { (fault : AnyFault) → (result ≡ Err fault) ↔ HasFault text.now fault }
{
    spellings_are_read();
    read(text.as_bytes())
}

/// States that what is read from a text is what it spells, and that a text that spells nothing has one first fault.
pub fn spellings_are_read()
    ensures spelling { (text : List ℕ) (serial : AnySerial) → (serial_of_text text ≡ Ok serial) ↔ Spells text serial }
    ensures fault { (text : List ℕ) (fault : AnyFault) → (serial_of_text text ≡ Err fault) ↔ HasFault text fault }
{}

/// Reads a text of either form, by its length.
#[tactic(auto, unfolding(crate::specs::Spelling::serial_of_text))]
fn read(text: &[u8]) -> Result<Serial, SerialFault>
    ensures { result ≡ serial_of_text text.now }
{
    match text.len() {
        12 => read_vendor_form(text),
        16 => read_digits(text),
        _ => Err(SerialFault::Length),
    }
}

/// Tells whether these octets can stand for themselves, as a vendor code.
pub(crate) fn is_vendor_code(octets: &[u8]) -> bool
    ensures { result ≡ list_all is_vendor_character octets.now }
{
    octets.iter().all(|octet| octet.is_ascii_uppercase() || octet.is_ascii_digit())
}

/// Reads a vendor code and eight digits.
#[tactic(auto, unfolding(crate::specs::Spelling::serial_of_text))]
fn read_vendor_form(text: &[u8]) -> Result<Serial, SerialFault>
    requires { length text.now ≡ 12 }
    ensures { result ≡ serial_of_text text.now }
{
    let (vendor, digits) = text.split_at(4);
    if !is_vendor_code(vendor) {
        return Err(SerialFault::Vendor);
    }
    match <[u8; 4] as FromHex>::from_hex(digits) {
        Ok(number) => Ok(joined(vendor, &number)),
        Err(_) => Err(SerialFault::Digit),
    }
}

/// Joins four octets of a vendor code and the vendor's own four.
fn joined(vendor: &[u8], number: &[u8; 4]) -> Serial
    requires { length vendor.now ≡ 4 }
    ensures { result.0 ≡ vendor.now ++ number.now }
{
    let mut octets = [0; 8];
    octets[..4].copy_from_slice(vendor);
    octets[4..].copy_from_slice(number);
    Serial(octets)
}

/// Reads sixteen digits.
#[tactic(auto, unfolding(crate::specs::Spelling::serial_of_text))]
fn read_digits(text: &[u8]) -> Result<Serial, SerialFault>
    requires { length text.now ≡ 16 }
    ensures { result ≡ serial_of_text text.now }
{
    match <[u8; 8] as FromHex>::from_hex(text) {
        Ok(octets) => Ok(Serial(octets)),
        Err(_) => Err(SerialFault::Digit),
    }
}
