//! The octets of a code, from hexadecimal digits.
ghost use Rattle.std.specs.Prelude.{◌≡◌, IfOk, IfErr, Ok, Err};
ghost use Rattle.std.specs.List.{list_all};
ghost use Rattle.hex.specs.Hex.{decode_of, decode_sized, is_hex_digit};
ghost use Rattle.hex.specs.declared.error.FromHexError.{FromHexError};
ghost use Rattle.gp_ploam.specs.declared.check.Mask.{Mask};
ghost use Rattle.gp_decode.specs.Line.{HasDecodeFault, IsOfSpelling};

use super::fault::DecodeFault;
use gp_code::octets_in;

/// Reads the thirteen octets that a text of 26 digits stands for, or answers the text's first fault.
pub fn code_in(text: &[u8]) -> Result<[u8; 13], DecodeFault>
    ensures code { IfOk result (λ code. decode_of text.now ≡ Ok code) }
    ensures fault { IfErr result (λ fault. (mask : Mask) → HasDecodeFault mask text.now fault) }
    ensures spelling { IfErr result IsOfSpelling }
{
    match octets_in(text) {
        Some(code) => Ok(code),
        None => Err(fault_of(text)),
    }
}

/// Gives the first fault of a text that isn't 26 hexadecimal digits.
fn fault_of(text: &[u8]) -> DecodeFault
    requires { (fault : FromHexError) × (decode_sized text.now 13 ≡ Err fault) }
    ensures fault { (mask : Mask) → HasDecodeFault mask text.now result }
    ensures spelling { IsOfSpelling result }
{
    if text.len() % 2 == 1 {
        return DecodeFault::Length;
    }
    if !are_digits(text) {
        return DecodeFault::Digit;
    }
    DecodeFault::Length
}

/// Tells whether each byte is a hexadecimal digit.
fn are_digits(text: &[u8]) -> bool
    ensures { result ≡ list_all is_hex_digit text.now }
{
    text.iter().all(u8::is_ascii_hexdigit)
}
