//! The lines of a table: a key and its value.
ghost use Rattle.std.specs.Prelude.{◌≡◌, ◌++◌, OnOk, codes, decimal};
ghost use Rattle.gp_serial.specs.Spelling.{text_of_serial};
ghost use Rattle.gp_generate.specs.Fields as spec;
ghost use Rattle.hex.specs.Hex.{encode_lower};

use gp_ploam::Serial;
use gp_serial::SerialText;
use itoa::Buffer;
use std::alloc::AllocError;

/// Appends a text.
pub(crate) fn push_text(out: &mut Vec<u8>, text: &str) -> Result<(), AllocError>
    ensures { OnOk result (out.new.items ≡ out.old.items ++ text.now) }
{
    out.extend_from_slice(text.as_bytes())
}

/// Appends a number in decimal digits.
pub(crate) fn push_decimal(out: &mut Vec<u8>, number: u64) -> Result<(), AllocError>
    ensures { OnOk result (out.new.items ≡ out.old.items ++ decimal number) }
{
    let mut digits = Buffer::new();
    out.extend_from_slice(digits.format(number).as_bytes())
}

/// Appends the text of a serial number.
pub(crate) fn push_serial(out: &mut Vec<u8>, serial: &Serial) -> Result<(), AllocError>
    ensures { OnOk result (out.new.items ≡ out.old.items ++ text_of_serial serial.now) }
{
    out.extend_from_slice(SerialText::of(serial).as_bytes())
}

/// Appends a code in hexadecimal digits.
fn push_digits(out: &mut Vec<u8>, code: &[u8; 13]) -> Result<(), AllocError>
    ensures { OnOk result (out.new.items ≡ out.old.items ++ encode_lower code.now) }
{
    let mut digits = [0; 26];
    hex::encode_to_slice(code.as_slice(), &mut digits).unwrap();
    out.extend_from_slice(&digits)
}

/// Appends a key whose value is a number.
#[tactic(auto, unfolding(crate::specs::Fields::number_line))]
pub(crate) fn push_number(out: &mut Vec<u8>, name: &str, number: u64) -> Result<(), AllocError>
    ensures { OnOk result (out.new.items ≡ out.old.items ++ spec.number_line name.now number) }
{
    push_text(out, name)?;
    push_text(out, " = ")?;
    push_decimal(out, number)?;
    push_text(out, "\n")
}

/// Appends a key whose value is a text.
#[tactic(auto, unfolding(crate::specs::Fields::text_line))]
pub(crate) fn push_word(out: &mut Vec<u8>, name: &str, text: &str) -> Result<(), AllocError>
    ensures { OnOk result (out.new.items ≡ out.old.items ++ spec.text_line name.now text.now) }
{
    push_text(out, name)?;
    push_text(out, " = \"")?;
    push_text(out, text)?;
    push_text(out, "\"\n")
}

/// Appends the key of a serial number.
#[tactic(auto, unfolding(crate::specs::Fields::text_line))]
pub(crate) fn push_serial_key(out: &mut Vec<u8>, serial: &Serial) -> Result<(), AllocError>
    ensures { OnOk result (out.new.items
        ≡ out.old.items ++ spec.text_line (codes "serial") (text_of_serial serial.now)) }
{
    push_text(out, "serial")?;
    push_text(out, " = \"")?;
    push_serial(out, serial)?;
    push_text(out, "\"\n")
}

/// Appends the key of a burst.
#[tactic(auto, unfolding(crate::specs::Fields::text_line))]
pub(crate) fn push_burst_key(out: &mut Vec<u8>, code: &[u8; 13]) -> Result<(), AllocError>
    ensures { OnOk result (out.new.items
        ≡ out.old.items ++ spec.text_line (codes "burst") (encode_lower code.now)) }
{
    push_text(out, "burst")?;
    push_text(out, " = \"")?;
    push_digits(out, code)?;
    push_text(out, "\"\n")
}

/// Appends a key whose value is true or false.
#[tactic(auto, unfolding(crate::specs::Fields::truth_line))]
pub(crate) fn push_truth(out: &mut Vec<u8>, name: &str, truth: bool) -> Result<(), AllocError>
    ensures { OnOk result (out.new.items ≡ out.old.items ++ spec.truth_line name.now truth) }
{
    push_text(out, name)?;
    if truth {
        push_text(out, " = true\n")
    } else {
        push_text(out, " = false\n")
    }
}
