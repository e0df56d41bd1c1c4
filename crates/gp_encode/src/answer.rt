//! What is said to a line of words: the line of its code, or `error` with its number and its fault.
ghost use Rattle.std.specs.Prelude.{◌≡◌, ◌++◌, IfOk, OnOk, codes};
ghost use Rattle.hex.specs.Hex.{encode_lower};
ghost use Rattle.gp_encode.specs.Lines.{SaysToText, error_line, fault_name, part_name};

use crate::encoding::encode_words;
use crate::fault::WordsFault;
use gp_lines::LineFault as PartFault;
use gp_ploam::Mask;
use itoa::Buffer;
use std::alloc::AllocError;

/// Gives the name of a fault of a part.
fn part_name(fault: PartFault) -> &'static str
    ensures { result.now ≡ part_name fault }
{
    match fault {
        PartFault::Word => "word",
        PartFault::Number => "number",
        PartFault::Serial => "serial",
        PartFault::Hex => "hex",
        PartFault::Range => "range",
        PartFault::Long => "long",
        PartFault::Space => "space",
    }
}

/// Gives the name of a fault.
fn fault_name(fault: WordsFault) -> &'static str
    ensures { result.now ≡ fault_name fault }
{
    match fault {
        WordsFault::Part(part) => part_name(part),
        WordsFault::Named => "named",
    }
}

/// Puts what is said to a line with a fault into a buffer, in place of what it held.
pub(crate) fn put_error_line(
    out: &mut Vec<u8>,
    line: u64,
    fault: WordsFault,
) -> Result<(), AllocError>
    ensures { OnOk result (out.new.items ≡ error_line line fault) }
{
    let mut digits = Buffer::new();
    out.clear();
    out.extend_from_slice(b"error ")?;
    out.extend_from_slice(digits.format(line).as_bytes())?;
    out.extend_from_slice(b" ")?;
    out.extend_from_slice(fault_name(fault).as_bytes())?;
    out.extend_from_slice(b"\n")
}

/// Puts the line of a code into a buffer, in place of what it held.
fn put_code_line(out: &mut Vec<u8>, code: &[u8; 13]) -> Result<(), AllocError>
    ensures { OnOk result (out.new.items ≡ encode_lower code.now ++ codes "\n") }
{
    let mut digits = [0u8; 26];
    hex::encode_to_slice(code.as_slice(), &mut digits).unwrap();
    out.clear();
    out.extend_from_slice(&digits)?;
    out.extend_from_slice(b"\n")
}

/// Puts the line of the code of words into a buffer, in place of what it held, or of their fault, which is answered.
pub(crate) fn put_answer(
    out: &mut Vec<u8>,
    line: u64,
    text: &[u8],
    upstream: bool,
    mask: Mask,
) -> Result<Option<WordsFault>, AllocError>
    ensures { IfOk result (λ fault. SaysToText upstream mask line text.now fault out.new.items) }
{
    match encode_words(text, upstream, mask) {
        Ok(code) => {
            put_code_line(out, &code)?;
            Ok(None)
        }
        Err(fault) => {
            put_error_line(out, line, fault)?;
            Ok(Some(fault))
        }
    }
}
