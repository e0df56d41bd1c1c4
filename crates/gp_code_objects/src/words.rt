//! The answer to a line of words: the object of their code, or of their fault.
ghost use Rattle.std.specs.Prelude.{◌≡◌, IfOk, OnOk};
ghost use Rattle.gp_encode.specs.Lines.{fault_name, part_name};
ghost use Rattle.gp_code_objects.specs.Object.{error_object};
ghost use Rattle.gp_code_objects.specs.Encoded.{ShowsWords, words_object};

use crate::object::{begin_object, end_object, push_code, put_error};
use gp_encode::{WordsFault, encode_words};
use gp_lines::LineFault as PartFault;
use gp_ploam::Mask;
use std::alloc::AllocError;

/// Gives the name of a fault of a part.
fn part_name(fault: PartFault) -> &'static str
    ensures { result.now ≡ part_name fault }
{
    match fault {
        PartFault::Word => "word",
        PartFault::Number => "number",
        PartFault::Serial => "serial",
        PartFault::Hex => "hex",
        PartFault::Range => "range",
        PartFault::Long => "long",
        PartFault::Space => "space",
    }
}

/// Gives the name of a fault.
fn fault_name(fault: WordsFault) -> &'static str
    ensures { result.now ≡ fault_name fault }
{
    match fault {
        WordsFault::Part(part) => part_name(part),
        WordsFault::Named => "named",
    }
}

/// Puts the object of a line with a fault into a buffer, in place of what it held.
pub(crate) fn put_words_fault(
    out: &mut Vec<u8>,
    line: u64,
    fault: WordsFault,
) -> Result<(), AllocError>
    ensures { OnOk result (out.new.items ≡ error_object line (fault_name fault)) }
{
    put_error(out, line, fault_name(fault))
}

/// Puts the object of a line whose words have this code into a buffer, in place of what it held.
fn put_words_code(out: &mut Vec<u8>, line: u64, code: &[u8; 13]) -> Result<(), AllocError>
    ensures { OnOk result (out.new.items ≡ words_object line code.now) }
{
    begin_object(out, line)?;
    push_code(out, code)?;
    end_object(out)
}

/// Puts the object of the code of words into a buffer, in place of what it held, or that of their fault, which is
/// answered.
pub(crate) fn put_words(
    out: &mut Vec<u8>,
    line: u64,
    text: &[u8],
    upstream: bool,
    mask: Mask,
) -> Result<Option<WordsFault>, AllocError>
    ensures { IfOk result (λ fault. ShowsWords upstream mask line text.now fault out.new.items) }
{
    match encode_words(text, upstream, mask) {
        Ok(code) => {
            put_words_code(out, line, &code)?;
            Ok(None)
        }
        Err(fault) => {
            put_words_fault(out, line, fault)?;
            Ok(Some(fault))
        }
    }
}
