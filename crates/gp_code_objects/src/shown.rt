//! The answer to a line of codes: the object of its code, or of its first fault, with what would be right of a wrong
//! check octet.
ghost use Rattle.std.specs.Prelude.{◌≡◌, ◌∷◌, ◌++◌, ℕ, List, [], IfOk, OnOk, Ok, codes, false, true};
ghost use Rattle.hex.specs.Hex.{decode_of, encode_lower};
ghost use Rattle.gp_decode.specs.LineText.{code_digits};
ghost use Rattle.gp_decode.specs.Lines.{fault_name, mask_text, other_mask};
ghost use Rattle.gp_json.specs.Message.{down_fields, down_name, key_text, text_field, up_fields, up_name};
ghost use Rattle.gp_code_objects.specs.Object.{code_field, error_object, object_begun};
ghost use Rattle.gp_code_objects.specs.Decoded.{ShowsDigits, ShowsText, check_field, check_object, code_begun, code_object};

use crate::message::{down_name, push_down_fields, push_up_fields, up_name};
use crate::object::{begin_object, end_object, push_code, push_text, put_error};
use crate::spelled::{code_in, directed, push_digits};
use gp_code::octets_in;
use gp_decode::{DecodeFault, Direction};
use gp_ploam::{Down, Mask, Up, crc, decode_down, decode_up};
use std::alloc::{AllocError, Global};

/// Puts the beginning of a line's object into a buffer, in place of what it held, with the direction of its code.
fn begin_directed(out: &mut Vec<u8>, line: u64, direction: &str) -> Result<(), AllocError>
    ensures { OnOk result (out.new.items
        ≡ object_begun line ++ text_field (codes "direction") direction.now) }
{
    begin_object(out, line)?;
    push_text(out, "direction", direction.as_bytes())
}

/// Appends a code, and the name of its message.
fn push_named_code(out: &mut Vec<u8>, code: &[u8; 13], name: &str) -> Result<(), AllocError>
    ensures { OnOk result (out.new.items
        ≡ out.old.items ++ (code_field code.now ++ text_field (codes "message") name.now)) }
{
    push_code(out, code)?;
    push_text(out, "message", name.as_bytes())
}

/// Puts what the object of any code begins with into a buffer, in place of what it held.
fn begin_code(
    out: &mut Vec<u8>,
    line: u64,
    direction: &str,
    code: &[u8; 13],
    name: &str,
) -> Result<(), AllocError>
    ensures { OnOk result (out.new.items ≡ code_begun line direction.now code.now name.now) }
{
    begin_directed(out, line, direction)?;
    push_named_code(out, code, name)
}

/// Puts the object of a code that is read as this message of the line terminal into a buffer, in place of what it held.
fn put_down(out: &mut Vec<u8>, line: u64, code: &[u8; 13], message: &Down) -> Result<(), AllocError>
    ensures { OnOk result (out.new.items
        ≡ code_object line false code.now (down_name message.now) (down_fields message.now)) }
{
    begin_code(out, line, "down", code, down_name(message))?;
    push_down_fields(out, message)?;
    end_object(out)
}

/// The same of one that is read as this message of a unit.
fn put_up(out: &mut Vec<u8>, line: u64, code: &[u8; 13], message: &Up) -> Result<(), AllocError>
    ensures { OnOk result (out.new.items
        ≡ code_object line true code.now (up_name message.now) (up_fields message.now)) }
{
    begin_code(out, line, "up", code, up_name(message))?;
    push_up_fields(out, message)?;
    end_object(out)
}

/// Gives the mask that is not in use.
fn other_mask(mask: Mask) -> Mask
    ensures { result ≡ other_mask mask }
{
    match mask {
        Mask::Plain => Mask::Coset,
        Mask::Coset => Mask::Plain,
    }
}

/// Gives the field which tells that a code is right under this mask.
fn right_under(mask: Mask) -> &'static str
    ensures { result.now ≡ key_text (codes "right_under_mask") ++ mask_text mask }
{
    match mask {
        Mask::Plain => ",\"right_under_mask\":0",
        Mask::Coset => ",\"right_under_mask\":85",
    }
}

/// Appends the field of the octet that should stand.
fn push_wanted(out: &mut Vec<u8>, octet: u8) -> Result<(), AllocError>
    ensures { OnOk result (out.new.items
        ≡ out.old.items ++ text_field (codes "wanted") (encode_lower (octet ∷ []))) }
{
    let mut digits = [0u8; 2];
    hex::encode_to_slice([octet].as_slice(), &mut digits).unwrap();
    push_text(out, "wanted", digits.as_slice())
}

/// Appends the field of what would be right of a code whose check octet is wrong under the mask.
fn push_check(out: &mut Vec<u8>, code: &[u8; 13], mask: Mask) -> Result<(), AllocError>
    ensures { OnOk result (out.new.items ≡ out.old.items ++ check_field mask code.now) }
{
    let other = other_mask(mask);
    if crc(&code[..12], other) == code[12] {
        return out.extend_from_slice(right_under(other).as_bytes());
    }
    push_wanted(out, crc(&code[..12], mask))
}

/// Puts the object of a line with such a code into a buffer, in place of what it held.
fn put_check(out: &mut Vec<u8>, line: u64, code: &[u8; 13], mask: Mask) -> Result<(), AllocError>
    ensures { OnOk result (out.new.items ≡ check_object line mask code.now) }
{
    begin_object(out, line)?;
    push_text(out, "error", b"crc")?;
    push_check(out, code, mask)?;
    end_object(out)
}

/// Puts the object of a code into a buffer, in place of what it held, and answers its fault: that its check octet is
/// wrong.
fn put_code(
    out: &mut Vec<u8>,
    line: u64,
    code: &[u8; 13],
    upstream: bool,
    mask: Mask,
) -> Result<Option<DecodeFault>, AllocError>
    ensures { (digits : List ℕ) → decode_of digits ≡ Ok code.now
        → IfOk result (λ fault. ShowsDigits upstream mask line digits fault out.new.items) }
{
    if upstream {
        put_up_code(out, line, code, mask)
    } else {
        put_down_code(out, line, code, mask)
    }
}

/// Does so with a code of a unit.
fn put_up_code(
    out: &mut Vec<u8>,
    line: u64,
    code: &[u8; 13],
    mask: Mask,
) -> Result<Option<DecodeFault>, AllocError>
    ensures { (digits : List ℕ) → decode_of digits ≡ Ok code.now
        → IfOk result (λ fault. ShowsDigits true mask line digits fault out.new.items) }
{
    match decode_up(code, mask) {
        Ok(message) => {
            put_up(out, line, code, &message)?;
            Ok(None)
        }
        Err(_) => {
            put_check(out, line, code, mask)?;
            Ok(Some(DecodeFault::Crc))
        }
    }
}

/// Does so with one of the line terminal.
fn put_down_code(
    out: &mut Vec<u8>,
    line: u64,
    code: &[u8; 13],
    mask: Mask,
) -> Result<Option<DecodeFault>, AllocError>
    ensures { (digits : List ℕ) → decode_of digits ≡ Ok code.now
        → IfOk result (λ fault. ShowsDigits false mask line digits fault out.new.items) }
{
    match decode_down(code, mask) {
        Ok(message) => {
            put_down(out, line, code, &message)?;
            Ok(None)
        }
        Err(_) => {
            put_check(out, line, code, mask)?;
            Ok(Some(DecodeFault::Crc))
        }
    }
}

/// Gives the name of a fault.
fn fault_name(fault: DecodeFault) -> &'static str
    ensures { result.now ≡ fault_name fault }
{
    match fault {
        DecodeFault::Length => "length",
        DecodeFault::Digit => "digit",
        DecodeFault::Crc => "crc",
        DecodeFault::OutOfMemory => "memory",
        DecodeFault::Write => "write",
        DecodeFault::Direction => "direction",
    }
}

/// Puts the object of a line with a fault into a buffer, in place of what it held.
fn put_fault(out: &mut Vec<u8>, line: u64, fault: DecodeFault) -> Result<(), AllocError>
    ensures { OnOk result (out.new.items ≡ error_object line (fault_name fault)) }
{
    put_error(out, line, fault_name(fault))
}

/// Puts the object of the digits of a code into a buffer, in place of what it held, and answers their fault.
pub(crate) fn put_digits(
    out: &mut Vec<u8>,
    line: u64,
    digits: &[u8],
    upstream: bool,
    mask: Mask,
) -> Result<Option<DecodeFault>, AllocError>
    ensures { IfOk result (λ fault. ShowsDigits upstream mask line digits.now fault out.new.items) }
{
    match code_in(digits) {
        Ok(code) => put_code(out, line, &code, upstream, mask),
        Err(fault) => {
            put_fault(out, line, fault)?;
            Ok(Some(fault))
        }
    }
}

/// The object of the line at hand, and the digits of its code.
#[derive(Drop)]
pub(crate) struct Shown {
    digits: Vec<u8>,
    pub(crate) said: Vec<u8>,
}

impl Shown {
    /// Makes one in which nothing is said.
    pub(crate) fn new(alloc: Global) -> Shown {
        Shown {
            digits: Vec::new(alloc),
            said: Vec::new(alloc),
        }
    }

    /// Says of a line that it has a fault.
    pub(crate) fn refuse(&mut self, line: u64, fault: DecodeFault) -> Result<(), AllocError>
        ensures { OnOk result (self.new.said.items ≡ error_object line (fault_name fault)) }
    {
        put_fault(&mut self.said, line, fault)
    }

    /// Says which message a text is the code of, or its fault, which is answered. Its digits are gathered only where
    /// it isn't written in digits alone.
    pub(crate) fn show(
        &mut self,
        line: u64,
        text: &[u8],
        direction: Direction,
        mask: Mask,
    ) -> Result<Option<DecodeFault>, AllocError>
        ensures { IfOk result (λ fault. ShowsText direction mask line text.now fault self.new.said.items) }
    {
        let Some((upstream, spelled)) = directed(direction, text) else {
            self.refuse(line, DecodeFault::Direction)?;
            return Ok(Some(DecodeFault::Direction));
        };
        match octets_in(spelled) {
            Some(code) => put_code(&mut self.said, line, &code, upstream, mask),
            None => self.show_spelled(line, spelled, upstream, mask),
        }
    }

    /// Says which message the code in a text is, or its fault, which is answered.
    fn show_spelled(
        &mut self,
        line: u64,
        text: &[u8],
        upstream: bool,
        mask: Mask,
    ) -> Result<Option<DecodeFault>, AllocError>
        ensures { IfOk result (λ fault. ShowsDigits upstream mask line (code_digits text.now) fault
            self.new.said.items) }
    {
        self.digits.clear();
        push_digits(&mut self.digits, text)?;
        let digits = self.digits.as_slice();
        put_digits(&mut self.said, line, digits, upstream, mask)
    }
}
