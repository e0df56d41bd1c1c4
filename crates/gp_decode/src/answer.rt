//! What is said to a line of many: the line of its message, or `error` with its number and its fault, and with what
//! would be right of a wrong check octet.
ghost use Rattle.std.specs.Prelude.{◌≡◌, ◌∷◌, ◌++◌, ℕ, [], List, IfOk, OnOk, Ok, codes};
ghost use Rattle.hex.specs.Hex.{decode_of, encode_lower};
ghost use Rattle.gp_decode.specs.LineText.{code_digits};
ghost use Rattle.gp_decode.specs.Lines.{SaysToDigits, SaysToText, SaysToWay, check_line, check_note, error_line, error_text, fault_name, mask_text, other_mask};

use crate::append::push_words_in;
use crate::code::code_in;
use crate::direction::Direction;
use crate::fault::DecodeFault;
use crate::text::{directed, push_digits};
use gp_code::octets_in;
use gp_ploam::{Mask, crc};
use itoa::Buffer;
use std::alloc::{AllocError, Global};

/// Gives the name of a fault.
fn fault_name(fault: DecodeFault) -> &'static str
    ensures { result.now ≡ fault_name fault }
{
    match fault {
        DecodeFault::Length => "length",
        DecodeFault::Digit => "digit",
        DecodeFault::Crc => "crc",
        DecodeFault::OutOfMemory => "memory",
        DecodeFault::Write => "write",
        DecodeFault::Direction => "direction",
    }
}

/// Puts a line's number and its fault into a buffer, in place of what it held.
fn put_error(out: &mut Vec<u8>, line: u64, fault: DecodeFault) -> Result<(), AllocError>
    ensures { OnOk result (out.new.items ≡ error_text line fault) }
{
    let mut digits = Buffer::new();
    out.clear();
    out.extend_from_slice(b"error ")?;
    out.extend_from_slice(digits.format(line).as_bytes())?;
    out.extend_from_slice(b" ")?;
    out.extend_from_slice(fault_name(fault).as_bytes())
}

/// Puts what is said to a line with a fault into a buffer, in place of what it held.
fn put_error_line(out: &mut Vec<u8>, line: u64, fault: DecodeFault) -> Result<(), AllocError>
    ensures { OnOk result (out.new.items ≡ error_line line fault) }
{
    put_error(out, line, fault)?;
    out.extend_from_slice(b"\n")
}

/// Gives the mask that is not in use.
fn other_mask(mask: Mask) -> Mask
    ensures { result ≡ other_mask mask }
{
    match mask {
        Mask::Plain => Mask::Coset,
        Mask::Coset => Mask::Plain,
    }
}

/// Says that a code is right under this mask.
fn right_under(mask: Mask) -> &'static str
    ensures { result.now ≡ codes ", right under mask " ++ mask_text mask }
{
    match mask {
        Mask::Plain => ", right under mask 0",
        Mask::Coset => ", right under mask 85",
    }
}

/// Appends which octet should stand.
fn push_wanted(out: &mut Vec<u8>, octet: u8) -> Result<(), AllocError>
    ensures { OnOk result (out.new.items ≡
        out.old.items ++ codes ", " ++ encode_lower (octet ∷ []) ++ codes " should stand") }
{
    let mut digits = [0u8; 2];
    hex::encode_to_slice([octet].as_slice(), &mut digits).unwrap();
    out.extend_from_slice(b", ")?;
    out.extend_from_slice(&digits)?;
    out.extend_from_slice(b" should stand")
}

/// Appends what would be right of a code whose check octet is wrong under the mask: that it is right under the other
/// mask, or else which octet should stand.
pub fn push_check_note(out: &mut Vec<u8>, code: &[u8; 13], mask: Mask) -> Result<(), AllocError>
    ensures { OnOk result (out.new.items ≡ out.old.items ++ check_note mask code.now) }
{
    let other = other_mask(mask);
    if crc(&code[..12], other) == code[12] {
        return out.extend_from_slice(right_under(other).as_bytes());
    }
    push_wanted(out, crc(&code[..12], mask))
}

/// Puts what is said to a line with a wrong check octet into a buffer, in place of what it held.
fn put_check_line(
    out: &mut Vec<u8>,
    line: u64,
    code: &[u8; 13],
    mask: Mask,
) -> Result<(), AllocError>
    ensures { OnOk result (out.new.items ≡ check_line line mask code.now) }
{
    put_error(out, line, DecodeFault::Crc)?;
    push_check_note(out, code, mask)?;
    out.extend_from_slice(b"\n")
}

/// Puts the line of a code's message into a buffer, in place of what it held, or that its check octet is wrong.
fn put_code(
    out: &mut Vec<u8>,
    line: u64,
    code: &[u8; 13],
    upstream: bool,
    mask: Mask,
    names: bool,
) -> Result<Option<DecodeFault>, AllocError>
    ensures { (digits : List ℕ) → decode_of digits ≡ Ok code.now
        → IfOk result (λ fault. SaysToDigits names upstream mask line digits fault out.new.items) }
{
    out.clear();
    match push_words_in(out, code, upstream, mask, names) {
        Ok(()) => {
            out.extend_from_slice(b"\n")?;
            Ok(None)
        }
        Err(DecodeFault::OutOfMemory) => Err(AllocError),
        Err(_) => {
            put_check_line(out, line, code, mask)?;
            Ok(Some(DecodeFault::Crc))
        }
    }
}

/// Puts what is said to the digits of a code into a buffer, in place of what it held, and answers their fault.
fn put_answer(
    out: &mut Vec<u8>,
    line: u64,
    digits: &[u8],
    upstream: bool,
    mask: Mask,
    names: bool,
) -> Result<Option<DecodeFault>, AllocError>
    ensures { IfOk result (λ fault. SaysToDigits names upstream mask line digits.now fault out.new.items) }
{
    match code_in(digits) {
        Ok(code) => put_code(out, line, &code, upstream, mask, names),
        Err(fault) => {
            put_error_line(out, line, fault)?;
            Ok(Some(fault))
        }
    }
}

/// What is said to the line at hand, and the digits of its code.
#[derive(Drop)]
pub(crate) struct Answer {
    digits: Vec<u8>,
    pub(crate) said: Vec<u8>,
}

impl Answer {
    /// Makes one in which nothing is said.
    pub(crate) fn new(alloc: Global) -> Answer {
        Answer {
            digits: Vec::new(alloc),
            said: Vec::new(alloc),
        }
    }

    /// Says to a line that it has a fault.
    pub(crate) fn refuse(&mut self, line: u64, fault: DecodeFault) -> Result<(), AllocError>
        ensures { OnOk result (self.new.said.items ≡ error_line line fault) }
    {
        put_error_line(&mut self.said, line, fault)
    }

    /// Says which message a text is the code of, or its fault, which is answered. Its digits are gathered only where
    /// it isn't written in digits alone.
    pub(crate) fn tell(
        &mut self,
        line: u64,
        text: &[u8],
        direction: Direction,
        mask: Mask,
        names: bool,
    ) -> Result<Option<DecodeFault>, AllocError>
        ensures { IfOk result (λ fault. SaysToText names direction mask line text.now fault self.new.said.items) }
    {
        let Some((upstream, spelled)) = directed(direction, text) else {
            self.refuse(line, DecodeFault::Direction)?;
            return Ok(Some(DecodeFault::Direction));
        };
        match octets_in(spelled) {
            Some(code) => put_code(&mut self.said, line, &code, upstream, mask, names),
            None => self.tell_spelled(line, spelled, upstream, mask, names),
        }
    }

    /// Says which message the code in a text is, or its fault, which is answered.
    fn tell_spelled(
        &mut self,
        line: u64,
        text: &[u8],
        upstream: bool,
        mask: Mask,
        names: bool,
    ) -> Result<Option<DecodeFault>, AllocError>
        ensures { IfOk result (λ fault. SaysToDigits names upstream mask line (code_digits text.now) fault
            self.new.said.items) }
    {
        self.digits.clear();
        push_digits(&mut self.digits, text)?;
        let digits = self.digits.as_slice();
        put_answer(&mut self.said, line, digits, upstream, mask, names)
    }
}
