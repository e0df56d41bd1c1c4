//! A message that was sent, in words, and what would be right of a wrong check octet.
ghost use Rattle.std.specs.Prelude.{◌≡◌, ◌++◌, ℕ, List, IfOk, OnOk};
ghost use Rattle.hex.specs.Hex.{decode_sized};
ghost use Rattle.gp_differ.specs.Reasons.{TellsMessage, TellsOctets, code_remark, octets_remark};

use gp_code::octets_in;
use gp_decode::{DecodeFault, push_check_note, push_words_of};
use gp_ploam::{Mask, crc};
use std::alloc::{AllocError, Global};

/// Appends the words of a code of the line terminal, or its digits where the check octet is wrong.
fn push_octets(
    out: &mut Vec<u8>,
    part: &[u8],
    octets: &[u8; 13],
    mask: Mask,
) -> Result<(), AllocError>
    ensures { OnOk result ((told : List ℕ) × TellsOctets mask part.now octets.now told
        × (out.new.items ≡ out.old.items ++ told)) }
{
    match push_words_of(out, octets, false, mask) {
        Ok(()) => Ok(()),
        Err(DecodeFault::Crc) => out.extend_from_slice(part),
        Err(_) => Err(AllocError),
    }
}

/// Appends what a text tells that should be a code.
fn push_message(out: &mut Vec<u8>, part: &[u8], mask: Mask) -> Result<(), AllocError>
    ensures { OnOk result ((told : List ℕ) × TellsMessage mask part.now told
        × (out.new.items ≡ out.old.items ++ told)) }
{
    match octets_in(part) {
        Some(octets) => push_octets(out, part, &octets, mask),
        None => out.extend_from_slice(part),
    }
}

/// Appends what would be right of a code whose check octet is wrong under the mask.
fn push_octets_remark(out: &mut Vec<u8>, octets: &[u8; 13], mask: Mask) -> Result<(), AllocError>
    ensures { OnOk result (out.new.items ≡ out.old.items ++ octets_remark mask octets.now) }
{
    if crc(&octets[..12], mask) == octets[12] {
        return Ok(());
    }
    out.extend_from_slice(b" (crc")?;
    push_check_note(out, octets, mask)?;
    out.extend_from_slice(b")")
}

/// Appends the same of a text that should be a code.
pub(crate) fn push_code_remark(out: &mut Vec<u8>, part: &[u8], mask: Mask) -> Result<(), AllocError>
    ensures { OnOk result (out.new.items ≡ out.old.items ++ code_remark mask (decode_sized part.now 13)) }
{
    match octets_in(part) {
        Some(octets) => push_octets_remark(out, &octets, mask),
        None => Ok(()),
    }
}

/// Tells in words what a text tells that should be a code.
pub(crate) fn message_of(alloc: Global, part: &[u8], mask: Mask) -> Result<Vec<u8>, AllocError>
    ensures { IfOk result (λ told. TellsMessage mask part.now told.items) }
{
    let mut told = Vec::new(alloc);
    push_message(&mut told, part, mask)?;
    Ok(told)
}
