//! What is told of what was said: its words, and the unit that it names.
ghost use Rattle.std.specs.Prelude.{◌≡◌, is_none};
ghost use Rattle.hex.specs.Hex.{encode_lower};
ghost use Rattle.gp_decode.specs.Appending.{Appends};
ghost use Rattle.gp_log.specs.Text.{grant_text};
ghost use Rattle.gp_watch.specs.Heard.{heard_of};
ghost use Rattle.gp_finding.specs.Hearing.{heard_in};
ghost use Rattle.gp_finding.specs.Words as spec;

use crate::piece::{Piece, push_pieces};
use gp_decode::{DecodeFault, push_words_of};
use gp_log::Said;
use gp_ploam::{Down, Mask, Serial, Up};
use gp_ranging::Grant;
use gp_watch::{Heard, PortWatch};
use std::alloc::AllocError;

// ---- words

/// Appends a grant.
fn push_grant(out: &mut Vec<u8>, grant: Grant) -> Result<(), AllocError>
    ensures { Appends (grant_text grant) out.old out.new result }
{
    match grant {
        Grant::Search => push_pieces(out, &[Piece::Word("grant search")]),
        Grant::Range(onu) => push_pieces(out, &[Piece::Word("grant range "), Piece::Onu(onu)]),
        Grant::Poll(onu) => push_pieces(out, &[Piece::Word("grant poll "), Piece::Onu(onu)]),
    }
}

/// Appends the digits of a code.
fn push_digits(out: &mut Vec<u8>, code: &[u8; 13]) -> Result<(), AllocError>
    ensures { Appends (encode_lower code.now) out.old out.new result }
{
    let mut digits = [0u8; 26];
    hex::encode_to_slice(code.as_slice(), &mut digits).unwrap();
    out.extend_from_slice(&digits)
}

/// Appends the words of a code, or its digits where its check octet is wrong.
fn push_code(
    out: &mut Vec<u8>,
    mask: Mask,
    code: &[u8; 13],
    upstream: bool,
) -> Result<(), AllocError>
    ensures { Appends (spec.words_or (encode_lower code.now) (spec.code_words upstream mask code.now))
        out.old out.new result }
{
    match push_words_of(out, code, upstream, mask) {
        Ok(()) => Ok(()),
        Err(DecodeFault::OutOfMemory) => Err(AllocError),
        Err(_) => push_digits(out, code),
    }
}

/// Appends what was said in words, or its digits where its check octet is wrong.
#[tactic(auto, unfolding(crate::specs::Hearing::heard_in))]
pub(crate) fn push_said(out: &mut Vec<u8>, mask: Mask, said: &Said) -> Result<(), AllocError>
    ensures { Appends (spec.said_text said.now (heard_in mask said.now)) out.old out.new result }
{
    match said {
        Said::Down(code) => push_code(out, mask, code, false),
        Said::Up { code, .. } => push_code(out, mask, code, true),
        Said::Grant(grant) => push_grant(out, *grant),
    }
}

/// Tells whether something was said that has no words: its check octet is wrong.
pub(crate) fn is_garbled(heard: &Heard) -> bool
    ensures { result ≡ is_none (spec.words_of (heard_of heard.now)) }
{
    match heard {
        Heard::Down(message) => message.is_none(),
        Heard::Up { message, .. } => message.is_none(),
        Heard::Grant(_) => false,
    }
}

// ---- the unit that is named

/// Gives the ONU-ID that a message of the line terminal names.
fn onu_down(message: &Down) -> Option<u8>
    ensures { result ≡ spec.onu_down message.now }
{
    match *message {
        Down::AssignOnu { onu, .. }
        | Down::RangingTime { onu, .. }
        | Down::Deactivate { onu }
        | Down::AssignAlloc { onu, .. }
        | Down::Popup { onu } => Some(onu),
        Down::Other { octet1, .. } => Some(octet1),
        _ => None,
    }
}

/// Gives the ONU-ID that a grant names.
fn onu_granted(grant: Grant) -> Option<u8>
    ensures { result ≡ spec.onu_granted grant }
{
    match grant {
        Grant::Search => None,
        Grant::Range(onu) | Grant::Poll(onu) => Some(onu),
    }
}

/// Gives the ONU-ID that is named, if one is.
pub(crate) fn onu_in(heard: &Heard) -> Option<u8>
    ensures { result ≡ spec.onu_in (heard_of heard.now) }
{
    match heard {
        Heard::Down(Some(message)) => onu_down(message),
        Heard::Up {
            message: Some(message),
            ..
        } => Some(message.octet1()),
        Heard::Down(None) | Heard::Up { message: None, .. } => None,
        Heard::Grant(grant) => onu_granted(*grant),
    }
}

/// Gives the serial number that a message of the line terminal names.
fn serial_down(message: &Down) -> Option<Serial>
    ensures { result ≡ spec.serial_down message.now }
{
    match *message {
        Down::AssignOnu { serial, .. }
        | Down::DisableSerial { serial }
        | Down::EnableSerial { serial } => Some(serial),
        _ => None,
    }
}

/// Gives the serial number that a message of a unit names.
fn serial_up(message: &Up) -> Option<Serial>
    ensures { result ≡ spec.serial_up message.now }
{
    match *message {
        Up::SerialNumber { serial, .. } => Some(serial),
        _ => None,
    }
}

/// Gives the serial number that is named, if one is.
fn serial_in(heard: &Heard) -> Option<Serial>
    ensures { result ≡ spec.serial_in (heard_of heard.now) }
{
    match heard {
        Heard::Down(Some(message)) => serial_down(message),
        Heard::Up {
            message: Some(message),
            ..
        } => serial_up(message),
        _ => None,
    }
}

/// Gives the serial number that holds an ONU-ID, if one does.
fn holder_in(watch: &PortWatch, onu: Option<u8>) -> Option<Serial>
    ensures { result ≡ spec.holder_in watch.now onu }
{
    match onu {
        Some(onu) => watch.holder(onu),
        None => None,
    }
}

/// Gives the serial number that is named, or else that of the unit that holds the ONU-ID that is named.
pub(crate) fn serial_told(watch: &PortWatch, heard: &Heard) -> Option<Serial>
    ensures { result ≡ spec.serial_told watch.now (heard_of heard.now) }
{
    match serial_in(heard) {
        Some(serial) => Some(serial),
        None => holder_in(watch, onu_in(heard)),
    }
}
