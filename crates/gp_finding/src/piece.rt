//! The pieces that texts are made of, and a text of some of them behind what a buffer holds.
ghost use Rattle.std.specs.Prelude.{[], ◌∷◌, decimal};
ghost use Rattle.hex.specs.Hex.{encode_lower};
ghost use Rattle.gp_decode.specs.Appending.{Appends};
ghost use Rattle.gp_finding.specs.Piece as spec;

use gp_ploam::Serial;
use gp_serial::push_serial_text;
use itoa::Buffer;
use std::alloc::AllocError;

/// A piece of a text.
#[derive(Clone, Copy)]
pub(crate) enum Piece {
    /// A word as it is.
    Word(&'static str),
    /// A count, in decimal, as all numbers here.
    Count(u64),
    /// A delay in bit times.
    Delay(u32),
    /// An Alloc-ID.
    Alloc(u16),
    /// An ONU-ID, or any number of an octet.
    Onu(u8),
    /// An octet in two hexadecimal digits.
    Digits(u8),
    /// A serial number.
    Serial(Serial),
}

/// Appends a number.
fn push_number(out: &mut Vec<u8>, number: u64) -> Result<(), AllocError>
    ensures { Appends (decimal number) out.old out.new result }
{
    let mut digits = Buffer::new();
    out.extend_from_slice(digits.format(number).as_bytes())
}

/// Appends an octet in hexadecimal digits.
fn push_digits(out: &mut Vec<u8>, octet: u8) -> Result<(), AllocError>
    ensures { Appends (encode_lower (octet ∷ [])) out.old out.new result }
{
    let mut digits = [0u8; 2];
    hex::encode_to_slice([octet].as_slice(), &mut digits).unwrap();
    out.extend_from_slice(&digits)
}

/// Appends a piece.
fn push_piece(out: &mut Vec<u8>, piece: &Piece) -> Result<(), AllocError>
    ensures { Appends (spec.piece_text piece.now) out.old out.new result }
{
    match piece {
        Piece::Word(word) => out.extend_from_slice(word.as_bytes()),
        Piece::Count(count) => push_number(out, *count),
        Piece::Delay(delay) => push_number(out, u64::from(*delay)),
        Piece::Alloc(alloc) => push_number(out, u64::from(*alloc)),
        Piece::Onu(onu) => push_number(out, u64::from(*onu)),
        Piece::Digits(octet) => push_digits(out, *octet),
        Piece::Serial(serial) => push_serial_text(out, serial),
    }
}

/// Appends pieces, one after another.
pub(crate) fn push_pieces(out: &mut Vec<u8>, pieces: &[Piece]) -> Result<(), AllocError>
    ensures { Appends (spec.pieces_text pieces.now) out.old out.new result }
{
    'each: for piece in pieces {
        push_piece(out, piece)?;
    }
    Ok(())
}
