//! `encode_words`: from the words of a message to its thirteen octets, or to their first fault.
ghost use Rattle.gp_encode.specs.Encoding.{Encodes, EncodesDown, EncodesUp};

use crate::down::down_in;
use crate::fault::WordsFault;
use crate::up::up_in;
use gp_ploam::{
    Mask, down_round_trip, encode_down, encode_up, is_proper, is_proper_up, up_round_trip,
};

/// Gives the code of a message of the line terminal.
fn down_code(text: &[u8], mask: Mask) -> Result<[u8; 13], WordsFault>
    ensures { EncodesDown mask text.now result }
{
    down_round_trip();
    let message = down_in(text)?;
    if !is_proper(&message) {
        return Err(WordsFault::Named);
    }
    Ok(encode_down(&message, mask))
}

/// Gives the code of a message of a unit.
fn up_code(text: &[u8], mask: Mask) -> Result<[u8; 13], WordsFault>
    ensures { EncodesUp mask text.now result }
{
    up_round_trip();
    let message = up_in(text)?;
    if !is_proper_up(&message) {
        return Err(WordsFault::Named);
    }
    Ok(encode_up(&message, mask))
}

/// Gives the code of a message that is said in the words that `decode` has for it, upstream or downstream: its name and
/// its fields, one space between. Numbers are decimal, and zeros may stand in front; hexadecimal digits stand in either
/// case, and a serial number in both forms that `gp_serial` reads. In an Acknowledge zeros stand for the copy, which
/// isn't said. Takes no memory.
pub fn encode_words(text: &[u8], upstream: bool, mask: Mask) -> Result<[u8; 13], WordsFault>
    ensures { Encodes upstream mask text.now result }
{
    if upstream {
        up_code(text, mask)
    } else {
        down_code(text, mask)
    }
}
