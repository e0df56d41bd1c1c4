//! Octets of each length, given to the decoders, to a port's burst and, as digits, to what tells a code in words.

use crate::tally::Tally;
use gp_decode::{DecodeFault, decode_line};
use gp_machine::Event;
use gp_ploam::{Down, Mask, PloamFault, Up, decode_down, decode_up};
use gp_port::burst_of;
use gp_stream::Sink;
use std::alloc::Global;
use std::io;

/// What both decoders make of octets.
type Read = (Result<Down, PloamFault>, Result<Up, PloamFault>);

/// Octets 3 to 12 of a code of zeros.
const BODY: [u8; 10] = [0; 10];

/// Thirteen zeros are a message of no named row.
const OTHER: Read = (
    Ok(Down::Other {
        id: 0,
        octet1: 0,
        body: BODY,
    }),
    Ok(Up::Other {
        id: 0,
        octet1: 0,
        body: BODY,
    }),
);

const WRONG_LENGTH: Read = (Err(PloamFault::Length), Err(PloamFault::Length));

const WRONG_CRC: Read = (Err(PloamFault::Crc), Err(PloamFault::Crc));

/// An octet that codes are filled with, and what thirteen of them are read as under the first mask and under the
/// other: after twelve zeros the check octet is 00 or 55, after twelve octets FF it is 71 or 24.
const FILLED: [(u8, Read, Read); 2] = [(0, OTHER, WRONG_CRC), (255, WRONG_CRC, WRONG_CRC)];

/// Tells whether both decoders and a port's burst read octets of a row as their number says.
fn are_read(row: &(u8, Read, Read), octets: &[u8]) -> bool {
    let plain = (
        decode_down(octets, Mask::Plain),
        decode_up(octets, Mask::Plain),
    );
    let coset = (
        decode_down(octets, Mask::Coset),
        decode_up(octets, Mask::Coset),
    );
    let burst = burst_of(7, octets);
    if octets.len() != 13 {
        let fault = PloamFault::Length;
        return plain == WRONG_LENGTH && coset == WRONG_LENGTH && burst == Err(fault);
    }
    let bytes = [row.0; 13];
    plain == row.1 && coset == row.2 && burst == Ok(Event::Burst { at: 7, bytes })
}

/// Tells whether a text of so many zeros, which may end with another letter, is told as its length says, and nothing
/// is written of one with a fault.
fn is_told(alloc: Global, length: usize, last: &str, upstream: bool) -> io::Result<bool> {
    let text = format!(in alloc; "{}{last}", "0".repeat(alloc, length)?)?;
    let wanted = match (text.len(), last.is_empty()) {
        (26, true) => Ok(()),
        (length, _) if length % 2 == 1 => Err(DecodeFault::Length),
        (_, false) => Err(DecodeFault::Digit),
        _ => Err(DecodeFault::Length),
    };
    let mut sink = Sink::new(alloc, Vec::new(alloc))?;
    let outcome = decode_line(alloc, text.as_str(), upstream, Mask::Plain, &mut sink);
    let line = sink.into_inner();
    let right = if wanted.is_ok() {
        line.as_slice() == b"Other 0 0 00000000000000000000\n".as_slice()
    } else {
        line.is_empty()
    };
    Ok(right && outcome == wanted)
}

/// Reads octets of each length up to 64, and texts of each.
pub(crate) fn check<R: AllocGlobal + Print>(rt: &R) -> io::Result<bool> {
    let mut read = Tally::default();
    let mut told = Tally::default();
    for length in 0..65usize {
        for row in &FILLED {
            let octets = [row.0; 64];
            read.count("octets", length, are_read(row, &octets[..length]));
        }
        for upstream in [false, true] {
            told.count("digits", length, is_told(rt.alloc(), length, "", upstream)?);
            told.count(
                "digits and g",
                length,
                is_told(rt.alloc(), length, "g", upstream)?,
            );
            told.count(
                "digits and é",
                length,
                is_told(rt.alloc(), length, "é", upstream)?,
            );
        }
    }
    let are_read = read.tell(rt, "octets of each length")?;
    let are_told = told.tell(rt, "digits of each length")?;
    Ok(are_read && are_told)
}
