//! Measures the codec: Ranging_Time encoded for many delays, and the answers of units checked and decoded.

use super::measured::Measured;
use super::units::{Unit, units_of};
use gp_ploam::{Down, Mask, decode_up, encode_down};
use std::io;
use std::rt::Clock;
use std::time::Instant;

/// How many delays are encoded in a round.
const DELAYS: u32 = 1000;

/// How many units' codes are decoded in a round, four of each.
const UNITS: u8 = 250;

/// Measures messages encoded, and codes checked and decoded.
pub(crate) fn measure_codec<R: AllocGlobal + Print + Eprint + Clock>(
    rt: &R,
    rounds: u32,
) -> io::Result<()> {
    let units = units_of(rt.alloc(), UNITS)?;
    let mut encoded = Measured::default();
    let mut decoded = Measured::default();
    for _ in 0..rounds {
        let begin = Instant::now(rt)?;
        encode_delays(&mut encoded);
        encoded.add_time(rt, begin)?;
        let begin = Instant::now(rt)?;
        decode_answers(&mut decoded, &units);
        decoded.add_time(rt, begin)?;
    }
    encoded.tell(rt, "encoded messages", 0)?;
    decoded.tell(rt, "decoded messages", 0)
}

/// Encodes a Ranging_Time for each delay. Its check octet counts.
fn encode_delays(measured: &mut Measured) {
    for eqd in 0..DELAYS {
        let onu = (eqd % u32::from(UNITS)) as u8;
        let code = encode_down(&Down::RangingTime { onu, eqd }, Mask::Plain);
        measured.count(u64::from(code[12]));
    }
}

/// Decodes what each unit answers to a ranging request and to a poll, twice each. Octet 1 counts, with one for a code
/// that is right.
fn decode_answers(measured: &mut Measured, units: &[Unit]) {
    for _ in 0..2 {
        for unit in units {
            measured.count(octet1_in(&unit.ranged));
            measured.count(octet1_in(&unit.polled));
        }
    }
}

/// Decodes a code: one more than its octet 1, or 0 where its check octet is wrong.
fn octet1_in(code: &[u8; 13]) -> u64 {
    match decode_up(code, Mask::Plain) {
        Ok(message) => u64::from(message.octet1()) + 1,
        Err(_) => 0,
    }
}
