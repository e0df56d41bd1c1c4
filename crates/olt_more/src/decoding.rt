//! Codes that are decoded, and the words of them that are encoded again.
use crate::choices::Choices;
use crate::digest::Digest;
use crate::fault::JobFault;
use crate::fields::word_of;
use crate::octets::{down_octets, up_octets};
use gp_decode::decode_lines;
use gp_encode::{WordsFault, encode_words};
use gp_ploam::{Mask, crc};
use gp_stream::{Sink, Source};
use std::alloc::{AllocError, Global};

/// How many codes a part has.
const CODES: u32 = 100_000;

/// How codes are read: their direction and their mask.
#[derive(Clone, Copy)]
struct Way {
    upstream: bool,
    mask: Mask,
}

/// Gives the way of a part.
fn way_of(part: u32) -> Way {
    Way {
        upstream: part % 2 == 1,
        mask: if part / 2 % 2 == 0 {
            Mask::Plain
        } else {
            Mask::Coset
        },
    }
}

/// Makes a code.
fn code_of(choices: &mut Choices, way: Way) -> [u8; 13] {
    let octets = if way.upstream {
        up_octets(choices)
    } else {
        down_octets(choices)
    };
    let [a, b, c, d, e, f, g, h, i, j, k, l] = octets;
    [a, b, c, d, e, f, g, h, i, j, k, l, crc(&octets, way.mask)]
}

/// Adds a code as a line. One in fifty is too short, has a letter that is no digit, or a wrong check octet.
fn add_code(lines: &mut Vec<u8>, choices: &mut Choices, way: Way) -> Result<(), AllocError> {
    let mut code = code_of(choices, way);
    let fault = choices.below(150);
    if fault == 0 {
        code[12] ^= 1;
    }
    let mut digits = [0; 26];
    let _ = hex::encode_to_slice(code, &mut digits);
    if fault == 1 {
        digits[choices.below(26) as usize] = b'g';
    }
    let length = if fault == 2 {
        choices.below(26) as usize
    } else {
        26
    };
    lines.extend_from_slice(&digits[..length])?;
    lines.push(b'\n')?;
    Ok(())
}

/// Makes a number of what is wrong with words.
fn fault_word(fault: &WordsFault) -> u64 {
    match fault {
        WordsFault::Named => 1,
        WordsFault::Part(part) => word_of(2, *part as u8, 0, 0),
    }
}

/// Encodes words, and adds their code, or what is wrong with them.
fn encode(digest: &mut Digest, words: &str, way: Way) {
    match encode_words(words.as_bytes(), way.upstream, way.mask) {
        Ok(code) => digest.add_octets(&code),
        Err(fault) => digest.add(fault_word(&fault)),
    }
}

/// Encodes the words of each line.
fn encode_all(digest: &mut Digest, told: &[u8], way: Way) -> Result<(), JobFault> {
    let Ok(text) = std::str::from_utf8(told) else {
        return Err(JobFault::Unexpected);
    };
    for words in text.lines() {
        encode(digest, words, way);
    }
    Ok(())
}

/// Decodes the codes of a part and encodes what that gave, and adds both.
pub(crate) fn decode(
    alloc: Global,
    part: u32,
    seed: u32,
    mut digest: Digest,
) -> Result<Digest, JobFault> {
    let mut choices = Choices::new(seed, part);
    let way = way_of(part);
    let mut lines = Vec::with_capacity(alloc, 27 * CODES as usize)?;
    for _ in 0..CODES {
        add_code(&mut lines, &mut choices, way)?;
    }
    let mut source = Source::endless(lines.as_slice());
    let mut sink = Sink::new(alloc, Vec::new(alloc))?;
    let decoded = decode_lines(alloc, &mut source, &mut sink, way.upstream, way.mask);
    let told = sink.into_inner();
    match decoded {
        Ok(Some(first)) => digest.add(first.line),
        _ => return Err(JobFault::Unexpected),
    }
    digest.add_octets(told.as_slice());
    encode_all(&mut digest, told.as_slice(), way)?;
    Ok(digest)
}
