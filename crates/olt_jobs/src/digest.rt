//! A digest of all that a job gives, by which two runs are compared. It costs little, since it is in the time that is
//! measured.

use std::alloc::Global;
use std::io;
use std::io::Write;

/// How many octets a word has.
const WORD_BYTES: usize = 8;

/// An odd number with well mixed bits, by which words are multiplied.
const FACTOR: u64 = 0x9e37_79b9_7f4a_7c15;

/// Two sums that words go into by turns, so that no word waits for the one before it.
#[derive(Clone, Copy, Drop)]
struct Sums {
    next: u64,
    after: u64,
}

impl Sums {
    /// Adds a word.
    fn add(&mut self, word: u64) {
        let sum = self.next.wrapping_add(word).wrapping_mul(FACTOR);
        self.next = self.after;
        self.after = sum ^ (sum >> 32);
    }

    /// Adds the whole words of these octets, and gives the octets behind them.
    fn add_words<'a>(&mut self, octets: &'a [u8]) -> &'a [u8] {
        let mut rest = octets;
        while let Some((word, behind)) = rest.split_first_chunk::<WORD_BYTES>() {
            self.add(u64::from_le_bytes(*word));
            rest = behind;
        }
        rest
    }
}

/// A writer that keeps a digest of all octets, in whatever pieces they come. It costs a multiplication for eight
/// octets.
#[derive(Drop)]
pub(crate) struct Digest {
    sums: Sums,
    /// The octets behind the last whole word.
    begun: Vec<u8>,
    octets: u64,
}

impl Digest {
    /// Begins a digest of nothing.
    pub(crate) fn new(alloc: Global) -> Digest {
        Digest {
            sums: Sums { next: 1, after: 2 },
            begun: Vec::new(alloc),
            octets: 0,
        }
    }

    /// Adds a number.
    pub(crate) fn add(&mut self, number: u64) {
        self.sums.add(number);
    }

    /// Ends the word that is begun, if one is, and gives the octets behind it.
    fn end_word<'a>(&mut self, octets: &'a [u8]) -> io::Result<&'a [u8]> {
        if self.begun.is_empty() {
            return Ok(octets);
        }
        let missing = WORD_BYTES.saturating_sub(self.begun.len());
        let (first, rest) = octets.split_at(missing.min(octets.len()));
        self.begun.extend_from_slice(first)?;
        if let Some(word) = self.begun.as_slice().first_chunk::<WORD_BYTES>() {
            self.sums.add(u64::from_le_bytes(*word));
            self.begun.clear();
        }
        Ok(rest)
    }

    /// How many octets were written.
    pub(crate) fn octets(&self) -> u64 {
        self.octets
    }

    /// Gives the digest of what was written and added.
    pub(crate) fn value(&self) -> u64 {
        let Sums { next, after } = self.sums;
        let mut value = next ^ after.wrapping_mul(FACTOR) ^ self.octets;
        for octet in self.begun.as_slice() {
            value = value.wrapping_add(u64::from(*octet)).wrapping_mul(FACTOR);
        }
        value ^ (value >> 29)
    }
}

impl Write for Digest {
    fn write(&mut self, buffer: &[u8]) -> io::Result<usize> {
        self.octets = self.octets.wrapping_add(buffer.len() as u64);
        let rest = self.end_word(buffer)?;
        let rest = self.sums.add_words(rest);
        self.begun.extend_from_slice(rest)?;
        Ok(buffer.len())
    }

    fn flush(&mut self) -> io::Result<()> {
        Ok(())
    }
}
