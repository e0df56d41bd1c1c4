//! Writes the pieces of an object, and appends them many at once.
ghost use Rattle.std.specs.Prelude.{◌≡◌, ◌++◌, OnOk, decimal, true};
ghost use Rattle.std.specs.List.{flat_map, list_all};
ghost use Rattle.gp_json.specs.Runs.{is_plain};
ghost use Rattle.gp_json.specs.Spelling.{escaped, quoted};

use crate::text::{is_plain, push_octets};
use itoa::Buffer;
use std::alloc::AllocError;
use std::marker::Model;

/// How many octets are gathered before they are appended.
const ROOM: usize = 512;

/// What is written of an object. Pieces are gathered in a place of their own, so that a small one costs no look for
/// room in the buffer. Contracts see the octets of both.
///
/// Where memory is refused, a part of what was gathered may be lost.
#[derive(Drop)]
pub(crate) struct ObjectWriter {
    out: Vec<u8>,
    gathered: [u8; ROOM],
    filled: usize,
}

impl Model for ObjectWriter {
    ghost use Rattle.std.specs.Prelude.{ℕ, List, ◌≤◌, ◌++◌, take};

    ghost Value = { List ℕ };

    ghost view = { λ s. s.out.items ++ take s.filled s.gathered };

    ghost invariant = { λ s. s.filled ≤ 512 };
}

impl ObjectWriter {
    /// Writes behind what a buffer holds.
    pub(crate) fn behind(out: Vec<u8>) -> ObjectWriter
        ensures { result ≡ out.items }
    {
        ObjectWriter {
            out,
            gathered: [0; ROOM],
            filled: 0,
        }
    }

    /// Appends what is gathered, and gives the buffer back.
    pub(crate) fn finish(mut self) -> (Vec<u8>, Result<(), AllocError>)
        ensures { OnOk result.1 (result.0.items ≡ self) }
    {
        let appended = self.out.extend_from_slice(&self.gathered[..self.filled]);
        let ObjectWriter { out, .. } = self;
        (out, appended)
    }

    /// Writes a text for which there is no room beside what is gathered, and appends both.
    fn put_behind(&mut self, text: &[u8]) -> Result<(), AllocError>
        ensures { OnOk result (self.new ≡ self.old ++ text.now) }
    {
        self.out.extend_from_slice(&self.gathered[..self.filled])?;
        self.filled = 0;
        self.out.extend_from_slice(text)
    }

    /// Writes a text as it is.
    #[inline(always)]
    pub(crate) fn put(&mut self, text: &[u8]) -> Result<(), AllocError>
        ensures { OnOk result (self.new ≡ self.old ++ text.now) }
    {
        if text.len() > ROOM - self.filled {
            return self.put_behind(text);
        }
        let end = self.filled + text.len();
        self.gathered[self.filled..end].copy_from_slice(text);
        self.filled = end;
        Ok(())
    }

    /// Writes a part of a text of which an octet doesn't stand for itself.
    fn put_escaped(&mut self, part: &[u8]) -> Result<(), AllocError>
        ensures { OnOk result (self.new ≡ self.old ++ flat_map escaped part.now) }
    {
        self.out.extend_from_slice(&self.gathered[..self.filled])?;
        self.filled = 0;
        push_octets(&mut self.out, part)
    }

    /// Writes a part of a text.
    pub(crate) fn put_part(&mut self, part: &[u8]) -> Result<(), AllocError>
        ensures { OnOk result (self.new ≡ self.old ++ flat_map escaped part.now) }
    {
        if is_plain(part) {
            self.put(part)
        } else {
            self.put_escaped(part)
        }
    }

    /// Writes a part of a text in which each octet stands for itself.
    #[inline(always)]
    pub(crate) fn put_plain(&mut self, part: &[u8]) -> Result<(), AllocError>
        requires { list_all is_plain part.now ≡ true }
        ensures { OnOk result (self.new ≡ self.old ++ flat_map escaped part.now) }
    {
        self.put(part)
    }

    /// Writes a number in decimal digits.
    pub(crate) fn put_number(&mut self, number: u64) -> Result<(), AllocError>
        ensures number { OnOk result (self.new ≡ self.old ++ decimal number) }
        ensures part { OnOk result (self.new ≡ self.old ++ flat_map escaped (decimal number)) }
    {
        let mut digits = Buffer::new();
        self.put(digits.format(number).as_bytes())
    }

    /// Writes a text of any octets, between quotation marks.
    pub(crate) fn put_quoted(&mut self, text: &[u8]) -> Result<(), AllocError>
        ensures { OnOk result (self.new ≡ self.old ++ quoted text.now) }
    {
        self.put(b"\"")?;
        self.put_part(text)?;
        self.put(b"\"")
    }

    /// Writes a text in which each octet stands for itself, between quotation marks.
    pub(crate) fn put_quoted_plain(&mut self, text: &[u8]) -> Result<(), AllocError>
        requires { list_all is_plain text.now ≡ true }
        ensures { OnOk result (self.new ≡ self.old ++ quoted text.now) }
    {
        self.put(b"\"")?;
        self.put_plain(text)?;
        self.put(b"\"")
    }
}
