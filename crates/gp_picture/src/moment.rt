//! A line of the input, and the frame of its port.

/// How many octets of a line are kept: no line of a port that says something on the fibre has more.
pub(crate) const LINE_OCTETS: usize = 96;

/// A line of the input.
#[derive(Clone, Copy)]
pub(crate) struct LineText<'a> {
    /// Its number, from 1.
    pub(crate) number: u64,
    /// What it says, without its line feed.
    pub(crate) text: &'a [u8],
}

/// Where something is heard.
#[derive(Clone, Copy)]
pub(crate) struct Place<'a> {
    /// How many frames the port has had.
    pub(crate) frame: u64,
    /// The number of the line, from 1.
    pub(crate) line: u64,
    /// The line, without its line feed.
    pub(crate) text: &'a [u8],
}

/// The same, kept, with the first octets of the line.
#[derive(Clone, Copy)]
pub(crate) struct Moment {
    pub(crate) frame: u64,
    pub(crate) line: u64,
    octets: [u8; LINE_OCTETS],
    length: usize,
}

impl<'a> LineText<'a> {
    /// Gives where it is heard, at this frame of its port.
    pub(crate) fn at(&self, frame: u64) -> Place<'a> {
        Place {
            frame,
            line: self.number,
            text: self.text,
        }
    }
}

impl Place<'_> {
    /// Keeps it.
    pub(crate) fn moment(&self) -> Moment {
        let mut octets = [0; LINE_OCTETS];
        let length = self.text.len().min(LINE_OCTETS);
        octets[..length].copy_from_slice(&self.text[..length]);
        Moment {
            frame: self.frame,
            line: self.line,
            octets,
            length,
        }
    }
}

impl Moment {
    /// Gives the first octets of the line.
    pub(crate) fn text(&self) -> &[u8] {
        &self.octets[..self.length.min(LINE_OCTETS)]
    }
}
