//! The frames that are wanted of an input, and where all that was heard is if it is before or behind all of them.
ghost use Rattle.std.specs.Prelude.{◌≡◌, ◌≤◌, ◌<◌, ◌↔◌, IsTrue};
ghost use Rattle.gp_times.specs.Times.{begin_of, frame_of};

use gp_log::FRAME_NANOSECONDS;

/// The frames that are wanted, both ends too. Frames are counted from the first of a port; one lasts 125 microseconds.
#[derive(Clone, Copy, Debug, PartialEq, Eq)]
pub struct Frames {
    /// From this one on.
    pub from: u64,
    /// Up to this one.
    pub to: u64,
}

/// Where all that was heard is: all of it before the first of the frames that are wanted, or all of it behind the last.
#[derive(Clone, Copy, Debug, PartialEq, Eq)]
pub enum Outside {
    /// Before the first of them: the last frame of which a line told.
    Before { last: u64 },
    /// Behind the last of them: the first frame of which a line told.
    Behind { first: u64 },
}

impl Frames {
    /// Tells whether a time, in nanoseconds, is in one of them.
    pub fn hold(&self, time: u64) -> bool
        ensures { IsTrue result ↔ ((self.now.from ≤ frame_of time) × (frame_of time ≤ self.now.to)) }
    {
        let frame = time / FRAME_NANOSECONDS;
        self.from <= frame && frame <= self.to
    }

    /// Tells whether a time, in nanoseconds, is in the first of them or behind it.
    pub fn have_begun(&self, time: u64) -> bool
        ensures { IsTrue result ↔ (self.now.from ≤ frame_of time) }
    {
        self.from <= time / FRAME_NANOSECONDS
    }

    /// Tells whether a time, in nanoseconds, is behind the last of them.
    pub fn are_past(&self, time: u64) -> bool
        ensures { IsTrue result ↔ (self.now.to < frame_of time) }
    {
        self.to < time / FRAME_NANOSECONDS
    }

    /// Gives when the first of them begins, in nanoseconds, as far as 64 bits go.
    pub fn begin(&self) -> u64
        ensures { result ≡ begin_of self.now }
    {
        self.from.saturating_mul(FRAME_NANOSECONDS)
    }
}
