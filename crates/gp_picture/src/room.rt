//! How much is kept: no more than can be drawn, whatever the length of the input.

use gp_times::Frames;
use std::alloc::Global;

/// How many marks and changes are kept at most.
const MOST_KEPT: usize = 3_000;

/// How many are left where frames are kept as one because there were more, if that many can be.
const FEW_KEPT: usize = 2_400;

/// How many units have a lane at most.
const MOST_LANES: usize = 1_024;

/// How much is kept, and which frames are kept as one: columns of equally many.
#[derive(Clone, Copy)]
pub(crate) struct Room {
    pub(crate) alloc: Global,
    /// The first frame of the first column. What comes before it counts to that one.
    pub(crate) from: u64,
    /// How many frames a column has.
    width: u64,
    /// How many marks and changes are kept.
    kept: usize,
    /// How many units have a lane.
    lanes: usize,
    /// How often lines told of units that have none, for want of room.
    pub(crate) left_out: u64,
}

impl Room {
    /// Nothing is kept, and a column has one frame.
    pub(crate) fn new(alloc: Global, frames: Frames) -> Room {
        Room {
            alloc,
            from: frames.from,
            width: 1,
            kept: 0,
            lanes: 0,
            left_out: 0,
        }
    }

    /// Gives the column of a frame.
    fn column(&self, frame: u64) -> u64 {
        frame.saturating_sub(self.from) / self.width.max(1)
    }

    /// Tells whether two frames are kept as one.
    pub(crate) fn are_one(&self, first: u64, second: u64) -> bool {
        self.column(first) == self.column(second)
    }

    /// Counts one that is kept.
    pub(crate) fn count(&mut self) {
        self.kept = self.kept.saturating_add(1);
    }

    /// Takes a lane, if there is room for one. Where there is none, it counts that a unit is left out.
    pub(crate) fn take_lane(&mut self) -> bool {
        if self.lanes >= MOST_LANES {
            self.left_out = self.left_out.saturating_add(1);
            return false;
        }
        self.lanes = self.lanes.saturating_add(1);
        true
    }

    /// Tells whether more is kept than there is room for.
    pub(crate) fn is_full(&self) -> bool {
        self.kept > MOST_KEPT
    }

    /// Tells whether little enough is kept to go on.
    pub(crate) fn is_free(&self) -> bool {
        self.kept <= FEW_KEPT
    }

    /// Gives one of columns of twice as many frames, in which nothing is kept yet.
    pub(crate) fn wider(self) -> Room {
        Room {
            width: self.width.saturating_mul(2),
            kept: 0,
            ..self
        }
    }
}
