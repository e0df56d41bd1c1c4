//! Where a frame stands in the picture, in units from the left.
ghost use Rattle.std.specs.Prelude.{◌≤◌};

use gp_times::{Frames, PortTimes};

/// How many units of width all frames that are drawn have.
const WIDTH: u128 = 1_000;

/// The frames between which is drawn.
#[derive(Clone, Copy)]
pub(crate) struct Scale {
    /// The frame at the left.
    pub(crate) from: u64,
    /// The frame at the right.
    pub(crate) to: u64,
}

impl Scale {
    /// Gives that of a picture: from the first frame of which a line tells, or that is drawn, whichever is later.
    pub(crate) fn of(frames: &Frames, times: &PortTimes) -> Scale {
        let from = times.first().unwrap_or(0).max(frames.from);
        Scale {
            from,
            to: times.last().min(frames.to).max(from),
        }
    }

    /// Gives where a frame begins, in units from the left. The last one ends at the right.
    pub(crate) fn place(self, frame: u64) -> u64
        ensures { result ≤ 1000 }
    {
        let width = u128::from(self.to.saturating_sub(self.from)) + 1;
        let behind = u128::from(frame.saturating_sub(self.from));
        WIDTH.min(behind * WIDTH / width) as u64
    }

    /// Gives the frame that stands at this part of four.
    pub(crate) fn quarter(self, part: u64) -> u64 {
        let width = self.to.saturating_sub(self.from);
        let quarters = (width / 4).saturating_mul(part);
        let rest = (width % 4).saturating_mul(part) / 4;
        self.from.saturating_add(quarters).saturating_add(rest)
    }
}
