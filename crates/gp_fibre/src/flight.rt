//! A burst in flight in a run: its number, and the frame in which it arrives.
ghost use Rattle.std.specs.Prelude.{◌≡◌};
ghost use Rattle.gp_fibre.specs.Schedule.{is_due};

/// A burst on its way to the port.
#[derive(Clone, Copy)]
pub struct Flight {
    /// Its number among all bursts of the world.
    pub(super) number: u64,
    /// The frame in which it arrives, from 0.
    pub(super) due: u64,
}

impl Flight {
    /// Tells whether the burst arrives in this frame.
    pub fn is_due(&self, frame: u64) -> bool
        ensures { result ≡ is_due frame self.now }
    {
        self.due == frame
    }
}
