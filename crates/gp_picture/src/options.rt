//! Which frames are drawn, and what is heard is judged by.

use gp_lines::PORTS;
use gp_ploam::Mask;
use gp_times::Frames;
use gp_watch::Settings;

/// Which frames are drawn, and what is heard is judged by.
#[derive(Clone, Copy, Debug, PartialEq, Eq)]
pub struct PictureOptions {
    /// The frames that are drawn.
    pub frames: Frames,
    /// The mask of the codes.
    pub mask: Mask,
    /// The equalized round-trip delay of each port, in bit times.
    pub teqd: [u32; PORTS],
    /// By how much a delay may differ from the one that its unit was ranged with, in bit times.
    pub drift: u32,
    /// Whether the input begins in the middle: what needs to have heard an assignment is judged only of ONU-IDs of
    /// which one was heard.
    pub midway: bool,
}

impl PictureOptions {
    /// Gives what the delays of a port at this place are judged by.
    pub(crate) fn settings(&self, place: usize) -> Settings {
        Settings {
            teqd: self.teqd.get(place).copied().unwrap_or(0),
            drift: self.drift,
        }
    }
}
