//! The frames that are dumped, and how codes are read.

use gp_ploam::Mask;
use gp_times::Frames;

/// The frames that are dumped, and how codes are read.
#[derive(Clone, Copy, Debug, PartialEq, Eq)]
pub struct WavesOptions {
    /// The frames that are dumped.
    pub frames: Frames,
    /// The mask of the codes.
    pub mask: Mask,
    /// Whether the input begins in the middle: then copies of a message that began before it are passed over.
    pub midway: bool,
}
