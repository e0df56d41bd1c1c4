//! What a picture shows and judges by, by the options of the command line: frames first, then delays.
ghost use Rattle.std.specs.Prelude.{◌≡◌, MatchResult};
ghost use Rattle.gp_options.specs.Options.{DrawsAs, IsBadPicture};

use crate::bad_option::BadOption;
use crate::judged::{delays_of, drift_of, frames_of};
use gp_command_line::Drawing;
use gp_picture::{Frames, PictureOptions};

/// Gives what of a log is drawn and what it is judged by, or the first option that can't be: frames that end before
/// they begin, then the delays. A drift of 2^32 bit times or more counts as the greatest below. Takes no memory.
pub fn picture_options<'m, 'a>(wanted: &Drawing<'m, 'a>) -> Result<PictureOptions, BadOption<'a>>
    ensures { MatchResult result (DrawsAs wanted.now) (IsBadPicture wanted.now) }
{
    let (from, to) = frames_of(wanted.from, wanted.to)?;
    let teqd = delays_of(wanted.teqd)?;
    Ok(PictureOptions {
        frames: Frames { from, to },
        mask: wanted.mask,
        teqd,
        drift: drift_of(wanted.drift),
        midway: wanted.midway,
    })
}
