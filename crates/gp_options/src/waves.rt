//! Which frames of a log are dumped, and how codes are read, by the options of the command line.
ghost use Rattle.std.specs.Prelude.{◌≡◌, MatchResult};
ghost use Rattle.gp_options.specs.Options.{DumpsAs, IsBadWaves};

use crate::bad_option::BadOption;
use crate::judged::frames_of;
use gp_command_line::Dumping;
use gp_waves::{Frames, WavesOptions};

/// Gives what of a log is dumped, unless these are frames that end before they begin. Takes no memory.
pub fn waves_options<'a>(wanted: &Dumping<'a>) -> Result<WavesOptions, BadOption<'a>>
    ensures { MatchResult result (DumpsAs wanted.now) (IsBadWaves wanted.now) }
{
    let (from, to) = frames_of(wanted.from, wanted.to)?;
    Ok(WavesOptions {
        frames: Frames { from, to },
        mask: wanted.mask,
        midway: wanted.midway,
    })
}
