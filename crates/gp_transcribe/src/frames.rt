//! The frames that a port has had, by which a log tells its time: no more than 64 bits hold in nanoseconds.
ghost use Rattle.std.specs.Prelude.{◌*◌, ◌<◌, ◌^◌};
ghost use Rattle.std.specs.Option.{SomeIff};
ghost use Rattle.gp_log.specs.Time.{frame_time};
ghost use Rattle.gp_transcribe.specs.Entries as spec;

use gp_log::LAST_FRAME;

/// Counts the frame of a line, if it is one's. None where a log can't tell so many.
pub(crate) fn frames_with(is_frame: bool, frames: u64) -> Option<u64>
    ensures { SomeIff result (spec.frames_with is_frame frames * frame_time < 2 ^ 64)
        (spec.frames_with is_frame frames) }
{
    let frames = if is_frame {
        frames.checked_add(1)?
    } else {
        frames
    };
    if frames <= LAST_FRAME {
        Some(frames)
    } else {
        None
    }
}
