//! The end of a play: what was handed in goes out, also where memory was refused in its midst.
ghost use Rattle.gp_replay.specs.Writing.{EndsPlay};

use super::fault::PlayFault;
use gp_stream::Sink;
use std::io::Write;

/// Writes out what a play has handed in, also where memory was refused in its midst: that takes none, and memory is
/// told then even if the write fails.
pub fn end_play<W: Write>(
    sink: &mut Sink<W>,
    played: Result<(), PlayFault>,
) -> Result<(), PlayFault>
    ensures { EndsPlay sink.old sink.new played result }
{
    match played {
        Ok(()) => Ok(sink.finish()?),
        Err(PlayFault::OutOfMemory) => {
            let _ = sink.finish();
            Err(PlayFault::OutOfMemory)
        }
        Err(PlayFault::Write) => Err(PlayFault::Write),
    }
}
