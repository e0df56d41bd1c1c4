//! One line of a trace, written as lines of a log: what it says, at its port's time, which goes on with a frame.
ghost use Rattle.std.specs.Prelude.{◌≡◌, ◌⊎◌, Err, IfErr, IfOk, true, false};
ghost use Rattle.gp_flow.specs.declared.fault.Unanswered.TheVariants.{OutOfMemory, Full};
ghost use Rattle.gp_transcribe.specs.Entries.{HasTooManyFrames, IsTraceRead, Transcribes};

use crate::frames::frames_with;
use crate::push::push_lines;
use crate::traced::traced;
use gp_flow::Unanswered;
use gp_lines::PORTS;

/// Writes what a line of a trace says, in the place of what the buffer holds, and counts its frame, if it is one's.
/// Tells whether it is a line of a trace. Full where a log can't tell so many frames.
pub(crate) fn transcribe_line(
    frames: &mut [u64; PORTS],
    text: &[u8],
    out: &mut Vec<u8>,
) -> Result<bool, Unanswered>
    ensures written { IfOk result (λ is. is ≡ true → Transcribes frames.old text.now out.new.items frames.new) }
    ensures other { IfOk result (λ is. is ≡ false → IsTraceRead text.now → ⊥) }
    ensures error { IfErr result (λ fault. (fault ≡ OutOfMemory) ⊎ (fault ≡ Full)) }
    ensures full { result ≡ Err Full → HasTooManyFrames frames.old text.now }
    ensures kept { IfOk result (λ is. is ≡ false → frames.new ≡ frames.old) }
{
    let Some(line) = traced(text) else {
        return Ok(false);
    };
    let port = usize::from(line.port);
    let Some(count) = frames_with(line.is_frame, frames[port]) else {
        return Err(Unanswered::Full);
    };
    push_lines(out, count, &line)?;
    frames[port] = count;
    Ok(true)
}
