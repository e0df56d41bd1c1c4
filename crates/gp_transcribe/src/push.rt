//! What a line of a trace says, as lines of a log: one for what was said first, and one for what was said behind it.
ghost use Rattle.std.specs.Prelude.{◌≡◌, ◌≤◌, ◌<◌, ◌*◌, ◌^◌, ◌++◌, OnOk};
ghost use Rattle.gp_lines.specs.Spelling.{last_port};
ghost use Rattle.gp_log.specs.Time.{frame_time};
ghost use Rattle.gp_transcribe.specs.Entries as spec;

use crate::traced::TracedLine;
use gp_log::{Said, entry_can_be_written, push_entry};
use std::alloc::AllocError;

/// Appends the line of what was said, if something was.
fn push_said(
    out: &mut Vec<u8>,
    port: u8,
    frames: u64,
    said: &Option<Said>,
) -> Result<(), AllocError>
    requires near { port ≤ last_port }
    requires fits { frames * frame_time < 2 ^ 64 }
    ensures ok { OnOk result (out.new.items ≡ out.old.items ++ spec.said_line port frames said.now) }
    ensures can { spec.CanBeLogged port frames said.now }
{
    match said {
        Some(said) => {
            entry_can_be_written(port, frames, said);
            push_entry(out, port, frames, said)
        }
        None => Ok(()),
    }
}

/// Writes what a line of a trace says, in the place of what the buffer holds. The time is in frames.
pub(crate) fn push_lines(
    out: &mut Vec<u8>,
    frames: u64,
    line: &TracedLine,
) -> Result<(), AllocError>
    requires near { line.now.port ≤ last_port }
    requires fits { frames * frame_time < 2 ^ 64 }
    ensures ok { OnOk result
        (out.new.items ≡ spec.said_lines line.now.port frames line.now.first line.now.second) }
    ensures can { OnOk result (spec.CanBeLogged line.now.port frames line.now.first
        × spec.CanBeLogged line.now.port frames line.now.second) }
{
    out.clear();
    push_said(out, line.port, frames, &line.first)?;
    push_said(out, line.port, frames, &line.second)
}
