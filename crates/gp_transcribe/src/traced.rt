//! A line of a trace as `gp_log` reads it: its port, whether it is a frame's, and what was said; none for any other
//! line.
ghost use Rattle.std.specs.Prelude.{◌≡◌, ◌≤◌, IfNone, IfSome, Ok};
ghost use Rattle.gp_lines.specs.Spelling.{last_port};
ghost use Rattle.gp_log.specs.declared.line.LogLine.TheVariants as lines;
ghost use Rattle.gp_transcribe.specs.Entries.{IsTraceRead, ReadsAs};
ghost use Rattle.gp_transcribe.specs.Traced.{IsOther};

use gp_log::{LogFault, LogLine, Said, read_line};

/// What a line of a trace says.
#[derive(Clone, Copy)]
pub(crate) struct TracedLine {
    /// Its port, from 0 to 15.
    pub(crate) port: u8,
    /// It is the line of a frame.
    pub(crate) is_frame: bool,
    /// What was said first.
    pub(crate) first: Option<Said>,
    /// What was said behind that.
    pub(crate) second: Option<Said>,
}

/// Takes what was read, if it is a line of a trace.
fn line_of(read: Result<LogLine, LogFault>) -> Option<TracedLine>
    ensures some { IfSome result (λ line. read ≡ Ok (lines.Trace line.port line.is_frame line.first line.second)) }
    ensures none { IfNone result (IsOther read) }
{
    match read {
        Ok(
            LogLine::Trace {
                port,
                is_frame,
                first,
                second,
            },
        ) => Some(TracedLine {
            port,
            is_frame,
            first,
            second,
        }),
        Ok(LogLine::Remark | LogLine::Log { .. }) | Err(_) => None,
    }
}

/// Reads a line of a trace. None where it is none, or where the answer to its frame can't be read.
pub(crate) fn traced(text: &[u8]) -> Option<TracedLine>
    ensures some { IfSome result (λ line. ReadsAs text.now line.port line.is_frame line.first line.second
        × (line.port ≤ last_port)) }
    ensures none { IfNone result (IsTraceRead text.now → ⊥) }
{
    line_of(read_line(text))
}
