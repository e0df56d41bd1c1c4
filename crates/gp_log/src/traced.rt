//! What a line of a trace says on the fibre.
ghost use Rattle.std.specs.Prelude.{◌≡◌, MatchResult, Ok, Err};
ghost use Rattle.gp_log.specs.Fields.{next};
ghost use Rattle.gp_log.specs.Trace as spec;
ghost use Rattle.gp_log.specs.Usual.{ended, granted_said, written};

use crate::code::next_code;
use crate::fault::LogFault;
use crate::fields::{behind_word, is_over};
use crate::line::LogLine;
use crate::said::Said;
use crate::says::next_grant;
use gp_machine::Event;

/// Tells whether nothing more is said in a frame.
fn is_end(text: &[u8]) -> bool
    ensures { result ≡ spec.is_end (next text.now).0 }
{
    is_over(text) || behind_word(text, b"alarm").is_some()
}

/// Reads the end of what is said in a frame.
fn end_line(
    port: u8,
    first: Option<Said>,
    second: Option<Said>,
    text: &[u8],
    line: &mut LogLine,
) -> Result<(), LogFault>
    ensures { written result line.new ≡ ended port first second text.now }
{
    if !is_end(text) {
        return Err(LogFault::Word);
    }
    *line = LogLine::Trace {
        port,
        is_frame: true,
        first,
        second,
    };
    Ok(())
}

/// Reads what is granted in a frame, behind what was sent.
#[tactic(auto, unfolding(crate::specs::Trace::next_granted))]
fn granted_line(
    port: u8,
    first: Option<Said>,
    text: &[u8],
    line: &mut LogLine,
) -> Result<(), LogFault>
    ensures { written result line.new ≡ granted_said port first text.now }
{
    match behind_word(text, b"grant") {
        None => end_line(port, first, None, text, line),
        Some(rest) => {
            let (grant, rest) = next_grant(rest)?;
            end_line(port, first, Some(Said::Grant(grant)), rest, line)
        }
    }
}

/// Reads what is said in a frame, behind its reply.
#[tactic(auto, unfolding(crate::specs::Trace::frame_said, crate::specs::Trace::next_sent))]
fn frame_said(port: u8, text: &[u8], line: &mut LogLine) -> Result<(), LogFault>
    ensures { written result line.new ≡ spec.frame_said port text.now }
{
    match behind_word(text, b"sent") {
        None => granted_line(port, None, text, line),
        Some(rest) => {
            let (code, rest) = next_code(rest)?;
            granted_line(port, Some(Said::Down(code)), rest, line)
        }
    }
}

/// Reads what is said in a frame.
pub(crate) fn frame_line(port: u8, answer: &[u8], line: &mut LogLine) -> Result<(), LogFault>
    ensures { written result line.new ≡ spec.frame_line port answer.now }
{
    match behind_word(answer, b"ok") {
        Some([]) => {
            *line = LogLine::Trace {
                port,
                is_frame: true,
                first: None,
                second: None,
            };
            Ok(())
        }
        Some(rest) => frame_said(port, rest, line),
        None => Err(LogFault::Word),
    }
}

/// Reads what a line of a trace says.
pub(crate) fn event_line(
    port: u8,
    event: Event,
    answer: &[u8],
    line: &mut LogLine,
) -> Result<(), LogFault>
    ensures { written result line.new ≡ spec.trace_line port event answer.now }
{
    match event {
        Event::Frame => frame_line(port, answer, line),
        Event::Burst { at, bytes } => {
            *line = LogLine::Trace {
                port,
                is_frame: false,
                first: Some(Said::Up {
                    code: bytes,
                    delay: Some(at),
                }),
                second: None,
            };
            Ok(())
        }
        Event::Command(_) => {
            *line = LogLine::Trace {
                port,
                is_frame: false,
                first: None,
                second: None,
            };
            Ok(())
        }
    }
}
