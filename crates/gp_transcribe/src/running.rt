//! From the bytes of a trace to its log; the first line that is none of a trace ends it. Memory is flat.
ghost use Rattle.std.specs.Prelude.{◌≡◌, true};
ghost use Rattle.gp_transcribe.specs.Outcome.{TranscribesTrace, finding};

use crate::transcriber::Transcriber;
use gp_explain::{ExplainFault, NoLine};
use gp_flow::run_lines;
use gp_stream::{Sink, Source};
use std::alloc::Global;
use std::io::{Read, Write};

/// Writes a trace as a log, line by line as it comes, and answers how many lines the trace has. What a line says on the
/// fibre, at most two things, is written as a line each, `PORT TIME down CODE`, `PORT TIME up CODE DELAY` or
/// `PORT TIME grant GRANT`. TIME is in frames of 125 microseconds: those that the port has had, the line's own too. The
/// delay of a burst is its AT.
///
/// The first line that `gp_log::read_line` doesn't read as one of a trace ends it, also a frame whose answer can't be
/// read. A line that would be of a frame behind `gp_log::LAST_FRAME` is not written, as `LineFault::Full`. Memory is
/// flat.
pub fn transcribe_trace<R: Read, W: Write>(
    alloc: Global,
    source: &mut Source<R>,
    sink: &mut Sink<W>,
) -> Result<u64, ExplainFault>
    requires { sink.old.flushed ≡ true }
    ensures { TranscribesTrace source.old source.new sink.old sink.new result }
{
    let mut transcriber = Transcriber::new(alloc)?;
    run_lines(alloc, source, sink, &mut transcriber)?;
    finding(transcriber.ended(), transcriber.lines())
}

/// What was found, where so many lines came.
fn finding(ended: Option<NoLine>, line: u64) -> Result<u64, ExplainFault>
    ensures { result ≡ finding ended line }
{
    match ended {
        Some(why) => Err(ExplainFault::Refused { line, why }),
        None => Ok(line),
    }
}
