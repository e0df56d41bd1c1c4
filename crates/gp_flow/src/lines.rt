//! Serves the lines of an input, in whatever pieces it comes: before more is read, all answers are written and flushed.
ghost use Rattle.std.specs.Prelude.{◌≡◌, ◌<◌, true};
ghost use Rattle.gp_stream.specs.Sink.{KeepsNothing};
ghost use Rattle.gp_stream.specs.Source.{Reads};
ghost use Rattle.gp_flow.specs.Gathering.{ServesGathered, WritesOut};
ghost use Rattle.gp_flow.specs.Lines.{Serves, end_of_input, longest_line};

use crate::fault::{LinesFault, Unanswered};
use crate::open_line::OpenLine;
use crate::work::LineWork;
use gp_stream::{Sink, Source, WriteStopped};
use std::alloc::Global;
use std::io;
use std::io::{Read, Write};

/// The most octets that a line may have. Of a longer one nothing is handed on.
pub const MAX_LINE_BYTES: usize = 4_096;

/// States that `MAX_LINE_BYTES` is the number that contracts have for it.
pub fn lines_are_limited()
    ensures { MAX_LINE_BYTES ≡ longest_line }
{}

/// How many bytes are asked for in one read.
const PIECE_BYTES: usize = 65_536;

/// How far an input was read whose lines were answered.
#[derive(Clone, Copy, Debug, PartialEq, Eq)]
pub enum LinesEnd {
    /// To its end, at which the last line had its line feed, if there was a line.
    Whole,
    /// To its end, at which the last line had no line feed.
    Open,
    /// The work was over before more was asked for.
    Over,
}

/// Answers each line of an input, in their order, up to its end or until the work is over. A line ends at a
/// line feed; what stands behind the last one is a line too, unless it is empty.
///
/// Whenever the reader is asked for more, the answers to all lines that a line feed ended before are
/// written and flushed. Where a line is not answered for another reason than a failed write, all answers that were
/// made by then are too, and the reason is told also if that write fails.
pub fn run_lines<R: Read, W: Write, K: LineWork>(
    alloc: Global,
    source: &mut Source<R>,
    sink: &mut Sink<W>,
    work: &mut K,
) -> Result<LinesEnd, LinesFault>
    requires { sink.old.flushed ≡ true }
    ensures { Serves K.speech K.over MAX_LINE_BYTES source.old source.new work.old work.new sink.old sink.new result }
{
    match serve(alloc, source, sink, work) {
        Ok(end) => Ok(end),
        Err(LinesFault::Read) => Err(LinesFault::Read),
        Err(LinesFault::Line(fault)) => {
            let _ = write_out(sink, fault);
            Err(LinesFault::Line(fault))
        }
    }
}

/// Writes out what is gathered where a line was not answered, which takes no memory. After a failed write nothing more
/// is written.
fn write_out<W: Write>(sink: &mut Sink<W>, fault: Unanswered) -> Result<(), WriteStopped>
    ensures { WritesOut fault sink.old sink.new result }
{
    match fault {
        Unanswered::Write => Ok(()),
        Unanswered::OutOfMemory | Unanswered::Full => sink.finish(),
    }
}

/// Answers each line of an input. Where a line is not answered, what is gathered then is not written out yet.
fn serve<R: Read, W: Write, K: LineWork>(
    alloc: Global,
    source: &mut Source<R>,
    sink: &mut Sink<W>,
    work: &mut K,
) -> Result<LinesEnd, LinesFault>
    requires { sink.old.flushed ≡ true }
    ensures { ServesGathered K.speech K.over MAX_LINE_BYTES
        source.old source.new work.old work.new sink.old sink.new result }
{
    sink.finish()?;
    let mut line = OpenLine::new(alloc, MAX_LINE_BYTES)?;
    let mut piece = [0u8; PIECE_BYTES];
    'reads: while source.can_read() {
        match ask(source, sink, &mut piece) {
            Err(_) => return Err(LinesFault::Read),
            Ok(0) => {
                let whole = line.serve_last(work, sink)?;
                return Ok(end_of_input(whole));
            }
            Ok(count) => line.serve_piece(&piece[..count], work, sink)?,
        }
        if work.is_over() {
            return Ok(LinesEnd::Over);
        }
    }
    Err(LinesFault::Read)
}

/// How an input ended.
fn end_of_input(whole: bool) -> LinesEnd
    ensures { result ≡ end_of_input whole }
{
    if whole {
        LinesEnd::Whole
    } else {
        LinesEnd::Open
    }
}

/// Asks the reader for more, which is done only once all answers are written and flushed.
fn ask<R: Read, W: Write>(
    source: &mut Source<R>,
    _sink: &Sink<W>,
    piece: &mut [u8],
) -> io::Result<usize>
    requires left { 0 < source.old.left }
    requires kept { KeepsNothing _sink.now }
    ensures { Reads source.old source.new piece.new result }
{
    source.read(piece)
}
