//! A transcriber serves lines, and is over behind the first that is none of a trace.
use crate::line::transcribe_line;
use crate::transcriber::Transcriber;
use gp_explain::NoLine;
use gp_flow::{LineWork, Unanswered};
use gp_stream::Sink;
use std::io::Write;

impl LineWork for Transcriber {
    ghost use Rattle.gp_transcribe.specs.Transcribing.{Transcribing, has_ended};

    ghost speech = { Transcribing };

    ghost over = { has_ended };

    fn is_over(&self) -> bool {
        self.ended.is_some()
    }

    fn line<W: Write>(&mut self, text: &[u8], sink: &mut Sink<W>) -> Result<(), Unanswered> {
        if self.ended.is_some() {
            return Ok(());
        }
        if self.lines == u64::MAX {
            return Err(Unanswered::Full);
        }
        if !transcribe_line(&mut self.frames, text, &mut self.buffer)? {
            self.lines += 1;
            self.ended = Some(NoLine::NotALine);
            return Ok(());
        }
        sink.put(self.buffer.as_slice())?;
        self.lines += 1;
        Ok(())
    }

    fn long_line<W: Write>(&mut self, _sink: &mut Sink<W>) -> Result<(), Unanswered> {
        if self.ended.is_some() {
            return Ok(());
        }
        if self.lines == u64::MAX {
            return Err(Unanswered::Full);
        }
        self.lines += 1;
        self.ended = Some(NoLine::TooLong);
        Ok(())
    }
}
