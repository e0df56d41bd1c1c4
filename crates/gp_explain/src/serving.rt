//! An explainer serves lines, and is over behind the first that is none of a trace.
use crate::explainer::Explainer;
use crate::fault::NoLine;
use gp_flow::{LineWork, Unanswered};
use gp_lines::split_line;
use gp_stream::Sink;
use std::io::Write;

impl LineWork for Explainer {
    ghost use Rattle.gp_explain.specs.Explaining.{Explaining, has_ended};

    ghost speech = { Explaining };

    ghost over = { has_ended };

    fn is_over(&self) -> bool {
        self.ended.is_some()
    }

    fn line<W: Write>(&mut self, text: &[u8], sink: &mut Sink<W>) -> Result<(), Unanswered> {
        if self.ended.is_some() {
            return Ok(());
        }
        if self.lines == u64::MAX {
            return Err(Unanswered::Full);
        }
        let Some(line) = split_line(text) else {
            self.lines += 1;
            self.ended = Some(NoLine::NotALine);
            return Ok(());
        };
        self.buffer.clear();
        self.telling.tell_line(text, &line, &mut self.buffer)?;
        sink.put(self.buffer.as_slice())?;
        self.lines += 1;
        Ok(())
    }

    fn long_line<W: Write>(&mut self, _sink: &mut Sink<W>) -> Result<(), Unanswered> {
        if self.ended.is_some() {
            return Ok(());
        }
        if self.lines == u64::MAX {
            return Err(Unanswered::Full);
        }
        self.lines += 1;
        self.ended = Some(NoLine::TooLong);
        Ok(())
    }
}
