//! A dumper serves lines: it writes the changes that can't be held back any more, and is over behind the first line
//! that is none.
use crate::dumper::Dumper;
use gp_explain::NoLine;
use gp_flow::{LineWork, Unanswered};
use gp_log::read_line;
use gp_stream::Sink;
use std::io::Write;

impl LineWork for Dumper {
    ghost use Rattle.gp_waves.specs.Dumping.{Dumping, has_ended};

    ghost speech = { Dumping };

    ghost over = { has_ended };

    fn is_over(&self) -> bool {
        self.ended.is_some()
    }

    fn line<W: Write>(&mut self, text: &[u8], sink: &mut Sink<W>) -> Result<(), Unanswered> {
        if self.ended.is_some() {
            return Ok(());
        }
        if self.lines == u64::MAX {
            return Err(Unanswered::Full);
        }
        let Ok(read) = read_line(text) else {
            self.lines += 1;
            self.ended = Some(NoLine::NotALine);
            return Ok(());
        };
        let falls = self.times.hear(&read);
        self.codes.hear(self.waves.mask(), &read);
        self.waves.hear(text, &read, &self.times, falls)?;
        self.writing.spill(&mut self.buffer, &mut self.waves)?;
        sink.put(self.buffer.as_slice())?;
        self.lines += 1;
        self.heard = self.heard || !read.says_nothing();
        Ok(())
    }

    fn long_line<W: Write>(&mut self, _sink: &mut Sink<W>) -> Result<(), Unanswered> {
        if self.ended.is_some() {
            return Ok(());
        }
        if self.lines == u64::MAX {
            return Err(Unanswered::Full);
        }
        self.lines += 1;
        self.ended = Some(NoLine::TooLong);
        Ok(())
    }
}
