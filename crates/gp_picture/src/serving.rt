//! A drawer serves lines: it says nothing to them, and is over behind the first that is none of a trace or a log.
use crate::drawer::Drawer;
use crate::moment::LineText;
use gp_explain::NoLine;
use gp_flow::{LineWork, Unanswered};
use gp_log::read_line;
use gp_stream::Sink;
use line_columns::plain_of;
use std::io::Write;

impl LineWork for Drawer {
    ghost use Rattle.gp_picture.specs.Drawing.{Drawing, has_ended};

    ghost speech = { Drawing };

    ghost over = { has_ended };

    fn is_over(&self) -> bool {
        self.ended.is_some()
    }

    fn line<W: Write>(&mut self, text: &[u8], _sink: &mut Sink<W>) -> Result<(), Unanswered> {
        if self.ended.is_some() {
            return Ok(());
        }
        if self.lines == u64::MAX {
            return Err(Unanswered::Full);
        }
        let plain = plain_of(&self.layout, text, &mut self.plain)?;
        let Ok(read) = read_line(plain) else {
            self.lines += 1;
            self.ended = Some(NoLine::NotALine);
            return Ok(());
        };
        let number = self.lines + 1;
        let falls = self.times.hear(&read);
        self.codes.hear(self.mask, &read);
        let line = LineText {
            number,
            text: plain,
        };
        self.picture.line(&line, &read, &self.times, falls)?;
        self.lines = number;
        self.heard = self.heard || !read.says_nothing();
        Ok(())
    }

    fn long_line<W: Write>(&mut self, _sink: &mut Sink<W>) -> Result<(), Unanswered> {
        if self.ended.is_some() {
            return Ok(());
        }
        if self.lines == u64::MAX {
            return Err(Unanswered::Full);
        }
        self.lines += 1;
        self.ended = Some(NoLine::TooLong);
        Ok(())
    }
}
