//! An auditor serves lines, and is never over: a line that is none is told as an error.
use crate::auditor::Auditor;
use gp_finding::LineError;
use gp_flow::{LineWork, Unanswered};
use gp_log::{LogFault, read_line, text_of};
use gp_stream::Sink;
use line_columns::plain_of;
use std::io::Write;

impl LineWork for Auditor {
    ghost use Rattle.gp_audit.specs.Audit.{Auditing, never};

    ghost speech = { Auditing };

    ghost over = { never };

    fn is_over(&self) -> bool {
        false
    }

    fn line<W: Write>(&mut self, text: &[u8], sink: &mut Sink<W>) -> Result<(), Unanswered> {
        let plain = plain_of(&self.layout, text, &mut self.plain)?;
        let read = read_line(plain);
        let number = self.book.begin_line()?;
        self.again.tell_in(
            self.options.form,
            text_of(plain),
            &read,
            &mut self.book.said,
        )?;
        self.ports
            .audit(&mut self.book, &self.options, number, &read)?;
        sink.put(self.book.said.as_slice())?;
        Ok(())
    }

    fn long_line<W: Write>(&mut self, sink: &mut Sink<W>) -> Result<(), Unanswered> {
        let number = self.book.begin_line()?;
        self.book
            .tell_error(&self.options, number, LineError::Log(LogFault::Long))?;
        sink.put(self.book.said.as_slice())?;
        Ok(())
    }
}
