//! The line of which no line feed came yet. It keeps no more octets than one above its limit, so that memory stays
//! flat.
ghost use Rattle.std.specs.Prelude.{◌≡◌, ◌<◌, ◌≤◌, ◌+◌, ◌↔◌, [], ◌∷◌, ◌++◌, true, IfOk, IsTrue, OnOk, length};
ghost use Rattle.gp_flow.specs.Lines.{AnswersAll, handed};
ghost use Rattle.gp_stream.specs.Sink.{KeepsNothing};
ghost use Rattle.gp_flow.specs.OpenLine.{kept_all, fed_lines, fed_text, last_line};

use crate::fault::Unanswered;
use crate::work::LineWork;
use gp_stream::Sink;
use memchr::memchr;
use std::alloc::{AllocError, Global};
use std::io::Write;
use std::marker::Model;

/// The octet that ends a line.
const LINE_FEED: u8 = b'\n';

/// A line of which octets came, and no line feed yet. It keeps no more of them than one above its limit.
#[derive(Drop)]
pub struct OpenLine {
    text: Vec<u8>,
    limit: usize,
}

impl Model for OpenLine {
    ghost use Rattle.std.specs.Prelude.{◌<◌, ◌≤◌, ◌+◌, vec_capacity, vec_len};
    ghost use Rattle.gp_flow.specs.OpenLine.{OpenLine};

    ghost Value = { OpenLine };

    ghost view = { λ s. record { text = s.text.items; limit = s.limit } };

    ghost invariant = { λ s. (s.limit < vec_capacity s.text) × (vec_len s.text ≤ s.limit + 1) };
}

impl OpenLine {
    /// Makes a line of which nothing came.
    pub fn new(alloc: Global, limit: usize) -> Result<Self, AllocError>
        requires { limit < usize.MAX }
        ensures { IfOk result (λ line. line ≡ record { text = []; limit = limit }) }
    {
        let text = Vec::with_capacity(alloc, limit + 1)?;
        Ok(OpenLine { text, limit })
    }

    /// Takes in octets, none of which is a line feed.
    fn keep(&mut self, octets: &[u8])
        ensures kept { self.new ≡
            record { text = kept_all self.old.limit self.old.text octets.now; limit = self.old.limit } }
        ensures short { length self.old.text ≤ self.old.limit + 1 }
    {
        let room = self.limit + 1 - self.text.len();
        let count = octets.len().min(room);
        self.text.extend_from_slice(&octets[..count]).unwrap();
    }

    /// Has the line answered, and begins the next.
    fn end<K: LineWork, W: Write>(
        &mut self,
        work: &mut K,
        sink: &mut Sink<W>,
    ) -> Result<(), Unanswered>
        ensures answers { AnswersAll K.speech (handed self.old.limit self.old.text ∷ [])
            work.old work.new sink.old sink.new result }
        ensures next { OnOk result (self.new ≡ record { text = []; limit = self.old.limit }) }
    {
        answer(self.text.as_slice(), self.limit, work, sink)?;
        self.text.clear();
        Ok(())
    }

    /// Has the line answered that these octets end, none of which is a line feed, and begins the next. They are not
    /// copied where none came before them.
    fn end_with<K: LineWork, W: Write>(
        &mut self,
        octets: &[u8],
        work: &mut K,
        sink: &mut Sink<W>,
    ) -> Result<(), Unanswered>
        ensures answers { AnswersAll K.speech (handed self.old.limit (self.old.text ++ octets.now) ∷ [])
            work.old work.new sink.old sink.new result }
        ensures next { OnOk result (self.new ≡ record { text = []; limit = self.old.limit }) }
    {
        if !self.text.is_empty() {
            self.keep(octets);
            return self.end(work, sink);
        }
        answer(octets, self.limit, work, sink)
    }

    /// Has the line answered at the end of the input, if octets of it came.
    fn end_last<K: LineWork, W: Write>(
        &mut self,
        work: &mut K,
        sink: &mut Sink<W>,
    ) -> Result<(), Unanswered>
        ensures { AnswersAll K.speech (last_line self.old.limit self.old.text)
            work.old work.new sink.old sink.new result }
    {
        if self.text.is_empty() {
            return Ok(());
        }
        self.end(work, sink)
    }

    /// Takes in a piece of the input, has each line answered that ends in it, and writes out all
    /// answers and flushes them.
    pub(crate) fn serve_piece<K: LineWork, W: Write>(
        &mut self,
        piece: &[u8],
        work: &mut K,
        sink: &mut Sink<W>,
    ) -> Result<(), Unanswered>
        requires { sink.old.flushed ≡ true }
        ensures answers { AnswersAll K.speech (fed_lines self.old.limit self.old.text piece.now)
            work.old work.new sink.old sink.new result }
        ensures next { OnOk result (self.new ≡
            record { text = fed_text self.old.limit self.old.text piece.now; limit = self.old.limit }) }
        ensures kept { OnOk result (KeepsNothing sink.new) }
    {
        let mut rest = piece;
        'lines: while let Some(count) = memchr(LINE_FEED, rest) {
            self.end_with(&rest[..count], work, sink)?;
            rest = &rest[count + 1..];
        }
        self.keep(rest);
        sink.finish()?;
        Ok(())
    }

    /// Has the last line answered, if octets of it came, and writes out all answers and flushes them. Tells
    /// whether none came.
    pub(crate) fn serve_last<K: LineWork, W: Write>(
        mut self,
        work: &mut K,
        sink: &mut Sink<W>,
    ) -> Result<bool, Unanswered>
        requires { sink.old.flushed ≡ true }
        ensures answers { AnswersAll K.speech (last_line self.limit self.text)
            work.old work.new sink.old sink.new result }
        ensures kept { OnOk result (KeepsNothing sink.new) }
        ensures whole { IfOk result (λ whole. IsTrue whole ↔ (self.text ≡ [])) }
    {
        let whole = self.text.is_empty();
        self.end_last(work, sink)?;
        sink.finish()?;
        Ok(whole)
    }
}

/// Has a line answered, whole or as one that is too long.
fn answer<K: LineWork, W: Write>(
    line: &[u8],
    limit: usize,
    work: &mut K,
    sink: &mut Sink<W>,
) -> Result<(), Unanswered>
    ensures { AnswersAll K.speech (handed limit line.now ∷ []) work.old work.new sink.old sink.new result }
{
    if line.len() <= limit {
        work.line(line, sink)
    } else {
        work.long_line(sink)
    }
}
