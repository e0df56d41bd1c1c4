//! `Encoder`, what serves the lines: it says to each its code or its fault, and remembers the first line that had one.
ghost use Rattle.std.specs.Prelude.{◌≡◌, ◌+◌, ◌<◌, ◌^◌};
ghost use Rattle.gp_encode.specs.Lines.{after, opened_encode};

use crate::answer::{put_answer, put_error_line};
use crate::fault::WordsFault;
use gp_decode::{is_remark, without_return};
use gp_flow::{LineWork, Unanswered};
use gp_lines::LineFault as PartFault;
use gp_ploam::Mask;
use gp_stream::Sink;
use std::alloc::Global;
use std::io::Write;
use std::marker::Model;

/// A line whose words had a fault.
#[derive(Clone, Copy, Debug, PartialEq, Eq)]
pub struct WordsFaultAt {
    /// The line, counted from 1.
    pub line: u64,
    /// Its fault; `Part(Long)` of a line that is too long.
    pub fault: WordsFault,
}

/// Says to each line the code of the message in it, or its fault, and passes over remarks. Contracts see the direction
/// and the mask of the codes, how many lines came, and the first that had a fault.
#[derive(Drop)]
pub(crate) struct Encoder {
    upstream: bool,
    mask: Mask,
    lines: u64,
    first: Option<WordsFaultAt>,
    said: Vec<u8>,
}

impl Model for Encoder {
    ghost use Rattle.gp_encode.specs.Lines.{EncodeState};

    ghost Value = { EncodeState };

    ghost view = { λ s. record { upstream = s.upstream; mask = s.mask; lines = s.lines; first = s.first } };
}

impl Encoder {
    /// Makes one to which no line came.
    pub(crate) fn new(alloc: Global, upstream: bool, mask: Mask) -> Encoder
        ensures { result ≡ opened_encode upstream mask }
    {
        Encoder {
            upstream,
            mask,
            lines: 0,
            first: None,
            said: Vec::new(alloc),
        }
    }

    /// The first line that had a fault, if one had.
    pub(crate) fn first_fault(&self) -> Option<WordsFaultAt>
        ensures { result ≡ self.now.first }
    {
        self.first
    }

    /// Counts a line, with its fault.
    fn count(&mut self, fault: Option<WordsFault>)
        requires { self.old.lines + 1 < 2 ^ 64 }
        ensures { self.new ≡ after fault self.old }
    {
        self.lines += 1;
        if let Some(fault) = fault {
            let line = self.lines;
            self.first = Some(self.first.unwrap_or(WordsFaultAt { line, fault }));
        }
    }
}

impl LineWork for Encoder {
    ghost use Rattle.gp_encode.specs.Lines.{Encoding, never};

    ghost speech = { Encoding };

    ghost over = { never };

    fn is_over(&self) -> bool {
        false
    }

    fn line<W: Write>(&mut self, text: &[u8], sink: &mut Sink<W>) -> Result<(), Unanswered> {
        if self.lines == u64::MAX {
            return Err(Unanswered::Full);
        }
        let text = without_return(text);
        if is_remark(text) {
            self.count(None);
            return Ok(());
        }
        let line = self.lines + 1;
        let fault = put_answer(&mut self.said, line, text, self.upstream, self.mask)?;
        sink.put(self.said.as_slice())?;
        self.count(fault);
        Ok(())
    }

    fn long_line<W: Write>(&mut self, sink: &mut Sink<W>) -> Result<(), Unanswered> {
        if self.lines == u64::MAX {
            return Err(Unanswered::Full);
        }
        let long = WordsFault::Part(PartFault::Long);
        put_error_line(&mut self.said, self.lines + 1, long)?;
        sink.put(self.said.as_slice())?;
        self.count(Some(long));
        Ok(())
    }
}
