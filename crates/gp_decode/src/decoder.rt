//! `Decoder`, what serves the lines: it says to each its message or its fault, and remembers the first line that had
//! one.
ghost use Rattle.std.specs.Prelude.{◌≡◌, ◌+◌, ◌<◌, ◌^◌};
ghost use Rattle.gp_decode.specs.Lines.{after, opened_decode, opened_in};

use super::answer::Answer;
use super::direction::Direction;
use super::fault::DecodeFault;
use super::text::{is_remark, without_return};
use gp_flow::{LineWork, Unanswered};
use gp_ploam::Mask;
use gp_stream::Sink;
use std::alloc::Global;
use std::io::Write;
use std::marker::Model;

/// A line that had a fault.
#[derive(Clone, Copy, Debug, PartialEq, Eq)]
pub struct FaultAt {
    /// The line, counted from 1.
    pub line: u64,
    /// Its fault: `Length`, `Digit`, `Crc` or `Direction`.
    pub fault: DecodeFault,
}

/// Says to each line the message of the code in it, or its fault, and passes over remarks. Contracts see the direction
/// and the mask of the codes, whether names of the standard are told, how many lines came, and the first that had a
/// fault.
#[derive(Drop)]
pub struct Decoder {
    direction: Direction,
    mask: Mask,
    names: bool,
    lines: u64,
    first: Option<FaultAt>,
    answer: Answer,
}

impl Model for Decoder {
    ghost use Rattle.gp_decode.specs.Lines.{DecodeState};

    ghost Value = { DecodeState };

    ghost view = { λ s. record {
      direction = s.direction;
      mask = s.mask;
      names = s.names;
      lines = s.lines;
      first = s.first;
    } };
}

impl Decoder {
    /// Makes one to which no line came, for codes of one direction.
    pub fn new(alloc: Global, upstream: bool, mask: Mask) -> Decoder
        ensures { result ≡ opened_decode upstream mask }
    {
        Decoder::naming(alloc, Direction::of(upstream), mask, false)
    }

    /// Makes one to which no line came, and which tells messages that this profile has no row for by the names that the
    /// standard has for them, where `names`.
    pub(crate) fn naming(alloc: Global, direction: Direction, mask: Mask, names: bool) -> Decoder
        ensures { result ≡ opened_in names direction mask }
    {
        Decoder {
            direction,
            mask,
            names,
            lines: 0,
            first: None,
            answer: Answer::new(alloc),
        }
    }

    /// The first line that had a fault, if one had.
    pub fn first_fault(&self) -> Option<FaultAt>
        ensures { result ≡ self.now.first }
    {
        self.first
    }

    /// Counts a line, with its fault.
    fn count(&mut self, fault: Option<DecodeFault>)
        requires { self.old.lines + 1 < 2 ^ 64 }
        ensures { self.new ≡ after fault self.old }
    {
        self.lines += 1;
        if let Some(fault) = fault {
            let line = self.lines;
            self.first = Some(self.first.unwrap_or(FaultAt { line, fault }));
        }
    }
}

impl LineWork for Decoder {
    ghost use Rattle.gp_decode.specs.Lines.{Decoding, never};

    ghost speech = { Decoding };

    ghost over = { never };

    fn is_over(&self) -> bool {
        false
    }

    fn line<W: Write>(&mut self, text: &[u8], sink: &mut Sink<W>) -> Result<(), Unanswered> {
        if self.lines == u64::MAX {
            return Err(Unanswered::Full);
        }
        let text = without_return(text);
        if is_remark(text) {
            self.count(None);
            return Ok(());
        }
        let line = self.lines + 1;
        let fault = self
            .answer
            .tell(line, text, self.direction, self.mask, self.names)?;
        sink.put(self.answer.said.as_slice())?;
        self.count(fault);
        Ok(())
    }

    fn long_line<W: Write>(&mut self, sink: &mut Sink<W>) -> Result<(), Unanswered> {
        if self.lines == u64::MAX {
            return Err(Unanswered::Full);
        }
        self.answer.refuse(self.lines + 1, DecodeFault::Length)?;
        sink.put(self.answer.said.as_slice())?;
        self.count(Some(DecodeFault::Length));
        Ok(())
    }
}
