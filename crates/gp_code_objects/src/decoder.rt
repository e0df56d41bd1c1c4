//! `decode_objects`: each line of an input is answered as it comes, by the object of its code or of its fault. Memory
//! is flat.
ghost use Rattle.std.specs.Prelude.{◌≡◌, ◌+◌, ◌<◌, ◌^◌, true};
ghost use Rattle.gp_decode.specs.Lines.{after};
ghost use Rattle.gp_code_objects.specs.Decoded.{DecodesToObjects, opened_objects};

use crate::shown::Shown;
use gp_decode::{DecodeFault, Direction, FaultAt, is_remark, without_return};
use gp_flow::{LineWork, LinesFault, Unanswered, run_lines};
use gp_ploam::Mask;
use gp_stream::{Sink, Source};
use std::alloc::Global;
use std::io::{Read, Write};
use std::marker::Model;

/// Says of each line by an object which message its code is, or its fault, and passes over remarks. Contracts see the
/// direction and the mask of the codes, how many lines came, and the first that had a fault.
#[derive(Drop)]
struct ObjectDecoder {
    direction: Direction,
    mask: Mask,
    lines: u64,
    first: Option<FaultAt>,
    shown: Shown,
}

impl Model for ObjectDecoder {
    ghost use Rattle.std.specs.Prelude.{true};
    ghost use Rattle.gp_decode.specs.Lines.{DecodeState};

    ghost Value = { DecodeState };

    ghost view = { λ s. record {
      direction = s.direction;
      mask = s.mask;
      names = true;
      lines = s.lines;
      first = s.first;
    } };
}

impl ObjectDecoder {
    /// Makes one to which no line came.
    fn new(alloc: Global, direction: Direction, mask: Mask) -> ObjectDecoder
        ensures { result ≡ opened_objects direction mask }
    {
        ObjectDecoder {
            direction,
            mask,
            lines: 0,
            first: None,
            shown: Shown::new(alloc),
        }
    }

    /// The first line that had a fault, if one had.
    fn first_fault(&self) -> Option<FaultAt>
        ensures { result ≡ self.now.first }
    {
        self.first
    }

    /// Counts a line, with its fault.
    fn count(&mut self, fault: Option<DecodeFault>)
        requires { self.old.lines + 1 < 2 ^ 64 }
        ensures { self.new ≡ after fault self.old }
    {
        self.lines += 1;
        if let Some(fault) = fault {
            let line = self.lines;
            self.first = Some(self.first.unwrap_or(FaultAt { line, fault }));
        }
    }
}

impl LineWork for ObjectDecoder {
    ghost use Rattle.gp_decode.specs.Lines.{never};
    ghost use Rattle.gp_code_objects.specs.Decoded.{Showing};

    ghost speech = { Showing };

    ghost over = { never };

    fn is_over(&self) -> bool {
        false
    }

    fn line<W: Write>(&mut self, text: &[u8], sink: &mut Sink<W>) -> Result<(), Unanswered> {
        if self.lines == u64::MAX {
            return Err(Unanswered::Full);
        }
        let text = without_return(text);
        if is_remark(text) {
            self.count(None);
            return Ok(());
        }
        let line = self.lines + 1;
        let fault = self.shown.show(line, text, self.direction, self.mask)?;
        sink.put(self.shown.said.as_slice())?;
        self.count(fault);
        Ok(())
    }

    fn long_line<W: Write>(&mut self, sink: &mut Sink<W>) -> Result<(), Unanswered> {
        if self.lines == u64::MAX {
            return Err(Unanswered::Full);
        }
        self.shown.refuse(self.lines + 1, DecodeFault::Length)?;
        sink.put(self.shown.said.as_slice())?;
        self.count(Some(DecodeFault::Length));
        Ok(())
    }
}

/// Answers each line of an input by a JSON object on a line of its own, as it comes: that of the message whose code it
/// is, or that of its fault. Answers the first line that had one. Memory is flat.
///
/// The fields of a message are `line`, counted from 1, `direction`, `up` or `down`, `code`, in 26 lower-case digits,
/// `message`, its name, which is the standard's wherever it has one, and those of the message. Those of a fault are
/// `line` and `error`, its name; of a wrong check octet also `wanted`, the octet that should stand, in two digits, or
/// `right_under_mask`, the other mask, as a number.
///
/// What is passed over, in a line and of lines, is as of `gp_decode::decode_each_in`. A line of more than 4,096 octets
/// isn't looked at, and has the fault of its length.
pub fn decode_objects<R: Read, W: Write>(
    alloc: Global,
    source: &mut Source<R>,
    sink: &mut Sink<W>,
    direction: Direction,
    mask: Mask,
) -> Result<Option<FaultAt>, LinesFault>
    requires { sink.old.flushed ≡ true }
    ensures { DecodesToObjects direction mask source.old source.new sink.old sink.new result }
{
    let mut decoder = ObjectDecoder::new(alloc, direction, mask);
    run_lines(alloc, source, sink, &mut decoder)?;
    Ok(decoder.first_fault())
}
