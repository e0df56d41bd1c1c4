//! `encode_objects`: each line of an input is answered as it comes, by the object of the code of its words or of their
//! fault. Memory is flat.
ghost use Rattle.std.specs.Prelude.{◌≡◌, ◌+◌, ◌<◌, ◌^◌, true};
ghost use Rattle.gp_encode.specs.Lines.{after, opened_encode};
ghost use Rattle.gp_code_objects.specs.Encoded.{EncodesToObjects};

use crate::words::{put_words, put_words_fault};
use gp_decode::{is_remark, without_return};
use gp_encode::{WordsFault, WordsFaultAt};
use gp_flow::{LineWork, LinesFault, Unanswered, run_lines};
use gp_lines::LineFault as PartFault;
use gp_ploam::Mask;
use gp_stream::{Sink, Source};
use std::alloc::Global;
use std::io::{Read, Write};
use std::marker::Model;

/// Says of each line by an object which code its words have, or their fault, and passes over remarks. Contracts see the
/// direction and the mask of the codes, how many lines came, and the first that had a fault.
#[derive(Drop)]
struct ObjectEncoder {
    upstream: bool,
    mask: Mask,
    lines: u64,
    first: Option<WordsFaultAt>,
    said: Vec<u8>,
}

impl Model for ObjectEncoder {
    ghost use Rattle.gp_encode.specs.Lines.{EncodeState};

    ghost Value = { EncodeState };

    ghost view = { λ s. record { upstream = s.upstream; mask = s.mask; lines = s.lines; first = s.first } };
}

impl ObjectEncoder {
    /// Makes one to which no line came.
    fn new(alloc: Global, upstream: bool, mask: Mask) -> ObjectEncoder
        ensures { result ≡ opened_encode upstream mask }
    {
        ObjectEncoder {
            upstream,
            mask,
            lines: 0,
            first: None,
            said: Vec::new(alloc),
        }
    }

    /// The first line that had a fault, if one had.
    fn first_fault(&self) -> Option<WordsFaultAt>
        ensures { result ≡ self.now.first }
    {
        self.first
    }

    /// Counts a line, with its fault.
    fn count(&mut self, fault: Option<WordsFault>)
        requires { self.old.lines + 1 < 2 ^ 64 }
        ensures { self.new ≡ after fault self.old }
    {
        self.lines += 1;
        if let Some(fault) = fault {
            let line = self.lines;
            self.first = Some(self.first.unwrap_or(WordsFaultAt { line, fault }));
        }
    }
}

impl LineWork for ObjectEncoder {
    ghost use Rattle.gp_encode.specs.Lines.{never};
    ghost use Rattle.gp_code_objects.specs.Encoded.{Showing};

    ghost speech = { Showing };

    ghost over = { never };

    fn is_over(&self) -> bool {
        false
    }

    fn line<W: Write>(&mut self, text: &[u8], sink: &mut Sink<W>) -> Result<(), Unanswered> {
        if self.lines == u64::MAX {
            return Err(Unanswered::Full);
        }
        let text = without_return(text);
        if is_remark(text) {
            self.count(None);
            return Ok(());
        }
        let line = self.lines + 1;
        let fault = put_words(&mut self.said, line, text, self.upstream, self.mask)?;
        sink.put(self.said.as_slice())?;
        self.count(fault);
        Ok(())
    }

    fn long_line<W: Write>(&mut self, sink: &mut Sink<W>) -> Result<(), Unanswered> {
        if self.lines == u64::MAX {
            return Err(Unanswered::Full);
        }
        let long = WordsFault::Part(PartFault::Long);
        put_words_fault(&mut self.said, self.lines + 1, long)?;
        sink.put(self.said.as_slice())?;
        self.count(Some(long));
        Ok(())
    }
}

/// Answers each line of an input by a JSON object on a line of its own, as it comes: that of the code of the message
/// that its words say, or that of its fault. Answers the first line that had one. Memory is flat.
///
/// The fields are `line`, counted from 1, and `code`, in 26 lower-case digits, or `error`, the name of the fault. What
/// is passed over is as of `gp_encode::encode_lines`. A line of more than 4,096 octets isn't looked at, and has the
/// fault `Part(Long)`.
pub fn encode_objects<R: Read, W: Write>(
    alloc: Global,
    source: &mut Source<R>,
    sink: &mut Sink<W>,
    upstream: bool,
    mask: Mask,
) -> Result<Option<WordsFaultAt>, LinesFault>
    requires { sink.old.flushed ≡ true }
    ensures { EncodesToObjects upstream mask source.old source.new sink.old sink.new result }
{
    let mut encoder = ObjectEncoder::new(alloc, upstream, mask);
    run_lines(alloc, source, sink, &mut encoder)?;
    Ok(encoder.first_fault())
}
