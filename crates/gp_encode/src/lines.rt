//! `encode_lines`: each line of an input is answered as it comes, by the code of its words or by their fault. Memory is
//! flat.
ghost use Rattle.std.specs.Prelude.{◌≡◌, true};
ghost use Rattle.gp_encode.specs.Lines.{EncodesLines};

use crate::encoder::{Encoder, WordsFaultAt};
use gp_flow::{LinesFault, run_lines};
use gp_ploam::Mask;
use gp_stream::{Sink, Source};
use std::alloc::Global;
use std::io::{Read, Write};

/// Answers each line of an input by the code of the message that its words say, in 26 lower-case hexadecimal digits, or
/// by `error LINE KIND` where it has a fault, as it comes. Answers the first line that had one. Memory is flat.
///
/// A carriage return at the end of a line is no part of it, and a line that is empty or begins with `#` is passed over.
/// A line of more than 4,096 octets isn't looked at, and has the fault `Part(Long)`.
pub fn encode_lines<R: Read, W: Write>(
    alloc: Global,
    source: &mut Source<R>,
    sink: &mut Sink<W>,
    upstream: bool,
    mask: Mask,
) -> Result<Option<WordsFaultAt>, LinesFault>
    requires { sink.old.flushed ≡ true }
    ensures { EncodesLines upstream mask source.old source.new sink.old sink.new result }
{
    let mut encoder = Encoder::new(alloc, upstream, mask);
    run_lines(alloc, source, sink, &mut encoder)?;
    Ok(encoder.first_fault())
}
