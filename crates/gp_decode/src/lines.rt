//! `decode_lines` and `decode_each`: each line of an input is answered as it comes, by its message or by its fault.
//! Memory is flat.
ghost use Rattle.std.specs.Prelude.{◌≡◌, true};
ghost use Rattle.gp_decode.specs.Lines.{DecodesIn, DecodesLines};

use super::decoder::{Decoder, FaultAt};
use super::direction::Direction;
use gp_flow::{LinesFault, run_lines};
use gp_ploam::Mask;
use gp_stream::{Sink, Source};
use std::alloc::Global;
use std::io::{Read, Write};

/// Answers each line of an input by the line of the message whose code it is, or by `error LINE KIND` where it has a
/// fault, as it comes. Answers the first line that had one. Memory is flat.
///
/// A carriage return at the end of a line is no part of it, and a line that is empty or begins with `#` is passed over.
/// Spaces, hyphens and colons in a code are passed over, and so is `0x` in front of digits. Behind `error LINE crc` it
/// is said what would be right. A line of more than 4,096 octets isn't looked at, and has the fault of its length.
pub fn decode_lines<R: Read, W: Write>(
    alloc: Global,
    source: &mut Source<R>,
    sink: &mut Sink<W>,
    upstream: bool,
    mask: Mask,
) -> Result<Option<FaultAt>, LinesFault>
    requires { sink.old.flushed ≡ true }
    ensures { DecodesLines upstream mask source.old source.new sink.old sink.new result }
{
    decode_each_in(alloc, source, sink, Direction::of(upstream), mask, false)
}

/// Does so in a direction that each line may say itself, by `up` or `down` and a space before the code. A line that has
/// to and doesn't is answered by `error LINE direction`. Where `names`, messages that this profile has no row for are
/// told by the names that G.984.3 has for them, in the place of `Other` and the identifier.
pub fn decode_each_in<R: Read, W: Write>(
    alloc: Global,
    source: &mut Source<R>,
    sink: &mut Sink<W>,
    direction: Direction,
    mask: Mask,
    names: bool,
) -> Result<Option<FaultAt>, LinesFault>
    requires { sink.old.flushed ≡ true }
    ensures { DecodesIn names direction mask source.old source.new sink.old sink.new result }
{
    let mut decoder = Decoder::naming(alloc, direction, mask, names);
    run_lines(alloc, source, sink, &mut decoder)?;
    Ok(decoder.first_fault())
}
