//! Where the lines of a trace go: a sink that is lent, and the buffer in which each is built, so that a line takes no
//! memory.
ghost use Rattle.std.specs.Prelude.{◌≡◌};
ghost use Rattle.std.specs.Option.{ForSome};
ghost use Rattle.gp_ploam.specs.Down.{IsProperDown};
ghost use Rattle.gp_stream.specs.Sink.{Puts};
ghost use Rattle.gp_trace.specs.Text.{line_of};
ghost use Rattle.gp_replay.specs.Out.{KeepsOut};

use super::line_buffer::LineBuffer;
use gp_machine::Entry;
use gp_ploam::Mask;
use gp_stream::{Sink, WriteStopped};
use std::io::Write;

/// Where the lines of a trace go: the sink that they are handed to, the buffer in which each is built, and the mask of
/// their codes. Sink and buffer are lent.
#[derive(Drop)]
pub struct TraceOut<'a, W: Write> {
    /// What the lines are handed to.
    pub sink: &'a mut Sink<W>,
    /// Where a line is built.
    pub buffer: &'a mut LineBuffer,
    /// The mask of the codes.
    pub mask: Mask,
}

impl<W: Write> TraceOut<'_, W> {
    /// Hands in the line of an entry that has this number on this port. Takes no memory.
    pub fn entry(&mut self, port: u8, number: u64, entry: &Entry) -> Result<(), WriteStopped>
        requires { ForSome entry.now.answer.sent IsProperDown }
        ensures puts { let line = line_of self.old.mask (record { port = port; number = number; entry = entry.now }) in
            Puts self.old.sink.now self.new.sink.now line result }
        ensures line { self.new.buffer.now
            ≡ line_of self.old.mask (record { port = port; number = number; entry = entry.now }) }
        ensures same { KeepsOut self.old self.new }
    {
        self.buffer.build_entry(self.mask, port, number, entry);
        self.sink.put(self.buffer.as_bytes())
    }
}
