//! What is done with lines, as a trait: each line is answered into a sink, and whether more are wanted is told.

use crate::fault::Unanswered;
use gp_stream::Sink;
use std::io::Write;

/// What is done with the lines of an input.
pub trait LineWork {
    ghost use Rattle.std.specs.Prelude.{◌≡◌, Bool, Some, None};
    ghost use Rattle.gp_flow.specs.Lines.{Answers, Speech};

    // What is said to a line, and what where a fault comes before its end.
    ghost speech: { Speech Self };

    // No more of the input needs to be read.
    ghost over: { Self → Bool };

    /// Tells whether the work is over: no more of the input needs to be read.
    fn is_over(&self) -> bool
        ensures { result ≡ over self.now };

    /// Answers a line, which comes without its line feed.
    fn line<W: Write>(&mut self, text: &[u8], sink: &mut Sink<W>) -> Result<(), Unanswered>
        ensures { Answers speech (Some text.now) self.old self.new sink.old sink.new result };

    /// Answers a line that is too long to be kept.
    fn long_line<W: Write>(&mut self, sink: &mut Sink<W>) -> Result<(), Unanswered>
        ensures { Answers speech None self.old self.new sink.old sink.new result };
}
