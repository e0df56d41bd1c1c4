//! From the bytes of a trace to its lines as they are told; the first line that is none of a trace ends it. Memory is
//! flat.
ghost use Rattle.std.specs.Prelude.{◌≡◌, true};
ghost use Rattle.gp_explain.specs.Outcome.{ExplainsTrace, finding};

use crate::explainer::Explainer;
use crate::fault::{ExplainFault, NoLine};
use crate::telling::Telling;
use gp_flow::run_lines;
use gp_stream::{Sink, Source};
use std::alloc::Global;
use std::io::{Read, Write};

/// Tells the lines of a trace as they come, and answers how many they are. Memory is flat.
pub fn explain_trace<R: Read, W: Write>(
    alloc: Global,
    telling: Telling,
    source: &mut Source<R>,
    sink: &mut Sink<W>,
) -> Result<u64, ExplainFault>
    requires { sink.old.flushed ≡ true }
    ensures { ExplainsTrace telling source.old source.new sink.old sink.new result }
{
    let mut explainer = Explainer::new(alloc, telling)?;
    run_lines(alloc, source, sink, &mut explainer)?;
    finding(explainer.ended(), explainer.lines())
}

/// What was found, where so many lines came.
fn finding(ended: Option<NoLine>, line: u64) -> Result<u64, ExplainFault>
    ensures { result ≡ finding ended line }
{
    match ended {
        Some(why) => Err(ExplainFault::Refused { line, why }),
        None => Ok(line),
    }
}
