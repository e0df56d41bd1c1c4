//! A trace that is verified, and what became of its ports and units behind what is found.
ghost use Rattle.std.specs.Prelude.{◌≡◌, true};
ghost use Rattle.gp_with_units.specs.Verifying.{VerifiesWithUnits, WritesUnits};

use gp_explain::Form;
use gp_flow::{LinesFault, Unanswered};
use gp_stream::{Sink, Source};
use gp_summed::{Verified, verify_summed};
use gp_verify::{CheckFault, VerifyFault};
use std::alloc::{AllocError, Global};
use std::io::{Read, Write};

/// Writes what became of ports and units behind what was found of a trace, where that is told.
fn write_units<W: Write>(
    sink: &mut Sink<W>,
    found: Result<u64, CheckFault>,
    units: Option<Result<Vec<u8>, AllocError>>,
) -> Result<u64, CheckFault>
    ensures { WritesUnits units found sink.old sink.new result }
{
    let fault = match units {
        None => return found,
        Some(Err(AllocError)) => Unanswered::OutOfMemory,
        Some(Ok(text)) => match sink.write_whole(text.as_slice()) {
            Ok(()) => return found,
            Err(_) => Unanswered::Write,
        },
    };
    Err(CheckFault::Trace(VerifyFault::Lines(LinesFault::Line(fault))))
}

/// Tells whether a text is the trace of some run on the chassis that a script opens, as `gp_verify::verify_told` does,
/// and writes behind that what became of each port and unit, where the script and the trace were read.
///
/// What is answered is what that found, unless what became of ports and units could not be written, or memory for it
/// was refused: then `Write` or `OutOfMemory`, as of a line that could not be answered.
pub fn verify_with_units<R: Read, T: Read, W: Write>(
    alloc: Global,
    form: Form,
    at_least: Option<u64>,
    script: &mut Source<R>,
    trace: &mut Source<T>,
    sink: &mut Sink<W>,
) -> Result<u64, CheckFault>
    requires { sink.old.flushed ≡ true }
    ensures { VerifiesWithUnits form at_least script.old script.new trace.old trace.new sink.old sink.new result }
{
    let Verified { found, units } = verify_summed(alloc, form, at_least, script, trace, sink);
    write_units(sink, found, units)
}
