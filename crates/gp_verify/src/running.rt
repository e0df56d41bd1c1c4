//! A text judged to its end, or to the first line that can't be.
ghost use Rattle.std.specs.Prelude.{◌≡◌, None, true};
ghost use Rattle.gp_verify.specs.Outcome.{RunsVerify, finding};

use super::outcome::VerifyFault;
use super::verdict::Verdict;
use super::verifier::Verifier;
use gp_flow::{LinesEnd, run_lines};
use gp_stream::{Sink, Source};
use std::alloc::Global;
use std::io::{Read, Write};
use std::sync::ledger::Ledger;

/// Tells whether a text is the trace of some run, from where the verifier stands, and how many lines it has. It is
/// read to its end, or to the first line that can't be, and a little further.
///
/// Of the first line that can't be, if it is not too long, its number and text are written to the sink, and where
/// its answer or its number is another, what the machine says in its place. Of a run nothing is written.
pub fn run_verify<L: Ledger, R: Read, W: Write>(
    alloc: Global,
    source: &mut Source<R>,
    sink: &mut Sink<W>,
    verifier: &mut Verifier<L>,
) -> Result<u64, VerifyFault>
    requires begins { verifier.old.ended ≡ None }
    requires first { verifier.old.lines ≡ 0 }
    requires flushed { sink.old.flushed ≡ true }
    ensures { RunsVerify verifier.old verifier.new source.old source.new sink.old sink.new result }
{
    verifier.stands();
    let end = run_lines(alloc, source, sink, verifier)?;
    let found = verifier.ended();
    finding(end, found, verifier.lines())
}

/// What was found by the verdict that ended a verification, if one did, where the text was read so far and so many
/// lines were judged.
pub fn finding(end: LinesEnd, found: Option<Verdict>, line: u64) -> Result<u64, VerifyFault>
    ensures { result ≡ finding end found line }
{
    if let Some(verdict) = found {
        return Err(VerifyFault::Refused { line, verdict });
    }
    match end {
        LinesEnd::Open => Err(VerifyFault::Unended { line }),
        LinesEnd::Whole | LinesEnd::Over => Ok(line),
    }
}
