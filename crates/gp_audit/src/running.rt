//! From the bytes of a log to what is told of it: each line's findings are out before more is waited for.
ghost use Rattle.std.specs.Prelude.{◌≡◌, true};
ghost use Rattle.gp_audit.specs.Outcome.{AuditsLog};

use crate::auditor::Auditor;
use gp_finding::AuditSum;
use gp_flow::{LinesFault, run_lines};
use gp_stream::{Sink, Source};
use std::alloc::Global;
use std::io::{Read, Write};

/// Audits the lines of a log as they come, tells at the end what was heard of each unit, where that is wanted, and how
/// many lines there were, and answers that. What is said to a line is out before more is waited for. Memory follows how
/// many serial numbers are heard, at most 4,096 a port.
///
/// An auditor that was given lines before goes on from there.
pub fn audit_log<R: Read, W: Write>(
    alloc: Global,
    source: &mut Source<R>,
    sink: &mut Sink<W>,
    auditor: &mut Auditor,
) -> Result<AuditSum, LinesFault>
    requires { sink.old.flushed ≡ true }
    ensures { AuditsLog auditor.old auditor.new source.old source.new sink.old sink.new result }
{
    run_lines(alloc, source, sink, auditor)?;
    auditor.tell_end(sink)?;
    Ok(auditor.sum())
}
