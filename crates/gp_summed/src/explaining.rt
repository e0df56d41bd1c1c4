//! A trace that is told again while its lines are counted and heard.
ghost use Rattle.std.specs.Prelude.{◌≡◌, ◌≤◌, List, IfOk, OnErr, length};
ghost use Rattle.gp_machine.specs.Config.{max_ports};
ghost use Rattle.gp_audit.specs.Port.{PortState};
ghost use Rattle.gp_summary.specs.Heard.{TellsHeard};
ghost use Rattle.gp_summed.specs.Codes.{codes_of};
ghost use Rattle.gp_summed.specs.Explaining.{ExplainsSummed, HasCodes};
ghost use Rattle.gp_summed.specs.Hearing.{AreHeard};

use crate::codes::{HeardCodes, codes_of};
use crate::hearer::Hearer;
use crate::hearing::Hearing;
use gp_explain::{ExplainFault, Form, Telling, explain_trace};
use gp_lines::PORTS;
use gp_ploam::Mask;
use gp_stream::{Sink, Source};
use gp_summary::{SummaryForm, heard_summary};
use gp_tally::{Began, Counter, Counting};
use std::alloc::{AllocError, Global};
use std::io::{Read, Write};

/// A trace that was told again, as far as its lines are those of a trace, and the writer that they went to.
#[derive(Drop)]
pub struct Explained<B: Began, W: Write> {
    /// How many lines there are, or why not all were told.
    pub told: Result<u64, ExplainFault>,
    /// The lines of what was counted and heard of those that were told, or an error where memory was refused.
    pub summary: Result<Vec<u8>, AllocError>,
    /// How many of their codes can't be read, or an error where memory for what was heard was refused.
    pub codes: Result<HeardCodes, AllocError>,
    /// The writer, with its counter.
    pub counting: Counting<B, W>,
}

/// Gives the lines of what was counted and heard, unless memory was refused for either.
fn summary_of(
    alloc: Global,
    form: SummaryForm,
    counter: &Counter,
    hearer: &Hearer,
) -> Result<Vec<u8>, AllocError>
    requires { length counter.now.ports ≤ max_ports }
    ensures { IfOk result (λ text. (ports : List PortState) × AreHeard hearer.now.mask hearer.now.taken ports
        × TellsHeard form counter.now.mask counter.now.taken (length counter.now.ports) ports text.items) }
{
    let listener = hearer.listener()?;
    heard_summary(alloc, form, counter, listener)
}

/// Gives how many codes can't be read, unless memory was refused for what was heard.
fn heard_codes(hearer: &Hearer) -> Result<HeardCodes, AllocError>
    ensures { IfOk result (λ codes. (ports : List PortState) × AreHeard hearer.now.mask hearer.now.taken ports
        × (codes ≡ codes_of ports max_ports)) }
{
    Ok(codes_of(hearer.listener()?))
}

/// Writes the lines of a trace again as they are, up to the first that is none of a trace, to a writer that passes them
/// on, and tells what was counted of them, of each port of which one tells and of its units, and how the units stand by
/// what was heard on the fibre. Memory is flat in the length of the trace.
///
/// Memory for the counts, for what is heard and for the sink is taken first; then only where a unit is heard for the
/// first time, and where a line comes in two pieces. Where that is refused, the lines are still written, and there is
/// no summary. An error is answered where nothing was read.
pub fn explain_summed<B: Began, R: Read, W: Write + Drop>(
    alloc: Global,
    mask: Mask,
    form: SummaryForm,
    source: &mut Source<R>,
    writer: W,
) -> Result<Explained<B, W>, AllocError>
    requires held { W.contents writer ≡ B.held }
    requires mask { B.mask ≡ mask }
    requires ports { B.ports ≡ max_ports }
    ensures explained { IfOk result (λ explained.
        ExplainsSummed form mask source.old source.new explained.counting explained.told explained.summary) }
    ensures codes { IfOk result (λ explained. HasCodes mask explained.counting.counter.taken explained.codes) }
    ensures unread { OnErr result (source.new ≡ source.old) }
{
    let counter = Counter::new(alloc, mask, PORTS)?;
    let hearer = Hearer::new(alloc, mask)?;
    let hearing = Hearing::new(Counting::<B, W>::new(counter, writer), hearer);
    let mut sink = Sink::new(alloc, hearing)?;
    let telling = Telling::new(alloc, mask, Form::Plain, false);
    let told = explain_trace(alloc, telling, source, &mut sink);
    let (counting, hearer) = sink.into_inner().into_parts();
    let summary = summary_of(alloc, form, counting.counter(), &hearer);
    let codes = heard_codes(&hearer);
    Ok(Explained {
        told,
        summary,
        codes,
        counting,
    })
}
