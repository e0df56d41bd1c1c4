//! A trace that is told again, and what was counted of its ports and units behind it or in its place.
ghost use Rattle.std.specs.Prelude.{◌≡◌, ◌⊎◌, [], IfOk, IsSome, OnErr, OnOk, Some};
ghost use Rattle.gp_explain.specs.Telling.{no_frames};
ghost use Rattle.gp_flow.specs.declared.fault.LinesFault.TheVariants.{Line};
ghost use Rattle.gp_flow.specs.declared.fault.Unanswered.TheVariants.{OutOfMemory};
ghost use Rattle.gp_machine.specs.Config.{max_ports};
ghost use Rattle.gp_summed.specs.Verifying.{summary_form};
ghost use Rattle.gp_with_units.specs.Behind.{TellsThen};
ghost use Rattle.gp_with_units.specs.Explaining.{ExplainsForSummary, ExplainsWithUnits, SumsTrace, told_with, trace_ended_by, untold};

use crate::behind::{write_text, written_out};
use gp_explain::{ExplainFault, Form, Telling};
use gp_flow::{LinesFault, Unanswered};
use gp_ploam::Mask;
use gp_stream::Source;
use gp_summary::SummaryForm;
use gp_summed::{Explained, HeardCodes, explain_summed, summary_form};
use gp_tally::{Began, Nowhere};
use gp_tell::{Began as TellingBegan, TellFault, Teller};
use std::alloc::{AllocError, Global};
use std::io::{Read, Write};
use std::marker::Brand;

/// What is found of a trace that is told.
#[derive(Drop)]
pub struct ToldTrace {
    /// How many lines there are, or why not all were told.
    pub lines: Result<u64, ExplainFault>,
    /// The codes that were heard of those that were told, where all was told that became of each port and unit.
    pub codes: Option<HeardCodes>,
}

/// A trace that was told, and the writer that it was written to.
#[derive(Drop)]
pub struct TraceWritten<W: Write> {
    /// What was found of it.
    pub told: ToldTrace,
    /// The writer.
    pub writer: W,
}

/// A trace of which not all was read and told, for this reason.
fn untold(fault: LinesFault) -> ToldTrace
    ensures { result ≡ untold fault }
{
    ToldTrace {
        lines: Err(ExplainFault::Lines(fault)),
        codes: None,
    }
}

/// A trace whose lines were told as this says, of which codes were heard, unless memory was refused for that.
fn told_with(lines: Result<u64, ExplainFault>, codes: Result<HeardCodes, AllocError>) -> ToldTrace
    ensures { result ≡ told_with lines codes }
{
    match codes {
        Ok(codes) => ToldTrace {
            lines,
            codes: Some(codes),
        },
        Err(AllocError) => untold(LinesFault::Line(Unanswered::OutOfMemory)),
    }
}

/// Writes what was counted of the lines that were told, also where one was none of a trace; where they were not read,
/// or not told, nothing.
fn write_counted<W: Write>(
    lines: Result<u64, ExplainFault>,
    codes: Result<HeardCodes, AllocError>,
    summary: Result<Vec<u8>, AllocError>,
    writer: &mut W,
) -> ToldTrace
    ensures { SumsTrace lines codes summary (W.contents writer.old) (W.contents writer.new) result }
{
    if let Err(ExplainFault::Lines(fault)) = lines {
        return untold(fault);
    }
    let Ok(text) = summary else {
        return untold(LinesFault::Line(Unanswered::OutOfMemory));
    };
    match write_text(writer, text.as_slice()) {
        Ok(()) => told_with(lines, codes),
        Err(_) => untold(LinesFault::Line(Unanswered::Write)),
    }
}

/// How telling a trace ends whose teller had a fault.
fn ended_by(fault: TellFault, lines: Result<u64, ExplainFault>) -> ToldTrace
    ensures { result ≡ trace_ended_by fault lines }
{
    match fault {
        TellFault::OutOfMemory => untold(LinesFault::Line(Unanswered::OutOfMemory)),
        TellFault::Write => match lines {
            Err(ExplainFault::Lines(fault)) => untold(fault),
            Ok(_) | Err(ExplainFault::Refused { .. }) => {
                untold(LinesFault::Line(Unanswered::Write))
            }
        },
    }
}

/// Has a teller write out what it told of a trace, and writes behind that what was counted.
fn end_told<T: TellingBegan, W: Write + Drop>(
    lines: Result<u64, ExplainFault>,
    codes: Result<HeardCodes, AllocError>,
    summary: Result<Vec<u8>, AllocError>,
    teller: Teller<T, W>,
) -> TraceWritten<W>
    ensures { TellsThen T.manner teller (SumsTrace lines codes summary)
        (λ fault. trace_ended_by fault lines) T.held (W.contents result.writer) result.told }
{
    let (told, writer) = written_out(teller);
    match told {
        Ok(()) => {
            let mut writer = writer;
            let told = write_counted(lines, codes, summary, &mut writer);
            TraceWritten { told, writer }
        }
        Err(fault) => {
            let told = ended_by(fault, lines);
            TraceWritten { told, writer }
        }
    }
}

/// Tells the lines of a trace by a teller, and then what was counted of them.
fn explain_by<B: Began, T: TellingBegan, S: Read, W: Write + Drop>(
    alloc: Global,
    form: SummaryForm,
    mask: Mask,
    telling: Telling,
    source: &mut Source<S>,
    writer: W,
) -> Result<TraceWritten<W>, AllocError>
    requires held { B.held ≡ Some [] }
    requires mask { B.mask ≡ mask }
    requires ports { B.ports ≡ max_ports }
    requires manner { telling ≡ T.manner }
    requires under { T.manner.mask ≡ mask }
    requires below { W.contents writer ≡ T.held }
    ensures explains { IfOk result (λ written. ExplainsWithUnits S W form T.manner source.old source.new
        T.held (W.contents written.writer) written.told) }
    ensures unread { OnErr result (source.new ≡ source.old) }
{
    let teller = Teller::<T, W>::new(alloc, telling, writer)?;
    let Explained {
        told,
        summary,
        codes,
        counting,
    } = explain_summed::<B, S, Teller<T, W>>(alloc, mask, form, source, teller)?;
    counting.passed_on();
    let (teller, _) = counting.into_parts();
    Ok(end_told(told, codes, summary, teller))
}

/// Does so by a teller that tells as this says.
fn explain_told<T: TellingBegan, S: Read, W: Write + Drop>(
    alloc: Global,
    form: SummaryForm,
    mask: Mask,
    telling: Telling,
    source: &mut Source<S>,
    writer: W,
) -> Result<TraceWritten<W>, AllocError>
    requires manner { telling ≡ T.manner }
    requires under { T.manner.mask ≡ mask }
    requires below { W.contents writer ≡ T.held }
    ensures explains { IfOk result (λ written. ExplainsWithUnits S W form T.manner source.old source.new
        T.held (W.contents written.writer) written.told) }
    ensures unread { OnErr result (source.new ≡ source.old) }
{
    explain_by::<Brand, T, S, W>(alloc, form, mask, telling, source, writer)
}

/// Tells the lines of a trace in this form, with the times of ports if that is wanted, up to the first that is none of
/// a trace, and then what was counted of them: what became of each port and unit, as they were heard. It answers how
/// many lines there are, or why not all were told, and how many codes can't be read, where all was told.
///
/// Memory is taken as `gp_summed::explain_summed` takes it, and for what is told of a line. Where that is refused at
/// the beginning, an error is answered, and nothing was read and nothing written.
pub fn explain_with_units<S: Read, W: Write + Drop>(
    alloc: Global,
    mask: Mask,
    form: Form,
    timed: bool,
    source: &mut Source<S>,
    writer: W,
) -> Result<TraceWritten<W>, AllocError>
    ensures explains { IfOk result (λ written. ExplainsWithUnits S W (summary_form form)
        (record { mask = mask; form = form; timed = timed; frames = no_frames }) source.old source.new
        (W.contents writer) (W.contents written.writer) written.told) }
    ensures heard { IfOk result (λ written. OnOk written.told.lines (IsSome written.told.codes)) }
    ensures unread { OnErr result (source.new ≡ source.old) }
{
    let telling = Telling::new(alloc, mask, form, timed);
    explain_told::<Brand, S, W>(alloc, summary_form(form), mask, telling, source, writer)
}

/// Counts the lines of a trace, which go through a writer, and writes what was counted of them alone to another.
fn explain_unwritten<B: Began, S: Read, T: Write + Drop, W: Write>(
    alloc: Global,
    form: SummaryForm,
    mask: Mask,
    source: &mut Source<S>,
    lines: T,
    writer: &mut W,
) -> ToldTrace
    requires held { T.contents lines ≡ B.held }
    requires mask { B.mask ≡ mask }
    requires ports { B.ports ≡ max_ports }
    ensures { ((result ≡ untold (Line OutOfMemory)) × (source.new ≡ source.old) × (writer.new ≡ writer.old))
        ⊎ ExplainsForSummary S T form mask source.old source.new (W.contents writer.old)
        (W.contents writer.new) result }
{
    match explain_summed::<B, S, T>(alloc, mask, form, source, lines) {
        Ok(explained) => {
            let Explained {
                told,
                summary,
                codes,
                counting: _,
            } = explained;
            write_counted(told, codes, summary, writer)
        }
        Err(AllocError) => untold(LinesFault::Line(Unanswered::OutOfMemory)),
    }
}

/// Counts the lines of a trace, up to the first that is none of a trace, and writes what was counted of them alone, in
/// the form that goes with traces in this one. Where memory is refused, `OutOfMemory` is answered: before anything is
/// read, or for what was counted, and then nothing is written. Where a write fails, `Write` is, and a prefix is written.
pub fn explain_for_summary<S: Read, W: Write>(
    alloc: Global,
    mask: Mask,
    form: Form,
    source: &mut Source<S>,
    writer: &mut W,
) -> ToldTrace
    ensures explains { ((result ≡ untold (Line OutOfMemory)) × (source.new ≡ source.old) × (writer.new ≡ writer.old))
        ⊎ ExplainsForSummary S Nowhere (summary_form form) mask source.old source.new
        (W.contents writer.old) (W.contents writer.new) result }
    ensures heard { OnOk result.lines (IsSome result.codes) }
{
    explain_unwritten::<Brand, S, Nowhere, W>(
        alloc,
        summary_form(form),
        mask,
        source,
        Nowhere,
        writer,
    )
}
