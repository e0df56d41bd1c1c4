//! A trace that is verified while its entries are counted.
ghost use Rattle.std.specs.Prelude.{◌≡◌, ℕ, List, None, Ok, Err, [], IfOk, IfErr, IfSome, is_some, length, true};
ghost use Rattle.gp_flow.specs.declared.fault.Unanswered.TheVariants as unanswered;
ghost use Rattle.gp_flow.specs.declared.fault.LinesFault.TheVariants.{Line};
ghost use Rattle.gp_script.specs.Playable.{IsPlayable};
ghost use Rattle.gp_script.specs.Script.{script_of};
ghost use Rattle.gp_script.specs.View.{script_view};
ghost use Rattle.gp_replay.specs.Chassis.{opening_play};
ghost use Rattle.gp_replay.specs.Outcome.{ReadsBy};
ghost use Rattle.gp_verify.specs.declared.outcome.VerifyFault.TheVariants.{Lines};
ghost use Rattle.gp_verify.specs.Checking.{ChecksTrace, IsNoScript};
ghost use Rattle.gp_verify.specs.Ending.{ChecksTold, was_read as spec_was_read};
ghost use Rattle.gp_verify.specs.Outcome.{RunsVerify, Writes};
ghost use Rattle.gp_summed.specs.Verifying.{CountingVerifyState, AreUnits, CountsText, SumsCheck, TellsPlay, summary_form};

use crate::counting_verifier::CountingVerifier;
use crate::opening::Opening;
use crate::reach::{push_reach, summary_form};
use gp_explain::Form;
use gp_flow::run_lines;
use gp_licence::MAX_LICENCES;
use gp_replay::RunFault;
use gp_script::{Script, read_script};
use gp_stream::{Sink, Source, read_all};
use gp_summary::chassis_summary;
use gp_tally::Counter;
use gp_verify::{CheckFault, VerifyFault, finding, open_verify, tell_end, was_read};
use std::alloc::{AllocError, Global};
use std::io::{Read, Write};
use std::marker::Brand;
use std::sync::ledger::{Blank, Ledger};

/// What was found of a trace, and what became of each port and unit in it.
#[derive(Drop)]
pub struct Verified {
    /// How many lines it has, or why it is no run.
    pub found: Result<u64, CheckFault>,
    /// The lines that tell of ports and units, an error where memory was refused for them, or nothing where the script
    /// or the trace was not read.
    pub units: Option<Result<Vec<u8>, AllocError>>,
}

/// The same before anything is told at the end.
#[derive(Drop)]
struct JudgedTrace {
    found: Result<u64, VerifyFault>,
    units: Option<Result<Vec<u8>, AllocError>>,
}

/// Judges a text to its end, or to the first line that can't be, and counts its entries.
fn run_counted<B: Opening, L: Ledger, R: Read, W: Write>(
    alloc: Global,
    source: &mut Source<R>,
    sink: &mut Sink<W>,
    counting: &mut CountingVerifier<B, L>,
) -> Result<u64, VerifyFault>
    requires begins { counting.old.verify.ended ≡ None }
    requires first { counting.old.verify.lines ≡ 0 }
    requires nothing { counting.old.counter.taken ≡ [] }
    requires flushed { sink.old.flushed ≡ true }
    ensures runs { RunsVerify counting.old.verify counting.new.verify source.old source.new sink.old sink.new
        result }
    ensures counts { CountsText counting.old.verify counting.new.verify source.old source.new result
        counting.new.counter.taken }
{
    counting.verifier().stands();
    let end = run_lines(alloc, source, sink, counting)?;
    let found = counting.verifier().ended();
    finding(end, found, counting.verifier().lines())
}

/// Gives what became of each port and unit by then.
fn units_of<B: Opening, L: Ledger>(
    alloc: Global,
    form: Form,
    licences: u32,
    found: &Result<u64, VerifyFault>,
    counting: &CountingVerifier<B, L>,
) -> Result<Vec<u8>, AllocError>
    ensures { IfOk result (λ text. TellsPlay (summary_form form) B.mask B.start counting.now.verify.play B.ports
        licences found.now counting.now.counter.taken text.items) }
{
    let form = summary_form(form);
    let mut text = Vec::new(alloc);
    push_reach(&mut text, form, found)?;
    let counter = counting.counter();
    let summary = chassis_summary(alloc, form, counting.player(), counter, licences)?;
    text.extend_from_slice(summary.as_slice())?;
    Ok(text)
}

/// Judges a text on the chassis of a script, which was opened.
fn judge_on<B: Opening, L: Ledger, T: Read, W: Write>(
    alloc: Global,
    form: Form,
    licences: u32,
    counting: CountingVerifier<B, L>,
    trace: &mut Source<T>,
    sink: &mut Sink<W>,
) -> JudgedTrace
    requires begins { counting.verify.ended ≡ None }
    requires first { counting.verify.lines ≡ 0 }
    requires nothing { counting.counter.taken ≡ [] }
    requires flushed { sink.old.flushed ≡ true }
    ensures there { is_some result.units ≡ spec_was_read result.found }
    ensures ends { (end : CountingVerifyState)
        × RunsVerify counting.verify end.verify trace.old trace.new sink.old sink.new result.found
        × CountsText counting.verify end.verify trace.old trace.new result.found end.counter.taken
        × IfSome result.units (λ told. IfOk told (λ text. TellsPlay (summary_form form) B.mask B.start end.verify.play
        B.ports licences result.found end.counter.taken text.items)) }
{
    let mut counting = counting;
    let found = run_counted(alloc, trace, sink, &mut counting);
    let units = if was_read(&found) {
        Some(units_of(alloc, form, licences, &found, &counting))
    } else {
        None
    };
    counting.close();
    JudgedTrace { found, units }
}

/// A text that was not judged for want of memory.
fn unjudged() -> JudgedTrace
    ensures found { result.found ≡ Err (Lines (Line unanswered.OutOfMemory)) }
    ensures units { result.units ≡ None }
{
    JudgedTrace {
        found: Err(VerifyFault::from(AllocError)),
        units: None,
    }
}

/// Judges a text on the chassis of a script that was read, whose ledger is the blank.
fn sum_on<B: Opening, L: Ledger, T: Read, W: Write>(
    alloc: Global,
    form: Form,
    blank: Blank,
    script: Script,
    trace: &mut Source<T>,
    sink: &mut Sink<W>,
) -> JudgedTrace
    requires name { blank.name ≡ L.name }
    requires parts { (blank.parts ≡ L.parts) × (L.parts ≡ MAX_LICENCES) }
    requires playable { IsPlayable (script_view script) }
    requires start { B.start ≡ opening_play (script_view script) }
    requires mask { B.mask ≡ script.mask }
    requires ports { B.ports ≡ length script.ports.items }
    requires flushed { sink.old.flushed ≡ true }
    ensures checks { (told : List ℕ) × ChecksTrace form trace.old trace.new told result.found (script_view script)
        × Writes sink.old sink.new told result.found }
    ensures units { AreUnits form (script_view script) trace.old trace.new result.found result.units }
{
    let licences = script.licences;
    let Ok(counter) = Counter::new(alloc, script.mask, script.ports.len()) else {
        return unjudged();
    };
    match open_verify::<L>(alloc, form, blank, script) {
        Ok(verifier) => {
            let counting = CountingVerifier::<B, L>::new(verifier, counter);
            judge_on(alloc, form, licences, counting, trace, sink)
        }
        Err(AllocError) => unjudged(),
    }
}

/// Judges a text on the chassis of a script that was read.
fn sum_script<B: Opening, T: Read, W: Write>(
    alloc: Global,
    form: Form,
    script: Script,
    trace: &mut Source<T>,
    sink: &mut Sink<W>,
) -> JudgedTrace
    requires playable { IsPlayable (script_view script) }
    requires start { B.start ≡ opening_play (script_view script) }
    requires mask { B.mask ≡ script.mask }
    requires ports { B.ports ≡ length script.ports.items }
    requires flushed { sink.old.flushed ≡ true }
    ensures checks { (told : List ℕ) × ChecksTrace form trace.old trace.new told result.found (script_view script)
        × Writes sink.old sink.new told result.found }
    ensures units { AreUnits form (script_view script) trace.old trace.new result.found result.units }
{
    let blank = Blank::new(u64::from(MAX_LICENCES));
    sum_on::<B, Brand, T, W>(alloc, form, blank, script, trace, sink)
}

/// Reads a script.
fn script_in<R: Read>(alloc: Global, source: &mut Source<R>) -> Result<Script, RunFault>
    ensures playable { IfOk result (λ script. IsPlayable (script_view script)) }
    ensures read { IfOk result (λ script. ReadsBy script_of source.old source.new (Ok (script_view script))) }
    ensures unread { IfErr result (IsNoScript source.old source.new) }
{
    let bytes = read_all(alloc, source)?;
    Ok(read_script(alloc, bytes.as_slice())?)
}

/// Tells whether a text is the trace of some run on the chassis that a script opens, as `verify_told` does, and what
/// became of each port and unit in it, by a line, or an object, each: what was counted of the entries, and how ports,
/// units and licences stand behind the last one. Of a trace that is no run the entries are those of the lines before
/// the first that can't be, and the machine's own in the place of that one, where it names an event and a port; a line
/// before the others says so.
///
/// Memory for the counts is taken before the first line, and then only where a unit is heard for the first time. Where
/// that is refused, the trace is still judged.
pub fn verify_summed<R: Read, T: Read, W: Write>(
    alloc: Global,
    form: Form,
    at_least: Option<u64>,
    script: &mut Source<R>,
    trace: &mut Source<T>,
    sink: &mut Sink<W>,
) -> Verified
    requires { sink.old.flushed ≡ true }
    ensures told { ChecksTold form at_least script.old script.new trace.old trace.new sink.old sink.new result.found }
    ensures units { SumsCheck form script.old script.new trace.old trace.new result.found result.units }
{
    match script_in(alloc, script) {
        Ok(read) => {
            let JudgedTrace { found, units } = sum_script::<Brand, T, W>(
                alloc, form, read, trace, sink,
            );
            let told = tell_end(sink, form, at_least, found);
            Verified {
                found: told.map_err(CheckFault::from),
                units,
            }
        }
        Err(fault) => Verified {
            found: Err(CheckFault::Script(fault)),
            units: None,
        },
    }
}
