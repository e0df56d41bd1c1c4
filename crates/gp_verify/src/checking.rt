//! A text judged against the chassis of a script.
ghost use Rattle.std.specs.Prelude.{◌≡◌, ℕ, List, IfOk, true};
ghost use Rattle.gp_script.specs.Playable.{IsPlayable};
ghost use Rattle.gp_script.specs.View.{script_view};
ghost use Rattle.gp_verify.specs.Checking.{Checks, ChecksIn, ChecksTrace, opened_by};
ghost use Rattle.gp_verify.specs.Ending.{ChecksTold, as_checked};
ghost use Rattle.gp_verify.specs.Outcome.{Writes};

use super::ending::tell_end;
use super::outcome::{CheckFault, VerifyFault};
use super::running::run_verify;
use super::typed::configs_are_typed;
use super::verifier::Verifier;
use gp_explain::Form;
use gp_licence::MAX_LICENCES;
use gp_replay::{Opened, open_chassis};
use gp_script::Script;
use gp_stream::{Sink, Source};
use std::alloc::{AllocError, Global};
use std::io::{Read, Write};
use std::marker::Brand;
use std::sync::ledger::{Blank, Ledger};

/// Opens the chassis of a script that was read, before the first line, where the line that can't be is to be told in
/// this form. `blank` is a new ledger of `MAX_LICENCES` parts, made by `Blank::new`, and `L` its name.
pub fn open_verify<L: Ledger>(
    alloc: Global,
    form: Form,
    blank: Blank,
    script: Script,
) -> Result<Verifier<L>, AllocError>
    requires name { blank.name ≡ L.name }
    requires parts { (blank.parts ≡ L.parts) × (L.parts ≡ MAX_LICENCES) }
    requires playable { IsPlayable (script_view script) }
    ensures { IfOk result (λ verifier. verifier ≡ opened_by form (script_view script)) }
{
    configs_are_typed(script.ports.as_slice());
    let Opened {
        player,
        buffer,
        mask,
        events: _,
    } = open_chassis::<L>(alloc, blank, script)?;
    Ok(Verifier::<L>::on(alloc, form, player, buffer, mask))
}

/// Tells whether a text is the trace of a run on the chassis of a script that was read, whose ledger is the blank.
fn verify_on<L: Ledger, T: Read, W: Write>(
    alloc: Global,
    form: Form,
    blank: Blank,
    script: Script,
    trace: &mut Source<T>,
    sink: &mut Sink<W>,
) -> Result<u64, VerifyFault>
    requires name { blank.name ≡ L.name }
    requires parts { (blank.parts ≡ L.parts) × (L.parts ≡ MAX_LICENCES) }
    requires playable { IsPlayable (script_view script) }
    requires flushed { sink.old.flushed ≡ true }
    ensures { (told : List ℕ) × ChecksTrace form trace.old trace.new told result (script_view script)
        × Writes sink.old sink.new told result }
{
    let mut verifier = open_verify::<L>(alloc, form, blank, script)?;
    let found = run_verify(alloc, trace, sink, &mut verifier);
    verifier.close();
    found
}

/// Tells whether a text is the trace of some run on the chassis that a script opens, of turns of one actor, with any
/// free ONU-IDs and Alloc-IDs, and how many lines it has. Of the script its ports, licences and mask count; its
/// events and units are passed over.
///
/// Of the first line that can't be, if it is not too long, its number and text are written to the sink, and where its
/// answer or its number is another, what the machine says in its place, and why. Of a run nothing is written. The
/// script is read to its end, at most 1,048,576 bytes; the trace without bound, to its end or to the first line that
/// can't be, and a little further.
pub fn verify_script<R: Read, T: Read, W: Write>(
    alloc: Global,
    script: &mut Source<R>,
    trace: &mut Source<T>,
    sink: &mut Sink<W>,
) -> Result<u64, CheckFault>
    requires { sink.old.flushed ≡ true }
    ensures { Checks script.old script.new trace.old trace.new sink.old sink.new result }
{
    verify_script_in(alloc, Form::Plain, script, trace, sink)
}

/// The same, where the line that can't be is told in this form: as it is, with the codes of both lines in words, or as
/// a JSON object.
fn verify_script_in<R: Read, T: Read, W: Write>(
    alloc: Global,
    form: Form,
    script: &mut Source<R>,
    trace: &mut Source<T>,
    sink: &mut Sink<W>,
) -> Result<u64, CheckFault>
    requires { sink.old.flushed ≡ true }
    ensures { ChecksIn form script.old script.new trace.old trace.new sink.old sink.new result }
{
    let bytes = gp_stream::read_all(alloc, script)?;
    let read = gp_script::read_script(alloc, bytes.as_slice())?;
    let blank = Blank::new(u64::from(MAX_LICENCES));
    let lines = verify_on::<Brand, T, W>(alloc, form, blank, read, trace, sink)?;
    Ok(lines)
}

/// What was found of a trace, where a script was to be read first.
fn as_checked(told: Result<u64, VerifyFault>) -> Result<u64, CheckFault>
    ensures { result ≡ as_checked told }
{
    match told {
        Ok(lines) => Ok(lines),
        Err(fault) => Err(CheckFault::Trace(fault)),
    }
}

/// The same, and all is told that `oltctl verify` writes to standard output: of a run of as many lines as are asked for
/// at least, and else of one line, that it is one; of one of fewer lines, as JSON, how many came. What was found is
/// answered, or that the sink took no more.
pub fn verify_told<R: Read, T: Read, W: Write>(
    alloc: Global,
    form: Form,
    at_least: Option<u64>,
    script: &mut Source<R>,
    trace: &mut Source<T>,
    sink: &mut Sink<W>,
) -> Result<u64, CheckFault>
    requires { sink.old.flushed ≡ true }
    ensures { ChecksTold form at_least script.old script.new trace.old trace.new sink.old sink.new result }
{
    match verify_script_in(alloc, form, script, trace, sink) {
        Ok(lines) => as_checked(tell_end(sink, form, at_least, Ok(lines))),
        Err(CheckFault::Trace(fault)) => as_checked(tell_end(sink, form, at_least, Err(fault))),
        Err(CheckFault::Script(fault)) => Err(CheckFault::Script(fault)),
    }
}
