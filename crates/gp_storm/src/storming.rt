//! A script that was read, run as a storm, and its five totals, as lines or as an object.
ghost use Rattle.std.specs.Prelude.{◌≡◌, ◌+◌, IfErr, IfOk};
ghost use Rattle.std.specs.String.{string_bytes};
ghost use Rattle.gp_script.specs.Playable.{IsPlayable};
ghost use Rattle.gp_script.specs.Script.{storm_script_of};
ghost use Rattle.gp_script.specs.View.{script_view};
ghost use Rattle.gp_replay.specs.Outcome.{RunEnds, RunReads, RunWrites};
ghost use Rattle.gp_storm.specs.Faults.{IsOfStorm};
ghost use Rattle.gp_storm.specs.Outcome.{LeavesStorm, LeavesStormIn};
ghost use Rattle.gp_storm.specs.Totals.{AreTotalsIn, totals_in, totals_object, totals_text};

use super::form::TotalsForm;
use super::plan::plan_of;
use super::rounds::{Counted, storm_in_rounds};
use gp_chassis::ChassisConfig;
use gp_licence::MAX_LICENCES;
use gp_replay::RunFault;
use gp_script::Script;
use gp_stream::{Sink, Source};
use gp_workers::Totals;
use std::alloc::{AllocError, Global};
use std::io::{Read, Write};
use std::marker::Brand;
use std::sync::Wait;
use std::sync::ledger::{Blank, Ledger};
use std::thread::Threads;

/// Makes the five lines of what a storm adds up to.
fn lines_of(alloc: Global, counted: &Counted) -> Result<String, AllocError>
    ensures { IfOk result (λ text. let totals = counted.now.totals in
        string_bytes text ≡ totals_text totals (totals.frames + totals.bursts + totals.commands) counted.now.licences) }
{
    let Totals {
        frames,
        bursts,
        commands,
        ..
    } = counted.totals;
    // Each is a count of its own, and three of 64 bits need not fit into 64.
    let entries = u128::from(frames) + u128::from(bursts) + u128::from(commands);
    let licences = counted.licences;
    format!(in alloc;
        "frames {frames}\nbursts {bursts}\ncommands {commands}\nentries {entries}\nlicences {licences}\n"
    )
}

/// Makes the object of what a storm adds up to.
fn object_of(alloc: Global, counted: &Counted) -> Result<String, AllocError>
    ensures { IfOk result (λ text. let totals = counted.now.totals in string_bytes text
        ≡ totals_object totals (totals.frames + totals.bursts + totals.commands) counted.now.licences) }
{
    let Totals {
        frames,
        bursts,
        commands,
        ..
    } = counted.totals;
    let entries = u128::from(frames) + u128::from(bursts) + u128::from(commands);
    let licences = counted.licences;
    format!(in alloc;
        "{{\"frames\":{frames},\"bursts\":{bursts},\"commands\":{commands},\"entries\":{entries},\"licences\":{licences}}}\n"
    )
}

/// Makes the text of what a storm adds up to, in this form.
fn text_of(alloc: Global, form: TotalsForm, counted: &Counted) -> Result<String, AllocError>
    ensures { IfOk result (λ text. let totals = counted.now.totals in string_bytes text
        ≡ totals_in form totals (totals.frames + totals.bursts + totals.commands) counted.now.licences) }
{
    match form {
        TotalsForm::Lines => lines_of(alloc, counted),
        TotalsForm::Object => object_of(alloc, counted),
    }
}

/// Runs the storm of a script on a chassis of its own, whose ledger is the blank, and gives the text of its totals,
/// in this form.
#[tactic(auto, using(crate::proofs::TotalsLemmas::totals_told))]
fn storm_of<L: Ledger + Send + Sync, R: Threads + Wait + Sync>(
    rt: &R,
    alloc: Global,
    form: TotalsForm,
    blank: Blank,
    script: Script,
) -> Result<String, RunFault>
    requires name { blank.name ≡ L.name }
    requires parts { (blank.parts ≡ L.parts) × (L.parts ≡ MAX_LICENCES) }
    requires playable { IsPlayable (script_view script) }
    ensures totals { IfOk result (λ text. AreTotalsIn form (script_view script) (string_bytes text)) }
    ensures fault { IfErr result IsOfStorm }
{
    let plan = plan_of(alloc, &script)?;
    let config = ChassisConfig {
        licences: script.licences,
        journal_limit: script.journal_limit,
        ports: script.ports,
    };
    let counted = storm_in_rounds::<L, R>(rt, alloc, blank, &config, &plan)?;
    Ok(text_of(alloc, form, &counted)?)
}

/// Reads a script to the end of the source, runs its bursts, frames and commands at once, by a feeder and a reader
/// for each port, a clock and an operator, each in a thread, and writes the totals of the chassis that was closed
/// then: five lines, `frames`, `bursts`, `commands`, `entries` and `licences`, each with its number.
///
/// It goes in rounds: a part of the bursts, frames and commands at once, and then the next one, so that memory follows
/// the script and not what it asks for. Nothing is written before all threads are joined and the chassis is closed.
/// `JournalFull` is answered where a port has more entries than its journal may keep, though it is cut between rounds.
/// Of several threads' faults the operator's is told, else that of the first reader by port, else the clock's.
/// `Mismatch` is answered where a thread was not started, for whatever cause, or where the chassis is not cut or
/// closed; of a script that was read its limits and its ports never are the cause, and no clause says so.
///
/// What the sink gathered before goes out first. Of a source with a failed read nothing is read, and `Read` is
/// answered. To a sink that has stopped nothing is written; any other fault still comes first, and else `Write` is
/// answered.
pub fn run_storm<R: Threads + Wait + Sync, S: Read, W: Write>(
    rt: &R,
    alloc: Global,
    source: &mut Source<S>,
    sink: &mut Sink<W>,
) -> Result<(), RunFault>
    ensures ends { RunEnds storm_script_of
        (LeavesStorm sink.old sink.new) source.old source.new sink.old sink.new result }
    ensures reads { RunReads storm_script_of source.old source.new result }
    ensures writes { RunWrites sink.old sink.new result }
{
    run_storm_in(rt, alloc, TotalsForm::Lines, source, sink)
}

/// Does so, and writes the totals in this form: as these five lines, or as one JSON object on a line of its own, whose
/// fields have the names of the lines.
pub fn run_storm_in<R: Threads + Wait + Sync, S: Read, W: Write>(
    rt: &R,
    alloc: Global,
    form: TotalsForm,
    source: &mut Source<S>,
    sink: &mut Sink<W>,
) -> Result<(), RunFault>
    ensures ends { RunEnds storm_script_of
        (LeavesStormIn form sink.old sink.new) source.old source.new sink.old sink.new result }
    ensures reads { RunReads storm_script_of source.old source.new result }
    ensures writes { RunWrites sink.old sink.new result }
{
    let bytes = gp_stream::read_all(alloc, source)?;
    let script = gp_script::read_storm_script(alloc, bytes.as_slice())?;
    let blank = Blank::new(u64::from(MAX_LICENCES));
    let text = storm_of::<Brand, R>(rt, alloc, form, blank, script)?;
    sink.write_whole(text.as_bytes())?;
    Ok(())
}
