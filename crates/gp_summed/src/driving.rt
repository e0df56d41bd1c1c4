//! A script that is driven while the lines of its entries are counted.
ghost use Rattle.std.specs.Prelude.{◌≡◌, ◌<◌, ◌↔◌, [], IfOk, IfSome, IsOk, OnErr, is_some, length, true};
ghost use Rattle.gp_script.specs.Playable.{IsPlayable};
ghost use Rattle.gp_script.specs.View.{script_view};
ghost use Rattle.gp_summary.specs.Summary.{IsFresh};
ghost use Rattle.gp_drive.specs.Outcome.{told};
ghost use Rattle.gp_summed.specs.Driving.{DrivesSummed, summary_if};

use gp_drive::{DriveFault, DriveManner, Driven, Drove, drive_chassis, drive_fibre};
use gp_flow::LinesFault;
use gp_licence::MAX_LICENCES;
use gp_script::Script;
use gp_stream::{Sink, Source};
use gp_summary::{SummaryForm, chassis_summary, fibre_summary};
use gp_tally::{Began, Counter, Counting};
use std::alloc::{AllocError, Global};
use std::io::{Read, Write};
use std::marker::Brand;
use std::sync::ledger::{Blank, Ledger};

/// How a drive ended, and its summary.
#[derive(Drop)]
pub struct DriveEnded {
    /// How many lines there were, or why not all were answered.
    pub driven: Result<Driven, DriveFault>,
    /// The lines that tell of ports and units, an error where memory was refused for them; nothing where not all lines
    /// were answered.
    pub summary: Option<Result<Vec<u8>, AllocError>>,
}

/// A drive that ended, and the writer that its answers went to.
#[derive(Drop)]
pub struct DriveSummed<B: Began, W: Write> {
    /// How it ended.
    pub ended: DriveEnded,
    /// The writer, with its counter.
    pub counting: Counting<B, W>,
}

/// What a drive comes to whose lines were answered so, and whose summary is this, where all were.
fn summed<B: Began, W: Write>(
    driven: Result<Driven, LinesFault>,
    summary: Result<Vec<u8>, AllocError>,
    counting: Counting<B, W>,
) -> DriveSummed<B, W>
    ensures driven { result.ended.driven ≡ told driven }
    ensures summary { result.ended.summary ≡ summary_if driven summary }
    ensures counting { result.counting ≡ counting }
{
    match driven {
        Ok(driven) => DriveSummed {
            ended: DriveEnded {
                driven: Ok(driven),
                summary: Some(summary),
            },
            counting,
        },
        Err(fault) => DriveSummed {
            ended: DriveEnded {
                driven: Err(DriveFault::Turns(fault)),
                summary: None,
            },
            counting,
        },
    }
}

/// Drives a script without simulated units.
fn sum_chassis<B: Began, L: Ledger, T: Read, W: Write + Drop>(
    alloc: Global,
    manner: DriveManner,
    blank: Blank,
    script: Script,
    form: SummaryForm,
    turns: &mut Source<T>,
    sink: Sink<Counting<B, W>>,
) -> DriveSummed<B, W>
    requires name { blank.name ≡ L.name }
    requires parts { (blank.parts ≡ L.parts) × (L.parts ≡ MAX_LICENCES) }
    requires playable { IsPlayable (script_view script) }
    requires no_units { script.units.items ≡ [] }
    requires mask { B.mask ≡ script.mask }
    requires ports { B.ports ≡ length script.ports.items }
    requires fresh { IsFresh sink }
    requires flushed { sink.flushed ≡ true }
    ensures drives { DrivesSummed form manner (script_view script) turns.old turns.new result.counting
        result.ended.driven result.ended.summary }
    ensures there { IsOk result.ended.driven ↔ (is_some result.ended.summary ≡ true) }
{
    let licences = script.licences;
    let mut sink = sink;
    let drove = drive_chassis::<L, T, Counting<B, W>>(
        alloc, manner, blank, script, turns, &mut sink,
    );
    let counting = sink.into_inner();
    match drove {
        Ok(Drove { player, driven }) => {
            let summary = chassis_summary(alloc, form, &player, counting.counter(), licences);
            player.close();
            summed(driven, summary, counting)
        }
        Err(fault) => DriveSummed {
            ended: DriveEnded {
                driven: Err(fault),
                summary: None,
            },
            counting,
        },
    }
}

/// Drives a script with simulated units.
fn sum_fibre<B: Began, L: Ledger, T: Read, W: Write + Drop>(
    alloc: Global,
    manner: DriveManner,
    blank: Blank,
    script: Script,
    form: SummaryForm,
    turns: &mut Source<T>,
    sink: Sink<Counting<B, W>>,
) -> DriveSummed<B, W>
    requires name { blank.name ≡ L.name }
    requires parts { (blank.parts ≡ L.parts) × (L.parts ≡ MAX_LICENCES) }
    requires playable { IsPlayable (script_view script) }
    requires units { 0 < length script.units.items }
    requires mask { B.mask ≡ script.mask }
    requires ports { B.ports ≡ length script.ports.items }
    requires fresh { IsFresh sink }
    requires flushed { sink.flushed ≡ true }
    ensures drives { DrivesSummed form manner (script_view script) turns.old turns.new result.counting
        result.ended.driven result.ended.summary }
    ensures there { IsOk result.ended.driven ↔ (is_some result.ended.summary ≡ true) }
{
    let licences = script.licences;
    let mut sink = sink;
    let drove = drive_fibre::<L, T, Counting<B, W>>(alloc, manner, blank, script, turns, &mut sink);
    let counting = sink.into_inner();
    match drove {
        Ok(Drove { player, driven }) => {
            let summary = fibre_summary(alloc, form, &player, counting.counter(), licences);
            player.close();
            summed(driven, summary, counting)
        }
        Err(fault) => DriveSummed {
            ended: DriveEnded {
                driven: Err(fault),
                summary: None,
            },
            counting,
        },
    }
}

/// Drives a script on a ledger of its own, which is the blank.
fn sum_on<B: Began, L: Ledger, T: Read, W: Write + Drop>(
    alloc: Global,
    manner: DriveManner,
    blank: Blank,
    script: Script,
    form: SummaryForm,
    turns: &mut Source<T>,
    sink: Sink<Counting<B, W>>,
) -> DriveSummed<B, W>
    requires name { blank.name ≡ L.name }
    requires parts { (blank.parts ≡ L.parts) × (L.parts ≡ MAX_LICENCES) }
    requires playable { IsPlayable (script_view script) }
    requires mask { B.mask ≡ script.mask }
    requires ports { B.ports ≡ length script.ports.items }
    requires fresh { IsFresh sink }
    requires flushed { sink.flushed ≡ true }
    ensures drives { DrivesSummed form manner (script_view script) turns.old turns.new result.counting
        result.ended.driven result.ended.summary }
    ensures there { IsOk result.ended.driven ↔ (is_some result.ended.summary ≡ true) }
{
    if script.units.is_empty() {
        sum_chassis::<B, L, T, W>(alloc, manner, blank, script, form, turns, sink)
    } else {
        sum_fibre::<B, L, T, W>(alloc, manner, blank, script, form, turns, sink)
    }
}

/// Drives a script as `drive_script` does, by a writer that passes the answers on, and tells at the end what was
/// counted of the lines of its entries, how each port and its units stand, and how many licences are free. Memory is
/// flat in the length of the drive.
///
/// Memory for the counts and for the sink is taken first, then only where a unit is heard for the first time. Where
/// that is refused, the lines are still answered, and there is no summary. An error is answered where nothing was done.
pub fn drive_summed<B: Began, T: Read, W: Write + Drop>(
    alloc: Global,
    manner: DriveManner,
    script: Script,
    form: SummaryForm,
    turns: &mut Source<T>,
    writer: W,
) -> Result<DriveSummed<B, W>, AllocError>
    requires playable { IsPlayable (script_view script) }
    requires held { W.contents writer ≡ B.held }
    requires mask { B.mask ≡ script.mask }
    requires ports { B.ports ≡ length script.ports.items }
    ensures drives { IfOk result (λ summed. DrivesSummed form manner (script_view script) turns.old turns.new
        summed.counting summed.ended.driven summed.ended.summary) }
    ensures there { IfOk result (λ summed. IsOk summed.ended.driven ↔ (is_some summed.ended.summary ≡ true)) }
    ensures idle { OnErr result (turns.new ≡ turns.old) }
{
    let counter = Counter::new(alloc, script.mask, script.ports.len())?;
    let sink = Sink::new(alloc, Counting::<B, W>::new(counter, writer))?;
    let blank = Blank::new(u64::from(MAX_LICENCES));
    let summed = sum_on::<B, Brand, T, W>(alloc, manner, blank, script, form, turns, sink);
    Ok(summed)
}
