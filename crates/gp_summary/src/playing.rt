//! A script that is played while the lines of its trace are counted, and its summary.
ghost use Rattle.std.specs.Prelude.{◌≡◌, ◌<◌, ◌*◌, ◌^◌, [], All, IfOk, length, true};
ghost use Rattle.gp_script.specs.Playable.{IsPlayable};
ghost use Rattle.gp_script.specs.View.{NamesOneOf, script_view};
ghost use Rattle.gp_replay.specs.Playing.{HasRoomFor};
ghost use Rattle.gp_summary.specs.Summary.{IsFresh, PlaysSummed};
ghost use Rattle.gp_summary.specs.Told.{TellsSummed, TellsToEnd};

use crate::form::SummaryForm;
use crate::ports::{chassis_summary, fibre_summary};
use gp_licence::MAX_LICENCES;
use gp_ploam::Mask;
use gp_replay::{
    EventPlayer, LineBuffer, Opened, PlayFault, TraceOut, each_port_runs, end_play, open_chassis,
    open_fibre, tell_events,
};
use gp_script::{Script, ScriptEvent};
use gp_stream::Sink;
use gp_tally::{Began, Counter, Counting};
use std::alloc::{AllocError, Global};
use std::io::Write;
use std::marker::Brand;
use std::sync::ledger::{Blank, Ledger};

/// How a play ended: whether its trace was written, and its summary, which is an error where the play was not written
/// to its end, or memory was refused.
#[derive(Drop)]
pub struct Ended {
    /// Whether the script was played and its trace written, or why not.
    pub played: Result<(), PlayFault>,
    /// The lines of its summary.
    pub summary: Result<Vec<u8>, AllocError>,
}

/// A play that ended, and the writer that its trace went to.
#[derive(Drop)]
pub struct Summed<B: Began, W: Write> {
    /// How it ended.
    pub ended: Ended,
    /// The writer, with its counter.
    pub counting: Counting<B, W>,
}

/// Tells events on a player to their end, with their lights where that is wanted, and writes out what is told.
fn tell_to_end<P: EventPlayer, W: Write>(
    player: &mut P,
    sink: &mut Sink<W>,
    buffer: &mut LineBuffer,
    mask: Mask,
    events: &[ScriptEvent],
    lights: bool,
) -> Result<(), PlayFault>
    requires named { All (NamesOneOf (P.playing.ports player.old) (P.playing.units player.old)) events.now }
    requires room { HasRoomFor P.playing (length events.now * 2 ^ 32) player.old }
    ensures { TellsToEnd lights P.playing mask events.now player.old player.new sink.old sink.new result }
{
    let mut out = TraceOut { sink, buffer, mask };
    let told = tell_events(player, &mut out, events, lights);
    end_play(out.sink, told)
}

/// Plays a script without simulated units on a chassis of its own, whose ledger is the blank.
fn sum_on_chassis<B: Began, L: Ledger, W: Write + Drop>(
    alloc: Global,
    blank: Blank,
    script: Script,
    form: SummaryForm,
    lights: bool,
    sink: Sink<Counting<B, W>>,
) -> Result<Summed<B, W>, AllocError>
    requires name { blank.name ≡ L.name }
    requires parts { (blank.parts ≡ L.parts) × (L.parts ≡ MAX_LICENCES) }
    requires playable { IsPlayable (script_view script) }
    requires no_units { script.units.items ≡ [] }
    requires mask { B.mask ≡ script.mask }
    requires ports { B.ports ≡ length script.ports.items }
    requires fresh { IsFresh sink }
    ensures { IfOk result (λ summed.
        TellsSummed lights form (script_view script) summed.counting summed.ended.played summed.ended.summary) }
{
    each_port_runs();
    let mut sink = sink;
    let licences = script.licences;
    let Opened {
        mut player,
        mut buffer,
        mask,
        events,
    } = open_chassis::<L>(alloc, blank, script)?;
    let played = tell_to_end(
        &mut player,
        &mut sink,
        &mut buffer,
        mask,
        events.as_slice(),
        lights,
    );
    let counting = sink.into_inner();
    let summary = chassis_summary(alloc, form, &player, counting.counter(), licences);
    player.close();
    Ok(Summed {
        ended: Ended { played, summary },
        counting,
    })
}

/// Plays a script with simulated units on a fibre of its own, whose ledger is the blank.
fn sum_on_fibre<B: Began, L: Ledger, W: Write + Drop>(
    alloc: Global,
    blank: Blank,
    script: Script,
    form: SummaryForm,
    lights: bool,
    sink: Sink<Counting<B, W>>,
) -> Result<Summed<B, W>, AllocError>
    requires name { blank.name ≡ L.name }
    requires parts { (blank.parts ≡ L.parts) × (L.parts ≡ MAX_LICENCES) }
    requires playable { IsPlayable (script_view script) }
    requires units { 0 < length script.units.items }
    requires mask { B.mask ≡ script.mask }
    requires ports { B.ports ≡ length script.ports.items }
    requires fresh { IsFresh sink }
    ensures { IfOk result (λ summed.
        TellsSummed lights form (script_view script) summed.counting summed.ended.played summed.ended.summary) }
{
    let mut sink = sink;
    let licences = script.licences;
    let Opened {
        mut player,
        mut buffer,
        mask,
        events,
    } = open_fibre::<L>(alloc, blank, script)?;
    let played = tell_to_end(
        &mut player,
        &mut sink,
        &mut buffer,
        mask,
        events.as_slice(),
        lights,
    );
    let counting = sink.into_inner();
    let summary = fibre_summary(alloc, form, &player, counting.counter(), licences);
    player.close();
    Ok(Summed {
        ended: Ended { played, summary },
        counting,
    })
}

/// Plays a script on a ledger of its own, which is the blank: on a chassis, or, where it has simulated units, on the
/// fibre of its one port.
fn sum_on<B: Began, L: Ledger, W: Write + Drop>(
    alloc: Global,
    blank: Blank,
    script: Script,
    form: SummaryForm,
    lights: bool,
    sink: Sink<Counting<B, W>>,
) -> Result<Summed<B, W>, AllocError>
    requires name { blank.name ≡ L.name }
    requires parts { (blank.parts ≡ L.parts) × (L.parts ≡ MAX_LICENCES) }
    requires playable { IsPlayable (script_view script) }
    requires mask { B.mask ≡ script.mask }
    requires ports { B.ports ≡ length script.ports.items }
    requires fresh { IsFresh sink }
    ensures { IfOk result (λ summed.
        TellsSummed lights form (script_view script) summed.counting summed.ended.played summed.ended.summary) }
{
    if script.units.is_empty() {
        sum_on_chassis::<B, L, W>(alloc, blank, script, form, lights, sink)
    } else {
        sum_on_fibre::<B, L, W>(alloc, blank, script, form, lights, sink)
    }
}

/// Plays a script and writes its trace as a replay does, to a writer that passes it on, and tells at the end what was
/// counted of it, how each port and its units stand, and how many licences are free. Memory is flat in the length of
/// the play.
///
/// Memory for the counts, for the sink and for the ports is taken first; while it is played only where a unit is found
/// for the first time. Where that is refused, the trace is still written, and there is no summary. An error is answered
/// where nothing was played and nothing written.
pub fn play_summed<B: Began, W: Write + Drop>(
    alloc: Global,
    script: Script,
    form: SummaryForm,
    writer: W,
) -> Result<Summed<B, W>, AllocError>
    requires playable { IsPlayable (script_view script) }
    requires held { W.contents writer ≡ B.held }
    requires mask { B.mask ≡ script.mask }
    requires ports { B.ports ≡ length script.ports.items }
    ensures { IfOk result (λ summed.
        PlaysSummed form (script_view script) summed.counting summed.ended.played summed.ended.summary) }
{
    let counter = Counter::new(alloc, script.mask, script.ports.len())?;
    let sink = Sink::new(alloc, Counting::<B, W>::new(counter, writer))?;
    let blank = Blank::new(u64::from(MAX_LICENCES));
    sum_on::<B, Brand, W>(alloc, blank, script, form, false, sink)
}

/// Plays a script and sums it as `play_summed` does, and writes its trace with a line of its own for each event with
/// which light comes or goes at a simulated unit, as `gp_replay::play_with_lights` does. Of these lines nothing is
/// counted.
pub fn sum_with_lights<B: Began, W: Write + Drop>(
    alloc: Global,
    script: Script,
    form: SummaryForm,
    writer: W,
) -> Result<Summed<B, W>, AllocError>
    requires playable { IsPlayable (script_view script) }
    requires held { W.contents writer ≡ B.held }
    requires mask { B.mask ≡ script.mask }
    requires ports { B.ports ≡ length script.ports.items }
    ensures { IfOk result (λ summed.
        TellsSummed true form (script_view script) summed.counting summed.ended.played summed.ended.summary) }
{
    let counter = Counter::new(alloc, script.mask, script.ports.len())?;
    let sink = Sink::new(alloc, Counting::<B, W>::new(counter, writer))?;
    let blank = Blank::new(u64::from(MAX_LICENCES));
    sum_on::<B, Brand, W>(alloc, blank, script, form, true, sink)
}
