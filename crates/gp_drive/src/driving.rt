//! From a script and an input of lines to the answers.
ghost use Rattle.std.specs.Prelude.{◌≡◌, ◌<◌, ◌+◌, ◌*◌, ◌^◌, [], Err, IfErr, IfOk, length, true};
ghost use Rattle.gp_replay.specs.Playing.{HasRoomFor};
ghost use Rattle.gp_script.specs.Playable.{IsPlayable};
ghost use Rattle.gp_script.specs.View.{script_view};
ghost use Rattle.gp_drive.specs.Drive.{begun_in, driving, most_turns, never_over};
ghost use Rattle.gp_drive.specs.Outcome.{DrivesInput, DrivesInputIn, DrivesScriptIn, LeavesServed, LeftByChassis, LeftByFibre, ServesTurns, told};

use crate::driven::{Driven, Drove};
use crate::driver::Driver;
use crate::fault::DriveFault;
use crate::manner::{DriveManner, UNTOLD};
use gp_flow::{LinesFault, run_lines};
use gp_licence::MAX_LICENCES;
use gp_ploam::Mask;
use gp_replay::{
    EventPlayer, FibrePlayer, LineBuffer, Opened, Player, TraceOut, each_port_runs, end_play,
    open_chassis, open_fibre, tell_events,
};
use gp_script::Script;
use gp_stream::{Sink, Source};
use std::alloc::Global;
use std::io::{Read, Write};
use std::marker::Brand;
use std::sync::ledger::{Blank, Ledger};

/// Answers the lines of an input on a player, which is given back with how many there were.
fn drive_lines<P: EventPlayer, T: Read, W: Write>(
    alloc: Global,
    manner: DriveManner,
    player: P,
    buffer: LineBuffer,
    mask: Mask,
    turns: &mut Source<T>,
    sink: &mut Sink<W>,
) -> (P, Result<Driven, LinesFault>)
    requires room { HasRoomFor P.playing most_turns player }
    requires flushed { sink.old.flushed ≡ true }
    ensures serves { ServesTurns manner P.playing player mask result.1 turns.old turns.new sink.old sink.new }
    ensures left { IfOk result.1 (λ driven.
        LeavesServed manner P.playing player mask result.0 driven turns.old turns.new sink.old sink.new) }
{
    let mut driver = Driver::new_in(manner, player, mask, buffer);
    let served = run_lines(alloc, turns, sink, &mut driver);
    let driven = Driven {
        lines: driver.lines(),
        errors: driver.errors(),
    };
    let player = driver.into_player();
    match served {
        Ok(_) => (player, Ok(driven)),
        Err(fault) => (player, Err(fault)),
    }
}

/// Tells how many lines were answered, or why not all were.
fn told(driven: Result<Driven, LinesFault>) -> Result<Driven, DriveFault>
    ensures { result ≡ told driven }
{
    match driven {
        Ok(driven) => Ok(driven),
        Err(fault) => Err(DriveFault::Turns(fault)),
    }
}

/// Drives a script without simulated units on a chassis of its own, whose ledger is the blank, as `drive_script` does,
/// and gives the ports as they stand at the end. An error is answered where no line was read.
pub fn drive_chassis<L: Ledger, T: Read, W: Write>(
    alloc: Global,
    manner: DriveManner,
    blank: Blank,
    script: Script,
    turns: &mut Source<T>,
    sink: &mut Sink<W>,
) -> Result<Drove<Player<L>>, DriveFault>
    requires name { blank.name ≡ L.name }
    requires parts { (blank.parts ≡ L.parts) × (L.parts ≡ MAX_LICENCES) }
    requires playable { IsPlayable (script_view script) }
    requires no_units { script.units.items ≡ [] }
    requires flushed { sink.old.flushed ≡ true }
    ensures drives { IfOk result (λ drove.
        DrivesScriptIn manner (told drove.driven) turns.old turns.new sink.old sink.new (script_view script)) }
    ensures left { IfOk result (λ drove. LeftByChassis
        manner (script_view script) drove.player drove.driven turns.old turns.new sink.old sink.new) }
    ensures unplayed { IfErr result (λ fault.
        DrivesScriptIn manner (Err fault) turns.old turns.new sink.old sink.new (script_view script)) }
{
    each_port_runs();
    let Opened {
        mut player,
        mut buffer,
        mask,
        events,
    } = open_chassis::<L>(alloc, blank, script)?;
    let mut out = TraceOut {
        sink,
        buffer: &mut buffer,
        mask,
    };
    if let Err(fault) = tell_events(&mut player, &mut out, events.as_slice(), manner.lights) {
        player.close();
        let _ = end_play(sink, Err(fault));
        return Err(DriveFault::from(fault));
    }
    let (player, driven) = drive_lines(alloc, manner, player, buffer, mask, turns, sink);
    Ok(Drove { player, driven })
}

/// Drives a script with simulated units on a fibre of its own, whose ledger is the blank, as `drive_script` does, and
/// gives the fibre as it stands at the end. An error is answered where no line was read.
pub fn drive_fibre<L: Ledger, T: Read, W: Write>(
    alloc: Global,
    manner: DriveManner,
    blank: Blank,
    script: Script,
    turns: &mut Source<T>,
    sink: &mut Sink<W>,
) -> Result<Drove<FibrePlayer<L>>, DriveFault>
    requires name { blank.name ≡ L.name }
    requires parts { (blank.parts ≡ L.parts) × (L.parts ≡ MAX_LICENCES) }
    requires playable { IsPlayable (script_view script) }
    requires units { 0 < length script.units.items }
    requires flushed { sink.old.flushed ≡ true }
    ensures drives { IfOk result (λ drove.
        DrivesScriptIn manner (told drove.driven) turns.old turns.new sink.old sink.new (script_view script)) }
    ensures left { IfOk result (λ drove. LeftByFibre
        manner (script_view script) drove.player drove.driven turns.old turns.new sink.old sink.new) }
    ensures unplayed { IfErr result (λ fault.
        DrivesScriptIn manner (Err fault) turns.old turns.new sink.old sink.new (script_view script)) }
{
    let Opened {
        mut player,
        mut buffer,
        mask,
        events,
    } = open_fibre::<L>(alloc, blank, script)?;
    let mut out = TraceOut {
        sink,
        buffer: &mut buffer,
        mask,
    };
    if let Err(fault) = tell_events(&mut player, &mut out, events.as_slice(), manner.lights) {
        player.close();
        let _ = end_play(sink, Err(fault));
        return Err(DriveFault::from(fault));
    }
    let (player, driven) = drive_lines(alloc, manner, player, buffer, mask, turns, sink);
    Ok(Drove { player, driven })
}

/// Ends what a script was driven on, and tells how that ended.
fn end_chassis<L: Ledger>(drove: Result<Drove<Player<L>>, DriveFault>) -> Result<Driven, DriveFault>
    ensures ok { IfOk drove (λ drove. result ≡ told drove.driven) }
    ensures err { IfErr drove (λ fault. result ≡ Err fault) }
{
    let Drove { player, driven } = drove?;
    player.close();
    told(driven)
}

/// Ends what a script was driven on, and tells how that ended.
fn end_fibre<L: Ledger>(
    drove: Result<Drove<FibrePlayer<L>>, DriveFault>,
) -> Result<Driven, DriveFault>
    ensures ok { IfOk drove (λ drove. result ≡ told drove.driven) }
    ensures err { IfErr drove (λ fault. result ≡ Err fault) }
{
    let Drove { player, driven } = drove?;
    player.close();
    told(driven)
}

/// Drives a script on a ledger of its own, which is the blank: on a chassis, or, where it has simulated units, on the
/// fibre of its one port.
fn drive_on<L: Ledger, T: Read, W: Write>(
    alloc: Global,
    manner: DriveManner,
    blank: Blank,
    script: Script,
    turns: &mut Source<T>,
    sink: &mut Sink<W>,
) -> Result<Driven, DriveFault>
    requires name { blank.name ≡ L.name }
    requires parts { (blank.parts ≡ L.parts) × (L.parts ≡ MAX_LICENCES) }
    requires playable { IsPlayable (script_view script) }
    requires flushed { sink.old.flushed ≡ true }
    ensures { DrivesScriptIn manner result turns.old turns.new sink.old sink.new (script_view script) }
{
    if script.units.is_empty() {
        end_chassis(drive_chassis::<L, T, W>(alloc, manner, blank, script, turns, sink))
    } else {
        end_fibre(drive_fibre::<L, T, W>(alloc, manner, blank, script, turns, sink))
    }
}

/// Opens what a script says that was read, plays its events, and then answers the lines of an input, one after another,
/// for as long as they come: each by the trace lines of its entries, or by an error line where it is no turn. Whenever
/// more of the input is asked for, the answers to all lines that a line feed ended before are written and flushed.
///
/// All lines together may ask for `MOST_TURNS` frames and other events.
pub fn drive_script<T: Read, W: Write>(
    alloc: Global,
    manner: DriveManner,
    script: Script,
    turns: &mut Source<T>,
    sink: &mut Sink<W>,
) -> Result<Driven, DriveFault>
    requires playable { IsPlayable (script_view script) }
    requires flushed { sink.old.flushed ≡ true }
    ensures { DrivesScriptIn manner result turns.old turns.new sink.old sink.new (script_view script) }
{
    let blank = Blank::new(u64::from(MAX_LICENCES));
    drive_on::<Brand, T, W>(alloc, manner, blank, script, turns, sink)
}

/// Reads a script to the end of its source, at most 1,048,576 bytes, and drives it as `drive_script` does. It isn't
/// told that lines are done, nor when light comes or goes.
pub fn run_drive<R: Read, T: Read, W: Write>(
    alloc: Global,
    script: &mut Source<R>,
    turns: &mut Source<T>,
    sink: &mut Sink<W>,
) -> Result<Driven, DriveFault>
    requires { sink.old.flushed ≡ true }
    ensures { DrivesInput result script.old script.new turns.old turns.new sink.old sink.new }
{
    run_drive_in(alloc, UNTOLD, script, turns, sink)
}

/// The same, in this manner.
pub fn run_drive_in<R: Read, T: Read, W: Write>(
    alloc: Global,
    manner: DriveManner,
    script: &mut Source<R>,
    turns: &mut Source<T>,
    sink: &mut Sink<W>,
) -> Result<Driven, DriveFault>
    requires { sink.old.flushed ≡ true }
    ensures { DrivesInputIn manner result script.old script.new turns.old turns.new sink.old sink.new }
{
    let bytes = gp_stream::read_all(alloc, script)?;
    let read = gp_script::read_script(alloc, bytes.as_slice())?;
    drive_script(alloc, manner, read, turns, sink)
}
