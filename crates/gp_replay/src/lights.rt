//! The events of a script told while they are played: the line of each entry, and behind an event with which light
//! comes or goes at a simulated unit a line that says so.
ghost use Rattle.std.specs.Prelude.{◌≡◌, ◌++◌, ◌*◌, ◌^◌, All, Err, OnOk, codes, decimal, length};
ghost use Rattle.gp_script.specs.View.{NamesOneOf};
ghost use Rattle.gp_replay.specs.Lights as spec;
ghost use Rattle.gp_replay.specs.Lights.{TellsAll, TellsEvent, TellsOn, TellsPart, TellsSome};
ghost use Rattle.gp_replay.specs.Out.{KeepsOut};
ghost use Rattle.gp_replay.specs.Playing.{HasRoomFor, Keeps, count_of};
ghost use Rattle.gp_replay.specs.Writing.{HandsIn};

use super::event_player::{EventPlayer, event_is_short};
use super::fault::PlayFault;
use super::trace_out::TraceOut;
use gp_script::ScriptEvent;
use gp_stream::{Sink, WriteStopped};
use itoa::Buffer;
use std::io::Write;

/// Gives what ends the line of light that came or went.
fn light_word(lit: bool) -> &'static str
    ensures { result.now ≡ spec.light_word lit }
{
    if lit { " light\n" } else { " dark\n" }
}

/// Puts the word for a simulated unit and its place.
fn put_unit<W: Write>(sink: &mut Sink<W>, unit: u16) -> Result<(), WriteStopped>
    ensures { HandsIn sink.old sink.new (codes "unit " ++ decimal unit) result }
{
    let mut digits = Buffer::new();
    sink.put(b"unit ")?;
    sink.put(digits.format(unit).as_bytes())
}

/// Puts the line of light that came or went at the simulated unit at this place.
fn put_light<W: Write>(sink: &mut Sink<W>, unit: u16, lit: bool) -> Result<(), WriteStopped>
    ensures { HandsIn sink.old sink.new (spec.light_line unit lit) result }
{
    put_unit(sink, unit)?;
    sink.put(light_word(lit).as_bytes())
}

/// Puts the line of light that came or went at the simulated unit at this place, where that is told. Takes no memory.
pub fn put_light_if<W: Write>(
    sink: &mut Sink<W>,
    lights: bool,
    unit: u16,
    lit: bool,
) -> Result<(), WriteStopped>
    ensures { HandsIn sink.old sink.new (spec.light_if lights unit lit) result }
{
    if lights {
        put_light(sink, unit, lit)
    } else {
        Ok(())
    }
}

/// Puts what stands behind the lines of the entries of an event.
fn put_light_behind<W: Write>(
    sink: &mut Sink<W>,
    lights: bool,
    event: &ScriptEvent,
) -> Result<(), WriteStopped>
    ensures { HandsIn sink.old sink.new (spec.light_behind lights event.now) result }
{
    match *event {
        ScriptEvent::Light { unit, lit } => put_light_if(sink, lights, unit, lit),
        ScriptEvent::Frames { .. } | ScriptEvent::Burst { .. } | ScriptEvent::Command { .. } => {
            Ok(())
        }
    }
}

/// Plays an event, and writes its lines, and behind them that of light that comes or goes with it.
fn tell_event<P: EventPlayer, W: Write>(
    player: &mut P,
    out: &mut TraceOut<'_, W>,
    event: &ScriptEvent,
    lights: bool,
) -> Result<(), PlayFault>
    requires named { NamesOneOf (P.playing.ports player.old) (P.playing.units player.old) event.now }
    requires room { HasRoomFor P.playing (count_of event.now) player.old }
    ensures tells { let mask = out.old.mask in
        TellsOn (TellsEvent lights mask P.playing event.now) (TellsPart lights mask P.playing event.now)
        player.old player.new out.old.sink.now out.new.sink.now result }
    ensures keeps { OnOk result (Keeps P.playing (count_of event.now) player.old player.new) }
    ensures memory { result ≡ Err PlayFault.OutOfMemory → P.playing.refuses }
    ensures same { KeepsOut out.old out.new }
{
    player.play_event(out, event)?;
    put_light_behind(out.sink, lights, event)?;
    Ok(())
}

/// Plays the events of a script, in their order, and writes the line of each entry. Where lights are told,
/// `unit I light` or `unit I dark` stands behind the lines of an event with which light comes or goes at a simulated
/// unit, on a line of its own. It is no line of the trace, and takes no memory.
pub fn tell_events<P: EventPlayer, W: Write>(
    player: &mut P,
    out: &mut TraceOut<'_, W>,
    events: &[ScriptEvent],
    lights: bool,
) -> Result<(), PlayFault>
    requires named { All (NamesOneOf (P.playing.ports player.old) (P.playing.units player.old)) events.now }
    requires room { HasRoomFor P.playing (length events.now * 2 ^ 32) player.old }
    ensures tells { let mask = out.old.mask in
        TellsOn (TellsAll lights mask P.playing events.now) (TellsSome lights mask P.playing events.now)
        player.old player.new out.old.sink.now out.new.sink.now result }
    ensures keeps { OnOk result (Keeps P.playing (length events.now * 2 ^ 32) player.old player.new) }
    ensures memory { result ≡ Err PlayFault.OutOfMemory → P.playing.refuses }
    ensures same { KeepsOut out.old out.new }
{
    'events: for event in events {
        event_is_short(event);
        tell_event(player, out, event, lights)?;
    }
    Ok(())
}
