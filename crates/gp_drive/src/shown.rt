//! What is told of a simulated unit, and of light that comes or goes there, and what stands behind it.
ghost use Rattle.std.specs.Prelude.{◌≡◌, ◌++◌, codes};
ghost use Rattle.gp_onu.specs.State.{state_name};
ghost use Rattle.gp_replay.specs.Writing.{HandsIn};
ghost use Rattle.gp_drive.specs.Drive.{ending};
ghost use Rattle.gp_drive.specs.Shown.{dark_if, number_if, shown_of, status_end, unit_line, unit_line_if};

use crate::ending::{put_ending, put_numbered};
use crate::fault::TurnFault;
use crate::manner::DriveManner;
use gp_lines::Asked;
use gp_onu::{State, UnitStatus};
use gp_replay::{EventPlayer, put_light_if};
use gp_stream::{Sink, WriteStopped};
use std::io::Write;

/// Puts a text and a number behind it, where there is a number.
fn put_number_if<W: Write>(
    sink: &mut Sink<W>,
    text: &[u8],
    number: Option<u32>,
) -> Result<(), WriteStopped>
    ensures { HandsIn sink.old sink.new (number_if text.now number) result }
{
    match number {
        Some(number) => put_numbered(sink, text, u64::from(number)),
        None => Ok(()),
    }
}

/// Puts that a unit is dark.
fn put_dark<W: Write>(sink: &mut Sink<W>) -> Result<(), WriteStopped>
    ensures { HandsIn sink.old sink.new (codes " dark") result }
{
    sink.put(b" dark")
}

/// Puts it, where the unit is.
fn put_dark_if<W: Write>(sink: &mut Sink<W>, is_lit: bool) -> Result<(), WriteStopped>
    ensures { HandsIn sink.old sink.new (dark_if is_lit) result }
{
    if is_lit { Ok(()) } else { put_dark(sink) }
}

/// Puts whether a unit is dark, which ends its line.
fn put_whether_dark<W: Write>(sink: &mut Sink<W>, is_lit: bool) -> Result<(), WriteStopped>
    ensures { HandsIn sink.old sink.new (dark_if is_lit ++ codes "\n") result }
{
    put_dark_if(sink, is_lit)?;
    sink.put(b"\n")
}

/// Puts the equalization delay of a unit, where it has one, and what stands behind it.
fn put_eqd<W: Write>(sink: &mut Sink<W>, eqd: Option<u32>, is_lit: bool) -> Result<(), WriteStopped>
    ensures { HandsIn sink.old sink.new (number_if (codes " eqd ") eqd ++ (dark_if is_lit ++ codes "\n")) result }
{
    put_number_if(sink, b" eqd ", eqd)?;
    put_whether_dark(sink, is_lit)
}

/// The same number in a wider type, where there is one.
fn wider(number: Option<u8>) -> Option<u32>
    ensures { result ≡ number }
{
    match number {
        Some(number) => Some(u32::from(number)),
        None => None,
    }
}

/// Puts what stands behind the state of a unit.
fn put_status_end<W: Write>(sink: &mut Sink<W>, status: UnitStatus) -> Result<(), WriteStopped>
    ensures { HandsIn sink.old sink.new (status_end status) result }
{
    put_number_if(sink, b" onu ", wider(status.onu))?;
    put_eqd(sink, status.eqd, status.is_lit)
}

/// Puts the name of a state behind a space.
fn put_state<W: Write>(sink: &mut Sink<W>, state: State) -> Result<(), WriteStopped>
    ensures { HandsIn sink.old sink.new (codes " " ++ state_name state) result }
{
    sink.put(b" ")?;
    sink.put(state.name().as_bytes())
}

/// Puts the state of a unit, and what stands behind it.
fn put_status<W: Write>(sink: &mut Sink<W>, status: UnitStatus) -> Result<(), WriteStopped>
    ensures { HandsIn sink.old sink.new (codes " " ++ state_name status.state ++ status_end status) result }
{
    put_state(sink, status.state)?;
    put_status_end(sink, status)
}

/// Puts the line of the unit at this place.
fn put_unit<W: Write>(sink: &mut Sink<W>, unit: u16, status: UnitStatus) -> Result<(), WriteStopped>
    ensures { HandsIn sink.old sink.new (unit_line unit status) result }
{
    put_numbered(sink, b"unit ", u64::from(unit))?;
    put_status(sink, status)
}

/// Puts it, where there is such a unit.
fn put_unit_if<W: Write>(
    sink: &mut Sink<W>,
    unit: u16,
    status: Option<UnitStatus>,
) -> Result<(), WriteStopped>
    ensures { HandsIn sink.old sink.new (unit_line_if unit status) result }
{
    match status {
        Some(status) => put_unit(sink, unit, status),
        None => Ok(()),
    }
}

/// Puts what is told of the unit that a line asks to be shown, or, where that is told, of the light that comes or goes
/// with it.
fn put_shown<P: EventPlayer, W: Write>(
    sink: &mut Sink<W>,
    player: &P,
    asked: Asked,
    lights: bool,
) -> Result<(), WriteStopped>
    ensures { HandsIn sink.old sink.new (shown_of lights P.playing asked player.now) result }
{
    match asked {
        Asked::ShowUnit { unit } => put_unit_if(sink, unit, player.unit_status(unit)),
        Asked::Light { unit, lit } => put_light_if(sink, lights, unit, lit),
        Asked::Nothing | Asked::Event { .. } | Asked::Frames { .. } | Asked::Until { .. } => Ok(()),
    }
}

/// Puts what stands behind the lines of the entries of what a line asks for: what is told of the unit that it asks to
/// be shown, or of the light that comes or goes with it, and what ends the answer to the line with this number. Takes
/// no memory.
pub(crate) fn put_behind<P: EventPlayer, W: Write>(
    sink: &mut Sink<W>,
    player: &P,
    asked: Asked,
    manner: DriveManner,
    line: u64,
    fault: Option<TurnFault>,
) -> Result<(), WriteStopped>
    ensures { HandsIn sink.old sink.new
        (shown_of manner.lights P.playing asked player.now ++ ending manner.done line fault) result }
{
    put_shown(sink, player, asked, manner.lights)?;
    put_ending(sink, manner.done, line, fault)
}
