//! Plays what a line asks for, and writes its lines; or tells what it asks for that is not there.
ghost use Rattle.std.specs.Prelude.{◌≡◌, ◌<◌, OnOk, None};
ghost use Rattle.gp_replay.specs.Playing.{HasRoomFor, Keeps};
ghost use Rattle.gp_replay.specs.Writing.{PlaysOn};
ghost use Rattle.gp_replay.specs.Out.{KeepsOut};
ghost use Rattle.gp_lines.specs.declared.turn.Asked.TheVariants as asks;
ghost use Rattle.gp_drive.specs.Turns.{PlaysTo, PlaysTurnPart, cost_of, event_of, missing_in, told_by};

use crate::fault::TurnFault;
use gp_lines::Asked;
use gp_machine::Event;
use gp_ranging::Grant;
use gp_replay::{EventPlayer, PlayFault, TraceOut};
use gp_script::ScriptEvent;
use std::io::Write;

/// Gives an event of a port as a script has it.
fn event_of(port: u8, event: Event) -> ScriptEvent
    ensures { result ≡ event_of port event }
{
    match event {
        Event::Frame => ScriptEvent::Frames { port, count: 1 },
        Event::Burst { at, bytes } => ScriptEvent::Burst { port, at, bytes },
        Event::Command(command) => ScriptEvent::Command { port, command },
    }
}

/// Tells what a line asks for that is not there, among so many ports and units.
pub(crate) fn missing_in(ports: usize, units: usize, asked: Asked) -> Option<TurnFault>
    ensures { result ≡ missing_in ports units asked }
{
    match asked {
        Asked::Nothing => None,
        Asked::Event { port, .. } | Asked::Frames { port, .. } | Asked::Until { port, .. } => {
            if usize::from(port) < ports {
                None
            } else {
                Some(TurnFault::NoPort)
            }
        }
        Asked::Light { unit, .. } | Asked::ShowUnit { unit } => {
            if usize::from(unit) < units {
                None
            } else {
                Some(TurnFault::NoUnit)
            }
        }
    }
}

/// How many frames a line asks for at most, or that it asks for one other thing to happen.
pub(crate) fn cost_of(asked: Asked) -> u64
    ensures { result ≡ cost_of asked }
{
    match asked {
        Asked::Nothing | Asked::ShowUnit { .. } => 0,
        Asked::Event { .. } | Asked::Light { .. } => 1,
        Asked::Frames { port: _, count } => u64::from(count),
        Asked::Until {
            port: _,
            grant: _,
            most,
        } => u64::from(most),
    }
}

/// Plays frames of a port up to the first one that makes this grant, at most so many. Where none of these makes it,
/// that is told.
fn play_until<P: EventPlayer, W: Write>(
    player: &mut P,
    out: &mut TraceOut<'_, W>,
    port: u8,
    grant: Grant,
    most: u32,
) -> Result<Option<TurnFault>, PlayFault>
    requires named { port < P.playing.ports player.old }
    requires room { HasRoomFor P.playing most player.old }
    ensures plays { let asked = asks.Until port grant most in
        PlaysOn out.old.mask (PlaysTo P.playing asked (told_by result)) (PlaysTurnPart P.playing asked)
        player.old player.new out.old.sink.now out.new.sink.now result }
    ensures keeps { OnOk result (Keeps P.playing most player.old player.new) }
    ensures same { KeepsOut out.old out.new }
{
    for _ in 0..most {
        if player.play_frame(out, port, grant)? {
            return Ok(None);
        }
    }
    Ok(Some(TurnFault::Never))
}

/// Plays what a line asks for, writes its lines, and tells what is then wrong with it. Of a line that asks for a unit
/// to be shown, nothing is played.
pub(crate) fn play_turn<P: EventPlayer, W: Write>(
    player: &mut P,
    out: &mut TraceOut<'_, W>,
    asked: Asked,
) -> Result<Option<TurnFault>, PlayFault>
    requires there { missing_in (P.playing.ports player.old) (P.playing.units player.old) asked ≡ None }
    requires room { HasRoomFor P.playing (cost_of asked) player.old }
    ensures plays { PlaysOn out.old.mask (PlaysTo P.playing asked (told_by result)) (PlaysTurnPart P.playing asked)
        player.old player.new out.old.sink.now out.new.sink.now result }
    ensures keeps { OnOk result (Keeps P.playing (cost_of asked) player.old player.new) }
    ensures same { KeepsOut out.old out.new }
{
    let event = match asked {
        Asked::Nothing => return Ok(None),
        Asked::ShowUnit { .. } => return Ok(None),
        Asked::Until { port, grant, most } => {
            return play_until(player, out, port, grant, most);
        }
        Asked::Event { port, event } => event_of(port, event),
        Asked::Frames { port, count } => ScriptEvent::Frames { port, count },
        Asked::Light { unit, lit } => ScriptEvent::Light { unit, lit },
    };
    player.play_event(out, &event)?;
    Ok(None)
}
