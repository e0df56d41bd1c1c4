//! One turn, some frames, one event: played on the ports, and the line of each entry written.
ghost use Rattle.std.specs.Prelude.{◌≡◌, ◌<◌, [], ◌∷◌, Err, IfOk, length, replicate};
ghost use Rattle.gp_script.specs.View.{NamesPort};
ghost use Rattle.gp_replay.specs.Chassis.{HasRoom};
ghost use Rattle.gp_replay.specs.Play.{TakesAllTurns, TakesSomeTurns, frame_turn, turns_of};
ghost use Rattle.gp_replay.specs.Playing.{count_of};
ghost use Rattle.gp_replay.specs.Telling.{WritesTurn};
ghost use Rattle.gp_replay.specs.Writing.{PlaysOn};
ghost use Rattle.gp_replay.specs.Out.{KeepsOut};

use super::event_player::{EventPlayer, is_grant};
use super::fault::PlayFault;
use super::player::Player;
use super::trace_out::TraceOut;
use super::turn::Turn;
use gp_machine::{Entry, Event};
use gp_onu::UnitStatus;
use gp_ranging::Grant;
use gp_script::ScriptEvent;
use std::io::Write;
use std::sync::ledger::Ledger;

/// Takes one turn, writes its line, and gives the grant that was made in it.
fn play_turn<L: Ledger, W: Write>(
    player: &mut Player<L>,
    out: &mut TraceOut<'_, W>,
    turn: Turn,
) -> Result<Option<Grant>, PlayFault>
    requires port { turn.port < length player.old.next }
    requires room { HasRoom 1 player.old }
    ensures plays { let turns = turn ∷ [] in
        PlaysOn out.old.mask (TakesAllTurns turns) (TakesSomeTurns turns)
        player.old player.new out.old.sink.now out.new.sink.now result }
    ensures made { IfOk result (λ made.
        WritesTurn out.old.mask turn made player.old player.new out.old.sink.now out.new.sink.now) }
    ensures ports { length player.new.next ≡ length player.old.next }
    ensures memory { result ≡ Err PlayFault.OutOfMemory → ⊥ }
    ensures same { KeepsOut out.old out.new }
{
    let mut entry = Entry::blank();
    let number = player.serve(turn, None, &mut entry);
    out.entry(turn.port, number, &entry)?;
    Ok(entry.answer.grant)
}

/// Plays so many frames of a port.
fn play_frames<L: Ledger, W: Write>(
    player: &mut Player<L>,
    out: &mut TraceOut<'_, W>,
    port: u8,
    count: u32,
) -> Result<(), PlayFault>
    requires port { port < length player.old.next }
    requires room { HasRoom count player.old }
    ensures plays { let turns = replicate count (frame_turn port) in
        PlaysOn out.old.mask (TakesAllTurns turns) (TakesSomeTurns turns)
        player.old player.new out.old.sink.now out.new.sink.now result }
    ensures ports { length player.new.next ≡ length player.old.next }
    ensures memory { result ≡ Err PlayFault.OutOfMemory → ⊥ }
    ensures same { KeepsOut out.old out.new }
{
    let frame = Turn {
        port,
        event: Event::Frame,
    };
    for _ in 0..count {
        play_turn(player, out, frame)?;
    }
    Ok(())
}

/// Plays one event of a script.
fn play_event<L: Ledger, W: Write>(
    player: &mut Player<L>,
    out: &mut TraceOut<'_, W>,
    event: &ScriptEvent,
) -> Result<(), PlayFault>
    requires port { NamesPort (length player.old.next) event.now }
    requires room { HasRoom (count_of event.now) player.old }
    ensures plays { let turns = turns_of event.now in
        PlaysOn out.old.mask (TakesAllTurns turns) (TakesSomeTurns turns)
        player.old player.new out.old.sink.now out.new.sink.now result }
    ensures ports { length player.new.next ≡ length player.old.next }
    ensures memory { result ≡ Err PlayFault.OutOfMemory → ⊥ }
    ensures same { KeepsOut out.old out.new }
{
    match *event {
        ScriptEvent::Frames { port, count } => {
            play_frames(player, out, port, count)?;
        }
        ScriptEvent::Burst { port, at, bytes } => {
            let event = Event::Burst { at, bytes };
            play_turn(player, out, Turn { port, event })?;
        }
        ScriptEvent::Command { port, command } => {
            let event = Event::Command(command);
            play_turn(player, out, Turn { port, event })?;
        }
        ScriptEvent::Light { .. } => unreachable!(),
    }
    Ok(())
}

impl<L: Ledger> EventPlayer for Player<L> {
    ghost use Rattle.gp_replay.specs.Playing.{chassis_playing};

    ghost playing = { chassis_playing };

    fn ports(&self) -> usize {
        Player::ports(self)
    }

    fn units(&self) -> usize {
        0
    }

    fn unit_status(&self, _unit: u16) -> Option<UnitStatus> {
        None
    }

    fn play_event<W: Write>(
        &mut self,
        out: &mut TraceOut<'_, W>,
        event: &ScriptEvent,
    ) -> Result<(), PlayFault> {
        play_event(self, out, event)
    }

    fn play_frame<W: Write>(
        &mut self,
        out: &mut TraceOut<'_, W>,
        port: u8,
        grant: Grant,
    ) -> Result<bool, PlayFault> {
        let frame = Turn {
            port,
            event: Event::Frame,
        };
        let made = play_turn(self, out, frame)?;
        Ok(is_grant(made, grant))
    }
}
