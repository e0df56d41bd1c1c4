//! The fibre of one port with its simulated units, as what events are played on.
ghost use Rattle.std.specs.Prelude.{◌≡◌, true, IfOk, map};
ghost use Rattle.gp_fibre.specs.World.{is_world_within_limits};
ghost use Rattle.gp_fibre.specs.Schedule.{opening_state};
ghost use Rattle.gp_replay.specs.WorldPlay.{plan_of};
ghost use Rattle.gp_replay.specs.WorldWriting.{losses_of};

use super::event_player::EventPlayer;
use super::fault::PlayFault;
use super::trace_out::TraceOut;
use super::world_player::WorldPlayer;
use super::world_playing::{play_one_world_frame, play_world_event};
use gp_fibre::{LossPlan, Losses};
use gp_licence::MAX_LICENCES;
use gp_machine::PortConfig;
use gp_onu::UnitStatus;
use gp_port::PortCore;
use gp_ranging::Grant;
use gp_script::{ScriptEvent, ScriptUnit};
use std::alloc::{AllocError, Global};
use std::io::Write;
use std::marker::Model;
use std::sync::ledger::{Blank, Ledger};

/// The fibre of one port with its simulated units, on whose way some copies and bursts are lost, as what events are
/// played on. Contracts see its play, and what is lost.
///
/// It has no `Drop`: its licences are gathered by `close`.
pub struct FibrePlayer<L: Ledger> {
    player: WorldPlayer<L>,
    losses: Losses,
}

impl<L: Ledger> Model for FibrePlayer<L> {
    ghost use Rattle.gp_machine.specs.Codes.{port_codes};
    ghost use Rattle.gp_replay.specs.Playing.{LossyPlay};
    ghost use Rattle.gp_replay.specs.WorldWriting.{lost_by};

    ghost Value = { LossyPlay };

    ghost coded = { Prim.hlevel port_codes };

    ghost view = { λ p. record { play = p.player; losses = lost_by p.losses } };
}

impl<L: Ledger> FibrePlayer<L> {
    /// Begins the fibre, before its first event. `blank` is a new ledger of `MAX_LICENCES` parts, made by
    /// `Blank::new`, and `L` its name.
    pub fn begin(
        alloc: Global,
        blank: Blank,
        config: &PortConfig,
        licences: u32,
        units: &[ScriptUnit],
        loss: LossPlan,
    ) -> Result<FibrePlayer<L>, AllocError>
        requires name { blank.name ≡ L.name }
        requires parts { (blank.parts ≡ L.parts) × (L.parts ≡ MAX_LICENCES) }
        requires limits { is_world_within_limits config.now licences (map plan_of units.now) ≡ true }
        ensures world { IfOk result
            (λ player. player.play.world ≡ opening_state config.now licences (map plan_of units.now)) }
        ensures next { IfOk result (λ player. player.play.next ≡ 0) }
        ensures losses { IfOk result (λ player. player.losses ≡ losses_of loss) }
    {
        let player = WorldPlayer::begin(alloc, blank, config, licences, units)?;
        let losses = Losses::from(loss);
        Ok(FibrePlayer { player, losses })
    }

    /// Gives the port.
    pub fn port(&self) -> &PortCore<L>
        ensures { result.now ≡ self.now.play.world.fibre.port }
    {
        self.player.port()
    }

    /// Tells how many licences are free.
    pub fn free(&self) -> u32
        ensures { result ≡ self.now.play.world.fibre.free }
    {
        self.player.free()
    }

    /// Ends the fibre, and answers how many licences there are.
    pub fn close(self) -> u32
        ensures { result ≡ self.play.world.licences }
    {
        let FibrePlayer { player, losses: _ } = self;
        player.close()
    }
}

impl<L: Ledger> EventPlayer for FibrePlayer<L> {
    ghost use Rattle.gp_replay.specs.Playing.{fibre_playing};

    ghost playing = { fibre_playing };

    fn ports(&self) -> usize {
        1
    }

    fn units(&self) -> usize {
        self.player.units()
    }

    fn unit_status(&self, unit: u16) -> Option<UnitStatus> {
        self.player.unit_status(unit)
    }

    fn play_event<W: Write>(
        &mut self,
        out: &mut TraceOut<'_, W>,
        event: &ScriptEvent,
    ) -> Result<(), PlayFault> {
        play_world_event(&mut self.player, out, &mut self.losses, event)
    }

    fn play_frame<W: Write>(
        &mut self,
        out: &mut TraceOut<'_, W>,
        _port: u8,
        grant: Grant,
    ) -> Result<bool, PlayFault> {
        play_one_world_frame(&mut self.player, out, &mut self.losses, grant)
    }
}
