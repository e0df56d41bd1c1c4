//! Scripts that are opened: the one place where a script is taken apart, and where all the memory is taken that a play
//! without simulated units needs.
ghost use Rattle.std.specs.Prelude.{◌≡◌, ◌<◌, [], IfOk, length};
ghost use Rattle.gp_script.specs.Playable.{IsPlayable};
ghost use Rattle.gp_script.specs.View.{script_view};
ghost use Rattle.gp_replay.specs.Chassis.{opening_play};
ghost use Rattle.gp_replay.specs.Opening.{OpensFibre};

use super::fibre_player::FibrePlayer;
use super::line_buffer::LineBuffer;
use super::player::Player;
use gp_chassis::ChassisConfig;
use gp_fibre::LossPlan;
use gp_licence::MAX_LICENCES;
use gp_ploam::Mask;
use gp_script::{Script, ScriptEvent, ScriptLosses};
use std::alloc::{AllocError, Global};
use std::sync::ledger::{Blank, Ledger};

/// A script that was opened, before its first event.
///
/// It has no `Drop`: its player is closed.
pub struct Opened<P> {
    /// What its events are played on.
    pub player: P,
    /// Where the lines of its entries are built.
    pub buffer: LineBuffer,
    /// The mask of its codes.
    pub mask: Mask,
    /// Its events, in order.
    pub events: Vec<ScriptEvent>,
}

/// Opens the chassis of a script, whose ledger is the blank; its simulated units are passed over.
pub fn open_chassis<L: Ledger>(
    alloc: Global,
    blank: Blank,
    script: Script,
) -> Result<Opened<Player<L>>, AllocError>
    requires name { blank.name ≡ L.name }
    requires parts { (blank.parts ≡ L.parts) × (L.parts ≡ MAX_LICENCES) }
    requires playable { IsPlayable (script_view script) }
    ensures player { IfOk result (λ opened. opened.player ≡ opening_play (script_view script)) }
    ensures buffer { IfOk result (λ opened. opened.buffer ≡ []) }
    ensures mask { IfOk result (λ opened. opened.mask ≡ script.mask) }
    ensures events { IfOk result (λ opened. opened.events.items ≡ script.events.items) }
{
    let Script {
        licences,
        mask,
        journal_limit,
        ports,
        units: _,
        losses: _,
        events,
    } = script;
    let config = ChassisConfig {
        licences,
        journal_limit,
        ports,
    };
    let buffer = LineBuffer::new(alloc)?;
    let player = Player::begin(alloc, blank, &config)?;
    Ok(Opened {
        player,
        buffer,
        mask,
        events,
    })
}

/// Opens the fibre of a script with simulated units, whose ledger is the blank. The script's limit of journals means
/// nothing here.
pub fn open_fibre<L: Ledger>(
    alloc: Global,
    blank: Blank,
    script: Script,
) -> Result<Opened<FibrePlayer<L>>, AllocError>
    requires name { blank.name ≡ L.name }
    requires parts { (blank.parts ≡ L.parts) × (L.parts ≡ MAX_LICENCES) }
    requires playable { IsPlayable (script_view script) }
    requires units { 0 < length script.units.items }
    ensures player { IfOk result (λ opened. OpensFibre (script_view script) opened.player) }
    ensures buffer { IfOk result (λ opened. opened.buffer ≡ []) }
    ensures mask { IfOk result (λ opened. opened.mask ≡ script.mask) }
    ensures events { IfOk result (λ opened. opened.events.items ≡ script.events.items) }
{
    let Script {
        licences,
        mask,
        journal_limit: _,
        ports,
        units,
        losses,
        events,
    } = script;
    let ScriptLosses { copies, bursts } = losses;
    let loss = LossPlan { copies, bursts };
    let buffer = LineBuffer::new(alloc)?;
    let player = FibrePlayer::begin(alloc, blank, &ports[0], licences, units.as_slice(), loss)?;
    Ok(Opened {
        player,
        buffer,
        mask,
        events,
    })
}
