//! The summary of the ports that a script was played on.
ghost use Rattle.std.specs.Prelude.{◌≡◌, ◌++◌, ℕ, List, [], ◌∷◌, IfOk, OnOk, length};
ghost use Rattle.gp_summary.specs.Summary.{SaysCounted};
ghost use Rattle.gp_summary.specs.Text.{PortsText};

use crate::form::SummaryForm;
use crate::lines::{push_licences, push_port};
use gp_replay::{FibrePlayer, Player};
use gp_tally::{Counter, PortTally};
use std::alloc::{AllocError, Global};
use std::sync::ledger::Ledger;

/// Appends the lines of all ports of a chassis that were counted. There is no answer where one of them isn't there.
fn push_ports<L: Ledger>(
    out: &mut Vec<u8>,
    form: SummaryForm,
    player: &Player<L>,
    tallies: &[PortTally],
) -> Result<(), AllocError>
    ensures { OnOk result ((text : List ℕ)
        × PortsText form (length tallies.now) player.now.world.ports tallies.now text
        × (out.new.items ≡ out.old.items ++ text)) }
{
    'ports: for (port, tally) in tallies.iter().enumerate() {
        let Ok(number) = u8::try_from(port) else {
            return Err(AllocError);
        };
        let Some(core) = player.port(number) else {
            return Err(AllocError);
        };
        push_port(out, form, number, core, tally)?;
    }
    Ok(())
}

/// Gives the summary of a chassis, whose ports were counted so, as they stand now: the lines of each port that was
/// counted and of its units, and that of the licences, of which it has so many. There is no answer where a port was
/// counted that isn't there.
pub fn chassis_summary<L: Ledger>(
    alloc: Global,
    form: SummaryForm,
    player: &Player<L>,
    counter: &Counter,
    licences: u32,
) -> Result<Vec<u8>, AllocError>
    ensures { IfOk result (λ text. SaysCounted form counter.now.mask counter.now.taken player.now.world.ports
        (length counter.now.ports) player.now.world.free licences text.items) }
{
    let tallies = counter.ports()?;
    let mut text = Vec::new(alloc);
    push_ports(&mut text, form, player, tallies)?;
    push_licences(&mut text, form, player.free(), licences)?;
    Ok(text)
}

/// Gives the summary of a fibre, whose port was counted so, as it stands now. There is no answer where other than one
/// port was counted.
pub fn fibre_summary<L: Ledger>(
    alloc: Global,
    form: SummaryForm,
    player: &FibrePlayer<L>,
    counter: &Counter,
    licences: u32,
) -> Result<Vec<u8>, AllocError>
    ensures { IfOk result (λ text. SaysCounted form counter.now.mask counter.now.taken
        (player.now.play.world.fibre.port ∷ []) (length counter.now.ports) player.now.play.world.fibre.free licences
        text.items) }
{
    let tallies = counter.ports()?;
    let [tally] = tallies else {
        return Err(AllocError);
    };
    let mut text = Vec::new(alloc);
    push_port(&mut text, form, 0, player.port(), tally)?;
    push_licences(&mut text, form, player.free(), licences)?;
    Ok(text)
}
