//! `PortFollower`, a port without licences that follows a history: it tells of each entry whether there is such a step,
//! and makes it.
ghost use Rattle.std.specs.Prelude.{◌≡◌, IfOk, IsErrOf, IsTrue, false, ◌↔◌};
ghost use Rattle.gp_machine.specs.Config.{is_within_limits};
ghost use Rattle.gp_machine.specs.State.{opening_of, PortState};
ghost use Rattle.gp_machine.specs.Run.{IsStep};
ghost use Rattle.gp_port.specs.Numbers.{number_named};
ghost use Rattle.gp_port.specs.Parts.{IsSteady};

use super::comparing::same_answer;
use super::image::{ImageFault, PortImage};
use super::open::OpenFault;
use super::port_core::PortCore;
use super::port_machine::PortMachine;
use gp_machine::{Answer, Entry, PortConfig, Reply, sound_step};
use std::alloc::Global;
use std::marker::Model;
use std::sync::ledger::Ledger;

/// A port without licences, which follows the entries of a history: it hands out the numbers that they name. It is
/// ended by `close`.
pub struct PortFollower {
    machine: PortMachine,
}

impl Model for PortFollower {
    ghost use Rattle.gp_machine.specs.Codes.{port_codes};
    ghost use Rattle.gp_machine.specs.State.{PortState};
    ghost use Rattle.gp_port.specs.Parts.{IsSteady};

    ghost Value = { PortState };

    ghost coded = { Prim.hlevel port_codes };

    ghost view = { λ f. f.machine };

    ghost invariant = { λ f. IsSteady f.machine };
}

impl PortFollower {
    /// Begins at the opening of a port.
    pub fn begin(alloc: Global, config: &PortConfig) -> Result<PortFollower, OpenFault>
        ensures opening { IfOk result (λ port. port ≡ opening_of config.now) }
        ensures limit { IsErrOf result OpenFault.Limit ↔ (is_within_limits config.now ≡ false) }
    {
        let machine = PortMachine::begin(alloc, config)?;
        Ok(PortFollower { machine })
    }

    /// Begins where a port stood.
    pub fn resume(alloc: Global, image: &PortImage) -> Result<PortFollower, ImageFault>
        ensures { IfOk result (λ port. port ≡ image.now) }
    {
        image.stands();
        let machine = image.reopen(alloc)?;
        Ok(PortFollower { machine })
    }

    /// Makes the step that the entry tells of, and tells whether there is such a step. After a step that there isn't,
    /// what the port knows is not told. It takes no memory.
    pub fn follow(&mut self, entry: &Entry) -> bool
        ensures made { IsTrue result → IsStep self.old entry.now self.new }
        ensures refused { (after : PortState) → result ≡ false → IsStep self.old entry.now after → ⊥ }
        ensures alone { (after : PortState) → IsStep self.old entry.now after → after ≡ self.new }
    {
        sound_step();
        let wished = number_handed_out(&entry.answer.reply);
        let mut answer = Answer::from(Reply::Ticked);
        let left = self.machine.step_into(
            u64::from(entry.purse_in),
            entry.event,
            wished,
            &mut answer,
        );
        same_outcome(answer, left, entry)
    }

    /// Tells whether a port stands where this one does.
    pub fn stands_as<L: Ledger>(&self, core: &PortCore<L>) -> bool
        ensures { IsTrue result ↔ (self.now ≡ core.now) }
    {
        core.stands_as(&self.machine)
    }

    /// Ends it.
    pub fn close(self) {
        let PortFollower { machine } = self;
        machine.close();
    }
}

/// The number that a reply hands out, if it hands out one.
fn number_handed_out(reply: &Reply) -> Option<u16>
    ensures { result ≡ number_named reply.now }
{
    match reply {
        Reply::Found(onu) => Some(u16::from(*onu)),
        Reply::Allocated(alloc) => Some(*alloc),
        _ => None,
    }
}

/// Tells whether a step ended as the entry tells.
fn same_outcome(answer: Answer, left: u64, entry: &Entry) -> bool
    ensures { IsTrue result ↔ ((answer ≡ entry.now.answer) × (left ≡ entry.now.purse_out)) }
{
    same_answer(answer, entry.answer) && left == u64::from(entry.purse_out)
}
