//! `PortCore`, a port as others use it: each step is one of the machine, keeps it sound, and leaves a licence with each
//! active unit, so that none is made or lost.
ghost use Rattle.std.specs.Prelude.{◌≡◌, ◌+◌, ◌≤◌, None, false, length, IfOk, IsErrOf, IsTrue, ◌↔◌};
ghost use Rattle.std.specs.FinMap as map;
ghost use Rattle.std.specs.FinSet as set;
ghost use Rattle.std.specs.Option.{option_map};
ghost use Rattle.gp_volley.specs.Copies.{max_copies};
ghost use Rattle.gp_unit.specs.Records.{view_of};
ghost use Rattle.gp_machine.specs.Config.{is_within_limits};
ghost use Rattle.gp_machine.specs.State.{opening_of, rows_of};
ghost use Rattle.gp_machine.specs.Sound.{IsSound};
ghost use Rattle.gp_machine.specs.Changes.{step_result_of};
ghost use Rattle.gp_machine.specs.Run.{IsStep, entry_outcome};
ghost use Rattle.gp_port.specs.Steps.{MakesStep};

use super::image::{ImageFault, PortImage};
use super::open::OpenFault;
use super::port_machine::PortMachine;
use gp_common::Common;
use gp_licence::Licences;
use gp_machine::{
    Answer, Entry, Event, PortConfig, Reply, refusals_change_nothing, sound_step,
    step_keeps_licences, step_sends_in_order,
};
use gp_ploam::Serial;
use gp_unit::RowView;
use std::alloc::Global;
use std::marker::Model;
use std::sync::ledger::Ledger;

/// The activation machine of one port (G.984.3, clause 10), for 1 to 254 units. It holds a licence for each
/// active unit, so it is ended by `close` and never dropped. Its clock is the downstream frame (125
/// microseconds), and its delays are in bit times. Contracts see its state.
pub struct PortCore<L: Ledger> {
    machine: PortMachine,
    held: Licences<L>,
}

impl<L: Ledger> Model for PortCore<L> {
    ghost use Rattle.gp_machine.specs.Codes.{port_codes};
    ghost use Rattle.gp_machine.specs.State.{PortState};
    ghost use Rattle.gp_port.specs.Parts.{IsKept};

    ghost Value = { PortState };

    ghost coded = { Prim.hlevel port_codes };

    ghost view = { λ c. c.machine };

    ghost invariant = { λ c. IsKept c.machine c.held };
}

impl<L: Ledger> PortCore<L> {
    /// Opens a port with no units, in standby. All the memory that it ever needs is taken here: for a copy of the
    /// config, 254 units and 64 messages. `OpenFault` says when it is not opened.
    pub fn begin(alloc: Global, config: &PortConfig) -> Result<PortCore<L>, OpenFault>
        ensures opening { IfOk result (λ port. port ≡ opening_of config.now) }
        ensures limit { IsErrOf result OpenFault.Limit ↔ (is_within_limits config.now ≡ false) }
    {
        let machine = PortMachine::begin(alloc, config)?;
        Ok(PortCore {
            machine,
            held: Licences::none(),
        })
    }

    /// Makes one step of the machine with these licences at hand: a new unit takes one of them, and a unit that is
    /// removed gives its one back. What is left of them is given back. It takes no memory. Which of the free numbers
    /// a new unit or a command gets is not promised. A burst's delay and an equalization delay in the answer are in
    /// bit times.
    // Inlined, so that the answer is copied to where the caller wants it.
    #[inline(always)]
    pub fn step(&mut self, purse: Licences<L>, event: Event) -> (Answer, Licences<L>)
        ensures { MakesStep purse self.old event None (step_result_of result self.new) }
    {
        self.step_wishing(purse, event, None)
    }

    /// Does the same, and hands out the wished number where it is free and one is handed out.
    #[inline(always)]
    pub fn step_wishing(
        &mut self,
        purse: Licences<L>,
        event: Event,
        wished: Option<u16>,
    ) -> (Answer, Licences<L>)
        ensures { MakesStep purse self.old event wished (step_result_of result self.new) }
    {
        let mut answer = Answer::from(Reply::Ticked);
        let rest = self.step_into(purse, event, wished, &mut answer);
        (answer, rest)
    }

    /// Does the same, and writes the entry that tells of the step where the caller wants it, whatever stood there.
    #[inline(always)]
    pub fn step_entry(
        &mut self,
        purse: Licences<L>,
        event: Event,
        wished: Option<u16>,
        entry: &mut Entry,
    ) -> Licences<L>
        ensures purse_in { entry.new.purse_in ≡ purse }
        ensures event { entry.new.event ≡ event }
        ensures purse_out { entry.new.purse_out ≡ result }
        ensures step { IsStep self.old entry.new self.new }
        ensures makes { MakesStep purse self.old event wished (entry_outcome entry.new self.new) }
    {
        entry.purse_in = purse.count();
        entry.event = event;
        let rest = self.step_into(purse, event, wished, &mut entry.answer);
        entry.purse_out = rest.count();
        rest
    }

    /// Makes the step, and writes the answer where the caller wants it, whatever stood there.
    #[inline(always)]
    fn step_into(
        &mut self,
        purse: Licences<L>,
        event: Event,
        wished: Option<u16>,
        answer: &mut Answer,
    ) -> Licences<L>
        ensures { MakesStep purse self.old event wished (step_result_of (answer.new, result) self.new) }
    {
        sound_step();
        step_keeps_licences();
        step_sends_in_order();
        refusals_change_nothing();
        let left = self
            .machine
            .step_into(u64::from(purse.count()), event, wished, answer);
        share_out(purse, &mut self.held, left as u32)
    }

    /// Gives what the port was opened with. It never changes, and is within the limits.
    pub fn config(&self) -> &PortConfig
        ensures config { result.now ≡ self.now.config }
        ensures limits { IsTrue (is_within_limits result.now) }
    {
        self.machine.config()
    }

    /// Tells what the port knows of the unit with this serial number, if it is active.
    pub fn row_of(&self, serial: &Serial) -> Option<RowView>
        ensures { result ≡ option_map view_of (map.get self.now.rows serial.now) }
    {
        match self.machine.row_of(serial) {
            Some(row) => Some(row.view()),
            None => None,
        }
    }

    /// Tells whether the serial number is disabled: its unit is not to send, and gets no ONU-ID.
    pub fn is_disabled(&self, serial: &Serial) -> bool
        ensures { result ≡ set.contains self.now.disabled serial.now }
    {
        self.machine.is_disabled(serial)
    }

    /// Tells how many units are active, at most `max_units` of the config.
    pub fn rows(&self) -> usize
        ensures { result ≡ rows_of self.now }
    {
        self.machine.rows()
    }

    /// Tells how many copies of messages are still to be sent, one with each frame.
    pub fn owed(&self) -> usize
        ensures owed { result ≡ length self.now.owed }
        ensures most { result ≤ max_copies }
    {
        self.machine.owed()
    }

    /// Tells what the port does for all units together: it is in standby, searches for units, or measures delays.
    pub fn common(&self) -> Common
        ensures { result ≡ self.now.common }
    {
        self.machine.common()
    }

    /// Makes an image of the port as it stands.
    pub fn image(&self, alloc: Global) -> Result<PortImage, ImageFault>
        ensures { IfOk result (λ image. image ≡ self.now) }
    {
        self.machine.image(alloc)
    }

    /// Tells whether the port stands as the image has it.
    pub fn stands_for(&self, image: &PortImage) -> bool
        ensures { IsTrue result ↔ (self.now ≡ image.now) }
    {
        self.machine.stands_for(image)
    }

    /// Tells whether a machine stands where the port does.
    pub(super) fn stands_as(&self, machine: &PortMachine) -> bool
        requires { IsSound machine.now }
        ensures { IsTrue result ↔ (machine.now ≡ self.now) }
    {
        machine.is_same_as(&self.machine)
    }

    /// Ends the port, with the licence of each unit. A window that is open is closed.
    pub fn close(self) -> Licences<L>
        ensures { result ≡ rows_of self }
    {
        let PortCore { machine, held } = self;
        machine.close();
        held
    }
}

/// Moves licences between the two, so that `left` of them are given back and the port holds the others.
fn share_out<L: Ledger>(purse: Licences<L>, held: &mut Licences<L>, left: u32) -> Licences<L>
    requires { left ≤ purse + held.old }
    ensures left { result ≡ left }
    ensures held { held.new + result ≡ purse + held.old }
{
    let mut purse = purse;
    let had = purse.count();
    if left < had {
        held.absorb(purse.split_off(had - left));
    } else if had < left {
        purse.absorb(held.split_off(left - had));
    }
    purse
}
