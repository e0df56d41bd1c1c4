//! What a burst changes of the counts of units: who asks, who answers, who is found and who is ranged.
ghost use Rattle.std.specs.Prelude.{◌≡◌, OnOk, OnErr};
ghost use Rattle.gp_tally.specs.Tally as spec;

use crate::counts::UnitEvent;
use crate::port_tally::PortTally;
use crate::told::{Answered, Happened, Told};
use crate::units::Units;
use gp_machine::Refusal;
use gp_ploam::{BROADCAST_ONU, Serial, Up};
use std::alloc::AllocError;

/// Tells whether a burst that is refused so is nobody's.
fn is_nobodys(refused: Option<Refusal>) -> bool
    ensures { result ≡ spec.is_nobodys refused }
{
    matches!(
        refused,
        Some(Refusal::Stray | Refusal::Garbled | Refusal::WrongWindow | Refusal::NotAdmitted)
    )
}

/// Gives the unit that asks for an ONU-ID by a message.
fn asker_of(message: &Up) -> Option<Serial>
    ensures { result ≡ spec.asker_of message.now }
{
    match message {
        Up::SerialNumber { onu, serial, .. } if *onu == BROADCAST_ONU => Some(*serial),
        _ => None,
    }
}

/// Gives the unit that asks for an ONU-ID, if one does.
pub(crate) fn asker(happened: &Happened) -> Option<Serial>
    ensures { result ≡ spec.asker happened.now }
{
    match happened {
        Happened::Burst(Some(message)) => asker_of(message),
        _ => None,
    }
}

impl Units {
    /// Notes that a unit is found, if an ONU-ID is given to it.
    fn find(&mut self, serial: &Serial, found: Option<u16>)
        ensures { self.new ≡ spec.unit_found self.old serial.now found }
    {
        if found.is_some() {
            self.change(serial, UnitEvent::IsFound);
        }
    }

    /// Notes that a unit is ranged, if one is.
    fn range(&mut self, who: Option<Serial>, ranged: bool, frame: u64)
        ensures { self.new ≡ spec.unit_ranged self.old who ranged frame }
    {
        if ranged {
            self.change_of(who, UnitEvent::IsRanged(frame));
        }
    }
}

impl PortTally {
    /// Gives the unit that a message is from.
    fn answerer(&self, happened: &Happened) -> Option<Serial>
        ensures { result ≡ spec.answerer self.now.holders happened.now }
    {
        match happened {
            Happened::Burst(Some(message)) => self.holder(message.octet1()),
            _ => None,
        }
    }

    /// Notes who is heard in this frame. Fails only where a unit is new, and there is no memory; nothing changes then.
    fn hear(
        &mut self,
        happened: &Happened,
        answered: &Answered,
        frame: u64,
    ) -> Result<(), AllocError>
        ensures ok { OnOk result
            (self.new.units ≡ spec.units_heard self.old happened.now answered.now (spec.asker happened.now) frame) }
        ensures same { OnErr result (self.new ≡ self.old) }
        ensures counts { self.new.counts ≡ self.old.counts }
        ensures holders { self.new.holders ≡ self.old.holders }
    {
        match asker(happened) {
            Some(serial) => {
                self.units.count(&serial, UnitEvent::Asks(frame))?;
                self.units.find(&serial, answered.found);
            }
            None => {
                let who = self.answerer(happened);
                self.units.change_of(who, UnitEvent::Answers(frame));
                self.units.range(who, answered.ranged, frame);
            }
        }
        Ok(())
    }

    /// Notes who is heard in this frame, unless the burst is nobody's. Fails only where a unit is new, and there is no
    /// memory; nothing changes then.
    pub(crate) fn meet(&mut self, told: &Told, frame: u64) -> Result<(), AllocError>
        ensures ok { OnOk result (self.new.units ≡ spec.units_met self.old told.now frame) }
        ensures same { OnErr result (self.new ≡ self.old) }
        ensures counts { self.new.counts ≡ self.old.counts }
        ensures holders { self.new.holders ≡ self.old.holders }
    {
        if is_nobodys(told.answered.refused) {
            return Ok(());
        }
        self.hear(&told.happened, &told.answered, frame)
    }
}
