//! What is counted of a port and of its units.
ghost use Rattle.std.specs.Prelude.{◌≡◌, IfOk, OnOk, OnErr};
ghost use Rattle.gp_tally.specs.Tally as spec;

use crate::counts::{PortCounts, UnitEvent};
use crate::hearing::asker;
use crate::told::Told;
use crate::units::Units;
use gp_alarms::Alarm;
use gp_ploam::{ONU_IDS, Serial};
use std::alloc::{AllocError, Global};
use std::marker::Model;

/// What is counted of a port and of its units, with the unit that was found last with each ONU-ID. Memory is taken only
/// where a unit is new.
#[derive(Drop)]
pub struct PortTally {
    counts: PortCounts,
    holders: [Option<Serial>; ONU_IDS as usize],
    pub(crate) units: Units,
}

impl Model for PortTally {
    ghost use Rattle.std.specs.Coded.{codes};
    ghost use Rattle.std.specs.FinMap as map;
    ghost use Rattle.gp_ploam.specs.Serials.{serial_cmp, coded_serial};
    ghost use Rattle.gp_tally.specs.contracts.counts.PortCounts as port;
    ghost use Rattle.gp_tally.specs.contracts.counts.UnitCounts as unit;
    ghost use Rattle.gp_tally.specs.Tally as spec;

    ghost Value = { spec.PortTally };

    ghost coded = { Prim.hlevel
        (codes, coded_serial, port.the_row.coded, map.code {R = serial_cmp} coded_serial unit.the_row.coded) };

    ghost view = { λ t. record { counts = t.counts; holders = t.holders; units = t.units } };
}

impl PortTally {
    /// Nothing was counted.
    pub(crate) fn new(alloc: Global) -> PortTally
        ensures { result ≡ spec.no_tally }
    {
        PortTally {
            counts: PortCounts::none(),
            holders: [None; ONU_IDS as usize],
            units: Units::new(alloc),
        }
    }

    /// Gives what was counted of the port.
    pub fn counts(&self) -> &PortCounts
        ensures { result.now ≡ self.now.counts }
    {
        &self.counts
    }

    /// Gives what was counted of its units.
    pub fn units(&self) -> &Units
        ensures { result.now ≡ self.now.units }
    {
        &self.units
    }

    /// Gives the unit that was found last with an ONU-ID.
    pub(crate) fn holder(&self, onu: u8) -> Option<Serial>
        ensures { result ≡ spec.holder self.now.holders onu }
    {
        self.holders.get(usize::from(onu)).copied().flatten()
    }

    /// Keeps which unit was found with an ONU-ID.
    fn keep_holder(&mut self, who: Option<Serial>, found: Option<u16>)
        ensures counts { self.new.counts ≡ self.old.counts }
        ensures holders { self.new.holders ≡ spec.holders_with self.old.holders who found }
        ensures units { self.new.units ≡ self.old.units }
    {
        let (Some(serial), Some(onu)) = (who, found) else {
            return;
        };
        let place = usize::from(onu);
        if place < self.holders.len() {
            self.holders[place] = Some(serial);
        }
    }

    /// Counts an alarm for its unit.
    fn raise(&mut self, alarm: &Option<Alarm>)
        ensures counts { self.new.counts ≡ self.old.counts }
        ensures holders { self.new.holders ≡ self.old.holders }
        ensures units { self.new.units ≡ spec.unit_alarmed self.old.units alarm.now }
    {
        if let Some(alarm) = alarm {
            self.units
                .change(&alarm.serial, UnitEvent::Raises(alarm.kind));
        }
    }

    /// Counts what a line tells. Fails only where a unit is new, and there is no memory; nothing is counted then.
    pub(crate) fn note(&mut self, told: &Told) -> Result<(), AllocError>
        ensures ok { OnOk result (self.new ≡ spec.noted self.old told.now) }
        ensures same { OnErr result (self.new ≡ self.old) }
    {
        let counts = self.counts.after(told);
        self.meet(told, counts.frames)?;
        self.raise(&told.answered.alarm);
        self.keep_holder(asker(&told.happened), told.answered.found);
        self.counts = counts;
        Ok(())
    }
}
