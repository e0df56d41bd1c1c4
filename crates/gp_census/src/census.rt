//! What was counted of a port and of its units.
ghost use Rattle.std.specs.Prelude.{◌≡◌, OnOk, OnErr, Some};
ghost use Rattle.std.specs.FinMap as map;
ghost use Rattle.gp_observer.specs.Watch.{is_new};
ghost use Rattle.gp_watch.specs.Heard.{heard_of};
ghost use Rattle.gp_census.specs.Counts.{one_more};
ghost use Rattle.gp_census.specs.Census.{IsNewTo, census_begun, copy_noted, counted_by, counted_by_copy, counted_by_down, counted_by_message, down_noted, message_noted, noted, port_heard, sighting_of};

use crate::sighting::{PortCounts, Sighting, one_more};
use crate::units::Units;
use gp_ploam::{Down, Serial, Up};
use gp_watch::{Heard, PortWatch};
use std::alloc::{AllocError, Global};
use std::marker::Model;

/// What was counted of a port and of its units. Memory is taken only where a unit is new.
#[derive(Drop)]
pub struct Census {
    units: Units,
    port: PortCounts,
}

impl Model for Census {
    ghost use Rattle.gp_census.specs.Census as spec;
    ghost use Rattle.gp_census.specs.Kept.{census_code};

    ghost Value = { spec.Census };

    ghost coded = { census_code };

    ghost view = { λ c. record { units = c.units; port = c.port } };
}

impl PortCounts {
    /// Gives what is counted of the port after a code up.
    fn after_up(&self, message: &Option<Up>) -> PortCounts
        ensures { result ≡ port_heard self.now message.now }
    {
        let mut port = *self;
        port.up = one_more(port.up);
        if message.is_none() {
            port.garbled_up = one_more(port.garbled_up);
        }
        port
    }
}

impl Census {
    /// Nothing was heard.
    pub fn begin(alloc: Global) -> Census
        ensures { result ≡ census_begun }
    {
        Census {
            units: Units::new(alloc),
            port: PortCounts::none(),
        }
    }

    /// Gives what was counted of a unit; of one of which nothing was, that.
    pub fn sighting(&self, serial: &Serial) -> Sighting
        ensures { result ≡ sighting_of (map.get self.now.units serial.now) }
    {
        self.units.get(serial).unwrap_or(Sighting::none())
    }

    /// Gives what was counted of the port.
    pub fn port(&self) -> PortCounts
        ensures { result ≡ self.now.port }
    {
        self.port
    }

    /// Gives how many units there are.
    pub(crate) fn count(&self) -> u64
        ensures { result ≡ map.len self.now.units }
    {
        self.units.len() as u64
    }

    /// Gives what was counted of the units.
    pub(crate) fn units(&self) -> &Units
        ensures { result.now ≡ self.now.units }
    {
        &self.units
    }

    /// Notes a message down that is told.
    fn note_message(
        &mut self,
        watch: &PortWatch,
        message: &Down,
        time: u64,
    ) -> Result<(), AllocError>
        ensures ok { OnOk result (self.new ≡ message_noted self.old watch.now message.now time) }
        ensures same { OnErr result (self.new ≡ self.old) }
        ensures new { OnErr result (IsNewTo watch.now self.old.units (counted_by_message message.now)) }
    {
        self.units.tell(watch, message, time)?;
        self.units.lose_by(watch, message);
        self.port.messages = one_more(self.port.messages);
        Ok(())
    }

    /// Notes a copy of a message down.
    fn note_copy(&mut self, watch: &PortWatch, message: &Down, time: u64) -> Result<(), AllocError>
        ensures ok { OnOk result (self.new ≡ copy_noted self.old watch.now message.now time) }
        ensures same { OnErr result (self.new ≡ self.old) }
        ensures new { OnErr result (IsNewTo watch.now self.old.units (counted_by_copy watch.now message.now)) }
    {
        if watch.is_new(message) {
            self.note_message(watch, message, time)?;
        }
        Ok(())
    }

    /// Notes a code down; None where its check octet is wrong.
    fn note_down(
        &mut self,
        watch: &PortWatch,
        message: &Option<Down>,
        time: u64,
    ) -> Result<(), AllocError>
        ensures ok { OnOk result (self.new ≡ down_noted self.old watch.now message.now time) }
        ensures same { OnErr result (self.new ≡ self.old) }
        ensures new { OnErr result (IsNewTo watch.now self.old.units (counted_by_down watch.now message.now)) }
    {
        match message {
            None => self.port.garbled_down = one_more(self.port.garbled_down),
            Some(Down::NoMessage) => {}
            Some(message) => self.note_copy(watch, message, time)?,
        }
        Ok(())
    }

    /// Counts what is heard at this time, in nanoseconds, by what is known before it. Fails only where a unit is new,
    /// and there is no memory; nothing is counted then.
    pub fn note(&mut self, watch: &PortWatch, heard: &Heard, time: u64) -> Result<(), AllocError>
        ensures ok { OnOk result (self.new ≡ noted self.old watch.now (heard_of heard.now) time) }
        ensures same { OnErr result (self.new ≡ self.old) }
        ensures new { OnErr result (IsNewTo watch.now self.old.units (counted_by watch.now (heard_of heard.now))) }
    {
        match heard {
            Heard::Down(message) => self.note_down(watch, message, time)?,
            Heard::Up { message, .. } => {
                self.units.hear(watch, message, time)?;
                self.port = self.port.after_up(message);
            }
            Heard::Grant(_) => self.port.grants = one_more(self.port.grants),
        }
        Ok(())
    }
}
