//! What a message changes of the counts of units: who is told something, who loses an ONU-ID, and who is heard.
ghost use Rattle.std.specs.Prelude.{◌≡◌, ◌==◌, not, true, false, if◌then◌else◌, OnOk, OnErr, None, Some};
ghost use Rattle.gp_ploam.specs.OnuIds.{onu_ids, broadcast_onu};
ghost use Rattle.gp_observer.specs.Rules.{holds_one, is_anothers};
ghost use Rattle.gp_census.specs.Census.{IsNewTo, all_lost, changed_holder, counted_by_message, counted_by_up, lost_for_another, lost_to_another, serial_noted, units_heard, units_lost, units_told};
ghost use Rattle.gp_census.specs.declared.sighting.UnitEvent.TheVariants.{IsRenumbered, Loses};

use crate::sighting::UnitEvent;
use crate::units::Units;
use gp_ploam::{BROADCAST_ONU, Down, LAST_ONU, ONU_IDS, Serial, Up};
use gp_watch::PortWatch;
use std::alloc::AllocError;

impl Units {
    /// Notes what happens to the unit that holds an ONU-ID, if one does.
    fn change_holder(&mut self, watch: &PortWatch, onu: u8, event: UnitEvent)
        ensures { self.new ≡ changed_holder self.old watch.now onu event }
    {
        self.change_of(watch.holder(onu), event);
    }

    /// Notes to which unit a message down is told. Fails only where nothing was counted of the unit that gets an
    /// ONU-ID, and there is no memory; nothing changes then.
    pub(crate) fn tell(
        &mut self,
        watch: &PortWatch,
        message: &Down,
        time: u64,
    ) -> Result<(), AllocError>
        ensures ok { OnOk result (self.new ≡ units_told self.old watch.now message.now time) }
        ensures same { OnErr result (self.new ≡ self.old) }
        ensures new { OnErr result (IsNewTo watch.now self.old (counted_by_message message.now)) }
    {
        match message {
            Down::AssignOnu { serial, .. } => {
                self.count_if(watch, serial, UnitEvent::IsAssigned)?;
            }
            Down::RangingTime { onu, .. } => {
                self.change_holder(watch, *onu, UnitEvent::IsRanged(time));
            }
            _ => {}
        }
        Ok(())
    }

    /// Notes that each unit loses the ONU-ID that it holds.
    fn lose_all(&mut self, watch: &PortWatch)
        ensures { self.new ≡ all_lost onu_ids self.old watch.now }
    {
        for onu in 0..ONU_IDS {
            self.change_holder(watch, onu, UnitEvent::Loses);
        }
    }

    /// Notes that another unit that holds this ONU-ID loses it.
    fn lose_to(&mut self, watch: &PortWatch, onu: u8, serial: &Serial)
        ensures { self.new ≡ lost_to_another self.old watch.now onu serial.now }
    {
        if watch.is_anothers(onu, serial) {
            self.change_holder(watch, onu, UnitEvent::Loses);
        }
    }

    /// Notes that a unit that holds another ONU-ID gets this one.
    fn lose_for(&mut self, watch: &PortWatch, onu: u8, serial: &Serial)
        ensures { self.new ≡ lost_for_another self.old watch.now onu serial.now }
    {
        if watch.holds_other(serial, onu) {
            self.change(serial, UnitEvent::IsRenumbered);
        }
    }

    /// Notes who loses an ONU-ID by a message down.
    pub(crate) fn lose_by(&mut self, watch: &PortWatch, message: &Down)
        ensures { self.new ≡ units_lost self.old watch.now message.now }
    {
        match message {
            Down::AssignOnu { onu, serial } if *onu <= LAST_ONU => {
                self.lose_to(watch, *onu, serial);
                self.lose_for(watch, *onu, serial);
            }
            Down::Deactivate { onu } if *onu == BROADCAST_ONU => self.lose_all(watch),
            Down::Deactivate { onu } => self.change_holder(watch, *onu, UnitEvent::Loses),
            Down::DisableSerial { serial } if watch.holds_any(serial) => {
                self.change(serial, UnitEvent::Loses);
            }
            _ => {}
        }
    }

    /// Notes a serial number that a unit gives with an ONU-ID, or asks for one with.
    fn hear_serial(
        &mut self,
        watch: &PortWatch,
        onu: u8,
        serial: &Serial,
        time: u64,
    ) -> Result<(), AllocError>
        ensures ok { OnOk result (self.new ≡ serial_noted self.old watch.now onu serial.now time) }
        ensures same { OnErr result (self.new ≡ self.old) }
        ensures new { OnErr result (IsNewTo watch.now self.old (if onu == broadcast_onu then Some serial.now else None)) }
    {
        if onu == BROADCAST_ONU {
            return self.count_if(watch, serial, UnitEvent::Asks(time));
        }
        if watch.is_of(serial, onu) {
            self.change(serial, UnitEvent::Answers(time));
        }
        Ok(())
    }

    /// Notes a code up. Fails only where nothing was counted of a unit that asks, and there is no memory; nothing
    /// changes then.
    pub(crate) fn hear(
        &mut self,
        watch: &PortWatch,
        message: &Option<Up>,
        time: u64,
    ) -> Result<(), AllocError>
        ensures ok { OnOk result (self.new ≡ units_heard self.old watch.now message.now time) }
        ensures same { OnErr result (self.new ≡ self.old) }
        ensures new { OnErr result (IsNewTo watch.now self.old (counted_by_up message.now)) }
    {
        match message {
            Some(Up::SerialNumber { onu, serial, .. }) => {
                self.hear_serial(watch, *onu, serial, time)?;
            }
            Some(message) => {
                self.change_holder(watch, message.octet1(), UnitEvent::Answers(time));
            }
            None => {}
        }
        Ok(())
    }
}
