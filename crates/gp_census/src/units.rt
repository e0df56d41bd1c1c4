//! The units of which something was counted, by their serial numbers.
ghost use Rattle.std.specs.Prelude.{◌≡◌, IfOk, OnOk, OnErr, None, Some};
ghost use Rattle.std.specs.FinMap as map;
ghost use Rattle.gp_observer.specs.Watch.{can_follow};
ghost use Rattle.gp_census.specs.Census.{IsNewTo, changed, changed_of, counted, counted_if, sighting_of};

use crate::sighting::{Sighting, UnitEvent};
use gp_ploam::Serial;
use gp_watch::PortWatch;
use std::alloc::{AllocError, Global};
use std::collections::BTreeMap;
use std::collections::btree_map::Iter;
use std::marker::Model;

/// From each serial number of which something was counted to what was. Contracts see a finite map.
#[derive(Drop)]
pub(crate) struct Units {
    sightings: BTreeMap<Serial, Sighting>,
}

impl Model for Units {
    ghost use Rattle.std.specs.FinMap as map;
    ghost use Rattle.std.specs.List.Sorted.{IsStrictlySortedBy};
    ghost use Rattle.std.specs.Map.{keys_of};
    ghost use Rattle.gp_ploam.specs.Serials.{serial_cmp, coded_serial};
    ghost use Rattle.gp_census.specs.contracts.sighting.Sighting as sighting;
    ghost use Rattle.gp_census.specs.Census.{Sightings};

    ghost Value = { Sightings };

    ghost coded = { map.code coded_serial sighting.the_row.coded };

    ghost view = { λ u. map.from_sorted u.sightings.entries };

    ghost invariant = { λ u. IsStrictlySortedBy serial_cmp (keys_of u.sightings.entries) };
}

impl Units {
    /// Nothing was counted of any.
    pub(crate) fn new(alloc: Global) -> Units
        ensures { result ≡ map.empty }
    {
        Units {
            sightings: BTreeMap::new(alloc),
        }
    }

    /// Gives how many units there are.
    pub(crate) fn len(&self) -> usize
        ensures { result ≡ map.len self.now }
    {
        self.sightings.len()
    }

    /// Gives them in the order of their serial numbers.
    pub(crate) fn iter(&self) -> Iter<'_, Serial, Sighting>
        ensures { result ≡ map.entries self.now }
    {
        self.sightings.iter()
    }

    /// Gives what was counted of a unit.
    pub(crate) fn get(&self, serial: &Serial) -> Option<Sighting>
        ensures { result ≡ map.get self.now serial.now }
    {
        self.sightings.get(serial).copied()
    }

    /// Keeps what is counted of a unit. Fails only where nothing was, and there is no memory; nothing changes then.
    fn put(&mut self, serial: &Serial, unit: Sighting) -> Result<(), AllocError>
        ensures ok { OnOk result (self.new ≡ map.insert self.old serial.now unit) }
        ensures same { OnErr result (self.new ≡ self.old) }
        ensures new { OnErr result (map.get self.old serial.now ≡ None) }
    {
        self.sightings.insert(*serial, unit)?;
        Ok(())
    }

    /// Notes what happens to a unit, if something was counted of it.
    pub(crate) fn change(&mut self, serial: &Serial, event: UnitEvent)
        ensures { self.new ≡ changed self.old serial.now event }
    {
        let Some(unit) = self.sightings.get_mut(serial) else {
            return;
        };
        *unit = unit.after(event);
    }

    /// Notes what happens to this unit, if there is one.
    pub(crate) fn change_of(&mut self, serial: Option<Serial>, event: UnitEvent)
        ensures { self.new ≡ changed_of self.old serial event }
    {
        if let Some(serial) = serial {
            self.change(&serial, event);
        }
    }

    /// Notes what happens to a unit, which is counted from now on.
    fn count(&mut self, serial: &Serial, event: UnitEvent) -> Result<(), AllocError>
        ensures ok { OnOk result (self.new ≡ counted self.old serial.now event) }
        ensures same { OnErr result (self.new ≡ self.old) }
        ensures new { OnErr result (map.get self.old serial.now ≡ None) }
    {
        let unit = self.get(serial).unwrap_or(Sighting::none());
        self.put(serial, unit.after(event))
    }

    /// Notes what happens to a unit, which is counted from now on where an observer follows it or has room to.
    pub(crate) fn count_if(
        &mut self,
        watch: &PortWatch,
        serial: &Serial,
        event: UnitEvent,
    ) -> Result<(), AllocError>
        ensures ok { OnOk result (self.new ≡ counted_if self.old watch.now serial.now event) }
        ensures same { OnErr result (self.new ≡ self.old) }
        ensures new { OnErr result (IsNewTo watch.now self.old (Some serial.now)) }
    {
        if watch.can_follow(serial) {
            self.count(serial, event)?;
        }
        Ok(())
    }
}
