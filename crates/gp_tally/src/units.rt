//! The units of which something was counted, by their serial numbers.
ghost use Rattle.std.specs.Prelude.{◌≡◌, IfOk, OnOk, OnErr, None};
ghost use Rattle.std.specs.FinMap as map;
ghost use Rattle.gp_tally.specs.Tally.{changed, changed_of, counted, most_units};

use crate::counts::{UnitCounts, UnitEvent};
use gp_ploam::Serial;
use std::alloc::{AllocError, Global};
use std::collections::BTreeMap;
use std::collections::btree_map::Iter;
use std::marker::Model;

/// Of how many units of a port is counted at most: as many as a port may admit.
const MOST_UNITS: usize = 512;

/// From each serial number of which something was counted to what was. Contracts see a finite map.
#[derive(Drop)]
pub struct Units {
    counts: BTreeMap<Serial, UnitCounts>,
}

impl Model for Units {
    ghost use Rattle.std.specs.FinMap as map;
    ghost use Rattle.std.specs.List.Sorted.{IsStrictlySortedBy};
    ghost use Rattle.std.specs.Map.{keys_of};
    ghost use Rattle.gp_ploam.specs.Serials.{serial_cmp, coded_serial};
    ghost use Rattle.gp_tally.specs.contracts.counts.UnitCounts as unit;
    ghost use Rattle.gp_tally.specs.Tally as spec;

    ghost Value = { spec.Units };

    ghost coded = { map.code coded_serial unit.the_row.coded };

    ghost view = { λ u. map.from_sorted u.counts.entries };

    ghost invariant = { λ u. IsStrictlySortedBy serial_cmp (keys_of u.counts.entries) };
}

impl Units {
    /// Nothing was counted of any.
    pub(crate) fn new(alloc: Global) -> Units
        ensures { result ≡ map.empty }
    {
        Units {
            counts: BTreeMap::new(alloc),
        }
    }

    /// Tells how many units there are.
    pub fn len(&self) -> usize
        ensures { result ≡ map.len self.now }
    {
        self.counts.len()
    }

    /// Gives them in the order of their serial numbers.
    pub fn iter(&self) -> Iter<'_, Serial, UnitCounts>
        ensures { result ≡ map.entries self.now }
    {
        self.counts.iter()
    }

    /// Gives what was counted of a unit.
    pub fn get(&self, serial: &Serial) -> Option<UnitCounts>
        ensures { result ≡ map.get self.now serial.now }
    {
        self.counts.get(serial).copied()
    }

    /// Keeps what is counted of a unit. Fails only where nothing was, and there is no memory; nothing changes then.
    fn put(&mut self, serial: &Serial, unit: UnitCounts) -> Result<(), AllocError>
        ensures ok { OnOk result (self.new ≡ map.insert self.old serial.now unit) }
        ensures same { OnErr result (self.new ≡ self.old) }
        ensures new { OnErr result (map.get self.old serial.now ≡ None) }
    {
        self.counts.insert(*serial, unit)?;
        Ok(())
    }

    /// Notes what happens to a unit, if something was counted of it.
    pub(crate) fn change(&mut self, serial: &Serial, event: UnitEvent)
        ensures { self.new ≡ changed self.old serial.now event }
    {
        let Some(unit) = self.counts.get_mut(serial) else {
            return;
        };
        *unit = unit.after(event);
    }

    /// Notes what happens to this unit, if there is one.
    pub(crate) fn change_of(&mut self, serial: Option<Serial>, event: UnitEvent)
        ensures { self.new ≡ changed_of self.old serial event }
    {
        if let Some(serial) = serial {
            self.change(&serial, event);
        }
    }

    /// Notes what happens to a unit, which is counted from now on where there is room for one more. Fails only where
    /// nothing was counted of it, and there is no memory; nothing changes then.
    pub(crate) fn count(&mut self, serial: &Serial, event: UnitEvent) -> Result<(), AllocError>
        ensures ok { OnOk result (self.new ≡ counted self.old serial.now event) }
        ensures same { OnErr result (self.new ≡ self.old) }
    {
        match self.get(serial) {
            Some(unit) => self.put(serial, unit.after(event)),
            None if self.len() < MOST_UNITS => self.put(serial, UnitCounts::none().after(event)),
            None => Ok(()),
        }
    }
}
