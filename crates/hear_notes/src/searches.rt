//! Which search each serial number answered last.
ghost use Rattle.std.specs.Prelude.{◌≡◌, IfErr, OnOk, OnErr, false};
ghost use Rattle.std.specs.FinMap as map;
ghost use Rattle.hear_notes.specs.Searches.{FailsFor, is_full};

use crate::fault::NoteFault;
use gp_ploam::Serial;
use std::alloc::{AllocError, Global};
use std::collections::BTreeMap;
use std::marker::Model;

/// Of how many serial numbers it is kept at most which search they answered last.
pub const MOST_SEARCHED: usize = 65_536;

/// From each serial number that answered a search to the last one that it answered. Contracts see a finite map.
#[derive(Drop)]
pub(crate) struct Searches {
    numbers: BTreeMap<Serial, u64>,
}

impl Model for Searches {
    ghost use Rattle.std.specs.Coded.{coded_ℕ};
    ghost use Rattle.std.specs.FinMap as map;
    ghost use Rattle.std.specs.List.Sorted.{IsStrictlySortedBy};
    ghost use Rattle.std.specs.Map.{keys_of};
    ghost use Rattle.gp_ploam.specs.Serials.{serial_cmp, coded_serial};
    ghost use Rattle.hear_notes.specs.Searches as spec;

    ghost Value = { spec.Searches };

    ghost coded = { map.code coded_serial coded_ℕ };

    ghost view = { λ s. map.from_sorted s.numbers.entries };

    ghost invariant = { λ s. IsStrictlySortedBy serial_cmp (keys_of s.numbers.entries) };
}

impl Searches {
    /// No serial number answered one.
    pub(crate) fn new(alloc: Global) -> Searches
        ensures { result ≡ map.empty }
    {
        Searches {
            numbers: BTreeMap::new(alloc),
        }
    }

    /// Gives the last search that a serial number answered, by its number.
    pub(crate) fn get(&self, serial: &Serial) -> Option<u64>
        ensures { result ≡ map.get self.now serial.now }
    {
        self.numbers.get(serial).copied()
    }

    /// Tells whether a serial number is new, and there is no room for it.
    fn is_full(&self, serial: &Serial) -> bool
        ensures { result ≡ is_full self.now serial.now }
    {
        self.get(serial).is_none() && self.numbers.len() >= MOST_SEARCHED
    }

    /// Notes which search a serial number answers. Fails only where it is new, and there is no memory or no room; it
    /// changes nothing then.
    pub(crate) fn put(&mut self, serial: &Serial, number: u64) -> Result<(), NoteFault>
        ensures put { OnOk result (self.new ≡ map.insert self.old serial.now number) }
        ensures room { OnOk result (is_full self.old serial.now ≡ false) }
        ensures same { OnErr result (self.new ≡ self.old) }
        ensures fails { IfErr result (FailsFor self.old serial.now) }
    {
        if self.is_full(serial) {
            return Err(NoteFault::Full);
        }
        if let Err(failed) = self.numbers.insert(*serial, number) {
            return Err(AllocError::from(failed).into());
        }
        Ok(())
    }
}
