//! The map of the admission list, ordered by serial number.
ghost use Rattle.std.specs.Prelude.{◌≡◌, ℕ, ◌+◌, ◌==◌, ◌↔◌, if◌then◌else◌, false, None, IsSome, IsTrue, MatchOption, IfOk, OnErr};
ghost use Rattle.std.specs.FinMap as map;
ghost use Rattle.gp_serial.specs.Admitted.{count_on};

use crate::key::SerialKey;
use gp_ploam::Serial;
use std::alloc::{AllocError, Global};
use std::collections::BTreeMap;
use std::marker::Model;

/// Where a serial number is admitted, and whether its unit is disabled.
#[derive(Clone, Copy, Debug, PartialEq, Eq)]
pub struct Admission {
    /// The port that it is admitted on.
    pub port: u8,
    /// Its unit is disabled.
    pub disabled: bool,
}

/// A map from serial number to admission.
#[derive(Drop)]
pub(crate) struct Index {
    admissions: BTreeMap<SerialKey, Admission>,
}

impl Model for Index {
    ghost use Rattle.std.specs.FinMap as map;
    ghost use Rattle.std.specs.List.Sorted.{IsStrictlySortedBy};
    ghost use Rattle.std.specs.Map.{keys_of};
    ghost use Rattle.gp_ploam.specs.Serials.{serial_cmp, coded_serial};
    ghost use Rattle.gp_serial.specs.declared.index.Admission.{Admission};
    ghost use Rattle.gp_serial.specs.contracts.index.Admission as admission;

    ghost Value = { map.FinMap serial_cmp Admission };

    ghost coded = { map.code coded_serial admission.the_row.coded };

    ghost view = { λ a. map.from_sorted a.admissions.entries };

    ghost invariant = { λ a. IsStrictlySortedBy serial_cmp (keys_of a.admissions.entries) };
}

impl Index {
    /// Makes an empty map.
    pub(crate) fn new(alloc: Global) -> Index
        ensures { result ≡ map.empty }
    {
        Index {
            admissions: BTreeMap::new(alloc),
        }
    }

    /// Gives the admission of a serial number.
    pub(crate) fn get(&self, serial: &Serial) -> Option<Admission>
        ensures { result ≡ map.get self.now serial.now }
    {
        self.admissions.get(&SerialKey::of(*serial)).copied()
    }

    /// Adds a serial number, which counts on its port, and says whether it was added: by one search where it is. One
    /// that is there already stays as it is.
    pub(crate) fn insert(
        &mut self,
        serial: Serial,
        admission: Admission,
    ) -> Result<bool, AllocError>
        ensures added { IfOk result (λ added. IsTrue added ↔ (map.get self.old serial ≡ None)) }
        ensures ok { IfOk result (λ added. IsTrue added → self.new ≡ map.insert self.old serial admission) }
        ensures counts { IfOk result (λ added. IsTrue added → (port : ℕ) → count_on port self.new
            ≡ (if admission.port == port then 1 else 0) + count_on port self.old) }
        ensures stays { IfOk result (λ added. (added ≡ false) → self.new ≡ self.old) }
        ensures absent { OnErr result (map.get self.old serial ≡ None) }
        ensures err { OnErr result (self.new ≡ self.old) }
    {
        match self.admissions.insert(SerialKey::of(serial), admission)? {
            None => Ok(true),
            Some(before) => {
                self.admissions.insert(SerialKey::of(serial), before)?;
                Ok(false)
            },
        }
    }

    /// Disables or enables a serial number that is there, which changes no count.
    pub(crate) fn set_disabled(&mut self, serial: &Serial, disabled: bool) -> bool
        ensures known { IsTrue result ↔ IsSome (map.get self.old serial.now) }
        ensures set { MatchOption (map.get self.old serial.now) (self.new ≡ self.old)
            (λ a. self.new ≡ map.insert self.old serial.now (record a { disabled = disabled })) }
        ensures counts { (port : ℕ) → count_on port self.new ≡ count_on port self.old }
    {
        let Some(admission) = self.admissions.get_mut(&SerialKey::of(*serial)) else {
            return false;
        };
        admission.disabled = disabled;
        true
    }
}
