//! The admitted serial numbers in their order, each with the key of its unit's record and whether it is disabled. One
//! search finds all that a burst asks of a serial number.
ghost use Rattle.std.specs.Prelude.{◌≡◌, ◌^◌, ◌<◌, IfOk, IfErr, None, Some, false, length, map as list_map, true};
ghost use Rattle.std.specs.FinMap as map;
ghost use Rattle.gp_ploam.specs.Serials.{serial_cmp};
ghost use Rattle.gp_table.specs.Index.{IsFresh, IsGapFor, IsPlaceOf, IsRising, admitting, changed, enabled, enabled_place, key_in, with_disabled, with_key};
ghost use Rattle.gp_table.specs.Values.{map_values};

use gp_ploam::Serial;
use std::alloc::{AllocError, Global};
use std::marker::Model;

/// What the index has for an admitted serial number.
#[derive(Clone, Copy, Drop)]
pub struct AdmittedSerial {
    /// The key of the record of its unit, where it is active.
    pub key: Option<usize>,
    /// Whether the serial number is disabled.
    pub disabled: bool,
}

/// An admitted serial number, and what the index has for it.
#[derive(Clone, Copy, Drop)]
struct IndexPlace {
    /// The serial number, as the number that its eight octets make, the first octet the highest.
    rank: u64,
    admission: AdmittedSerial,
}

/// The admitted serial numbers of a port, in their order, which stay the same from `begin` on; for each of them the
/// key of its unit's record, if it is active, and whether it is disabled. Contracts see a finite map.
#[derive(Drop)]
pub struct AdmissionIndex {
    places: Vec<IndexPlace>,
}

impl Model for AdmissionIndex {
    ghost use Rattle.std.specs.FinMap as map;
    ghost use Rattle.gp_ploam.specs.Serials.{coded_serial};
    ghost use Rattle.gp_table.specs.contracts.admission_index.AdmittedSerial as admission;
    ghost use Rattle.gp_table.specs.Index.{Admissions, IsRising, admissions_of};

    ghost Value = { Admissions };

    ghost coded = { map.code coded_serial admission.the_row.coded };

    ghost view = { λ a. admissions_of a.places.items };

    ghost invariant = { λ a. IsRising a.places.items };
}

/// Where the place with this rank is, or where it would go.
fn search(places: &[IndexPlace], rank: u64) -> Result<usize, usize>
    requires { IsRising places.now }
    ensures found { IfOk result (IsPlaceOf places.now rank) }
    ensures absent { IfErr result (IsGapFor places.now rank) }
{
    let mut base = 0;
    let mut size = places.len();
    if size == 0 {
        return Err(0);
    }
    'halves: while size > 1 {
        let half = size / 2;
        let mid = base + half;
        base = if places[mid].rank <= rank { mid } else { base };
        size -= half;
    }
    let found = places[base].rank;
    if found == rank {
        Ok(base)
    } else if found < rank {
        Err(base + 1)
    } else {
        Err(base)
    }
}

/// Makes every place one that is not disabled.
fn enable_each(places: &mut [IndexPlace])
    ensures { places.new ≡ list_map enabled_place places.old }
{
    for place in places.iter_mut() {
        place.admission.disabled = false;
    }
}

impl AdmissionIndex {
    /// An index over these serial numbers: none has a unit, and none is disabled. Fails only where there is no memory.
    pub fn begin(alloc: Global, admitted: &[Serial]) -> Result<AdmissionIndex, AllocError>
        ensures { IfOk result (IsFresh admitted.now) }
    {
        let places = Vec::with_capacity(alloc, admitted.len())?;
        let mut index = AdmissionIndex { places };
        for serial in admitted {
            index.admit(serial)?;
        }
        Ok(index)
    }

    /// Makes a second index that has the same. Fails only where there is no memory.
    pub fn try_clone(&self, alloc: Global) -> Result<AdmissionIndex, AllocError>
        ensures { IfOk result (λ index. index ≡ self.now) }
    {
        let places = self.places.as_slice().to_vec(alloc)?;
        Ok(AdmissionIndex { places })
    }

    /// Admits a serial number, where it isn't admitted yet. Fails only where there is no memory.
    fn admit(&mut self, serial: &Serial) -> Result<(), AllocError>
        ensures { IfOk result (λ _. self.new ≡ admitting self.old serial.now) }
    {
        let rank = serial.number();
        let admission = AdmittedSerial {
            key: None,
            disabled: false,
        };
        if let Err(at) = search(self.places.as_slice(), rank) {
            self.places.insert(at, IndexPlace { rank, admission })?;
        }
        Ok(())
    }

    /// What the index has for a serial number; None where it isn't admitted.
    pub fn get(&self, serial: &Serial) -> Option<AdmittedSerial>
        ensures { result ≡ map.get self.now serial.now }
    {
        let places = self.places.as_slice();
        match search(places, serial.number()) {
            Ok(at) => Some(places[at].admission),
            Err(_) => None,
        }
    }

    /// Notes the key of the record of a unit that becomes active.
    pub fn set_key(&mut self, serial: &Serial, key: usize)
        ensures { self.new ≡ changed self.old serial.now (with_key (Some key)) }
    {
        if let Ok(at) = search(self.places.as_slice(), serial.number()) {
            self.places[at].admission.key = Some(key);
        }
    }

    /// Takes out the key of a unit's record, where it is active.
    pub fn take_key(&mut self, serial: &Serial) -> Option<usize>
        ensures key { result ≡ key_in (map.get self.old serial.now) }
        ensures rest { self.new ≡ changed self.old serial.now (with_key None) }
    {
        match search(self.places.as_slice(), serial.number()) {
            Ok(at) => {
                let key = self.places[at].admission.key;
                self.places[at].admission.key = None;
                key
            }
            Err(_) => None,
        }
    }

    /// Notes whether an admitted serial number is disabled.
    pub fn set_disabled(&mut self, serial: &Serial, disabled: bool)
        ensures { self.new ≡ changed self.old serial.now (with_disabled disabled) }
    {
        if let Ok(at) = search(self.places.as_slice(), serial.number()) {
            self.places[at].admission.disabled = disabled;
        }
    }

    /// Notes that no serial number is disabled.
    pub fn enable_all(&mut self)
        ensures { self.new ≡ map_values enabled self.old }
    {
        enable_each(&mut self.places);
    }
}
