//! The serial numbers that are followed, in their order.
ghost use Rattle.std.specs.Prelude.{◌≡◌, ◌^◌, ◌<◌, IfOk, IfErr, OnErr, None, Some, map as list_map};
ghost use Rattle.std.specs.FinMap as map;
ghost use Rattle.gp_ploam.specs.Serials.{serial_cmp};
ghost use Rattle.gp_table.specs.Values.{map_values};
ghost use Rattle.gp_watch.specs.Index.{IsGapFor, IsPlaceOf, IsRising, changed, enabled, enabled_place, newly_followed, with_asks, with_disabled, with_onu};

use gp_ploam::Serial;
use std::alloc::{AllocError, Global};
use std::marker::Model;

/// What the index has for a serial number that is followed.
#[derive(Clone, Copy, Drop)]
pub(crate) struct Followed {
    /// How many asks it has left.
    pub(crate) asks: u64,
    /// The ONU-ID that it holds, if it does.
    pub(crate) onu: Option<u8>,
    /// Whether it is disabled.
    pub(crate) disabled: bool,
}

/// A serial number that is followed, and what the index has for it.
#[derive(Clone, Copy, Drop)]
struct IndexPlace {
    /// The serial number, as the number that its eight octets make, the first octet the highest.
    rank: u64,
    followed: Followed,
}

/// The serial numbers that are followed, in their order. Contracts see a finite map.
#[derive(Drop)]
pub(crate) struct Index {
    places: Vec<IndexPlace>,
}

impl Model for Index {
    ghost use Rattle.std.specs.FinMap as map;
    ghost use Rattle.gp_ploam.specs.Serials.{coded_serial};
    ghost use Rattle.gp_watch.specs.contracts.index.Followed as followed;
    ghost use Rattle.gp_watch.specs.Index.{Followeds, IsRising, index_of};

    ghost Value = { Followeds };

    ghost coded = { map.code coded_serial followed.the_row.coded };

    ghost view = { λ a. index_of a.places.items };

    ghost invariant = { λ a. IsRising a.places.items };
}

/// Where the place with this rank is, or where it would go.
fn search(places: &[IndexPlace], rank: u64) -> Result<usize, usize>
    requires { IsRising places.now }
    ensures found { IfOk result (IsPlaceOf places.now rank) }
    ensures absent { IfErr result (IsGapFor places.now rank) }
{
    let mut base = 0;
    let mut size = places.len();
    if size == 0 {
        return Err(0);
    }
    'halves: while size > 1 {
        let half = size / 2;
        let mid = base + half;
        base = if places[mid].rank <= rank { mid } else { base };
        size -= half;
    }
    let found = places[base].rank;
    if found == rank {
        Ok(base)
    } else if found < rank {
        Err(base + 1)
    } else {
        Err(base)
    }
}

/// Makes every place one that is not disabled.
fn enable_each(places: &mut [IndexPlace])
    ensures { places.new ≡ list_map enabled_place places.old }
{
    for place in places.iter_mut() {
        place.followed.disabled = false;
    }
}

impl Index {
    /// No serial number is followed.
    pub(crate) fn new(alloc: Global) -> Index
        ensures { result ≡ map.empty }
    {
        Index {
            places: Vec::new(alloc),
        }
    }

    /// How many are followed.
    pub(crate) fn len(&self) -> usize
        ensures { result ≡ map.len self.now }
    {
        self.places.len()
    }

    /// What the index has for a serial number; None where it isn't followed.
    pub(crate) fn get(&self, serial: &Serial) -> Option<Followed>
        ensures { result ≡ map.get self.now serial.now }
    {
        let places = self.places.as_slice();
        match search(places, serial.number()) {
            Ok(at) => Some(places[at].followed),
            Err(_) => None,
        }
    }

    /// Follows a serial number that has asked so often. Fails only where there is no memory, and changes nothing then.
    pub(crate) fn follow(&mut self, serial: &Serial, asks: u64) -> Result<(), AllocError>
        requires { map.get self.old serial.now ≡ None }
        ensures followed { IfOk result (λ _. self.new ≡ map.insert self.old serial.now (newly_followed asks)) }
        ensures same { OnErr result (self.new ≡ self.old) }
    {
        let rank = serial.number();
        let followed = Followed {
            asks,
            onu: None,
            disabled: false,
        };
        match search(self.places.as_slice(), rank) {
            Err(at) => self.places.insert(at, IndexPlace { rank, followed })?,
            Ok(_) => unreachable!(),
        }
        Ok(())
    }

    /// Notes how many asks a serial number has left, where it is followed.
    pub(crate) fn set_asks(&mut self, serial: &Serial, asks: u64)
        ensures { self.new ≡ changed self.old serial.now (with_asks asks) }
    {
        if let Ok(at) = search(self.places.as_slice(), serial.number()) {
            self.places[at].followed.asks = asks;
        }
    }

    /// Notes which ONU-ID a serial number holds, where it is followed.
    pub(crate) fn set_onu(&mut self, serial: &Serial, onu: Option<u8>)
        ensures { self.new ≡ changed self.old serial.now (with_onu onu) }
    {
        if let Ok(at) = search(self.places.as_slice(), serial.number()) {
            self.places[at].followed.onu = onu;
        }
    }

    /// Notes whether a serial number is disabled, where it is followed.
    pub(crate) fn set_disabled(&mut self, serial: &Serial, disabled: bool)
        ensures { self.new ≡ changed self.old serial.now (with_disabled disabled) }
    {
        if let Ok(at) = search(self.places.as_slice(), serial.number()) {
            self.places[at].followed.disabled = disabled;
        }
    }

    /// Notes that no serial number is disabled.
    pub(crate) fn enable_all(&mut self)
        ensures { self.new ≡ map_values enabled self.old }
    {
        enable_each(&mut self.places);
    }
}
