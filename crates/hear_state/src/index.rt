//! The serial numbers that are followed, in their order, and what is known of each.
ghost use Rattle.std.specs.Prelude.{◌≡◌, ◌^◌, if◌then◌else◌, ◌<◌, IfOk, IfErr, OnOk, OnErr, None, Some, false, map as list_map};
ghost use Rattle.std.specs.FinMap as map;
ghost use Rattle.gp_ploam.specs.Serials.{serial_cmp};
ghost use Rattle.gp_table.specs.Values.{map_values};
ghost use Rattle.hear_state.specs.Changes.{IsAssigned, asking_serial, disabled_serial, other_than};
ghost use Rattle.hear_state.specs.Heard.{is_most};
ghost use Rattle.hear_state.specs.Index.{FailsFor, IsGapFor, IsPlaceOf, IsRising, answered, changed, enabled, enabled_place, is_full, released, released_place};

use crate::facts::{Fact, Sure, is_other};
use crate::fault::HearFault;
use gp_ploam::Serial;
use std::alloc::{AllocError, Global};
use std::marker::Model;

/// How many serial numbers are followed at most.
pub const MOST_FOLLOWED: usize = 65_536;

/// What is known of a serial number.
#[derive(Clone, Copy, Debug, PartialEq, Eq)]
pub(crate) struct Followed {
    /// Which ONU-ID it holds.
    pub(crate) holds: Fact<u8>,
    /// Whether it is disabled.
    pub(crate) disabled: Sure,
    /// How often it asked without being assigned one; None where that isn't known.
    pub(crate) asks: Option<u64>,
    /// Whether it was heard asking since it was assigned an ONU-ID, and didn't answer with one since.
    pub(crate) asked: Sure,
}

/// A serial number that is followed, and what is known of it.
#[derive(Clone, Copy, Drop)]
struct IndexPlace {
    /// The serial number, as the number that its eight octets make, the first octet the highest.
    rank: u64,
    followed: Followed,
}

/// The serial numbers that are followed, in their order. Contracts see a finite map.
#[derive(Drop)]
pub(crate) struct Index {
    places: Vec<IndexPlace>,
}

impl Model for Index {
    ghost use Rattle.std.specs.FinMap as map;
    ghost use Rattle.gp_ploam.specs.Serials.{coded_serial};
    ghost use Rattle.hear_state.specs.contracts.index.Followed as followed;
    ghost use Rattle.hear_state.specs.Changes.{IsAssigned, asking_serial, disabled_serial, other_than};
    ghost use Rattle.hear_state.specs.Heard.{is_most};
    ghost use Rattle.hear_state.specs.Index.{Followeds, IsRising, index_of};

    ghost Value = { Followeds };

    ghost coded = { map.code coded_serial followed.the_row.coded };

    ghost view = { λ a. index_of a.places.items };

    ghost invariant = { λ a. IsRising a.places.items };
}

/// Where the place with this rank is, or where it would go.
fn search(places: &[IndexPlace], rank: u64) -> Result<usize, usize>
    requires { IsRising places.now }
    ensures found { IfOk result (IsPlaceOf places.now rank) }
    ensures absent { IfErr result (IsGapFor places.now rank) }
{
    let mut base = 0;
    let mut size = places.len();
    if size == 0 {
        return Err(0);
    }
    'halves: while size > 1 {
        let half = size / 2;
        let mid = base + half;
        base = if places[mid].rank <= rank { mid } else { base };
        size -= half;
    }
    let found = places[base].rank;
    if found == rank {
        Ok(base)
    } else if found < rank {
        Err(base + 1)
    } else {
        Err(base)
    }
}

/// Makes every place one that is not disabled.
fn enable_each(places: &mut [IndexPlace])
    ensures { places.new ≡ list_map enabled_place places.old }
{
    for place in places.iter_mut() {
        place.followed.disabled = Sure::No;
    }
}

/// Makes every place one that holds no ONU-ID.
fn release_each(places: &mut [IndexPlace])
    ensures { places.new ≡ list_map released_place places.old }
{
    for place in places.iter_mut() {
        place.followed.holds = Fact::Nothing;
    }
}

impl Followed {
    /// What is known of it once it is assigned this ONU-ID: one that didn't hold it has asked once less.
    pub(crate) fn assigned(self, onu: u8) -> Followed
        ensures { IsAssigned onu self result }
    {
        let asks = match (is_other(self.holds, onu), self.asks) {
            (Sure::Yes, Some(asks)) => Some(asks.saturating_sub(1)),
            (Sure::No, asks) => asks,
            _ => None,
        };
        Followed {
            holds: Fact::Is(onu),
            asks,
            asked: Sure::No,
            ..self
        }
    }

    /// The ONU-ID that it holds, if that is another than this one.
    pub(crate) fn other_than(&self, onu: u8) -> Fact<u8>
        ensures { result ≡ (let followed = self.now in other_than followed.holds onu) }
    {
        match self.holds {
            Fact::Is(held) if held == onu => Fact::Nothing,
            held => held,
        }
    }

    /// What is known of it once it is disabled.
    pub(crate) fn disabled(self) -> Followed
        ensures { result ≡ disabled_serial self }
    {
        Followed {
            holds: Fact::Nothing,
            disabled: Sure::Yes,
            ..self
        }
    }

    /// What is known of it once it is enabled.
    pub(crate) fn enabled(self) -> Followed
        ensures { result ≡ enabled self }
    {
        Followed {
            disabled: Sure::No,
            ..self
        }
    }

    /// What is known of it once it asks; None where its asks can't be counted further.
    pub(crate) fn asking(self) -> Option<Followed>
        ensures { result ≡ (if is_most self.asks then None else Some (asking_serial self)) }
    {
        let asks = match self.asks {
            None => None,
            Some(u64::MAX) => return None,
            Some(asks) => Some(asks + 1),
        };
        Some(Followed {
            asks,
            asked: Sure::Yes,
            ..self
        })
    }

    /// What is known of it once it answers with an ONU-ID: its ask was on its way when it was assigned that.
    fn answered(self) -> Followed
        ensures { result ≡ answered self }
    {
        match self.asked {
            Sure::Yes => Followed {
                asked: Sure::No,
                ..self
            },
            Sure::No | Sure::Unsure => self,
        }
    }
}

impl Index {
    /// No serial number is followed.
    pub(crate) fn new(alloc: Global) -> Index
        ensures { result ≡ map.empty }
    {
        Index {
            places: Vec::new(alloc),
        }
    }

    /// What is known of a serial number; None where it isn't followed.
    pub(crate) fn get(&self, serial: &Serial) -> Option<Followed>
        ensures { result ≡ map.get self.now serial.now }
    {
        let places = self.places.as_slice();
        match search(places, serial.number()) {
            Ok(at) => Some(places[at].followed),
            Err(_) => None,
        }
    }

    /// Notes what is known of a serial number, which is followed from now on. Fails only where it is new, and there is
    /// no memory or no room; it changes nothing then.
    pub(crate) fn put(&mut self, serial: &Serial, followed: Followed) -> Result<(), HearFault>
        ensures put { OnOk result (self.new ≡ map.insert self.old serial.now followed) }
        ensures room { OnOk result (is_full self.old serial.now ≡ false) }
        ensures same { OnErr result (self.new ≡ self.old) }
        ensures fails { IfErr result (FailsFor self.old serial.now) }
    {
        let rank = serial.number();
        let count = self.places.len();
        match search(self.places.as_slice(), rank) {
            Ok(at) => self.places[at].followed = followed,
            Err(at) => {
                if count >= MOST_FOLLOWED {
                    return Err(HearFault::Full);
                }
                if let Err(failed) = self.places.insert(at, IndexPlace { rank, followed }) {
                    return Err(AllocError::from(failed).into());
                }
            }
        }
        Ok(())
    }

    /// Notes that a serial number holds no ONU-ID, where it is followed.
    pub(crate) fn release(&mut self, serial: &Serial)
        ensures { self.new ≡ changed self.old serial.now released }
    {
        if let Ok(at) = search(self.places.as_slice(), serial.number()) {
            self.places[at].followed.holds = Fact::Nothing;
        }
    }

    /// Notes that a serial number answers with an ONU-ID, where it is followed.
    pub(crate) fn answer(&mut self, serial: &Serial)
        ensures { self.new ≡ changed self.old serial.now answered }
    {
        if let Ok(at) = search(self.places.as_slice(), serial.number()) {
            let place = &mut self.places[at];
            place.followed = place.followed.answered();
        }
    }

    /// Notes that no serial number is disabled.
    pub(crate) fn enable_all(&mut self)
        ensures { self.new ≡ map_values enabled self.old }
    {
        enable_each(&mut self.places);
    }

    /// Notes that no serial number holds an ONU-ID.
    pub(crate) fn release_all(&mut self)
        ensures { self.new ≡ map_values released self.old }
    {
        release_each(&mut self.places);
    }
}
