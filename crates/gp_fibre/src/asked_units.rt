//! The index of the units that a grant asks, as sets of their places: a grant finds them without going through all
//! units.
ghost use Rattle.std.specs.Prelude.{◌≡◌, ◌<◌, ◌≤◌, ◌==◌, ℕ, IfOk, if◌then◌else◌};
ghost use Rattle.gp_ranging.specs.declared.grant.Grant.{Grant};
ghost use Rattle.gp_numbers.specs.Least.{IsLeastFrom};
ghost use Rattle.gp_onu.specs.declared.limits.TheConstants.{MAX_SIMULATED_UNITS};
ghost use Rattle.std.specs.FinSet as set;
ghost use Rattle.gp_fibre.specs.AskedUnits.{AsksNobody, HasSet, asks, is_in_set, places_asked, with_place, without_place};

use super::asked_by::AskedBy;
use gp_numbers::NumberSet;
use gp_ranging::Grant;
use std::alloc::{AllocError, Global};
use std::marker::Model;

/// How many words of 64 places a set has: one place for each unit that there may be, and one behind them.
const WORDS: usize = 17;

/// How many values the octet of an ONU-ID has.
const ONU_IDS: usize = 256;

/// Which units each grant asks, as sets of their places, so that a grant need not go through all units. The place
/// behind the last unit stands in each set, so that no look-up goes further. After `begin` it takes no memory.
#[derive(Drop)]
pub struct AskedUnits {
    /// The units in O3, which serial number requests ask.
    searched: NumberSet<0, WORDS>,
    /// The units that have each ONU-ID.
    by_onu_id: Vec<NumberSet<0, WORDS>>,
}

impl Model for AskedUnits {
    ghost use Rattle.std.specs.Prelude.{◌≡◌, length};
    ghost use Rattle.std.specs.FinSet as set;
    ghost use Rattle.std.specs.Ordering.{nat_cmp};
    ghost use Rattle.std.specs.Coded.{codes, coded_ℕ};
    ghost use Rattle.gp_fibre.specs.AskedUnits.{AskedPlaces};

    ghost Value = { AskedPlaces };

    ghost coded = { Prim.hlevel (codes, set.code {R = nat_cmp} coded_ℕ) };

    ghost view = { λ a. record { searched = a.searched; by_onu_id = a.by_onu_id.items } };

    ghost invariant = { λ a. length a.by_onu_id.items ≡ 256 };
}

impl AskedUnits {
    /// Begins with so many units, none of which a grant asks.
    pub(super) fn begin(alloc: Global, units: u16) -> Result<AskedUnits, AllocError>
        requires { units ≤ MAX_SIMULATED_UNITS }
        ensures { IfOk result (AsksNobody units) }
    {
        let mut by_onu_id = Vec::with_capacity(alloc, ONU_IDS)?;
        for _ in 0..ONU_IDS {
            by_onu_id.push_reserved(ended_at(units));
        }
        Ok(AskedUnits {
            searched: ended_at(units),
            by_onu_id,
        })
    }

    /// Finds the first place from `from` on whose unit a grant asks, by words. Where there is none, it is the place
    /// behind the last unit, or none.
    pub(super) fn next(&self, grant: Grant, from: u16) -> Option<u16>
        ensures { IsLeastFrom (places_asked self.now grant) from result }
    {
        match grant {
            Grant::Search => self.searched.least_from(from),
            Grant::Range(onu) | Grant::Poll(onu) => {
                self.by_onu_id[usize::from(onu)].least_from(from)
            }
        }
    }

    /// Notes that from now on the unit at a place is asked by the grants `after`, where it was asked by those `before`.
    pub(super) fn change(&mut self, place: usize, before: AskedBy, after: AskedBy)
        requires place { place < MAX_SIMULATED_UNITS }
        requires before { (grant : Grant) → is_in_set self.old grant place ≡ asks before grant }
        ensures { (grant : Grant) (other : ℕ)
            → is_in_set self.new grant other
            ≡ (if other == place then asks after grant else is_in_set self.old grant other) }
    {
        if before == after {
            return;
        }
        let place = place as u16;
        self.take_out(place, before);
        self.put_in(place, after);
    }

    fn take_out(&mut self, place: u16, kind: AskedBy)
        requires { place < MAX_SIMULATED_UNITS }
        ensures value { self.new ≡ without_place self.old kind place }
        ensures set { HasSet self.old kind }
    {
        match kind {
            AskedBy::Nothing => {}
            AskedBy::Search => self.searched.remove(place),
            AskedBy::OnuId(onu) => self.by_onu_id[usize::from(onu)].remove(place),
        }
    }

    fn put_in(&mut self, place: u16, kind: AskedBy)
        requires { place < MAX_SIMULATED_UNITS }
        ensures value { self.new ≡ with_place self.old kind place }
        ensures set { HasSet self.old kind }
    {
        match kind {
            AskedBy::Nothing => {}
            AskedBy::Search => self.searched.insert(place),
            AskedBy::OnuId(onu) => self.by_onu_id[usize::from(onu)].insert(place),
        }
    }
}

/// The set of no unit: the place behind the last one ends it.
fn ended_at(units: u16) -> NumberSet<0, WORDS>
    requires { units ≤ MAX_SIMULATED_UNITS }
    ensures { result ≡ set.insert set.empty units }
{
    let mut places = NumberSet::new();
    places.insert(units);
    places
}
