//! The further Alloc-IDs of one unit, at most eight, each held or leaving: plain data, seen as a finite map.
ghost use Rattle.std.specs.Prelude.{◌≡◌, ◌<◌, ◌≤◌, IfOk, IfErr, None};
ghost use Rattle.std.specs.FinMap as map;
ghost use Rattle.gp_pools.specs.Allocs.{IsGapFor, IsPlaceOf, IsRising};
ghost use Rattle.gp_pools.specs.Slots.{AreSlots, filled, max_allocs, slots_of};

use super::place::Place;
use std::marker::Model;

/// The most further Alloc-IDs of one unit (this profile's own rule).
pub const MAX_ALLOCS: usize = 8;

/// The further Alloc-IDs of a unit, at most eight. Contracts see a finite map from Alloc-ID to whether it
/// is leaving: the unit was told to give it back, and has not yet acknowledged that.
#[derive(Clone, Copy, Debug, PartialEq, Eq)]
pub struct Allocs {
    slots: [Place; MAX_ALLOCS],
}

impl Model for Allocs {
    ghost use Rattle.std.specs.Prelude.{Bool};
    ghost use Rattle.std.proofs.Common.{ap};
    ghost use Rattle.std.specs.FinMap as map;
    ghost use Rattle.std.specs.Ordering.{nat_cmp};
    ghost use Rattle.std.specs.Coded.{coded_ℕ, coded_bool};
    ghost use Rattle.gp_pools.specs.Allocs.{allocs_of};
    ghost use Rattle.gp_pools.specs.Slots.{AreSlots, filled, slots_of};
    ghost use Rattle.gp_pools.specs.SameSlots.{same_slots};

    ghost Value = { map.FinMap nat_cmp Bool };

    ghost coded = { map.code coded_ℕ coded_bool };

    ghost view = { λ a. allocs_of (filled a.slots) };

    ghost invariant = { λ a. AreSlots a.slots };

    ghost inverse = { λ m. record { slots = slots_of (map.entries m) } };

    ghost inverse_ok = { λ a h. ap (λ xs. record { slots = xs }) (same_slots a.slots h) };
}

/// Finds the place of the Alloc-ID, or where it would go.
fn search(slots: &[Place; MAX_ALLOCS], alloc: u16) -> Result<usize, usize>
    requires { AreSlots slots.now }
    ensures found { IfOk result (IsPlaceOf (filled slots.now) alloc) }
    ensures absent { IfErr result (IsGapFor (filled slots.now) alloc) }
{
    for place in 0..MAX_ALLOCS {
        match slots[place].get() {
            Some((number, _)) if number < alloc => {}
            Some((number, _)) if number == alloc => return Ok(place),
            _ => return Err(place),
        }
    }
    Err(MAX_ALLOCS)
}

impl Allocs {
    /// Makes a map without Alloc-IDs.
    pub fn new() -> Allocs
        ensures { result ≡ map.empty }
    {
        Allocs {
            slots: [Place::EMPTY; MAX_ALLOCS],
        }
    }

    /// Counts the Alloc-IDs, 0 to 8.
    pub fn len(&self) -> usize
        ensures len { result ≡ map.len self.now }
        ensures few { result ≤ max_allocs }
    {
        for place in 0..MAX_ALLOCS {
            if self.slots[place].get().is_none() {
                return place;
            }
        }
        MAX_ALLOCS
    }

    /// Tells whether this Alloc-ID is leaving, if it is here.
    pub fn get(&self, alloc: u16) -> Option<bool>
        ensures { result ≡ map.get self.now alloc }
    {
        let Ok(place) = search(&self.slots, alloc) else {
            return None;
        };
        let (_, leaving) = self.slots[place].get()?;
        Some(leaving)
    }

    /// Puts in an Alloc-ID, leaving or not; one that is here already becomes so.
    pub fn insert(&mut self, alloc: u16, leaving: bool)
        requires room { map.get self.old alloc ≡ None → map.len self.old < max_allocs }
        ensures { self.new ≡ map.insert self.old alloc leaving }
    {
        self.remove(alloc);
        self.add(alloc, leaving);
    }

    /// Puts in an Alloc-ID that is not here yet.
    fn add(&mut self, alloc: u16, leaving: bool)
        requires room { map.len self.old < max_allocs }
        requires new { map.get self.old alloc ≡ None }
        ensures { self.new ≡ map.insert self.old alloc leaving }
    {
        match search(&self.slots, alloc) {
            Ok(_) => unreachable!(),
            Err(place) => {
                let slots = &mut self.slots[..];
                slots[place..].rotate_right(1);
                self.slots[place] = Place::with(alloc, leaving);
            }
        }
    }

    /// Takes out an Alloc-ID, where it is here.
    pub fn remove(&mut self, alloc: u16)
        ensures rest { self.new ≡ map.remove self.old alloc }
        ensures few { map.len self.old ≤ max_allocs }
    {
        if let Ok(place) = search(&self.slots, alloc) {
            let slots = &mut self.slots[..];
            slots[place..].rotate_left(1);
            self.slots[MAX_ALLOCS - 1] = Place::EMPTY;
        }
    }

    /// Tells the Alloc-IDs in rising order, each with whether it is leaving; None after the last.
    pub fn slots(&self) -> [Option<(u16, bool)>; 8]
        ensures slots { result ≡ slots_of (map.entries self.now) }
        ensures entries { filled result ≡ map.entries self.now }
        ensures rising { IsRising (filled result) }
    {
        let mut shown = [None; MAX_ALLOCS];
        for place in 0..MAX_ALLOCS {
            shown[place] = self.slots[place].get();
        }
        shown
    }
}
